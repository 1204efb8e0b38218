//! The trait of a keeper of tables.
ghost use Rattle.std.specs.Prelude.{◌≡◌, ℕ, ◌≤◌, ℤ, Bool, true, false, IsTrue, IsFalse, Option, IfOk, OnOk, OnErr, IsErrOf};
ghost use Rattle.ur_keeper.specs.Tables.{Tables, KeptSchema, HasNextNumber, HasNextDraw, HasRowAt, MayCommit, AreRowsOf, inserted, replaced, removed};
ghost use Rattle.ur_keeper.specs.Tables.{drawn, table_at, sequence_at};
ghost use Rattle.ur_base.specs.Counts.{HasCause, next_count};
ghost use Rattle.ur_base.specs.Told.{WhereTold, Becomes};
ghost use Rattle.ur_keeper.specs.Keeper.{HasTable, HasSequence, OfShape, OfSchema, IsRowOf, IsUndone, IsWithin, Attaches, AttachesTo, IsReadyOnly};

use ur_base::{List, Memory};
use ur_values::{Numbered, Row, Schema};

/// Why a call of a keeper gave up.
#[derive(Clone, Copy, Debug, PartialEq, Eq)]
pub enum KeeperEnd {
    Failed,
    Memory,
}

impl From<Memory> for KeeperEnd {
    ghost use Rattle.std.specs.Prelude.{◌≡◌};
    ghost use Rattle.ur_keeper.specs.declared.keeper.KeeperEnd.TheVariants as ends;

    ghost from_gives = { λ _ end. end ≡ ends.Memory };

    fn from(_: Memory) -> KeeperEnd {
        KeeperEnd::Memory
    }
}

/// Whether the store has the schema that it was given, or which other one it keeps.
#[derive(Drop)]
pub enum Attached {
    Ready,
    Differs(Schema),
}

/// Tables and sequences that change in transactions. A keeper tells what it holds or does not, and clauses on
/// content hold where it is told.
pub trait Keeper {
    /// The tables as the transaction under way sees them, where they are told.
    ghost current: { Self → Option Tables };

    /// The tables as they were saved last, where they are told.
    ghost saved: { Self → Option Tables };

    /// The kept schema: not told, none yet, or a schema. From an `attach` that answered Ready on it is told.
    ghost kept: { Self → KeptSchema };

    /// Whether a transaction is under way.
    ghost under_way: { Self → Bool };

    /// The number of scans that were answered or failed.
    ghost reads: { Self → ℕ };

    /// How often the keeper has failed.
    ghost faults: { Self → ℕ };

    /// Whether a commit takes no memory.
    ghost commits_in_room: { Bool };

    /// Takes the store for this schema: an empty one keeps it, and so does one whose schema this one extends, where each row has Absent
    /// in each new column. An equal schema extends itself, so that nothing changes.
    fn attach(&mut self, schema: &Schema) -> Result<Attached, KeeperEnd>
        requires { under_way self.old ≡ false }
        ensures told { IfOk result (λ answer. AttachesTo schema.now (kept self.old) answer (saved self.old) (saved self.new)) }
        ensures every_form { IfOk result (λ answer. Attaches schema.now answer (saved self.old) (saved self.new) (kept self.old) (kept self.new)) }
        ensures sound { IfOk result (λ answer. IsReadyOnly schema.now answer (saved self.new)) }
        ensures at_rest { OnOk result ((under_way self.new ≡ false) × (current self.new ≡ saved self.new)) }
        ensures undone { OnErr result (IsUndone (saved self.old) (saved self.new) (current self.new) (kept self.old) (kept self.new) (under_way self.new)) }
        ensures reads { reads self.new ≡ reads self.old }
        ensures cause { HasCause KeeperEnd.Failed (faults self.old) (faults self.new) result };

    /// Starts a transaction on the saved tables.
    fn begin(&mut self)
        requires { under_way self.old ≡ false }
        ensures current { current self.new ≡ saved self.old }
        ensures within { IsWithin (saved self.old) (saved self.new) (kept self.old) (kept self.new) (under_way self.new) }
        ensures reads { reads self.new ≡ reads self.old }
        ensures faults { faults self.old ≤ faults self.new };

    /// The current rows of a table, in order of insertion.
    fn scan(&mut self, table: u32) -> Result<List<Numbered>, KeeperEnd>
        requires under_way { under_way self.old ≡ true }
        requires table { HasTable (kept self.old) table }
        ensures rows { IfOk result (λ rows. WhereTold (current self.old) (λ t. rows ≡ table_at t table)) }
        ensures every_form { IfOk result (λ rows. OfShape (kept self.old) table (λ shape. AreRowsOf shape rows)) }
        ensures current { OnOk result (current self.new ≡ current self.old) }
        ensures within { OnOk result (IsWithin (saved self.old) (saved self.new) (kept self.old) (kept self.new) (under_way self.new)) }
        ensures undone { OnErr result (IsUndone (saved self.old) (saved self.new) (current self.new) (kept self.old) (kept self.new) (under_way self.new)) }
        ensures reads { reads self.new ≡ next_count (reads self.old) }
        ensures cause { HasCause KeeperEnd.Failed (faults self.old) (faults self.new) result };

    /// Adds a row last, with the next number.
    fn insert(&mut self, table: u32, row: &Row) -> Result<(), KeeperEnd>
        requires under_way { under_way self.old ≡ true }
        requires table { HasTable (kept self.old) table }
        requires row { IsRowOf (kept self.old) table row.now }
        requires room { WhereTold (current self.old) (HasNextNumber table) }
        ensures current { OnOk result (Becomes (inserted table row.now) (current self.old) (current self.new)) }
        ensures within { OnOk result (IsWithin (saved self.old) (saved self.new) (kept self.old) (kept self.new) (under_way self.new)) }
        ensures undone { OnErr result (IsUndone (saved self.old) (saved self.new) (current self.new) (kept self.old) (kept self.new) (under_way self.new)) }
        ensures reads { reads self.new ≡ reads self.old }
        ensures cause { HasCause KeeperEnd.Failed (faults self.old) (faults self.new) result };

    /// Puts a row in the place of the one with this number.
    fn replace(&mut self, table: u32, number: u64, row: &Row) -> Result<(), KeeperEnd>
        requires under_way { under_way self.old ≡ true }
        requires table { HasTable (kept self.old) table }
        requires row { IsRowOf (kept self.old) table row.now }
        requires there { WhereTold (current self.old) (HasRowAt table number) }
        ensures current { OnOk result (Becomes (replaced table number row.now) (current self.old) (current self.new)) }
        ensures within { OnOk result (IsWithin (saved self.old) (saved self.new) (kept self.old) (kept self.new) (under_way self.new)) }
        ensures undone { OnErr result (IsUndone (saved self.old) (saved self.new) (current self.new) (kept self.old) (kept self.new) (under_way self.new)) }
        ensures reads { reads self.new ≡ reads self.old }
        ensures cause { HasCause KeeperEnd.Failed (faults self.old) (faults self.new) result };

    /// Removes the row with this number.
    fn remove(&mut self, table: u32, number: u64) -> Result<(), KeeperEnd>
        requires under_way { under_way self.old ≡ true }
        requires table { HasTable (kept self.old) table }
        requires there { WhereTold (current self.old) (HasRowAt table number) }
        ensures current { OnOk result (Becomes (removed table number) (current self.old) (current self.new)) }
        ensures within { OnOk result (IsWithin (saved self.old) (saved self.new) (kept self.old) (kept self.new) (under_way self.new)) }
        ensures undone { OnErr result (IsUndone (saved self.old) (saved self.new) (current self.new) (kept self.old) (kept self.new) (under_way self.new)) }
        ensures reads { reads self.new ≡ reads self.old }
        ensures cause { HasCause KeeperEnd.Failed (faults self.old) (faults self.new) result };

    /// The next number of a sequence, which then rises by one.
    fn next_number(&mut self, sequence: u32) -> Result<i64, KeeperEnd>
        requires under_way { under_way self.old ≡ true }
        requires sequence { HasSequence (kept self.old) sequence }
        requires room { WhereTold (current self.old) (HasNextDraw sequence) }
        ensures number { IfOk result (λ n. WhereTold (current self.old) (λ t. n ≡ sequence_at t sequence)) }
        ensures current { OnOk result (Becomes (drawn sequence) (current self.old) (current self.new)) }
        ensures within { OnOk result (IsWithin (saved self.old) (saved self.new) (kept self.old) (kept self.new) (under_way self.new)) }
        ensures undone { OnErr result (IsUndone (saved self.old) (saved self.new) (current self.new) (kept self.old) (kept self.new) (under_way self.new)) }
        ensures reads { reads self.new ≡ reads self.old }
        ensures cause { HasCause KeeperEnd.Failed (faults self.old) (faults self.new) result };

    /// Saves the current tables and ends the transaction.
    fn commit(&mut self) -> Result<(), KeeperEnd>
        requires under_way { under_way self.old ≡ true }
        requires keys { OfSchema (kept self.old) (current self.old) MayCommit }
        ensures saved { OnOk result ((saved self.new ≡ current self.old) × (current self.new ≡ current self.old)) }
        ensures ended { OnOk result ((under_way self.new ≡ false) × (kept self.new ≡ kept self.old)) }
        ensures in_room { commits_in_room ≡ true → IsErrOf result KeeperEnd.Memory → ⊥ }
        ensures undone { OnErr result (IsUndone (saved self.old) (saved self.new) (current self.new) (kept self.old) (kept self.new) (under_way self.new)) }
        ensures reads { reads self.new ≡ reads self.old }
        ensures cause { HasCause KeeperEnd.Failed (faults self.old) (faults self.new) result };

    /// Gives up the current tables for the saved ones and ends the transaction.
    fn rollback(&mut self)
        requires { under_way self.old ≡ true }
        ensures undone { IsUndone (saved self.old) (saved self.new) (current self.new) (kept self.old) (kept self.new) (under_way self.new) }
        ensures reads { reads self.new ≡ reads self.old }
        ensures faults { faults self.old ≤ faults self.new };

    /// While no transaction is under way the current tables are the saved ones.
    ghost at_rest: { (k : Self) → under_way k ≡ false → current k ≡ saved k };
}
