//! A keeper over bodies.
ghost use Rattle.std.specs.Prelude.{◌≡◌, ◌+◌, ◌≤◌, ℕ, true, false, None, Some, IsSome, IfOk, OnOk, OnErr, refl};
ghost use Rattle.ur_base.specs.Counts.{HasCause, next_count};
ghost use Rattle.ur_base.specs.Told.{WhereTold, Becomes};
ghost use Rattle.ur_keeper.specs.Tables.{HasNextNumber, HasNextDraw, HasRowAt, MayCommit, AreRowsOf, inserted, replaced, removed, drawn, table_at, sequence_at};
ghost use Rattle.ur_keeper.specs.Keeper.{HasTable, HasSequence, OfShape, OfSchema, IsRowOf, IsUndone, IsWithin, Attaches, AttachesTo, IsReadyOnly};
ghost use Rattle.ur_keeper_kept.specs.Kept.{no_changes, kept_of, saved_of, current_of};
ghost use Rattle.ur_keeper_kept.specs.Faults.{Finds, HasLowNumbers, IsFaultyStore};

use crate::attach::attach_to;
use crate::pending::Pending;
use crate::stock::Stock;
use crate::work::{draw, insert_row, remove_row, replace_row, scan_rows};
use std::alloc::Global;
use std::marker::Model;
use ur_base::List;
use ur_keeper::{Attached, Keeper, KeeperEnd};
use ur_keeper_bodies::Bodies;
use ur_values::{Numbered, Row, Schema};

/// Tables kept in a map of bodies. The changes of a transaction stand in a list until it is committed.
#[derive(Drop)]
pub struct Kept<B: Bodies> {
    alloc: Global,
    stock: Stock<B>,
    schema: Option<Schema>,
    under_way: bool,
    pending: Pending,
    reads: u64,
}

impl<B: Bodies> Model for Kept<B> {
    ghost use Rattle.ur_keeper_kept.specs.Kept.{KeptState, kept_code, IsWell};

    ghost Value = { KeptState B };

    ghost coded = { kept_code B.code };

    ghost view = { λ k. record {
      bodies = k.stock.bodies;
      schema = k.schema;
      under_way = k.under_way;
      pending = k.pending;
      reads = k.reads;
      found = k.stock.found;
    } };

    ghost invariant = { λ k. IsWell (B.bodies k.stock.bodies) (B.opened k.stock.bodies) k.schema k.under_way k.pending };
}

impl<B: Bodies + Drop> Kept<B> {
    /// No schema is kept yet. Takes no memory.
    pub fn new(alloc: Global, bodies: B) -> Kept<B>
        ensures { result ≡ record { bodies = bodies; schema = None; under_way = false; pending = no_changes; reads = 0; found = 0 } }
    {
        Kept {
            alloc,
            stock: Stock { bodies, found: 0 },
            schema: None,
            under_way: false,
            pending: Pending::new(alloc),
            reads: 0,
        }
    }

    /// The number of scans.
    pub fn reads(&self) -> u64
        ensures { result ≡ self.now.reads }
    {
        self.reads
    }

    /// The bodies, without the changes of a transaction that is under way.
    pub fn into_bodies(self) -> B
        ensures { result ≡ self.bodies }
    {
        self.stock.bodies
    }
}

/// The schema that is kept.
fn known(schema: &Option<Schema>) -> &Schema
    requires { IsSome schema.now }
    ensures { schema.now ≡ Some result.now }
{
    match schema {
        Some(known) => known,
        None => unreachable!(),
    }
}

/// No changes, and no transaction under way. Takes no memory.
fn give_up(alloc: Global, pending: &mut Pending, under_way: &mut bool)
    ensures changes { pending.new ≡ no_changes }
    ensures ended { under_way.new ≡ false }
{
    *pending = Pending::new(alloc);
    *under_way = false;
}

impl<B: Bodies + Drop> Keeper for Kept<B> {
    ghost current = { λ k. current_of B.tells_at_first B.bodies k };

    ghost saved = { λ k. saved_of B.tells_at_first B.bodies k };

    ghost kept = { λ k. kept_of B.tells_at_first B.bodies k };

    ghost under_way = { λ k. k.under_way };

    ghost reads = { λ k. k.reads };

    ghost faults = { λ k. B.faults k.bodies + k.found };

    ghost commits_in_room = { false };

    ghost at_rest = { λ k rest. Prim.rw rest refl };

    /// A fault of the bodies is answered, and one that is found in what they hold.
    fn attach(&mut self, schema: &Schema) -> Result<Attached, KeeperEnd>
        requires { self.old.under_way ≡ false }
        ensures told { IfOk result (λ answer. AttachesTo schema.now (kept_of B.tells_at_first B.bodies self.old) answer (saved_of B.tells_at_first B.bodies self.old) (saved_of B.tells_at_first B.bodies self.new)) }
        ensures every_form { IfOk result (λ answer. Attaches schema.now answer (saved_of B.tells_at_first B.bodies self.old) (saved_of B.tells_at_first B.bodies self.new) (kept_of B.tells_at_first B.bodies self.old) (kept_of B.tells_at_first B.bodies self.new)) }
        ensures sound { IfOk result (λ answer. IsReadyOnly schema.now answer (saved_of B.tells_at_first B.bodies self.new)) }
        ensures at_rest { OnOk result ((self.new.under_way ≡ false) × (current_of B.tells_at_first B.bodies self.new ≡ saved_of B.tells_at_first B.bodies self.new)) }
        ensures undone { OnErr result (IsUndone (saved_of B.tells_at_first B.bodies self.old) (saved_of B.tells_at_first B.bodies self.new) (current_of B.tells_at_first B.bodies self.new) (kept_of B.tells_at_first B.bodies self.old) (kept_of B.tells_at_first B.bodies self.new) self.new.under_way) }
        ensures reads { self.new.reads ≡ self.old.reads }
        ensures cause { HasCause KeeperEnd.Failed (B.faults self.old.bodies + self.old.found) (B.faults self.new.bodies + self.new.found) result }
        ensures found { Finds result self.old.found self.new.found (B.bodies self.new.bodies) (IsFaultyStore schema.now) }
    {
        attach_to(self.alloc, &mut self.stock, &mut self.schema, schema)
    }

    fn begin(&mut self)
        requires { self.old.under_way ≡ false }
        ensures current { current_of B.tells_at_first B.bodies self.new ≡ saved_of B.tells_at_first B.bodies self.old }
        ensures within { IsWithin (saved_of B.tells_at_first B.bodies self.old) (saved_of B.tells_at_first B.bodies self.new) (kept_of B.tells_at_first B.bodies self.old) (kept_of B.tells_at_first B.bodies self.new) self.new.under_way }
        ensures reads { self.new.reads ≡ self.old.reads }
        ensures faults { (B.faults self.old.bodies + self.old.found) ≤ (B.faults self.new.bodies + self.new.found) }
        ensures found { self.new.found ≡ self.old.found }
    {
        self.under_way = true;
    }

    /// A fault that is found in a table that is told is a row with the greatest number.
    fn scan(&mut self, table: u32) -> Result<List<Numbered>, KeeperEnd>
        requires under_way { self.old.under_way ≡ true }
        requires table { HasTable (kept_of B.tells_at_first B.bodies self.old) table }
        ensures rows { IfOk result (λ rows. WhereTold (current_of B.tells_at_first B.bodies self.old) (λ t. rows ≡ table_at t table)) }
        ensures every_form { IfOk result (λ rows. OfShape (kept_of B.tells_at_first B.bodies self.old) table (λ shape. AreRowsOf shape rows)) }
        ensures current { OnOk result (current_of B.tells_at_first B.bodies self.new ≡ current_of B.tells_at_first B.bodies self.old) }
        ensures within { OnOk result (IsWithin (saved_of B.tells_at_first B.bodies self.old) (saved_of B.tells_at_first B.bodies self.new) (kept_of B.tells_at_first B.bodies self.old) (kept_of B.tells_at_first B.bodies self.new) self.new.under_way) }
        ensures undone { OnErr result (IsUndone (saved_of B.tells_at_first B.bodies self.old) (saved_of B.tells_at_first B.bodies self.new) (current_of B.tells_at_first B.bodies self.new) (kept_of B.tells_at_first B.bodies self.old) (kept_of B.tells_at_first B.bodies self.new) self.new.under_way) }
        ensures reads { self.new.reads ≡ next_count self.old.reads }
        ensures cause { HasCause KeeperEnd.Failed (B.faults self.old.bodies + self.old.found) (B.faults self.new.bodies + self.new.found) result }
        ensures found { Finds result self.old.found self.new.found (current_of B.tells_at_first B.bodies self.old) (λ t. HasLowNumbers (table_at t table) → ⊥) }
    {
        self.reads = self.reads.saturating_add(1);
        let schema = known(&self.schema);
        match scan_rows(
            self.alloc,
            &mut self.stock,
            schema,
            table,
            &mut self.pending,
        ) {
            Ok(rows) => Ok(rows),
            Err(end) => {
                give_up(self.alloc, &mut self.pending, &mut self.under_way);
                Err(end)
            }
        }
    }

    /// Finds no fault in bodies that are told.
    fn insert(&mut self, table: u32, row: &Row) -> Result<(), KeeperEnd>
        requires under_way { self.old.under_way ≡ true }
        requires table { HasTable (kept_of B.tells_at_first B.bodies self.old) table }
        requires row { IsRowOf (kept_of B.tells_at_first B.bodies self.old) table row.now }
        requires room { WhereTold (current_of B.tells_at_first B.bodies self.old) (HasNextNumber table) }
        ensures current { OnOk result (Becomes (inserted table row.now) (current_of B.tells_at_first B.bodies self.old) (current_of B.tells_at_first B.bodies self.new)) }
        ensures within { OnOk result (IsWithin (saved_of B.tells_at_first B.bodies self.old) (saved_of B.tells_at_first B.bodies self.new) (kept_of B.tells_at_first B.bodies self.old) (kept_of B.tells_at_first B.bodies self.new) self.new.under_way) }
        ensures undone { OnErr result (IsUndone (saved_of B.tells_at_first B.bodies self.old) (saved_of B.tells_at_first B.bodies self.new) (current_of B.tells_at_first B.bodies self.new) (kept_of B.tells_at_first B.bodies self.old) (kept_of B.tells_at_first B.bodies self.new) self.new.under_way) }
        ensures reads { self.new.reads ≡ self.old.reads }
        ensures cause { HasCause KeeperEnd.Failed (B.faults self.old.bodies + self.old.found) (B.faults self.new.bodies + self.new.found) result }
        ensures found { Finds result self.old.found self.new.found (B.bodies self.old.bodies) (λ m. ⊥) }
    {
        let schema = known(&self.schema);
        match insert_row(
            self.alloc,
            &mut self.stock,
            schema,
            table,
            row,
            &mut self.pending,
        ) {
            Ok(()) => Ok(()),
            Err(end) => {
                give_up(self.alloc, &mut self.pending, &mut self.under_way);
                Err(end)
            }
        }
    }

    /// Finds no fault in bodies that are told.
    fn replace(&mut self, table: u32, number: u64, row: &Row) -> Result<(), KeeperEnd>
        requires under_way { self.old.under_way ≡ true }
        requires table { HasTable (kept_of B.tells_at_first B.bodies self.old) table }
        requires row { IsRowOf (kept_of B.tells_at_first B.bodies self.old) table row.now }
        requires there { WhereTold (current_of B.tells_at_first B.bodies self.old) (HasRowAt table number) }
        ensures current { OnOk result (Becomes (replaced table number row.now) (current_of B.tells_at_first B.bodies self.old) (current_of B.tells_at_first B.bodies self.new)) }
        ensures within { OnOk result (IsWithin (saved_of B.tells_at_first B.bodies self.old) (saved_of B.tells_at_first B.bodies self.new) (kept_of B.tells_at_first B.bodies self.old) (kept_of B.tells_at_first B.bodies self.new) self.new.under_way) }
        ensures undone { OnErr result (IsUndone (saved_of B.tells_at_first B.bodies self.old) (saved_of B.tells_at_first B.bodies self.new) (current_of B.tells_at_first B.bodies self.new) (kept_of B.tells_at_first B.bodies self.old) (kept_of B.tells_at_first B.bodies self.new) self.new.under_way) }
        ensures reads { self.new.reads ≡ self.old.reads }
        ensures cause { HasCause KeeperEnd.Failed (B.faults self.old.bodies + self.old.found) (B.faults self.new.bodies + self.new.found) result }
        ensures found { Finds result self.old.found self.new.found (B.bodies self.old.bodies) (λ m. ⊥) }
    {
        let schema = known(&self.schema);
        match replace_row(
            self.alloc,
            &mut self.stock,
            schema,
            table,
            number,
            row,
            &mut self.pending,
        ) {
            Ok(()) => Ok(()),
            Err(end) => {
                give_up(self.alloc, &mut self.pending, &mut self.under_way);
                Err(end)
            }
        }
    }

    /// Finds no fault in bodies that are told.
    fn remove(&mut self, table: u32, number: u64) -> Result<(), KeeperEnd>
        requires under_way { self.old.under_way ≡ true }
        requires table { HasTable (kept_of B.tells_at_first B.bodies self.old) table }
        requires there { WhereTold (current_of B.tells_at_first B.bodies self.old) (HasRowAt table number) }
        ensures current { OnOk result (Becomes (removed table number) (current_of B.tells_at_first B.bodies self.old) (current_of B.tells_at_first B.bodies self.new)) }
        ensures within { OnOk result (IsWithin (saved_of B.tells_at_first B.bodies self.old) (saved_of B.tells_at_first B.bodies self.new) (kept_of B.tells_at_first B.bodies self.old) (kept_of B.tells_at_first B.bodies self.new) self.new.under_way) }
        ensures undone { OnErr result (IsUndone (saved_of B.tells_at_first B.bodies self.old) (saved_of B.tells_at_first B.bodies self.new) (current_of B.tells_at_first B.bodies self.new) (kept_of B.tells_at_first B.bodies self.old) (kept_of B.tells_at_first B.bodies self.new) self.new.under_way) }
        ensures reads { self.new.reads ≡ self.old.reads }
        ensures cause { HasCause KeeperEnd.Failed (B.faults self.old.bodies + self.old.found) (B.faults self.new.bodies + self.new.found) result }
        ensures found { Finds result self.old.found self.new.found (B.bodies self.old.bodies) (λ m. ⊥) }
    {
        let schema = known(&self.schema);
        match remove_row(&mut self.stock, schema, table, number, &mut self.pending) {
            Ok(()) => Ok(()),
            Err(end) => {
                give_up(self.alloc, &mut self.pending, &mut self.under_way);
                Err(end)
            }
        }
    }

    /// Finds no fault in bodies that are told.
    fn next_number(&mut self, sequence: u32) -> Result<i64, KeeperEnd>
        requires under_way { self.old.under_way ≡ true }
        requires sequence { HasSequence (kept_of B.tells_at_first B.bodies self.old) sequence }
        requires room { WhereTold (current_of B.tells_at_first B.bodies self.old) (HasNextDraw sequence) }
        ensures number { IfOk result (λ n. WhereTold (current_of B.tells_at_first B.bodies self.old) (λ t. n ≡ sequence_at t sequence)) }
        ensures current { OnOk result (Becomes (drawn sequence) (current_of B.tells_at_first B.bodies self.old) (current_of B.tells_at_first B.bodies self.new)) }
        ensures within { OnOk result (IsWithin (saved_of B.tells_at_first B.bodies self.old) (saved_of B.tells_at_first B.bodies self.new) (kept_of B.tells_at_first B.bodies self.old) (kept_of B.tells_at_first B.bodies self.new) self.new.under_way) }
        ensures undone { OnErr result (IsUndone (saved_of B.tells_at_first B.bodies self.old) (saved_of B.tells_at_first B.bodies self.new) (current_of B.tells_at_first B.bodies self.new) (kept_of B.tells_at_first B.bodies self.old) (kept_of B.tells_at_first B.bodies self.new) self.new.under_way) }
        ensures reads { self.new.reads ≡ self.old.reads }
        ensures cause { HasCause KeeperEnd.Failed (B.faults self.old.bodies + self.old.found) (B.faults self.new.bodies + self.new.found) result }
        ensures found { Finds result self.old.found self.new.found (B.bodies self.old.bodies) (λ m. ⊥) }
    {
        let schema = known(&self.schema);
        match draw(
            self.alloc,
            &mut self.stock,
            schema,
            sequence,
            &mut self.pending,
        ) {
            Ok(number) => Ok(number),
            Err(end) => {
                give_up(self.alloc, &mut self.pending, &mut self.under_way);
                Err(end)
            }
        }
    }

    /// Finds no fault.
    fn commit(&mut self) -> Result<(), KeeperEnd>
        requires under_way { self.old.under_way ≡ true }
        requires keys { OfSchema (kept_of B.tells_at_first B.bodies self.old) (current_of B.tells_at_first B.bodies self.old) MayCommit }
        ensures saved { OnOk result ((saved_of B.tells_at_first B.bodies self.new ≡ current_of B.tells_at_first B.bodies self.old) × (current_of B.tells_at_first B.bodies self.new ≡ current_of B.tells_at_first B.bodies self.old)) }
        ensures ended { OnOk result ((self.new.under_way ≡ false) × (kept_of B.tells_at_first B.bodies self.new ≡ kept_of B.tells_at_first B.bodies self.old)) }
        ensures undone { OnErr result (IsUndone (saved_of B.tells_at_first B.bodies self.old) (saved_of B.tells_at_first B.bodies self.new) (current_of B.tells_at_first B.bodies self.new) (kept_of B.tells_at_first B.bodies self.old) (kept_of B.tells_at_first B.bodies self.new) self.new.under_way) }
        ensures reads { self.new.reads ≡ self.old.reads }
        ensures cause { HasCause KeeperEnd.Failed (B.faults self.old.bodies + self.old.found) (B.faults self.new.bodies + self.new.found) result }
        ensures found { self.new.found ≡ self.old.found }
    {
        match self.stock.save(self.pending.changes.as_slice()) {
            Ok(()) => {
                give_up(self.alloc, &mut self.pending, &mut self.under_way);
                Ok(())
            }
            Err(end) => {
                give_up(self.alloc, &mut self.pending, &mut self.under_way);
                Err(end)
            }
        }
    }

    /// Finds no fault.
    fn rollback(&mut self)
        requires { self.old.under_way ≡ true }
        ensures undone { IsUndone (saved_of B.tells_at_first B.bodies self.old) (saved_of B.tells_at_first B.bodies self.new) (current_of B.tells_at_first B.bodies self.new) (kept_of B.tells_at_first B.bodies self.old) (kept_of B.tells_at_first B.bodies self.new) self.new.under_way }
        ensures reads { self.new.reads ≡ self.old.reads }
        ensures faults { (B.faults self.old.bodies + self.old.found) ≤ (B.faults self.new.bodies + self.new.found) }
        ensures found { self.new.found ≡ self.old.found }
    {
        give_up(self.alloc, &mut self.pending, &mut self.under_way);
    }
}
