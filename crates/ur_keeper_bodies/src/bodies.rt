//! The trait of what a keeper writes to: bodies by a table's number and a row's number.
ghost use Rattle.std.specs.Prelude.{◌≡◌, ℕ, Bool, true, Option, IsSome, IfOk, OnOk, OnErr};
ghost use Rattle.ur_base.specs.Counts.{HasCause};
ghost use Rattle.ur_base.specs.Told.{WhereTold, Becomes};
ghost use Rattle.ur_keeper_bodies.specs.Bodies.{BodyMap, IsOpened, body_at, bodies_of, written, CanWrite};

use ur_base::{Bytes, List};
use ur_keeper::KeeperEnd;

/// A new body, another one in the place of one that is there, or none in its place. The numbers are the table's and the
/// row's.
#[derive(Drop)]
pub enum BodyChange {
    Add(i64, i64, Bytes),
    Put(i64, i64, Bytes),
    Drop(i64, i64),
}

/// A map from two numbers to a body. It tells what it holds or does not, and clauses on content hold where it is told.
pub trait Bodies {
    /// The map, where it is told.
    ghost bodies: { Self → Option BodyMap };

    /// Whether an `open` has answered Ok.
    ghost opened: { Self → Bool };

    /// How often it has failed.
    ghost faults: { Self → ℕ };

    /// Whether the map is told from the start on, and not only once it is open. No call changes this.
    ghost tells_at_first: { Self → Bool };

    /// Opens the map, which stays as it is. A second call changes nothing.
    fn open(&mut self) -> Result<(), KeeperEnd>
        ensures opened { OnOk result (opened self.new ≡ true) }
        ensures told { WhereTold (bodies self.old) (λ m. bodies self.new ≡ bodies self.old) }
        ensures again { opened self.old ≡ true → (bodies self.new ≡ bodies self.old) × (opened self.new ≡ true) }
        ensures err { OnErr result ((bodies self.new ≡ bodies self.old) × (opened self.new ≡ opened self.old)) }
        ensures first { tells_at_first self.new ≡ tells_at_first self.old }
        ensures cause { HasCause KeeperEnd.Failed (faults self.old) (faults self.new) result };

    /// The bodies of a table, by rising number.
    fn read(&mut self, tab: i64) -> Result<List<(i64, Bytes)>, KeeperEnd>
        requires { opened self.old ≡ true }
        ensures bodies { IfOk result (λ found. WhereTold (bodies self.old) (λ m. found ≡ bodies_of m tab)) }
        ensures same { IsOpened (bodies self.old) (bodies self.new) (opened self.new) }
        ensures first { tells_at_first self.new ≡ tells_at_first self.old }
        ensures cause { HasCause KeeperEnd.Failed (faults self.old) (faults self.new) result };

    /// One body, or None where there is none.
    fn one(&mut self, tab: i64, num: i64) -> Result<Option<Bytes>, KeeperEnd>
        requires { opened self.old ≡ true }
        ensures body { IfOk result (λ found. WhereTold (bodies self.old) (λ m. found ≡ body_at m tab num)) }
        ensures same { IsOpened (bodies self.old) (bodies self.new) (opened self.new) }
        ensures first { tells_at_first self.new ≡ tells_at_first self.old }
        ensures cause { HasCause KeeperEnd.Failed (faults self.old) (faults self.new) result };

    /// Makes the changes in order, all of them or none.
    fn write(&mut self, changes: &[BodyChange]) -> Result<(), KeeperEnd>
        requires opened { opened self.old ≡ true }
        requires each { WhereTold (bodies self.old) (λ m. CanWrite m changes.now) }
        ensures written { OnOk result (Becomes (λ m. written m changes.now) (bodies self.old) (bodies self.new)) }
        ensures same { OnErr result (bodies self.new ≡ bodies self.old) }
        ensures stays_open { opened self.new ≡ true }
        ensures first { tells_at_first self.new ≡ tells_at_first self.old }
        ensures cause { HasCause KeeperEnd.Failed (faults self.old) (faults self.new) result };

    /// A map that is told at first is told.
    ghost is_told: { (b : Self) → tells_at_first b ≡ true → IsSome (bodies b) };
}
