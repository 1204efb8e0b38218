//! Bodies with a count of the faults that were found in them.
ghost use Rattle.std.specs.Prelude.{◌≡◌, ◌≢◌, [], ◌+◌, ◌≤◌, true, IfOk, OnOk, OnErr};
ghost use Rattle.ur_base.specs.Counts.{HasCause, Rose};
ghost use Rattle.ur_base.specs.Told.{WhereTold, Becomes};
ghost use Rattle.ur_keeper_bodies.specs.Bodies.{IsOpened, body_at, bodies_of, written, CanWrite};

use ur_base::{Bytes, List};
use ur_keeper::KeeperEnd;
use ur_keeper_bodies::{Bodies, BodyChange};

/// Bodies, and how often a fault was found in what they hold.
#[derive(Drop)]
pub(crate) struct Stock<B> {
    pub(crate) bodies: B,
    pub(crate) found: u64,
}

impl<B: Bodies> Stock<B> {
    /// Counts a fault.
    pub(crate) fn fault(&mut self) -> KeeperEnd
        ensures failed { result ≡ KeeperEnd.Failed }
        ensures same { self.new.bodies ≡ self.old.bodies }
        ensures rose { Rose (B.faults self.old.bodies + self.old.found) (B.faults self.new.bodies + self.new.found) }
        ensures later { (B.faults self.old.bodies + self.old.found) ≤ (B.faults self.new.bodies + self.new.found) }
    {
        self.found = self.found.saturating_add(1);
        KeeperEnd::Failed
    }

    /// Opens the bodies, which stay as they are.
    pub(crate) fn open(&mut self) -> Result<(), KeeperEnd>
        ensures opened { OnOk result (B.opened self.new.bodies ≡ true) }
        ensures told { WhereTold (B.bodies self.old.bodies) (λ m. B.bodies self.new.bodies ≡ B.bodies self.old.bodies) }
        ensures again { B.opened self.old.bodies ≡ true → (B.bodies self.new.bodies ≡ B.bodies self.old.bodies) × (B.opened self.new.bodies ≡ true) }
        ensures err { OnErr result ((B.bodies self.new.bodies ≡ B.bodies self.old.bodies) × (B.opened self.new.bodies ≡ B.opened self.old.bodies)) }
        ensures first { B.tells_at_first self.new.bodies ≡ B.tells_at_first self.old.bodies }
        ensures found { self.new.found ≡ self.old.found }
        ensures cause { HasCause KeeperEnd.Failed (B.faults self.old.bodies + self.old.found) (B.faults self.new.bodies + self.new.found) result }
    {
        self.bodies.open()
    }

    /// The bodies of a table, by rising number.
    pub(crate) fn read(&mut self, tab: i64) -> Result<List<(i64, Bytes)>, KeeperEnd>
        requires { B.opened self.old.bodies ≡ true }
        ensures bodies { IfOk result (λ found. WhereTold (B.bodies self.old.bodies) (λ m. found ≡ bodies_of m tab)) }
        ensures same { IsOpened (B.bodies self.old.bodies) (B.bodies self.new.bodies) (B.opened self.new.bodies) }
        ensures first { B.tells_at_first self.new.bodies ≡ B.tells_at_first self.old.bodies }
        ensures found { self.new.found ≡ self.old.found }
        ensures cause { HasCause KeeperEnd.Failed (B.faults self.old.bodies + self.old.found) (B.faults self.new.bodies + self.new.found) result }
    {
        self.bodies.read(tab)
    }

    /// One body, or None where there is none.
    pub(crate) fn one(&mut self, tab: i64, num: i64) -> Result<Option<Bytes>, KeeperEnd>
        requires { B.opened self.old.bodies ≡ true }
        ensures body { IfOk result (λ found. WhereTold (B.bodies self.old.bodies) (λ m. found ≡ body_at m tab num)) }
        ensures same { IsOpened (B.bodies self.old.bodies) (B.bodies self.new.bodies) (B.opened self.new.bodies) }
        ensures first { B.tells_at_first self.new.bodies ≡ B.tells_at_first self.old.bodies }
        ensures found { self.new.found ≡ self.old.found }
        ensures cause { HasCause KeeperEnd.Failed (B.faults self.old.bodies + self.old.found) (B.faults self.new.bodies + self.new.found) result }
    {
        self.bodies.one(tab, num)
    }

    /// Makes the changes in order, all of them or none.
    pub(crate) fn write(&mut self, changes: &[BodyChange]) -> Result<(), KeeperEnd>
        requires opened { B.opened self.old.bodies ≡ true }
        requires each { WhereTold (B.bodies self.old.bodies) (λ m. CanWrite m changes.now) }
        ensures written { OnOk result (Becomes (λ m. written m changes.now) (B.bodies self.old.bodies) (B.bodies self.new.bodies)) }
        ensures same { OnErr result (B.bodies self.new.bodies ≡ B.bodies self.old.bodies) }
        ensures stays_open { B.opened self.new.bodies ≡ true }
        ensures first { B.tells_at_first self.new.bodies ≡ B.tells_at_first self.old.bodies }
        ensures found { self.new.found ≡ self.old.found }
        ensures cause { HasCause KeeperEnd.Failed (B.faults self.old.bodies + self.old.found) (B.faults self.new.bodies + self.new.found) result }
    {
        self.bodies.write(changes)
    }

    /// Makes the changes, if there are some.
    pub(crate) fn save(&mut self, changes: &[BodyChange]) -> Result<(), KeeperEnd>
        requires opened { changes.now ≢ [] → B.opened self.old.bodies ≡ true }
        requires each { WhereTold (B.bodies self.old.bodies) (λ m. CanWrite m changes.now) }
        ensures written { OnOk result (Becomes (λ m. written m changes.now) (B.bodies self.old.bodies) (B.bodies self.new.bodies)) }
        ensures same { OnErr result (B.bodies self.new.bodies ≡ B.bodies self.old.bodies) }
        ensures stays_open { B.opened self.old.bodies ≡ true → B.opened self.new.bodies ≡ true }
        ensures first { B.tells_at_first self.new.bodies ≡ B.tells_at_first self.old.bodies }
        ensures found { self.new.found ≡ self.old.found }
        ensures cause { HasCause KeeperEnd.Failed (B.faults self.old.bodies + self.old.found) (B.faults self.new.bodies + self.new.found) result }
    {
        if changes.is_empty() {
            return Ok(());
        }
        self.write(changes)
    }
}
