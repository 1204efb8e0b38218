//! Bodies in memory.
ghost use Rattle.std.specs.Prelude.{◌≡◌, ◌↔◌, ℕ, true, Some, refl, IfOk, OnOk, IsErrOf};
ghost use Rattle.ur_base.specs.Counts.{HasCause};
ghost use Rattle.ur_base.specs.FaultPlans.{Fails};
ghost use Rattle.ur_keeper_bodies.specs.Bodies.{body_at, bodies_of, written, written_one, CanWrite};
ghost use Rattle.ur_keeper_bodies.specs.Memory.{empty_bodies, passed, failed, opening, writing};

use crate::bodies::{Bodies, BodyChange};
use crate::held::Held;
use std::alloc::Global;
use std::marker::Model;
use ur_base::{Bytes, FaultPlan, List, Memory};
use ur_keeper::KeeperEnd;

/// Bodies in memory. Its calls are counted from 1, and those whose number is listed fail.
#[derive(Drop)]
pub struct MemoryBodies {
    alloc: Global,
    held: Held,
    opened: bool,
    plan: FaultPlan,
}

impl Model for MemoryBodies {
    ghost use Rattle.ur_keeper_bodies.specs.Memory.{BodiesState, bodies_code};

    ghost Value = { BodiesState };

    ghost coded = { bodies_code };

    ghost view = { λ m. record { bodies = m.held; opened = m.opened; plan = m.plan } };
}

impl MemoryBodies {
    /// No bodies. Takes no memory.
    pub fn new(alloc: Global, fail: List<u64>) -> MemoryBodies
        ensures { result ≡ empty_bodies fail }
    {
        MemoryBodies {
            alloc,
            held: Held::new(alloc),
            opened: false,
            plan: FaultPlan::new(fail),
        }
    }

    /// Counts a call, which fails where it is listed.
    fn count(&mut self) -> Result<(), KeeperEnd>
        ensures ok { OnOk result (self.new ≡ passed self.old) }
        ensures listed { IsErrOf result KeeperEnd.Failed ↔ Fails self.old.plan }
        ensures failed { IsErrOf result KeeperEnd.Failed → self.new ≡ failed self.old }
        ensures no_other { IsErrOf result KeeperEnd.Memory → ⊥ }
        ensures cause { HasCause KeeperEnd.Failed self.old.plan.faults self.new.plan.faults result }
    {
        if self.plan.fails() {
            self.plan.fail();
            return Err(KeeperEnd::Failed);
        }
        self.plan.pass();
        Ok(())
    }
}

impl Bodies for MemoryBodies {
    ghost bodies = { λ m. Some m.bodies };

    ghost opened = { λ m. m.opened };

    ghost faults = { λ m. m.plan.faults };

    ghost tells_at_first = { λ m. true };

    ghost is_told = { λ m _. refl };

    /// Fails exactly where it is listed. Takes no memory.
    fn open(&mut self) -> Result<(), KeeperEnd>
        ensures ok { OnOk result (self.new ≡ opening self.old) }
        ensures listed { IsErrOf result KeeperEnd.Failed ↔ Fails self.old.plan }
        ensures failed { IsErrOf result KeeperEnd.Failed → self.new ≡ failed self.old }
        ensures no_other { IsErrOf result KeeperEnd.Memory → ⊥ }
        ensures cause { HasCause KeeperEnd.Failed self.old.plan.faults self.new.plan.faults result }
    {
        self.count()?;
        self.opened = true;
        Ok(())
    }

    /// Fails exactly where it is listed. The bodies are copied.
    fn read(&mut self, tab: i64) -> Result<List<(i64, Bytes)>, KeeperEnd>
        requires { self.old.opened ≡ true }
        ensures value { IfOk result (λ found. found ≡ bodies_of self.old.bodies tab) }
        ensures ok { OnOk result (self.new ≡ passed self.old) }
        ensures listed { IsErrOf result KeeperEnd.Failed ↔ Fails self.old.plan }
        ensures failed { IsErrOf result KeeperEnd.Failed → self.new ≡ failed self.old }
        ensures memory { IsErrOf result KeeperEnd.Memory → self.new ≡ passed self.old }
        ensures cause { HasCause KeeperEnd.Failed self.old.plan.faults self.new.plan.faults result }
    {
        self.count()?;
        let found = self.held.read(self.alloc, tab)?;
        Ok(found)
    }

    /// Fails exactly where it is listed. The body is copied.
    fn one(&mut self, tab: i64, num: i64) -> Result<Option<Bytes>, KeeperEnd>
        requires { self.old.opened ≡ true }
        ensures value { IfOk result (λ found. found ≡ body_at self.old.bodies tab num) }
        ensures ok { OnOk result (self.new ≡ passed self.old) }
        ensures listed { IsErrOf result KeeperEnd.Failed ↔ Fails self.old.plan }
        ensures failed { IsErrOf result KeeperEnd.Failed → self.new ≡ failed self.old }
        ensures memory { IsErrOf result KeeperEnd.Memory → self.new ≡ passed self.old }
        ensures cause { HasCause KeeperEnd.Failed self.old.plan.faults self.new.plan.faults result }
    {
        self.count()?;
        let found = self.held.one(self.alloc, tab, num)?;
        Ok(found)
    }

    /// Fails exactly where it is listed. The changes are made on a copy of all bodies.
    fn write(&mut self, changes: &[BodyChange]) -> Result<(), KeeperEnd>
        requires opened { self.old.opened ≡ true }
        requires each { CanWrite self.old.bodies changes.now }
        ensures ok { OnOk result (self.new ≡ writing changes.now self.old) }
        ensures listed { IsErrOf result KeeperEnd.Failed ↔ Fails self.old.plan }
        ensures failed { IsErrOf result KeeperEnd.Failed → self.new ≡ failed self.old }
        ensures memory { IsErrOf result KeeperEnd.Memory → self.new ≡ passed self.old }
        ensures cause { HasCause KeeperEnd.Failed self.old.plan.faults self.new.plan.faults result }
    {
        self.count()?;
        let after = changed(self.alloc, &self.held, changes)?;
        self.held = after;
        Ok(())
    }
}

/// The bodies after these changes, as a copy.
fn changed(alloc: Global, held: &Held, changes: &[BodyChange]) -> Result<Held, Memory>
    ensures { IfOk result (λ after. after ≡ written held.now changes.now) }
{
    let mut after = held.copy(alloc)?;
    for change in changes {
        change_one(alloc, &mut after, change)?;
    }
    Ok(after)
}

pub(crate) fn change_one(alloc: Global, held: &mut Held, change: &BodyChange) -> Result<(), Memory>
    ensures { OnOk result (held.new ≡ written_one held.old change.now) }
{
    match change {
        BodyChange::Add(tab, num, body) => {
            held.put(*tab, *num, List::from_slice(alloc, body.as_slice())?)
        }
        BodyChange::Put(tab, num, body) => {
            held.put(*tab, *num, List::from_slice(alloc, body.as_slice())?)
        }
        BodyChange::Drop(tab, num) => {
            held.take(*tab, *num);
            Ok(())
        }
    }
}
