//! Calls that are to fail, for the forms in memory of what lies outside.
ghost use Rattle.std.specs.Prelude.{◌≡◌, ◌≤◌, ◌↔◌, IsTrue};
ghost use Rattle.ur_base.specs.FaultPlans.{new_plan, Fails, after_ok, after_failed};

use crate::list::List;
use std::marker::Model;

/// Which calls of an object are to fail, counted from 1 over its life; how many came; how many failed. Both counts
/// saturate at the greatest `u64`.
#[derive(Debug, Drop)]
pub struct FaultPlan {
    fail: List<u64>,
    calls: u64,
    faults: u64,
}

impl Model for FaultPlan {
    ghost use Rattle.ur_base.specs.FaultPlans.{PlanState};

    ghost Value = { PlanState };

    ghost view = { λ p. record { fail = p.fail; calls = p.calls; faults = p.faults } };
}

impl FaultPlan {
    /// The calls numbered in `fail` are to fail; no call came yet.
    pub fn new(fail: List<u64>) -> FaultPlan
        ensures { result ≡ new_plan fail }
    {
        FaultPlan {
            fail,
            calls: 0,
            faults: 0,
        }
    }

    /// Whether the next call is to fail.
    pub fn fails(&self) -> bool
        ensures { IsTrue result ↔ Fails self.now }
    {
        let fail = self.fail.as_slice();
        match self.calls.checked_add(1) {
            Some(call) => fail.contains(&call),
            None => false,
        }
    }

    /// Counts a call that does not fail.
    pub fn pass(&mut self)
        ensures { self.new ≡ after_ok self.old }
    {
        self.calls = self.calls.saturating_add(1);
    }

    /// Counts a call that fails.
    pub fn fail(&mut self)
        ensures counted { self.new ≡ after_failed self.old }
        ensures later { self.old.faults ≤ self.new.faults }
    {
        self.calls = self.calls.saturating_add(1);
        self.faults = self.faults.saturating_add(1);
    }
}
