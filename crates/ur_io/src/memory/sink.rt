//! A place for reports in memory.
ghost use Rattle.std.specs.Prelude.{◌≡◌, ◌≤◌, ◌<◌, ◌↔◌, ◌⊎◌, ℕ, ◌++◌, [], List, Option, Some, IfOk, OnErr, IsErr, length, take, min};
ghost use Rattle.ur_base.specs.Counts.{CountsFaults};
ghost use Rattle.ur_base.specs.FaultPlans.{new_plan, Fails, after_failed};
ghost use Rattle.ur_io.specs.Memory.{IsFull, after_print};

use super::space::Space;
use crate::{Failed, Sink};
use std::alloc::Global;
use std::marker::Model;
use ur_base::{FaultPlan, List, Memory};

/// A place for reports in memory, with room for so many bytes.
#[derive(Debug, Drop)]
pub struct MemorySink {
    space: Space,
    plan: FaultPlan,
}

impl Model for MemorySink {
    ghost use Rattle.ur_io.specs.Memory.{SinkState};

    ghost Value = { SinkState };

    ghost view = { λ s. record { given = s.space.given; room = s.space.room; plan = s.plan } };
}

impl MemorySink {
    /// Nothing given, and room for this many bytes.
    pub fn new(alloc: Global, room: usize, fail: List<u64>) -> Result<MemorySink, Memory>
        ensures { IfOk result (λ made. made ≡ record { given = []; room = room; plan = new_plan fail }) }
    {
        Ok(MemorySink {
            space: Space::new(alloc, room)?,
            plan: FaultPlan::new(fail),
        })
    }

    /// The bytes given.
    pub fn given(&self) -> &[u8]
        ensures { result.now ≡ self.now.given }
    {
        self.space.given()
    }
}

impl Sink for MemorySink {
    ghost told = { λ s. Some s.given };

    ghost faults = { λ s. s.plan.faults };

    /// Fails exactly where it is to fail, and where the room is full and the piece is not empty.
    fn write(&mut self, piece: &[u8]) -> Result<usize, Failed>
        ensures count { IfOk result (λ n. n ≡ min (length piece.now) self.old.room) }
        ensures ok { IfOk result (λ n. self.new ≡ after_print self.old n piece.now) }
        ensures err { OnErr result (self.new ≡ record self.old { plan = after_failed self.old.plan }) }
        ensures failed { IsErr result ↔ (Fails self.old.plan ⊎ IsFull self.old.room piece.now) }
        ensures within { IfOk result (λ n. n ≤ length piece.now) }
        ensures some { IfOk result (λ n. 0 < length piece.now → 0 < n) }
        ensures counts { CountsFaults self.old.plan.faults self.new.plan.faults result }
    {
        if self.plan.fails() || self.space.is_full(piece) {
            self.plan.fail();
            return Err(Failed);
        }
        self.plan.pass();
        Ok(self.space.put(piece))
    }
}
