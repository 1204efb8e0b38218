//! Connections in memory.
ghost use Rattle.std.specs.Prelude.{◌≡◌, ◌≤◌, ◌<◌, ◌↔◌, ◌⊎◌, ◌++◌, ℕ, Bool, true, false, [], Option, Some, IfOk, OnErr, IsErr, MatchResult, length, take, drop, min, slice_get};
ghost use Rattle.ur_io.specs.Calls.{CountsCall};
ghost use Rattle.ur_io.specs.Traffic.{Opens, Reads, after_write};
ghost use Rattle.ur_base.specs.FaultPlans.{new_plan, Fails, after_failed};
ghost use Rattle.ur_io.specs.Memory.{IsFull, traffic_of, cut_at, Rises, comes, after_next, next_piece, after_take, after_give};

use super::input;
use super::space::Space;
use crate::{Failed, Wire};
use std::alloc::Global;
use std::marker::Model;
use ur_base::{Bytes, FaultPlan, List, Memory, Room};

/// Connections in memory, each with its input in pieces, with room for so many bytes to be given in all.
#[derive(Debug, Drop)]
pub struct MemoryWire {
    connections: List<List<Bytes>>,
    opened: usize,
    piece: usize,
    at: usize,
    current: bool,
    starts: Room<usize>,
    space: Space,
    plan: FaultPlan,
}

impl Model for MemoryWire {
    ghost use Rattle.ur_io.specs.Memory.{WireState, pieces_at, place_of, cut_at, IsWire};

    ghost Value = { WireState };

    ghost view = { λ w. record {
      connections = w.connections;
      opened = w.opened;
      taken = place_of (pieces_at w.connections w.opened) w.piece w.at;
      is_current = w.current;
      given = cut_at w.starts.items w.space.given;
      room = w.space.room;
      plan = w.plan;
    } };

    ghost invariant = { λ w. IsWire w.connections w.opened w.piece w.at w.starts w.space.given };
}

impl MemoryWire {
    /// These connections are to come, and there is room to give this many bytes in all.
    pub fn new(
        alloc: Global,
        connections: List<List<Bytes>>,
        room: usize,
        fail: List<u64>,
    ) -> Result<MemoryWire, Memory>
        ensures { IfOk result (λ made. made ≡ record {
          connections = connections;
          opened = 0;
          taken = 0;
          is_current = false;
          given = [];
          room = room;
          plan = new_plan fail;
        }) }
    {
        let starts = Room::new(alloc, connections.len())?;
        Ok(MemoryWire {
            connections,
            opened: 0,
            piece: 0,
            at: 0,
            current: false,
            starts,
            space: Space::new(alloc, room)?,
            plan: FaultPlan::new(fail),
        })
    }

    /// How many connections were made current.
    pub fn opened(&self) -> usize
        ensures { result ≡ self.now.opened }
    {
        self.opened
    }

    /// The bytes given on a connection that was made current, by its number from 0.
    pub fn given(&self, connection: usize) -> &[u8]
        requires { connection < self.now.opened }
        ensures { slice_get self.now.given connection ≡ Some result.now }
    {
        part(self.starts.items(), self.space.given(), connection)
    }
}

impl Wire for MemoryWire {
    ghost told = { λ w. Some (traffic_of w) };

    ghost is_current = { λ w. w.is_current };

    ghost faults = { λ w. w.plan.faults };

    /// Fails exactly where it is to fail.
    fn next(&mut self) -> Result<bool, Failed>
        ensures some { IfOk result (λ b. b ≡ comes self.old) }
        ensures ok { IfOk result (λ _. self.new ≡ after_next self.old) }
        ensures contents { IfOk result (λ b. Opens (traffic_of self.old) b (Some (traffic_of self.new))) }
        ensures err { OnErr result (self.new ≡ record self.old { is_current = false; plan = after_failed self.old.plan }) }
        ensures failed { IsErr result ↔ Fails self.old.plan }
        ensures current { MatchResult result (λ b. self.new.is_current ≡ b) (λ _. self.new.is_current ≡ false) }
        ensures counts { CountsCall self.old.plan.faults self.new.plan.faults result }
    {
        self.current = false;
        if self.plan.fails() {
            self.plan.fail();
            return Err(Failed);
        }
        self.plan.pass();
        if self.opened == self.connections.len() {
            return Ok(false);
        }
        self.starts.push(self.space.given().len());
        self.opened += 1;
        self.piece = 0;
        self.at = 0;
        self.current = true;
        Ok(true)
    }

    /// Gives what is left of one piece, or the front of it that the buffer holds. Fails exactly where it is to fail.
    fn read(&mut self, buf: &mut [u8]) -> Result<usize, Failed>
        requires current { self.old.is_current ≡ true }
        requires room { 0 < length buf.old }
        ensures count { IfOk result (λ n. n ≡ min (length buf.old) (length (next_piece self.old))) }
        ensures buffer { IfOk result (λ n. buf.new ≡ take n (next_piece self.old) ++ drop n buf.old) }
        ensures ok { IfOk result (λ n. self.new ≡ after_take self.old n) }
        ensures contents { IfOk result (λ n. Reads (traffic_of self.old) n buf.new (Some (traffic_of self.new))) }
        ensures untouched { OnErr result (buf.new ≡ buf.old) }
        ensures err { OnErr result (self.new ≡ record self.old { plan = after_failed self.old.plan }) }
        ensures failed { IsErr result ↔ Fails self.old.plan }
        ensures within { IfOk result (λ n. n ≤ length buf.old) }
        ensures stays { self.new.is_current ≡ true }
        ensures counts { CountsCall self.old.plan.faults self.new.plan.faults result }
    {
        if self.plan.fails() {
            self.plan.fail();
            return Err(Failed);
        }
        self.plan.pass();
        let pieces = input::pieces_of(self.connections.as_slice(), self.opened);
        let (piece, at, left) = input::next_piece(pieces, self.piece, self.at);
        let count = input::copy_front(buf, left);
        self.piece = piece;
        self.at = at + count;
        Ok(count)
    }

    /// Fails exactly where it is to fail, and where the room is full and the piece is not empty.
    fn write(&mut self, piece: &[u8]) -> Result<usize, Failed>
        requires current { self.old.is_current ≡ true }
        ensures count { IfOk result (λ n. n ≡ min (length piece.now) self.old.room) }
        ensures ok { IfOk result (λ n. self.new ≡ after_give self.old n piece.now) }
        ensures contents { IfOk result (λ n. traffic_of self.new ≡ after_write (traffic_of self.old) (take n piece.now)) }
        ensures err { OnErr result (self.new ≡ record self.old { plan = after_failed self.old.plan }) }
        ensures failed { IsErr result ↔ (Fails self.old.plan ⊎ IsFull self.old.room piece.now) }
        ensures within { IfOk result (λ n. n ≤ length piece.now) }
        ensures some { IfOk result (λ n. 0 < length piece.now → 0 < n) }
        ensures stays { self.new.is_current ≡ true }
        ensures counts { CountsCall self.old.plan.faults self.new.plan.faults result }
    {
        if self.plan.fails() || self.space.is_full(piece) {
            self.plan.fail();
            return Err(Failed);
        }
        self.plan.pass();
        Ok(self.space.put(piece))
    }

    /// Counts as no call.
    fn shut(&mut self)
        requires current { self.old.is_current ≡ true }
        ensures { self.new ≡ record self.old { is_current = false } }
    {
        self.current = false;
    }
}

/// One of the parts that start at these places.
fn part<'a>(starts: &[usize], bytes: &'a [u8], number: usize) -> &'a [u8]
    requires within { number < length starts.now }
    requires rises { Rises starts.now (length bytes.now) }
    ensures { slice_get (cut_at starts.now bytes.now) number ≡ Some result.now }
{
    let start = starts[number];
    let end = starts.get(number + 1).copied().unwrap_or(bytes.len());
    &bytes[start..end]
}
