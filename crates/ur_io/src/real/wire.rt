//! One connection over the standard input and output.
ghost use Rattle.std.specs.Prelude.{◌≡◌, ◌≤◌, ◌<◌, true, false, not, None, Ok, IfOk, OnErr, length};
ghost use Rattle.ur_base.specs.Counts.{next_count};

use super::sink::write_some;
use crate::{Failed, Wire};
use std::io::{self, Read};
use std::marker::Model;

/// One connection, whose input is the standard input and on which the standard output gives. Tells nothing of content.
#[derive(Drop)]
pub struct StdWire<R> {
    rt: R,
    begun: bool,
    current: bool,
    faults: u64,
}

impl<R> Model for StdWire<R> {
    ghost use Rattle.ur_io.specs.Real.{Connected};

    ghost Value = { Connected };

    ghost view = { λ w. record { begun = w.begun; is_current = w.current; faults = w.faults } };
}

impl<R: Drop> StdWire<R> {
    /// The connection is still to come.
    pub fn new(rt: R) -> StdWire<R>
        ensures { result ≡ record { begun = false; is_current = false; faults = 0 } }
    {
        StdWire {
            rt,
            begun: false,
            current: false,
            faults: 0,
        }
    }
}

impl<R: Input + Print + Drop> Wire for StdWire<R> {
    ghost told = { λ _. None };

    ghost is_current = { λ w. w.is_current };

    ghost faults = { λ w. w.faults };

    /// The first call answers true, each later one false.
    fn next(&mut self) -> Result<bool, Failed>
        ensures first { result ≡ Ok (not self.old.begun) }
        ensures after { self.new ≡ record self.old { begun = true; is_current = not self.old.begun } }
    {
        self.current = !self.begun;
        self.begun = true;
        Ok(self.current)
    }

    fn read(&mut self, buf: &mut [u8]) -> Result<usize, Failed>
        requires current { self.old.is_current ≡ true }
        requires room { 0 < length buf.old }
        ensures within { IfOk result (λ n. n ≤ length buf.old) }
        ensures same { IfOk result (λ _. self.new ≡ self.old) }
        ensures err { OnErr result (self.new ≡ record self.old { faults = next_count self.old.faults }) }
        ensures later { self.old.faults ≤ self.new.faults }
    {
        match self.rt.reader().read(buf) {
            Ok(count) => Ok(count),
            Err(_) => {
                self.faults = self.faults.saturating_add(1);
                Err(Failed)
            }
        }
    }

    fn write(&mut self, piece: &[u8]) -> Result<usize, Failed>
        requires current { self.old.is_current ≡ true }
        ensures within { IfOk result (λ n. n ≤ length piece.now) }
        ensures some { IfOk result (λ n. 0 < length piece.now → 0 < n) }
        ensures same { IfOk result (λ _. self.new ≡ self.old) }
        ensures err { OnErr result (self.new ≡ record self.old { faults = next_count self.old.faults }) }
        ensures later { self.old.faults ≤ self.new.faults }
    {
        write_some(&mut io::writer(&self.rt), piece, &mut self.faults)
    }

    fn shut(&mut self)
        requires current { self.old.is_current ≡ true }
        ensures { self.new ≡ record self.old { is_current = false } }
    {
        self.current = false;
    }
}
