//! The standard output and the standard error.
ghost use Rattle.std.specs.Prelude.{◌≡◌, ◌≤◌, ◌<◌, true, false, None, IfOk, OnErr, length, take};
ghost use Rattle.std.specs.Io.KnownBytes.{Appends};
ghost use Rattle.ur_base.specs.Counts.{next_count};

use crate::{Failed, Sink};
use std::io::{Stderr, Stdout, Write};
use std::marker::Model;

/// A place for reports that is the standard output or the standard error. Tells nothing of what was given.
#[derive(Drop)]
pub struct StdSink {
    out: Stdout,
    err: Stderr,
    is_error: bool,
    faults: u64,
}

impl Model for StdSink {
    ghost use Rattle.ur_io.specs.Real.{Stream};

    ghost Value = { Stream };

    ghost view = { λ s. record { is_error = s.is_error; faults = s.faults } };
}

impl StdSink {
    /// The standard output.
    pub fn out(rt: HostRuntime) -> StdSink
        ensures { result ≡ record { is_error = false; faults = 0 } }
    {
        stream(rt, false)
    }

    /// The standard error.
    pub fn err(rt: HostRuntime) -> StdSink
        ensures { result ≡ record { is_error = true; faults = 0 } }
    {
        stream(rt, true)
    }
}

fn stream(rt: HostRuntime, is_error: bool) -> StdSink
    ensures { result ≡ record { is_error = is_error; faults = 0 } }
{
    StdSink {
        out: rt.stdout(),
        err: rt.stderr(),
        is_error,
        faults: 0,
    }
}

impl Sink for StdSink {
    ghost told = { λ _. None };

    ghost faults = { λ s. s.faults };

    fn write(&mut self, piece: &[u8]) -> Result<usize, Failed>
        ensures within { IfOk result (λ n. n ≤ length piece.now) }
        ensures some { IfOk result (λ n. 0 < length piece.now → 0 < n) }
        ensures same { IfOk result (λ _. self.new ≡ self.old) }
        ensures err { OnErr result (self.new ≡ record self.old { faults = next_count self.old.faults }) }
        ensures later { self.old.faults ≤ self.new.faults }
    {
        if self.is_error {
            write_some(&mut self.err, piece, &mut self.faults)
        } else {
            write_some(&mut self.out, piece, &mut self.faults)
        }
    }
}

/// Writes some bytes of the piece's front. An error is counted, and so is that nothing was taken of a piece that is not
/// empty. What a writer tells grows by these bytes.
pub(crate) fn write_some<W: Write>(
    to: &mut W,
    piece: &[u8],
    faults: &mut u64,
) -> Result<usize, Failed>
    ensures within { IfOk result (λ n. n ≤ length piece.now) }
    ensures some { IfOk result (λ n. 0 < length piece.now → 0 < n) }
    ensures contents { IfOk result (λ n. Appends (W.contents to.old) (W.contents to.new) (take n piece.now)) }
    ensures ok { IfOk result (λ _. faults.new ≡ faults.old) }
    ensures err { OnErr result (faults.new ≡ next_count faults.old) }
    ensures later { faults.old ≤ faults.new }
{
    match to.write(piece) {
        Ok(count) if count > 0 || piece.is_empty() => Ok(count),
        _ => {
            *faults = faults.saturating_add(1);
            Err(Failed)
        }
    }
}
