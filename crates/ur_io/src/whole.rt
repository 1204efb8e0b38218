//! Whole pieces given to a wire or a sink, which take as much of a piece at a call as they will.
ghost use Rattle.std.specs.Prelude.{◌≡◌, ◌++◌, ◌≤◌, List, ℕ, true, Some, OnOk, OnErr};
ghost use Rattle.ur_base.specs.Counts.{CountsFaults};
ghost use Rattle.ur_base.specs.Told.{WhereTold};
ghost use Rattle.ur_io.specs.Calls.{CountsCall};
ghost use Rattle.ur_io.specs.Traffic.{after_write};
ghost use Rattle.ur_io.specs.Fronts.{IsFront};

use crate::{Failed, Sink, Wire};

/// Gives all the bytes on the current connection, or the wire failed and a front of them was given.
pub fn give<W: Wire>(wire: &mut W, bytes: &[u8]) -> Result<(), Failed>
    requires current { W.is_current wire.old ≡ true }
    ensures ok { WhereTold (W.told wire.old) (λ t. OnOk result (W.told wire.new ≡ Some (after_write t bytes.now))) }
    ensures err { WhereTold (W.told wire.old) (λ t. OnErr result ((front : List ℕ) × IsFront front bytes.now
        × (W.told wire.new ≡ Some (after_write t front)))) }
    ensures stays { W.is_current wire.new ≡ true }
    ensures counts { CountsCall (W.faults wire.old) (W.faults wire.new) result }
{
    let mut given = 0;
    while given < bytes.len() {
        given += wire.write(&bytes[given..])?;
    }
    Ok(())
}

/// Prints the whole text, or the sink failed and a front of it was printed.
pub fn print<O: Sink>(out: &mut O, text: &[u8]) -> Result<(), Failed>
    ensures ok { WhereTold (O.told out.old) (λ given. OnOk result (O.told out.new ≡ Some (given ++ text.now))) }
    ensures err { WhereTold (O.told out.old) (λ given. OnErr result ((front : List ℕ) × IsFront front text.now
        × (O.told out.new ≡ Some (given ++ front)))) }
    ensures counts { CountsFaults (O.faults out.old) (O.faults out.new) result }
{
    let mut given = 0;
    while given < text.len() {
        given += out.write(&text[given..])?;
    }
    Ok(())
}
