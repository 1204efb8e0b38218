//! The room and the nesting that XML has which may be built.
ghost use Rattle.std.specs.Prelude.{◌≡◌, ◌+◌, IfOk, OnOk};

use crate::slots::Halt;

/// The room that XML has which may be built.
pub(crate) const ROOM: u64 = 16_777_184;

/// Takes room, where there is so much.
pub(crate) fn take(room: &mut u64, size: u64) -> Result<(), Halt>
    ensures { OnOk result (size + room.new ≡ room.old) }
{
    if *room < size {
        return Err(Halt::Other);
    }
    *room -= size;
    Ok(())
}

/// One level of nesting more.
pub(crate) fn deeper(deep: u32) -> Result<u32, Halt>
    ensures { IfOk result (λ more. more ≡ deep + 1) }
{
    match deep.checked_add(1) {
        Some(more) => Ok(more),
        None => Err(Halt::Other),
    }
}
