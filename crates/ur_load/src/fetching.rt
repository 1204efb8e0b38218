//! Files from the shelf.
ghost use Rattle.std.specs.Prelude.{◌≡◌, ◌≤◌, [], length, IfOk, IfSome, codes};
ghost use Rattle.ur_base.specs.Counts.{Rose};
ghost use Rattle.ur_base.specs.Told.{WhereTold};
ghost use Rattle.ur_load.specs.Sources.{HasFile, Lacks, IsTooLong, file_limit};
ghost use Rattle.ur_load.specs.Loads.{IfRefusedIn, OnShelf, HasIfThere, SaysIn};

use crate::load_end::{LoadEnd, refused_in};
use std::alloc::Global;
use ur_base::Bytes;
use ur_io::{Fetched, Shelf};

/// The greatest number of bytes of a source or project file.
pub const FILE_LIMIT: usize = 1_048_576;

/// The refusal of a file that has too many bytes.
fn too_long(alloc: Global, number: u32, file: &str) -> LoadEnd
    ensures { SaysIn file.now 20 (codes "bytes of a source or project file") (codes "1048576") result }
{
    refused_in(
        alloc,
        number,
        file.as_bytes(),
        20,
        b"bytes of a source or project file",
        b"1048576",
    )
}

/// The refusal of a file that is not there.
fn missing(alloc: Global, number: u32, file: &str) -> LoadEnd
    ensures { SaysIn file.now 2 file.now [] result }
{
    let name = file.as_bytes();
    refused_in(alloc, number, name, 2, name, b"")
}

/// The bytes of a file that is needed.
pub fn needed<S: Shelf>(
    alloc: Global,
    shelf: &mut S,
    number: u32,
    file: &str,
) -> Result<Bytes, LoadEnd>
    ensures bytes { IfOk result (λ bytes. WhereTold (S.told shelf.old) (λ files. HasFile files file.now bytes)) }
    ensures small { IfOk result (λ bytes. length bytes ≤ file_limit) }
    ensures refused { IfRefusedIn result (λ at r. (at ≡ file.now) × WhereTold (S.told shelf.old) (λ files. Lacks files file.now r)) }
    ensures shelf { OnShelf result (Rose (S.faults shelf.old) (S.faults shelf.new)) }
    ensures never_falls { S.faults shelf.old ≤ S.faults shelf.new }
    ensures kept { S.told shelf.new ≡ S.told shelf.old }
{
    let fetched = shelf.fetch(file, FILE_LIMIT)?;
    match fetched {
        Fetched::Whole(bytes) => Ok(bytes),
        Fetched::Longer => Err(too_long(alloc, number, file)),
        Fetched::Missing => Err(missing(alloc, number, file)),
    }
}

/// The bytes of a file, where it is there.
pub fn if_there<S: Shelf>(
    alloc: Global,
    shelf: &mut S,
    number: u32,
    file: &str,
) -> Result<Option<Bytes>, LoadEnd>
    ensures bytes { IfOk result (λ found. WhereTold (S.told shelf.old) (λ files. HasIfThere files file.now found)) }
    ensures small { IfOk result (λ found. IfSome found (λ bytes. length bytes ≤ file_limit)) }
    ensures refused { IfRefusedIn result (λ at r. (at ≡ file.now) × WhereTold (S.told shelf.old) (λ files. IsTooLong files file.now r)) }
    ensures shelf { OnShelf result (Rose (S.faults shelf.old) (S.faults shelf.new)) }
    ensures never_falls { S.faults shelf.old ≤ S.faults shelf.new }
    ensures kept { S.told shelf.new ≡ S.told shelf.old }
{
    let fetched = shelf.fetch(file, FILE_LIMIT)?;
    match fetched {
        Fetched::Whole(bytes) => Ok(Some(bytes)),
        Fetched::Longer => Err(too_long(alloc, number, file)),
        Fetched::Missing => Ok(None),
    }
}
