//! Whole runs over a database that is opened again: a note's body as it stands, one byte short, and whole again; and a store of another
//! schema.

use crate::running::{Ran, run_over};
use crate::stored::{shelf, text};
use sqlite::FileStore;
use sqlite_disk::Memory as MemoryFile;
use std::alloc::Global;
use std::str;
use std::test::Fail;
use ur_base::{Bytes, List, Memory};
use ur_io::MemoryShelf;
use ur_keeper_bodies::{Bodies, BodyChange};
use ur_keeper_kept::Kept;
use ur_sqlkeeper::SqlBodies;

/// Bodies in a database in files in memory.
pub(crate) type Stored = SqlBodies<FileStore<MemoryFile>>;

/// A project of another table.
fn other(alloc: Global) -> Result<MemoryShelf, Memory> {
    let mut files = List::new(alloc);
    let project = text(alloc, &["main"])?;
    files.push((List::from_slice(alloc, b"notes.urp")?, project))?;
    let source = text(
        alloc,
        &[
            "table memo : {Id : int} PRIMARY KEY Id",
            "fun list (who : string) : transaction page = return <xml><body>{[who]}</body></xml>",
        ],
    )?;
    files.push((List::from_slice(alloc, b"main.ur")?, source))?;
    Ok(MemoryShelf::new(alloc, files, List::new(alloc)))
}

fn add() -> &'static str {
    "POST /Main/add/ann HTTP/1.1\r\nHost: a\r\nContent-Length: 10\r\n\r\nBody=a%26b"
}

fn list() -> &'static str {
    "GET /Main/list/ann HTTP/1.1\r\nHost: a\r\n\r\n"
}

/// The values of a row in order of the columns' names, each behind its name: the text `a&b`, the int 1 and the text `ann`.
pub(crate) fn second_note() -> &'static [u8] {
    b"\x00\x00\x00\x04Body\x00\x00\x00\x03a&b\x00\x00\x00\x02Id\x00\x00\x00\x00\x00\x00\x00\x01\x00\x00\x00\x05Owner\x00\x00\x00\x03ann"
}

/// The same without its last byte.
pub(crate) fn short_note() -> &'static [u8] {
    b"\x00\x00\x00\x04Body\x00\x00\x00\x03a&b\x00\x00\x00\x02Id\x00\x00\x00\x00\x00\x00\x00\x01\x00\x00\x00\x05Owner\x00\x00\x00\x03an"
}

/// Whether the first table's first row has this body.
fn holds(bodies: &mut Stored, body: &[u8]) -> bool {
    let Ok(()) = bodies.open() else {
        return false;
    };
    match bodies.one(2, 0) {
        Ok(Some(found)) => found.as_slice() == body,
        _ => false,
    }
}

/// Puts a body in its place.
fn put_note(alloc: Global, bodies: &mut Stored, body: &[u8]) -> Result<bool, Memory> {
    let body = List::from_slice(alloc, body)?;
    let mut changes = List::new(alloc);
    changes.push(BodyChange::Put(2, 0, body))?;
    let Ok(()) = bodies.open() else {
        return Ok(false);
    };
    match bodies.write(changes.as_slice()) {
        Ok(()) => Ok(true),
        Err(_) => Ok(false),
    }
}

/// The bodies of a store with the note.
fn noted(rt: HostRuntime) -> Result<Stored, Memory> {
    let alloc = rt.alloc();
    let files = shelf(alloc)?;
    let mut keeper = Kept::new(alloc, SqlBodies::in_memory_files(rt));
    let _ = run_over(alloc, files, &mut keeper, &[add()])?;
    Ok(keeper.into_bodies())
}

/// A run of the list over these bodies, opened again, and the bodies behind it.
fn listed(alloc: Global, bodies: Stored) -> Result<(Ran, Stored), Memory> {
    let files = shelf(alloc)?;
    let mut keeper = Kept::new(alloc, bodies);
    let came = run_over(alloc, files, &mut keeper, &[list()])?;
    Ok((came, keeper.into_bodies()))
}

/// Whether this is among the bytes.
pub(crate) fn shows(given: &Bytes, part: &str) -> bool {
    str::from_utf8(given.as_slice())
        .unwrap_or("")
        .contains(part)
}

#[test]
fn a_row_is_its_body(rt: HostRuntime) -> Result<(), Fail> {
    let mut bodies = noted(rt)?;
    assert!(rt; holds(&mut bodies, second_note()));
    Ok(())
}

#[test]
fn a_store_is_opened_again(rt: HostRuntime) -> Result<(), Fail> {
    let bodies = noted(rt)?;
    let (came, _bodies) = listed(rt.alloc(), bodies)?;
    assert!(rt; came.is(0, 1));
    assert!(rt; shows(&came.given, "<p>1 a&amp;b</p>"));
    Ok(())
}

/// Where the body is a byte short no connection is served, and where it is whole again the note is there.
#[test]
fn a_body_one_byte_short_is_a_fault(rt: HostRuntime) -> Result<(), Fail> {
    let alloc = rt.alloc();
    let mut bodies = noted(rt)?;
    assert!(rt; put_note(alloc, &mut bodies, short_note())?);
    let (came, mut bodies) = listed(alloc, bodies)?;
    assert!(rt; came.is(7, 0));
    assert!(rt; shows(&came.printed, "keeper fault\n"));
    assert!(rt; put_note(alloc, &mut bodies, second_note())?);
    let (came, _bodies) = listed(alloc, bodies)?;
    assert!(rt; came.is(0, 1));
    assert!(rt; shows(&came.given, "<p>1 a&amp;b</p>"));
    Ok(())
}

/// A project of another schema is not served, and the store serves its own again.
#[test]
fn a_store_keeps_its_own_schema(rt: HostRuntime) -> Result<(), Fail> {
    let alloc = rt.alloc();
    let bodies = noted(rt)?;
    let files = other(alloc)?;
    let mut keeper = Kept::new(alloc, bodies);
    let came = run_over(alloc, files, &mut keeper, &[list()])?;
    assert!(rt; came.is(3, 0));
    assert!(rt; shows(&came.printed, "table Main.memo Id:int primary Id"));
    let (came, _bodies) = listed(alloc, keeper.into_bodies())?;
    assert!(rt; came.is(0, 1));
    assert!(rt; shows(&came.given, "<p>1 a&amp;b</p>"));
    Ok(())
}
