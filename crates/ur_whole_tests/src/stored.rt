//! Whole runs over tables in a database, beside the same runs over tables in memory.
ghost use Rattle.std.specs.Prelude.{◌≡◌, false};

use crate::running::{Ran, run_over};
use std::alloc::Global;
use std::str;
use std::test::Fail;
use ur_base::{Bytes, List, Memory};
use ur_io::MemoryShelf;
use ur_keeper::{Keeper, MemoryKeeper};
use ur_keeper_kept::Kept;
use ur_sqlkeeper::SqlBodies;

/// These lines, each with its end.
pub(crate) fn text(alloc: Global, lines: &[&str]) -> Result<Bytes, Memory> {
    let mut text = List::new(alloc);
    for line in lines {
        text.extend_from_slice(line.as_bytes())?;
        text.extend_from_slice(b"\n")?;
    }
    Ok(text)
}

/// Notes with a key and a sequence, which are added, moved to another owner and dropped.
fn source(alloc: Global) -> Result<Bytes, Memory> {
    text(
        alloc,
        &[
            "sequence ids",
            "table note : {Id : int, Owner : string, Body : string} PRIMARY KEY Id",
            "fun list (who : string) : transaction page =",
            "  rows <- queryX (SELECT note.Id, note.Body FROM note WHERE note.Owner = {[who]} ORDER BY note.Id)",
            "    (fn r => <xml><p>{[r.Note.Id]} {[r.Note.Body]}</p></xml>);",
            "  return <xml><body>{rows}<form><textbox{#Body}/><submit action={add who}/></form></body></xml>",
            "and add (who : string) (r : {Body : string}) : transaction page =",
            "  n <- nextval ids;",
            "  dml (INSERT INTO note (Id, Owner, Body) VALUES ({[n]}, {[who]}, {[r.Body]}));",
            "  return <xml><body><form><textbox{#To}/><submit action={move n}/></form><form><submit action={drop n}/></form></body></xml>",
            "and move (id : int) (r : {To : string}) : transaction page =",
            "  dml (UPDATE note SET Owner = {[r.To]} WHERE Id = {[id]});",
            "  return <xml><body>moved</body></xml>",
            "and drop (id : int) (u : unit) : transaction page =",
            "  dml (DELETE FROM note WHERE Id = {[id]});",
            "  return <xml><body>dropped</body></xml>",
        ],
    )
}

/// The project of the notes, in files.
pub(crate) fn shelf(alloc: Global) -> Result<MemoryShelf, Memory> {
    let mut files = List::new(alloc);
    files.push((
        List::from_slice(alloc, b"notes.urp")?,
        text(alloc, &["main"])?,
    ))?;
    let signature = text(alloc, &["val list : string -> transaction page"])?;
    files.push((List::from_slice(alloc, b"main.urs")?, signature))?;
    files.push((List::from_slice(alloc, b"main.ur")?, source(alloc)?))?;
    Ok(MemoryShelf::new(alloc, files, List::new(alloc)))
}

/// What a run gives on its connection, where it ends with status 0.
fn answers<K: Keeper>(
    alloc: Global,
    keeper: &mut K,
    requests: &[&str],
) -> Result<Option<Bytes>, Memory>
    requires { K.under_way keeper.old ≡ false }
    ensures { K.under_way keeper.new ≡ false }
{
    let files = shelf(alloc)?;
    let came = run_over(alloc, files, keeper, requests)?;
    if !came.is(0, 1) {
        return Ok(None);
    }
    let Ran { given, .. } = came;
    Ok(Some(given))
}

/// Two notes are added, and one of them is moved.
fn first<K: Keeper>(alloc: Global, keeper: &mut K) -> Result<Option<Bytes>, Memory>
    requires { K.under_way keeper.old ≡ false }
    ensures { K.under_way keeper.new ≡ false }
{
    answers(
        alloc,
        keeper,
        &[
            "POST /Main/add/ann HTTP/1.1\r\nHost: a\r\nContent-Length: 7\r\n\r\nBody=hi",
            "POST /Main/add/ann HTTP/1.1\r\nHost: a\r\nContent-Length: 7\r\n\r\nBody=ho",
            "POST /Main/move/2 HTTP/1.1\r\nHost: a\r\nContent-Length: 6\r\n\r\nTo=ben",
            "GET /Main/list/ann HTTP/1.1\r\nHost: a\r\n\r\n",
        ],
    )
}

/// Both lists, a note that is dropped, one that is added, and its list.
fn second<K: Keeper>(alloc: Global, keeper: &mut K) -> Result<Option<Bytes>, Memory>
    requires { K.under_way keeper.old ≡ false }
    ensures { K.under_way keeper.new ≡ false }
{
    answers(
        alloc,
        keeper,
        &[
            "GET /Main/list/ann HTTP/1.1\r\nHost: a\r\n\r\n",
            "GET /Main/list/ben HTTP/1.1\r\nHost: a\r\n\r\n",
            "POST /Main/drop/1 HTTP/1.1\r\nHost: a\r\nContent-Length: 0\r\n\r\n",
            "POST /Main/add/ben HTTP/1.1\r\nHost: a\r\nContent-Length: 8\r\n\r\nBody=hey",
            "GET /Main/list/ann HTTP/1.1\r\nHost: a\r\n\r\n",
            "GET /Main/list/ben HTTP/1.1\r\nHost: a\r\n\r\n",
        ],
    )
}

/// Both runs over tables in memory.
fn in_memory(alloc: Global) -> Result<(Option<Bytes>, Option<Bytes>), Memory> {
    let mut keeper = MemoryKeeper::new(alloc, List::new(alloc));
    let one = first(alloc, &mut keeper)?;
    let other = second(alloc, &mut keeper)?;
    Ok((one, other))
}

/// The same over tables in a database, which are read from it anew for the second run.
fn in_database(rt: HostRuntime) -> Result<(Option<Bytes>, Option<Bytes>), Memory> {
    let alloc = rt.alloc();
    let mut keeper = Kept::new(alloc, SqlBodies::in_memory(rt));
    let one = first(alloc, &mut keeper)?;
    let mut again = Kept::new(alloc, keeper.into_bodies());
    let other = second(alloc, &mut again)?;
    Ok((one, other))
}

/// Whether both are there and the same.
fn same(one: &Option<Bytes>, other: &Option<Bytes>) -> bool {
    match (one, other) {
        (Some(one), Some(other)) => one.as_slice() == other.as_slice(),
        _ => false,
    }
}

/// Whether this is among the bytes.
fn shows(given: &Option<Bytes>, part: &str) -> bool {
    match given {
        Some(given) => str::from_utf8(given.as_slice())
            .unwrap_or("")
            .contains(part),
        None => false,
    }
}

#[test]
fn runs_over_a_database_answer_as_over_memory(rt: HostRuntime) -> Result<(), Fail> {
    let memory = in_memory(rt.alloc())?;
    let database = in_database(rt)?;
    assert!(rt; same(&memory.0, &database.0));
    assert!(rt; same(&memory.1, &database.1));
    assert!(rt; shows(&database.0, "<p>1 hi</p>"));
    assert!(rt; !shows(&database.0, "<p>2 ho</p>"));
    assert!(rt; shows(&database.1, "<p>2 ho</p><p>3 hey</p>"));
    Ok(())
}
