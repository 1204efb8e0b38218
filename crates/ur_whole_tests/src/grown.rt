//! Stores in both layouts, taken by the notes, and by notes with one more column: which rows are written anew, which stay, and which are
//! faults.

use crate::restarted::{Stored, second_note, short_note, shows};
use crate::running::{Ran, run_over};
use crate::stored::{shelf, text};
use std::alloc::Global;
use std::test::Fail;
use ur_base::{List, Memory};
use ur_io::MemoryShelf;
use ur_keeper_bodies::{Bodies, BodyChange, read_schema};
use ur_keeper_kept::Kept;
use ur_sqlkeeper::SqlBodies;

// ---- stores by hand

fn first_text() -> &'static [u8] {
    b"table Main.note Body:string Id:int Owner:string primary Id\nsequence Main.ids\n"
}

fn second_text() -> &'static [u8] {
    b"layout 2\ntable Main.note Body:string Id:int Owner:string primary Id\nsequence Main.ids\n"
}

fn tagged_text() -> &'static [u8] {
    b"layout 2\ntable Main.note Body:string Id:int Owner:string Tag:string? primary Id\nsequence Main.ids\n"
}

/// The values of a row in order of the columns' names: the text `a&b`, the int 1 and the text `ann`.
fn first_note() -> &'static [u8] {
    b"\x00\x00\x00\x03a&b\x00\x00\x00\x00\x00\x00\x00\x01\x00\x00\x00\x03ann"
}

/// A row that was added with no tag: the text `x`, the int 2, the text `ann` and nothing.
fn tagged_note() -> &'static [u8] {
    b"\x00\x00\x00\x04Body\x00\x00\x00\x01x\x00\x00\x00\x02Id\x00\x00\x00\x00\x00\x00\x00\x02\x00\x00\x00\x05Owner\x00\x00\x00\x03ann\x00\x00\x00\x03Tag\x00"
}

/// A store of this text with one row, whose next number is 2.
fn store(rt: HostRuntime, text: &[u8], note: &[u8]) -> Result<Stored, Memory> {
    let alloc = rt.alloc();
    let number = List::from_slice(alloc, b"\x00\x00\x00\x00\x00\x00\x00\x02")?;
    let mut changes = List::new(alloc);
    changes.push(BodyChange::Add(0, 0, List::from_slice(alloc, text)?))?;
    changes.push(BodyChange::Add(1, 0, number))?;
    changes.push(BodyChange::Add(2, 0, List::from_slice(alloc, note)?))?;
    let mut bodies = SqlBodies::in_memory_files(rt);
    write(&mut bodies, changes.as_slice());
    Ok(bodies)
}

/// Adds bodies to a store; what was not added is missing in the run that follows.
fn write(bodies: &mut Stored, changes: &[BodyChange]) {
    if let Ok(()) = bodies.open() {
        let _ = bodies.write(changes);
    }
}

/// Whether this place has this body.
fn has(bodies: &mut Stored, tab: i64, num: i64, body: &[u8]) -> bool {
    let Ok(()) = bodies.open() else {
        return false;
    };
    match bodies.one(tab, num) {
        Ok(Some(found)) => found.as_slice() == body,
        _ => false,
    }
}

fn holds(bodies: &mut Stored, text: &[u8], note: &[u8]) -> bool {
    has(bodies, 0, 0, text) && has(bodies, 2, 0, note)
}

// ---- runs

fn list() -> &'static str {
    "GET /Main/list/ann HTTP/1.1\r\nHost: a\r\n\r\n"
}

fn add() -> &'static str {
    "POST /Main/add/ann HTTP/1.1\r\nHost: a\r\nContent-Length: 6\r\n\r\nBody=x"
}

/// Notes with a tag, of which those without one are listed.
fn tagged(alloc: Global) -> Result<MemoryShelf, Memory> {
    of_source(
        alloc,
        &[
            "sequence ids",
            "table note : {Id : int, Owner : string, Body : string, Tag : option string} PRIMARY KEY Id",
            "fun list (who : string) : transaction page =",
            "  rows <- queryX (SELECT note.Id, note.Body FROM note WHERE note.Owner = {[who]} AND note.Tag IS NULL ORDER BY note.Id)",
            "    (fn r => <xml><p>{[r.Note.Id]} {[r.Note.Body]}</p></xml>);",
            "  return <xml><body>{rows}<form><textbox{#Body}/><submit action={add who}/></form></body></xml>",
            "and add (who : string) (r : {Body : string}) : transaction page =",
            "  n <- nextval ids;",
            "  dml (INSERT INTO note (Id, Owner, Body, Tag) VALUES ({[n]}, {[who]}, {[r.Body]}, NULL));",
            "  list who",
        ],
    )
}

/// The same with a tag that each note must have.
fn must_have_tags(alloc: Global) -> Result<MemoryShelf, Memory> {
    of_source(
        alloc,
        &[
            "sequence ids",
            "table note : {Id : int, Owner : string, Body : string, Tag : string} PRIMARY KEY Id",
            "fun list (who : string) : transaction page = return <xml><body>{[who]}</body></xml>",
        ],
    )
}

fn of_source(alloc: Global, lines: &[&str]) -> Result<MemoryShelf, Memory> {
    let mut files = List::new(alloc);
    let project = text(alloc, &["main"])?;
    files.push((List::from_slice(alloc, b"notes.urp")?, project))?;
    let signature = text(alloc, &["val list : string -> transaction page"])?;
    files.push((List::from_slice(alloc, b"main.urs")?, signature))?;
    files.push((List::from_slice(alloc, b"main.ur")?, text(alloc, lines)?))?;
    Ok(MemoryShelf::new(alloc, files, List::new(alloc)))
}

/// A run of these files over these bodies, and the bodies behind it.
fn ran(
    alloc: Global,
    files: MemoryShelf,
    bodies: Stored,
    requests: &[&str],
) -> Result<(Ran, Stored), Memory> {
    let mut keeper = Kept::new(alloc, bodies);
    let came = run_over(alloc, files, &mut keeper, requests)?;
    Ok((came, keeper.into_bodies()))
}

// ---- what becomes of a store

#[test]
fn a_store_of_the_first_layout_is_written_anew(rt: HostRuntime) -> Result<(), Fail> {
    let alloc = rt.alloc();
    let bodies = store(rt, first_text(), first_note())?;
    let (came, mut bodies) = ran(alloc, shelf(alloc)?, bodies, &[list()])?;
    assert!(rt; came.is(0, 1));
    assert!(rt; shows(&came.given, "<p>1 a&amp;b</p>"));
    assert!(rt; holds(&mut bodies, second_text(), second_note()));
    Ok(())
}

/// The row that was there gets its new column with its new layout, and one that is added has it too.
#[test]
fn a_store_of_the_first_layout_grows(rt: HostRuntime) -> Result<(), Fail> {
    let alloc = rt.alloc();
    let bodies = store(rt, first_text(), first_note())?;
    let (came, mut bodies) = ran(alloc, tagged(alloc)?, bodies, &[add()])?;
    assert!(rt; came.is(0, 1));
    assert!(rt; shows(&came.given, "<p>1 a&amp;b</p><p>2 x</p>"));
    assert!(rt; has(&mut bodies, 0, 0, tagged_text()));
    assert!(rt; has(&mut bodies, 2, 0, with_no_tag()));
    assert!(rt; has(&mut bodies, 2, 1, tagged_note()));
    Ok(())
}

/// The first note with nothing in its tag.
fn with_no_tag() -> &'static [u8] {
    b"\x00\x00\x00\x04Body\x00\x00\x00\x03a&b\x00\x00\x00\x02Id\x00\x00\x00\x00\x00\x00\x00\x01\x00\x00\x00\x05Owner\x00\x00\x00\x03ann\x00\x00\x00\x03Tag\x00"
}

/// A column that is added changes the text alone.
#[test]
fn a_new_column_leaves_the_rows_as_they_are(rt: HostRuntime) -> Result<(), Fail> {
    let alloc = rt.alloc();
    let bodies = store(rt, second_text(), second_note())?;
    let (came, bodies) = ran(alloc, tagged(alloc)?, bodies, &[add()])?;
    assert!(rt; came.is(0, 1));
    assert!(rt; shows(&came.given, "<p>1 a&amp;b</p><p>2 x</p>"));
    let (came, mut bodies) = ran(alloc, tagged(alloc)?, bodies, &[list()])?;
    assert!(rt; shows(&came.given, "<p>1 a&amp;b</p><p>2 x</p>"));
    assert!(rt; holds(&mut bodies, tagged_text(), second_note()));
    assert!(rt; has(&mut bodies, 2, 1, tagged_note()));
    Ok(())
}

/// Whether a run of these files over this store serves nothing, with this status and text, and leaves the store as it was.
fn stays(
    rt: HostRuntime,
    files: MemoryShelf,
    kept: &[u8],
    note: &[u8],
    status: u8,
    printed: &str,
) -> Result<bool, Memory> {
    let bodies = store(rt, kept, note)?;
    let (came, mut bodies) = ran(rt.alloc(), files, bodies, &[list()])?;
    Ok(came.is(status, 0) && shows(&came.printed, printed) && holds(&mut bodies, kept, note))
}

/// The kept schema is told without the line of the layout.
fn kept_schema() -> &'static str {
    "kept:\ntable Main.note Body:string Id:int Owner:string primary Id\nsequence Main.ids\napplication:\n"
}

#[test]
fn a_column_that_is_not_optional_is_another_schema(rt: HostRuntime) -> Result<(), Fail> {
    let alloc = rt.alloc();
    let files = must_have_tags(alloc)?;
    assert!(rt; stays(rt, files, first_text(), first_note(), 3, kept_schema())?);
    let files = must_have_tags(alloc)?;
    assert!(rt; stays(rt, files, second_text(), second_note(), 3, kept_schema())?);
    let files = shelf(alloc)?;
    assert!(rt;
        stays(
            rt,
            files,
            tagged_text(),
            second_note(),
            3,
            "schema differs\n"
        )?
    );
    Ok(())
}

// ---- faults

/// Whether the notes find a fault in this store, which stays as it was.
fn is_fault(rt: HostRuntime, kept: &[u8], note: &[u8]) -> Result<bool, Memory> {
    stays(rt, shelf(rt.alloc())?, kept, note, 7, "keeper fault\n")
}

#[test]
fn a_line_that_lies_is_a_fault(rt: HostRuntime) -> Result<(), Fail> {
    let short =
        b"layout 2\ntable Main.note Body:string Id:int Owner:string primary Id\nsequence Main.ids".as_slice();
    assert!(rt; is_fault(rt, second_text(), first_note())?);
    assert!(rt; is_fault(rt, first_text(), second_note())?);
    assert!(rt; is_fault(rt, short, second_note())?);
    assert!(rt; is_fault(rt, b"layout 3\n", second_note())?);
    Ok(())
}

/// A missing column, an unknown one, a repeated one, and two that are exchanged.
#[test]
fn other_columns_are_faults(rt: HostRuntime) -> Result<(), Fail> {
    let missing =
        b"\x00\x00\x00\x04Body\x00\x00\x00\x03a&b\x00\x00\x00\x02Id\x00\x00\x00\x00\x00\x00\x00\x01".as_slice();
    let repeated =
        b"\x00\x00\x00\x04Body\x00\x00\x00\x03a&b\x00\x00\x00\x02Id\x00\x00\x00\x00\x00\x00\x00\x01\x00\x00\x00\x02Id\x00\x00\x00\x00\x00\x00\x00\x01\x00\x00\x00\x05Owner\x00\x00\x00\x03ann".as_slice();
    let exchanged =
        b"\x00\x00\x00\x02Id\x00\x00\x00\x00\x00\x00\x00\x01\x00\x00\x00\x04Body\x00\x00\x00\x03a&b\x00\x00\x00\x05Owner\x00\x00\x00\x03ann".as_slice();
    let other =
        b"\x00\x00\x00\x04Bodx\x00\x00\x00\x03a&b\x00\x00\x00\x02Id\x00\x00\x00\x00\x00\x00\x00\x01\x00\x00\x00\x05Owner\x00\x00\x00\x03ann".as_slice();
    assert!(rt; is_fault(rt, second_text(), missing)?);
    assert!(rt; is_fault(rt, second_text(), with_no_tag())?);
    assert!(rt; is_fault(rt, second_text(), repeated)?);
    assert!(rt; is_fault(rt, second_text(), exchanged)?);
    assert!(rt; is_fault(rt, second_text(), other)?);
    Ok(())
}

/// A value and a name that are cut off, and a row without bytes.
#[test]
fn a_row_that_is_cut_off_is_a_fault(rt: HostRuntime) -> Result<(), Fail> {
    let in_name =
        b"\x00\x00\x00\x04Body\x00\x00\x00\x03a&b\x00\x00\x00\x02Id\x00\x00\x00\x00\x00\x00\x00\x01\x00".as_slice();
    assert!(rt; is_fault(rt, second_text(), short_note())?);
    assert!(rt; is_fault(rt, second_text(), in_name)?);
    assert!(rt; is_fault(rt, second_text(), b"")?);
    Ok(())
}

/// Under the notes with a tag, a row that has one that is no text.
#[test]
fn a_new_column_has_its_kind(rt: HostRuntime) -> Result<(), Fail> {
    let alloc = rt.alloc();
    let bodies = store(rt, tagged_text(), with_no_tag())?;
    let (came, _bodies) = ran(alloc, tagged(alloc)?, bodies, &[list()])?;
    assert!(rt; came.is(0, 1));
    let wrong =
        b"\x00\x00\x00\x04Body\x00\x00\x00\x03a&b\x00\x00\x00\x02Id\x00\x00\x00\x00\x00\x00\x00\x01\x00\x00\x00\x05Owner\x00\x00\x00\x03ann\x00\x00\x00\x03Tag\x02".as_slice();
    assert!(rt;
        stays(
            rt,
            tagged(alloc)?,
            tagged_text(),
            wrong,
            7,
            "keeper fault\n"
        )?
    );
    Ok(())
}

// ---- which schemas extend which

/// Whether the schema of one text extends that of the other.
fn extends(alloc: Global, text: &str, kept: &str) -> Result<bool, Memory> {
    let Some(schema) = read_schema(alloc, text.as_bytes())? else {
        return Ok(false);
    };
    let Some(kept) = read_schema(alloc, kept.as_bytes())? else {
        return Ok(false);
    };
    Ok(schema.extends(&kept))
}

fn kept_table() -> &'static str {
    "table t B:int D:string primary B\n"
}

/// Columns before, between and behind those that were kept, by which the places of a key move.
#[test]
fn optional_columns_may_be_added(rt: HostRuntime) -> Result<(), Fail> {
    let alloc = rt.alloc();
    let before = "table t A:int? B:int D:string primary B\n";
    let between = "table t B:int C:bool? D:string primary B\n";
    let behind = "table t B:int D:string E:string? primary B\n";
    let all = "table t A:int? B:int C:int? D:string E:int? primary B\n";
    assert!(rt; extends(alloc, before, kept_table())?);
    assert!(rt; extends(alloc, between, kept_table())?);
    assert!(rt; extends(alloc, behind, kept_table())?);
    assert!(rt; extends(alloc, all, kept_table())?);
    Ok(())
}

/// An equal schema, one whose unique key moves, beside a sequence, and one without tables.
#[test]
fn an_equal_schema_extends(rt: HostRuntime) -> Result<(), Fail> {
    let alloc = rt.alloc();
    let unique = "table t B:int D:int? unique B\nsequence s\n";
    let grown = "table t A:int? B:int D:int? unique B\nsequence s\n";
    assert!(rt; extends(alloc, kept_table(), kept_table())?);
    assert!(rt; extends(alloc, grown, unique)?);
    assert!(rt; extends(alloc, "", "")?);
    Ok(())
}

/// A column that each row must have, one that goes, one of another kind, and one that becomes optional.
#[test]
fn no_other_column_is_taken(rt: HostRuntime) -> Result<(), Fail> {
    let alloc = rt.alloc();
    let more = "table t B:int D:string E:int primary B\n";
    assert!(rt; !extends(alloc, more, kept_table())?);
    assert!(rt; !extends(alloc, "table t B:int primary B\n", kept_table())?);
    assert!(rt; !extends(alloc, "table t B:int D:int primary B\n", kept_table())?);
    assert!(rt; !extends(alloc, "table t B:int D:string? primary B\n", kept_table())?);
    Ok(())
}

/// A key of another column, one that is no longer the primary one, one more, and a longer one.
#[test]
fn no_other_key_is_taken(rt: HostRuntime) -> Result<(), Fail> {
    let alloc = rt.alloc();
    let two = "table t B:int D:string primary B unique D\n";
    assert!(rt; !extends(alloc, "table t B:int D:string primary D\n", kept_table())?);
    assert!(rt; !extends(alloc, "table t B:int D:string unique B\n", kept_table())?);
    assert!(rt; !extends(alloc, two, kept_table())?);
    assert!(rt; !extends(alloc, "table t B:int D:string primary B D\n", kept_table())?);
    Ok(())
}

/// Another name, a sequence more, a table more, and tables and sequences in another order.
#[test]
fn no_other_tables_are_taken(rt: HostRuntime) -> Result<(), Fail> {
    let alloc = rt.alloc();
    let with_sequence = "table t B:int D:string primary B\nsequence s\n";
    let with_table = "table t B:int D:string primary B\ntable u A:int\n";
    let tables = "table a A:int\ntable b A:int\n";
    let turned_tables = "table b A:int\ntable a A:int\n";
    let sequences = "sequence s\nsequence t\n";
    let turned_sequences = "sequence t\nsequence s\n";
    assert!(rt; !extends(alloc, "table u B:int D:string primary B\n", kept_table())?);
    assert!(rt; !extends(alloc, with_sequence, kept_table())?);
    assert!(rt; !extends(alloc, with_table, kept_table())?);
    assert!(rt; !extends(alloc, turned_tables, tables)?);
    assert!(rt; !extends(alloc, turned_sequences, sequences)?);
    Ok(())
}
