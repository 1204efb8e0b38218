//! Sessions over a wire in memory, answered by paths.
ghost use Rattle.std.specs.Prelude.{◌≡◌, ◌<◌, ◌≤◌, ℕ, Bool, true, None, ⊤};

use std::alloc::Global;
use std::test::Fail;
use ur_base::{Bytes, List, Memory, Room};
use ur_http::{HttpRequest, Splitter, fixed, respond, status_answer};
use ur_io::{Mark, MemoryWire, SessionEnd, Why, Wire};
use ur_serve::{Reply, Responder, session};

/// Answers each request with its path, over a count of faults: `/keeper` adds one, and `/memory` finds no memory.
#[derive(Drop)]
struct Paths;

impl Responder<u64> for Paths {
    ghost Program = { ⊤ };

    ghost State = { ⊤ };

    ghost Kept = { ⊤ };

    ghost Bound = { ⊤ };

    ghost program = { λ _. tt };

    ghost state = { λ _ _. None };

    ghost kept = { λ _. tt };

    ghost answers = { λ _ _ _ _ _. ⊤ };

    ghost reaches = { λ _ _. ⊤ };

    ghost is_ready = { λ _ _ _ _. ⊤ };

    ghost faults = { λ count. count };

    fn answer(
        &mut self,
        alloc: Global,
        keeper: &mut u64,
        request: &HttpRequest,
        close: bool,
    ) -> Reply {
        if request.path.as_slice() == b"/keeper".as_slice() {
            *keeper = keeper.saturating_add(1);
            return Reply::Keeper;
        }
        if request.path.as_slice() == b"/memory".as_slice() {
            return Reply::Memory;
        }
        match respond(
            alloc,
            200,
            "",
            &[],
            request.path.as_slice(),
            false,
            request.close || close,
        ) {
            Ok(bytes) => Reply::Done(bytes),
            Err(_memory) => Reply::Memory,
        }
    }

    ghost fewer = { λ _ _ _ _ _. tt };
}

/// What a session left: how it ended, and what was given.
#[derive(Drop)]
struct Left {
    end: SessionEnd,
    given: Bytes,
}

/// The input in two pieces, cut at this byte.
fn wire_of(alloc: Global, input: &str, cut: usize, fail: u64) -> Result<MemoryWire, Memory> {
    let bytes = input.as_bytes();
    let cut = cut.min(bytes.len());
    let mut pieces = List::new(alloc);
    pieces.push(List::from_slice(alloc, &bytes[..cut])?)?;
    pieces.push(List::from_slice(alloc, &bytes[cut..])?)?;
    let mut connections = List::new(alloc);
    connections.push(pieces)?;
    let calls = List::from_slice(alloc, &[fail])?;
    MemoryWire::new(alloc, connections, 4096, calls)
}

/// The session on the wire's first connection, of at most so many marks; None where there is none.
fn served(alloc: Global, mut wire: MemoryWire, most: u32) -> Result<Option<Left>, Memory> {
    if most == 0 {
        return Ok(None);
    }
    let Ok(true) = wire.next() else {
        return Ok(None);
    };
    let end = end_of(alloc, &mut wire, most)?;
    if wire.opened() == 0 {
        return Ok(None);
    }
    let given = List::from_slice(alloc, wire.given(0))?;
    Ok(Some(Left { end, given }))
}

fn end_of(alloc: Global, wire: &mut MemoryWire, most: u32) -> Result<SessionEnd, Memory>
    requires current { wire.old.is_current ≡ true }
    requires some { 0 < most }
{
    let mut splitter = Splitter::new(alloc)?;
    let marks = Room::new(alloc, most as usize)?;
    let mut keeper = 0;
    let end = session(
        alloc,
        &mut Paths,
        &mut keeper,
        wire,
        &mut splitter,
        marks,
        most,
    );
    Ok(end)
}

/// What is given for words: a path is its answer, with `!` the last one, a number that of a status, which closes.
fn wanted(alloc: Global, words: &str) -> Result<Bytes, Memory> {
    let mut bytes = List::new(alloc);
    for word in words.split_ascii_whitespace() {
        let more = wanted_for(alloc, word)?;
        bytes.extend_from_slice(more.as_slice())?;
    }
    Ok(bytes)
}

fn wanted_for(alloc: Global, word: &str) -> Result<Bytes, Memory> {
    match word.strip_prefix('!') {
        Some("400") => status_answer(alloc, 400, "", false, true),
        Some("502") => List::from_slice(alloc, fixed(502)),
        Some("503") => List::from_slice(alloc, fixed(503)),
        Some(path) => respond(alloc, 200, "", &[], path.as_bytes(), false, true),
        None => respond(alloc, 200, "", &[], word.as_bytes(), false, false),
    }
}

fn letter(mark: Mark) -> u8 {
    match mark {
        Mark::Done => b'D',
        Mark::Keeper => b'K',
        Mark::Memory => b'M',
    }
}

fn are_marks(marks: &[Mark], letters: &str) -> bool {
    let bytes = letters.as_bytes();
    if marks.len() != bytes.len() {
        return false;
    }
    for (mark, byte) in marks.iter().zip(bytes.iter()) {
        if letter(*mark) != *byte {
            return false;
        }
    }
    true
}

/// An input, the most marks, and what is to come of it: marks, why it ended, and what was given.
#[derive(Clone, Copy)]
struct Row<'a> {
    input: &'a str,
    most: u32,
    marks: &'a str,
    why: Why,
    given: &'a str,
}

const TWO: &str =
    "GET /a HTTP/1.1\r\nHost: h\r\n\r\nPOST /b HTTP/1.1\r\nHost: h\r\nContent-Length: 2\r\n\r\nxy";

/// Whether the row holds with the input cut at this byte.
fn holds(alloc: Global, row: &Row<'_>, cut: usize) -> Result<bool, Memory> {
    let wire = wire_of(alloc, row.input, cut, 0)?;
    let Some(left) = served(alloc, wire, row.most)? else {
        return Ok(false);
    };
    let given = wanted(alloc, row.given)?;
    let is_end = left.end.why == row.why && are_marks(left.end.marks.as_slice(), row.marks);
    Ok(is_end && left.given.as_slice() == given.as_slice())
}

/// Whether the row holds wherever the input is cut.
fn holds_in_pieces(alloc: Global, row: &Row<'_>) -> Result<bool, Memory> {
    for cut in 0..row.input.len() {
        if !holds(alloc, row, cut)? {
            return Ok(false);
        }
    }
    Ok(true)
}

fn row_of<'a>(input: &'a str, marks: &'a str, why: Why, given: &'a str) -> Row<'a> {
    Row {
        input,
        most: 1000,
        marks,
        why,
        given,
    }
}

#[test]
fn requests_one_behind_the_other(rt: HostRuntime) -> Result<(), Fail> {
    let alloc = rt.alloc();
    let both = row_of(TWO, "DD", Why::End, "/a /b");
    assert!(rt; holds_in_pieces(alloc, &both)?);
    let full = Row {
        most: 2,
        why: Why::Full,
        given: "/a !/b",
        ..both
    };
    assert!(rt; holds_in_pieces(alloc, &full)?);
    let one = Row {
        most: 1,
        marks: "D",
        why: Why::Full,
        given: "!/a",
        ..both
    };
    assert!(rt; holds(alloc, &one, 0)?);
    Ok(())
}

#[test]
fn inputs_that_end(rt: HostRuntime) -> Result<(), Fail> {
    let alloc = rt.alloc();
    assert!(rt; holds(alloc, &row_of("", "", Why::End, ""), 0)?);
    assert!(rt;
        holds_in_pieces(
            alloc,
            &row_of("GET /a HTTP/1.1\r\nHost: h\r\n", "", Why::Truncated, "")
        )?
    );
    assert!(rt;
        holds_in_pieces(
            alloc,
            &row_of(
                "GET /a HTTP/1.1\r\nHost: h\r\n\r\nPOST /b HTTP/1.1\r\nHost: h\r\nContent-Length: 2\r\n\r\nx",
                "D",
                Why::Truncated,
                "/a"
            )
        )?
    );
    Ok(())
}

#[test]
fn answers_that_close(rt: HostRuntime) -> Result<(), Fail> {
    let alloc = rt.alloc();
    assert!(rt;
        holds_in_pieces(
            alloc,
            &row_of(
                "GET /a HTTP/1.0\r\n\r\nGET /b HTTP/1.1\r\nHost: h\r\n\r\n",
                "D",
                Why::Closed,
                "!/a"
            )
        )?
    );
    assert!(rt;
        holds_in_pieces(
            alloc,
            &row_of(
                "GET /a HTTP/1.1\r\nHost: h\r\n\r\nGET /b HTTP/1.1\r\n\r\nGET /c HTTP/1.1\r\nHost: h\r\n\r\n",
                "DD",
                Why::Closed,
                "/a !400"
            )
        )?
    );
    assert!(rt;
        holds(
            alloc,
            &row_of(
                "GET /a HTTP/1.1\r\nHost: h\r\n\r\nGET /keeper HTTP/1.1\r\nHost: h\r\n\r\nGET /c HTTP/1.1\r\nHost: h\r\n\r\n",
                "DK",
                Why::Closed,
                "/a !502"
            ),
            0
        )?
    );
    assert!(rt;
        holds(
            alloc,
            &row_of(
                "GET /memory HTTP/1.1\r\nHost: h\r\n\r\nGET /c HTTP/1.1\r\nHost: h\r\n\r\n",
                "M",
                Why::Closed,
                "!503"
            ),
            0
        )?
    );
    Ok(())
}

/// Whether the session on two requests is cut off where this call of the wire fails, with these marks and this given.
fn is_cut_off(alloc: Global, fail: u64, marks: &str, given: &str) -> Result<bool, Memory> {
    let wire = wire_of(alloc, TWO, TWO.len(), fail)?;
    let Some(left) = served(alloc, wire, 1000)? else {
        return Ok(false);
    };
    let given = wanted(alloc, given)?;
    let is_end = left.end.why == Why::Wire && are_marks(left.end.marks.as_slice(), marks);
    Ok(is_end && left.given.as_slice() == given.as_slice())
}

/// Call 1 makes the connection current, 2 reads, 3 and 4 write, 5 finds the end.
#[test]
fn each_call_of_the_wire_failing(rt: HostRuntime) -> Result<(), Fail> {
    let alloc = rt.alloc();
    assert!(rt; is_cut_off(alloc, 2, "", "")?);
    assert!(rt; is_cut_off(alloc, 3, "D", "")?);
    assert!(rt; is_cut_off(alloc, 4, "DD", "/a")?);
    assert!(rt; is_cut_off(alloc, 5, "DD", "/a /b")?);
    assert!(rt; !is_cut_off(alloc, 6, "DD", "/a /b")?);
    Ok(())
}
