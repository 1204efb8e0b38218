//! What a run answered.
use case_files::Printer;
use ur_io::{Mark, MemoryWire, SessionEnd, Why};
use ur_top::Outcome;

fn letter(mark: Mark) -> &'static [u8] {
    match mark {
        Mark::Done => b"d",
        Mark::Keeper => b"k",
        Mark::Memory => b"m",
    }
}

fn ending(why: Why) -> &'static [u8] {
    match why {
        Why::End => b"E",
        Why::Truncated => b"T",
        Why::Closed => b"C",
        Why::Full => b"F",
        Why::Wire => b"W",
    }
}

/// A letter for each mark, and one for why the session ended.
fn put_session(p: &mut Printer, end: &SessionEnd) {
    p.word(b"");
    for mark in end.marks.as_slice() {
        p.put(letter(*mark));
    }
    p.put(ending(end.why));
}

/// The status and the sessions.
pub fn put_outcome(p: &mut Printer, outcome: &Outcome) {
    p.put(b"=");
    p.number(u64::from(outcome.status));
    for end in outcome.sessions.as_slice() {
        put_session(p, end);
    }
}

/// Bytes in a line of their own, where there are any.
pub fn put_line(p: &mut Printer, mark: &[u8], bytes: &[u8]) {
    if !bytes.is_empty() {
        p.put(mark);
        p.plain(bytes);
    }
}

/// What is given on each connection.
pub fn put_given(p: &mut Printer, wire: &MemoryWire) {
    for i in 0..wire.opened() {
        put_line(p, b"\n+ ", wire.given(i));
    }
}
