//! Files, connections and reports in memory.
ghost use Rattle.std.specs.Prelude.{◌≡◌, ◌<◌, ◌≤◌, true};

use std::alloc::Global;
use std::process::Abort;
use std::test::Fail;
use ur_base::{Bytes, List, Memory};
use ur_io::{
    Failed, FetchEnd, Fetched, MemoryShelf, MemorySink, MemoryWire, Shelf, Sink, Wire, give, print,
};

fn bytes(alloc: Global, text: &str) -> Result<Bytes, Memory> {
    List::from_slice(alloc, text.as_bytes())
}

fn calls(alloc: Global, numbers: &[u64]) -> Result<List<u64>, Memory> {
    List::from_slice(alloc, numbers)
}

/// Whether this was fetched: a file of this text, or an answer of this name.
pub fn is_fetched(fetched: &Result<Fetched, FetchEnd>, want: &str) -> bool {
    match fetched {
        Ok(Fetched::Whole(bytes)) => bytes.as_slice() == want.as_bytes(),
        Ok(Fetched::Longer) => want == "is longer",
        Ok(Fetched::Missing) => want == "is missing",
        Err(FetchEnd::Failed) => want == "failed",
        Err(FetchEnd::Memory) => want == "no memory",
    }
}

/// Files of these names and texts, of which the second and the seventh call fail.
fn shelf(alloc: Global) -> Result<MemoryShelf, Memory> {
    let mut files = List::new(alloc);
    for (name, text) in [("a.ur", "12345"), ("empty", ""), ("a.ur", "second")] {
        let text = bytes(alloc, text)?;
        let name = bytes(alloc, name)?;
        files.push((name, text))?;
    }
    let fail = calls(alloc, &[2, 7])?;
    Ok(MemoryShelf::new(alloc, files, fail))
}

/// What is fetched, and how.
const FETCHES: [(&str, usize, &str); 7] = [
    ("a.ur", 5, "12345"),
    ("a.ur", 5, "failed"),
    ("a.ur", 6, "12345"),
    ("a.ur", 4, "is longer"),
    ("empty", 0, ""),
    ("b.ur", 5, "is missing"),
    ("b.ur", 5, "failed"),
];

/// How many of the rows come as they must, one after the other.
fn fetches<S: Shelf>(shelf: &mut S, rows: &[(&str, usize, &str)]) -> usize {
    let mut right = 0usize;
    for row in rows {
        let fetched = shelf.fetch(row.0, row.1);
        if is_fetched(&fetched, row.2) {
            right = right.saturating_add(1);
        }
    }
    right
}

#[test]
fn files_in_memory(rt: HostRuntime) -> Result<(), Fail> {
    let mut shelf = shelf(rt.alloc())?;
    assert_eq!(rt; fetches(&mut shelf, &FETCHES), 7);
    Ok(())
}

#[test]
fn reports_in_memory(rt: HostRuntime) -> Result<(), Fail> {
    let alloc = rt.alloc();
    let mut sink = MemorySink::new(alloc, 5, calls(alloc, &[2])?)?;
    let rows = [
        ("ab", Ok(()), "ab"),
        ("cd", Err(Failed), "ab"),
        ("cdef", Err(Failed), "abcde"),
        ("", Ok(()), "abcde"),
        ("f", Err(Failed), "abcde"),
    ];
    for (text, answer, given) in rows {
        assert_eq!(rt; print(&mut sink, text.as_bytes()), answer, "{text}");
        assert_eq!(rt; sink.given(), given.as_bytes(), "after {text}");
    }
    assert_eq!(rt; sink.write(b"".as_slice()), Ok(0));
    Ok(())
}

/// A wire with the connections `abc` in three pieces, one of them empty, and an empty one.
fn two_connections(alloc: Global, room: usize, fail: &[u64]) -> Result<MemoryWire, Memory> {
    let mut first = List::new(alloc);
    for piece in ["ab", "", "c"] {
        first.push(bytes(alloc, piece)?)?;
    }
    let mut connections = List::new(alloc);
    connections.push(first)?;
    connections.push(List::new(alloc))?;
    MemoryWire::new(alloc, connections, room, calls(alloc, fail)?)
}

fn open(rt: &impl Abort, wire: &mut MemoryWire)
    ensures { wire.new.is_current ≡ true }
{
    match wire.next() {
        Ok(true) => {}
        _ => panic!(rt; "no connection"),
    }
}

/// Reads into a buffer of this size.
fn reads(rt: &impl Abort, wire: &mut MemoryWire, size: usize, want: &str)
    requires current { wire.old.is_current ≡ true }
    requires size { (0 < size) × (size ≤ 8) }
    ensures { wire.new.is_current ≡ true }
{
    let mut buf = [0u8; 8];
    match wire.read(&mut buf[..size]) {
        Ok(count) => assert_eq!(rt; &buf[..count], want.as_bytes()),
        Err(Failed) => panic!(rt; "a read failed"),
    }
}

fn given_on(rt: &impl Abort, wire: &MemoryWire, connection: usize, want: &str) {
    assert!(rt; connection < wire.opened());
    assert_eq!(rt;
        wire.given(connection),
        want.as_bytes(),
        "on connection {connection}"
    );
}

#[test]
fn connections_in_memory(rt: HostRuntime) -> Result<(), Fail> {
    let mut wire = two_connections(rt.alloc(), 9, &[])?;
    open(&rt, &mut wire);
    reads(&rt, &mut wire, 1, "a");
    reads(&rt, &mut wire, 8, "b");
    reads(&rt, &mut wire, 8, "c");
    reads(&rt, &mut wire, 8, "");
    give(&mut wire, b"one".as_slice())?;
    assert_eq!(rt; wire.write(b"+".as_slice()), Ok(1));
    wire.shut();
    open(&rt, &mut wire);
    assert_eq!(rt; wire.read(&mut [0u8; 8]), Ok(0));
    give(&mut wire, b"two".as_slice())?;
    assert_eq!(rt; wire.next(), Ok(false));
    assert_eq!(rt; wire.next(), Ok(false));
    given_on(&rt, &wire, 0, "one+");
    given_on(&rt, &wire, 1, "two");
    Ok(())
}

#[test]
fn failures_of_connections(rt: HostRuntime) -> Result<(), Fail> {
    let mut wire = two_connections(rt.alloc(), 4, &[1, 3, 5])?;
    assert_eq!(rt; wire.next(), Err(Failed));
    open(&rt, &mut wire);
    let mut buf = [0u8; 8];
    assert_eq!(rt; wire.read(&mut buf), Err(Failed));
    assert_eq!(rt; wire.read(&mut buf), Ok(2));
    assert_eq!(rt; give(&mut wire, b"x".as_slice()), Err(Failed));
    assert_eq!(rt; give(&mut wire, b"front".as_slice()), Err(Failed));
    given_on(&rt, &wire, 0, "fron");
    assert_eq!(rt; wire.write(b"".as_slice()), Ok(0));
    Ok(())
}
