//! What comes of connections to a server of a program.
use crate::scripts::{Script, Sizes};
use crate::serving::serve_all;
use case_files::Printer;
use std::alloc::Global;
use ur_base::{Bytes, List, Memory, Text};
use ur_io::MemoryWire;
use ur_keeper::MemoryKeeper;

/// The input in pieces: a first one of so many bytes, and others of this size.
fn pieces(alloc: Global, input: &[u8], first: usize, size: u32) -> Result<List<Bytes>, Memory> {
    let first = first.min(input.len());
    let mut pieces = List::new(alloc);
    pieces.push(List::from_slice(alloc, &input[..first])?)?;
    for piece in input[first..].chunks((size as usize).max(1)) {
        pieces.push(List::from_slice(alloc, piece)?)?;
    }
    Ok(pieces)
}

/// Each connection so often.
fn connections(alloc: Global, script: &Script, cut: usize) -> Result<List<List<Bytes>>, Memory> {
    let mut connections = List::new(alloc);
    for input in script.inputs.as_slice() {
        for _ in 0..script.sizes.times {
            let pieces = pieces(alloc, input.as_slice(), cut, script.sizes.piece)?;
            connections.push(pieces)?;
        }
    }
    Ok(connections)
}

fn wire_of(alloc: Global, script: &Script, cut: usize) -> Result<MemoryWire, Memory> {
    let connections = connections(alloc, script, cut)?;
    let calls = List::from_slice(alloc, &[u64::from(script.sizes.wire)])?;
    MemoryWire::new(alloc, connections, 1 << 20, calls)
}

/// What is given on each connection where it is not the same as on the one before.
fn put_given(p: &mut Printer, wire: &MemoryWire) {
    let mut last: &[u8] = b"";
    for n in 0..wire.opened() {
        let given = wire.given(n);
        if given != last {
            p.put(b"\n+ ");
            p.plain(given);
            last = given;
        }
    }
}

/// One run, where this call of the keeper fails and the first piece of each connection has so many bytes.
fn run(alloc: Global, text: &str, script: &Script, call: u32, cut: usize) -> Result<Text, Memory> {
    let mut wire = wire_of(alloc, script, cut)?;
    let told = told(alloc, text, script.sizes, call, &mut wire)?;
    let mut p = Printer::new(alloc);
    p.put(b"= ");
    p.put(told.as_slice());
    put_given(&mut p, &wire);
    p.finish()
}

fn told(
    alloc: Global,
    text: &str,
    sizes: Sizes,
    call: u32,
    wire: &mut MemoryWire,
) -> Result<Text, Memory> {
    let calls = List::from_slice(alloc, &[u64::from(call)])?;
    let mut keeper = MemoryKeeper::new(alloc, calls);
    serve_all(alloc, text, sizes.steps, sizes.cache, &mut keeper, wire)
}

/// How many places there are where the first piece may end.
fn cuts(script: &Script) -> usize {
    let mut longest = 0;
    if script.sizes.cuts {
        for input in script.inputs.as_slice() {
            longest = input.len().max(longest);
        }
    }
    longest.max(1)
}

/// Puts a run where it is not the same as the one before.
fn put_if_new(p: &mut Printer, last: &Text, run: &Text) {
    if last.as_slice() != run.as_slice() {
        if !last.is_empty() {
            p.put(b"\n");
        }
        p.put(run.as_slice());
    }
}

/// All runs with this call failing, and the last of them.
fn put_cuts(
    alloc: Global,
    text: &str,
    script: &Script,
    call: u32,
    last: Text,
    p: &mut Printer,
) -> Result<Text, Memory> {
    let mut last = last;
    for cut in 0..cuts(script) {
        let run = run(alloc, text, script, call, cut)?;
        put_if_new(p, &last, &run);
        last = run;
    }
    Ok(last)
}

fn put_runs(alloc: Global, text: &str, script: &Script, p: &mut Printer) -> Result<(), Memory> {
    let (from, to) = script.sizes.keeper;
    let mut last = List::new(alloc);
    for call in from..=to {
        last = put_cuts(alloc, text, script, call, last, p)?;
    }
    Ok(())
}

/// What comes of the connections of a text, to a server of the program in it: of each run that differs from the one before.
pub fn served(alloc: Global, text: &str, p: &mut Printer) -> Result<(), Memory> {
    let mut script = Script::new(alloc);
    script.take(alloc, text)?;
    put_runs(alloc, text, &script, p)
}
