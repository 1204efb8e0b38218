//! Devices in memory.
ghost use Rattle.std.specs.Prelude.{◌≡◌, false, IfOk};

use crate::start::{Fails, Start};
use std::alloc::Global;
use ur_base::{Bytes, List, Memory};
use ur_io::{MemoryShelf, MemorySink, MemoryWire};
use ur_keeper::MemoryKeeper;

/// The bytes that all connections, or a report, have room for.
const ROOM: usize = 262_144;

/// What a run is given beside its keeper.
#[derive(Drop)]
pub struct Devices {
    pub shelf: MemoryShelf,
    pub wire: MemoryWire,
    pub sink: MemorySink,
}

/// The files, connections with the first so many of these inputs, and room for reports.
pub fn devices_of(
    alloc: Global,
    start: &Start,
    inputs: &[Bytes],
    count: usize,
    fails: Fails,
) -> Result<Devices, Memory> {
    let shelf = shelf_of(alloc, start.files.as_slice(), fails.shelf)?;
    let wire = wire_of(alloc, inputs, count, start.piece, fails.wire)?;
    let sink = sink_of(alloc, fails.sink)?;
    Ok(Devices { shelf, wire, sink })
}

fn shelf_of(alloc: Global, from: &[(Bytes, Bytes)], fails: u64) -> Result<MemoryShelf, Memory> {
    let files = copied(alloc, from)?;
    let fail = List::from_slice(alloc, &[fails])?;
    Ok(MemoryShelf::new(alloc, files, fail))
}

fn copied(alloc: Global, from: &[(Bytes, Bytes)]) -> Result<List<(Bytes, Bytes)>, Memory> {
    let mut files = List::new(alloc);
    for file in from {
        files.push(copy_of(alloc, file.0.as_slice(), file.1.as_slice())?)?;
    }
    Ok(files)
}

fn copy_of(alloc: Global, name: &[u8], text: &[u8]) -> Result<(Bytes, Bytes), Memory> {
    let name = List::from_slice(alloc, name)?;
    let text = List::from_slice(alloc, text)?;
    Ok((name, text))
}

fn wire_of(
    alloc: Global,
    inputs: &[Bytes],
    count: usize,
    piece: usize,
    fails: u64,
) -> Result<MemoryWire, Memory> {
    let connections = connections_of(alloc, inputs, count, piece)?;
    let fail = List::from_slice(alloc, &[fails])?;
    MemoryWire::new(alloc, connections, ROOM, fail)
}

fn connections_of(
    alloc: Global,
    inputs: &[Bytes],
    count: usize,
    piece: usize,
) -> Result<List<List<Bytes>>, Memory> {
    let mut connections = List::new(alloc);
    for input in inputs.iter().take(count) {
        connections.push(pieces(alloc, input.as_slice(), piece)?)?;
    }
    Ok(connections)
}

fn pieces(alloc: Global, input: &[u8], size: usize) -> Result<List<Bytes>, Memory> {
    let mut pieces = List::new(alloc);
    for piece in input.chunks(size.max(1)) {
        pieces.push(List::from_slice(alloc, piece)?)?;
    }
    Ok(pieces)
}

fn sink_of(alloc: Global, fails: u64) -> Result<MemorySink, Memory> {
    let fail = List::from_slice(alloc, &[fails])?;
    MemorySink::new(alloc, ROOM, fail)
}

pub fn keeper_of(alloc: Global, fails: Fails) -> Result<MemoryKeeper, Memory>
    ensures { IfOk result (λ keeper. keeper.under_way ≡ false) }
{
    let fail = List::from_slice(alloc, &[fails.keeper, fails.keeper_too])?;
    Ok(MemoryKeeper::new(alloc, fail))
}
