//! A run over devices in memory, and what it came to.
ghost use Rattle.std.specs.Prelude.{◌≡◌, false};

use std::alloc::Global;
use ur_base::{Bytes, List, Memory};
use ur_io::{MemoryShelf, MemorySink, MemoryWire};
use ur_keeper::Keeper;
use ur_top::{Outcome, run};

/// The bytes that a connection, or a report, has room for.
const ROOM: usize = 65_536;

/// What a run came to: its status, the number of its sessions, what it gave on its connection, and what it printed.
#[derive(Drop)]
pub(crate) struct Ran {
    pub(crate) status: u8,
    pub(crate) sessions: usize,
    pub(crate) given: Bytes,
    pub(crate) printed: Bytes,
}

impl Ran {
    pub(crate) fn is(&self, status: u8, sessions: usize) -> bool {
        self.status == status && self.sessions == sessions
    }
}

/// A run of the notes of this shelf over one connection with these requests.
pub(crate) fn run_over<K: Keeper>(
    alloc: Global,
    mut shelf: MemoryShelf,
    keeper: &mut K,
    requests: &[&str],
) -> Result<Ran, Memory>
    requires { K.under_way keeper.old ≡ false }
    ensures { K.under_way keeper.new ≡ false }
{
    let words = words(alloc)?;
    let mut wire = wire(alloc, requests)?;
    let mut out = MemorySink::new(alloc, ROOM, List::new(alloc))?;
    let outcome = outcome_of(
        alloc,
        words.as_slice(),
        &mut shelf,
        &mut wire,
        keeper,
        &mut out,
    );
    let given = first_given(alloc, &wire)?;
    let printed = List::from_slice(alloc, out.given())?;
    Ok(Ran {
        status: outcome.status,
        sessions: outcome.sessions.len(),
        given,
        printed,
    })
}

/// `run`, of which the proofs here need to know one thing: no transaction is left under way.
fn outcome_of<K: Keeper>(
    alloc: Global,
    words: &[String],
    shelf: &mut MemoryShelf,
    wire: &mut MemoryWire,
    keeper: &mut K,
    out: &mut MemorySink,
) -> Outcome
    requires { K.under_way keeper.old ≡ false }
    ensures { K.under_way keeper.new ≡ false }
{
    run(alloc, words, shelf, wire, keeper, out)
}

/// What was given on the first connection, where there is one.
fn first_given(alloc: Global, wire: &MemoryWire) -> Result<Bytes, Memory> {
    if wire.opened() == 0 {
        return Ok(List::new(alloc));
    }
    List::from_slice(alloc, wire.given(0))
}

/// One connection with these requests.
fn wire(alloc: Global, requests: &[&str]) -> Result<MemoryWire, Memory> {
    let mut pieces: List<Bytes> = List::new(alloc);
    for request in requests {
        pieces.push(List::from_slice(alloc, request.as_bytes())?)?;
    }
    let mut connections = List::new(alloc);
    connections.push(pieces)?;
    MemoryWire::new(alloc, connections, ROOM, List::new(alloc))
}

/// The words of a run of the notes.
fn words(alloc: Global) -> Result<Vec<String>, Memory> {
    let mut words = Vec::new(alloc);
    words.push(String::from_str(alloc, "replay")?)?;
    words.push(String::from_str(alloc, "notes")?)?;
    Ok(words)
}
