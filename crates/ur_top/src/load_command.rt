//! Generated requests to the notes application.
ghost use Rattle.std.specs.Prelude.{◌≡◌, ◌≤◌, ◌<◌, false, List, [], ◌∷◌, ℕ, suc, Some, IfOk, OnOk, IfErr};
ghost use Rattle.ur_base.specs.Stopping.{IfRefused};
ghost use Rattle.ur_io.specs.Memory.{traffic_of};
ghost use Rattle.ur_keeper.specs.Memory.{kept_of};
ghost use Rattle.ur_keeper.specs.Tables.{NumbersUpTo, store_of};
ghost use Rattle.ur_tree.specs.declared.typed.Typed.{Typed};
ghost use Rattle.ur_top.specs.Requests.{requests};
ghost use Rattle.ur_serve.specs.Program.{fresh};
ghost use Rattle.ur_serve.specs.Responding.{served_by};
ghost use Rattle.ur_serve.specs.Serving.{IsReady};
ghost use Rattle.ur_compile.specs.Explains.{Refuses};
ghost use Rattle.ur_top.specs.Asking.{holding_in, IsReadyFor, IsAnswered, AreAnswered, notes_settings, IsNotesServer, HasScansOf, IsUnloaded};
ghost use Rattle.ur_top.specs.Loads.{IsLoadReport};
ghost use Rattle.ur_top.specs.Notes.{notes_files, notes_word};
ghost use Rattle.ur_top.specs.Sources.{OfFiles, IsCoded};
ghost use Rattle.ur_top.specs.Starting.{IsLoadEnd};

use crate::attaching::start;
use crate::compiling::end_of;
use crate::connections::MOST_REQUESTS;
use crate::next_connection::{Next, serve_next};
use crate::notes_of_load::notes_files;
use crate::reporting::RunEnd;
use crate::{next_state, request};
use std::alloc::Global;
use ur_base::{Bytes, List, Memory, Stop};
use ur_compile::{compile, one_application};
use ur_headline::{code_serves_source, sound_tables_last};
use ur_http::Splitter;
use ur_io::{Mark, MemoryShelf, MemoryWire, SessionEnd};
use ur_keeper::MemoryKeeper;
use ur_serve::Server;
use ur_words::{LoadReport, Settings};

/// The most bytes that an answer to a generated request has.
const ANSWER_ROOM: usize = 33_554_432;

/// The scans that so many generated requests take without a cache, and with one of 64 entries.
pub fn load(alloc: Global, seed: u32, count: u32) -> Result<LoadReport, Stop>
    ensures report { IfOk result (λ r. (r.requests ≡ count) × IsLoadReport seed r) }
    ensures coded { IfOk result (λ r. OfFiles (Some notes_files) notes_word IsCoded) }
    ensures refused { IfRefused result (λ r. (file : List ℕ) × Refuses notes_files notes_word file r) }
{
    match report_of(alloc, seed, count) {
        Ok(report) => Ok(report),
        Err(RunEnd::Refused { file: _, refusal }) => Err(Stop::Refused(refusal)),
        Err(_) => Err(Stop::Memory),
    }
}

/// The same, as the end of a run: a report, a refusal or want of memory.
pub(crate) fn loaded(alloc: Global, seed: u32, count: u32) -> RunEnd
    ensures { IsLoadEnd seed count result }
{
    match report_of(alloc, seed, count) {
        Ok(report) => RunEnd::Loaded(report),
        Err(RunEnd::Refused { file, refusal }) => RunEnd::Refused { file, refusal },
        Err(_) => RunEnd::Memory,
    }
}

fn report_of(alloc: Global, seed: u32, count: u32) -> Result<LoadReport, RunEnd>
    ensures report { IfOk result (λ r. IsLoadEnd seed count (RunEnd.Loaded r)) }
    ensures refused { IfErr result IsUnloaded }
{
    one_application();
    let plain = scans(alloc, seed, count, 0)?;
    let cached = scans(alloc, seed, count, 64)?;
    Ok(LoadReport {
        requests: count,
        plain,
        cached,
    })
}

/// The scans with a cache of this capacity.
fn scans(alloc: Global, seed: u32, count: u32, cache: u32) -> Result<u64, RunEnd>
    ensures scans { IfOk result (HasScansOf (requests count seed) cache) }
    ensures refused { IfErr result IsUnloaded }
{
    code_serves_source();
    sound_tables_last();
    let mut keeper = MemoryKeeper::new(alloc, List::new(alloc));
    let server = notes_server(alloc, cache, &mut keeper)?;
    match ask_all(alloc, server, seed, count, &mut keeper) {
        Ok(()) => Ok(keeper.reads()),
        Err(_) => Err(RunEnd::Memory),
    }
}

/// A server of the notes with a cache of this capacity.
fn notes_server(alloc: Global, cache: u32, keeper: &mut MemoryKeeper) -> Result<Server, RunEnd>
    requires { keeper.old.under_way ≡ false }
    ensures started { IfOk result (λ s. (app : Typed) × IsNotesServer app cache keeper.old s keeper.new) }
    ensures refused { IfErr result IsUnloaded }
    ensures reads { keeper.new.reads ≡ keeper.old.reads }
{
    let Ok(files) = notes_files(alloc) else {
        return Err(RunEnd::Memory);
    };
    let mut shelf = MemoryShelf::new(alloc, files, List::new(alloc));
    match compile(alloc, &mut shelf, "notes") {
        Ok(compiled) => start(alloc, compiled, &settings(cache), keeper),
        Err(end) => Err(end_of(end)),
    }
}

fn settings(cache: u32) -> Settings
    ensures { result ≡ notes_settings cache }
{
    Settings {
        db: None,
        cache,
        steps: 100_000,
    }
}

/// Answers so many requests from a state on, each on a connection of its own.
fn ask_all(
    alloc: Global,
    mut server: Server,
    seed: u32,
    count: u32,
    keeper: &mut MemoryKeeper,
) -> Result<(), Memory>
    requires ready { IsReady server (kept_of keeper.old.kept) keeper.old.under_way (Some keeper.old.saved) }
    requires numbers { NumbersUpTo 4611686018427387904 keeper.old.saved }
    requires units { server.steps ≤ 4294967295 }
    requires fresh { server.cache.entries ≡ [] }
    ensures { OnOk result (AreAnswered (served_by server) (fresh (store_of keeper.old.saved) keeper.old.reads) (requests count seed) keeper.new.reads) }
{
    let mut left = MOST_REQUESTS;
    if count > left {
        return Err(Memory);
    }
    let mut splitter = Splitter::new(alloc)?;
    let mut state = seed;
    for _turn in 0..count {
        state = next_state(state);
        let asked = request(alloc, state)?;
        ask(alloc, &mut server, left, &mut splitter, asked, keeper)?;
        left -= 1;
    }
    Ok(())
}

/// Answers one request, where so many may still be answered.
fn ask(
    alloc: Global,
    server: &mut Server,
    left: u32,
    splitter: &mut Splitter,
    asked: Bytes,
    keeper: &mut MemoryKeeper,
) -> Result<(), Memory>
    requires ready { (bound : ℕ) × IsReadyFor bound server.old keeper.old left }
    requires some { 0 < left }
    ensures answered { OnOk result (IsAnswered (served_by server.old) left (holding_in server.old keeper.old) asked (holding_in server.new keeper.new)) }
    ensures ready { OnOk result ((bound n : ℕ) → IsReadyFor bound server.old keeper.old (suc n) → IsReadyFor bound server.new keeper.new n) }
    ensures same { served_by server.new ≡ served_by server.old }
{
    let mut wire = wire_of(alloc, asked)?;
    match serve_next(alloc, server, left as usize, splitter, &mut wire, keeper) {
        Next::Served(end) => whole(&end),
        Next::Over(_) => Err(Memory),
    }
}

/// One connection with this input.
fn wire_of(alloc: Global, asked: Bytes) -> Result<MemoryWire, Memory>
    ensures { IfOk result (λ w. (traffic_of w).coming ≡ asked ∷ []) }
{
    let mut pieces = List::new(alloc);
    pieces.push(asked)?;
    let mut connections = List::new(alloc);
    connections.push(pieces)?;
    MemoryWire::new(alloc, connections, ANSWER_ROOM, List::new(alloc))
}

/// The one request was answered, and memory was not wanting.
fn whole(end: &SessionEnd) -> Result<(), Memory>
    ensures { OnOk result (end.now.marks ≡ Mark.Done ∷ []) }
{
    match end.marks.as_slice() {
        [Mark::Done] => Ok(()),
        _ => Err(Memory),
    }
}
