//! A server over a keeper in memory, and the connections that it serves.
ghost use Rattle.std.specs.Prelude.{◌≡◌, ◌≤◌, ◌↔◌, ◌+◌, ℕ, false, true, IfOk, IfSome, IsTrue, length};
ghost use Rattle.ur_code.specs.Fits.{Fits};
ghost use Rattle.ur_machine.specs.Answers.{ArePatternsOf};
ghost use Rattle.code_cases.specs.Ready.{IsReadyFor};

use crate::codes::{nothing, take_text};
use std::alloc::Global;
use ur_base::{List, Memory, Room, Text};
use ur_code::Code;
use ur_conditions::Patterns;
use ur_http::Splitter;
use ur_invalidate::patterns;
use ur_io::{Mark, MemoryWire, SessionEnd, Why, Wire};
use ur_keeper::MemoryKeeper;
use ur_machine::patterns_are_sound;
use ur_serve::{Server, session};
use ur_verify::verify;

/// The most requests of a connection.
const MOST: u32 = 8;

/// Serves the connections of a wire, one after the other, and tells what becomes of each: a letter for each mark, one for why it
/// ended, and how often the keeper scanned for it, with a blank between two.
pub fn serve_all(
    alloc: Global,
    text: &str,
    steps: u32,
    cache: u32,
    keeper: &mut MemoryKeeper,
    wire: &mut MemoryWire,
) -> Result<Text, Memory>
    requires { keeper.old.under_way ≡ false }
{
    let mut told = List::new(alloc);
    match started(alloc, text, steps, cache, keeper)? {
        Some(server) => serve(alloc, server, keeper, wire, &mut told)?,
        None => told.extend_from_slice(b"no server")?,
    }
    Ok(told)
}

/// The code that a text declares.
fn code_of(alloc: Global, text: &str) -> Result<Code, Memory> {
    let mut code = nothing(alloc);
    take_text(alloc, &mut code, text)?;
    Ok(code)
}

/// A server of the program in a text over this keeper.
fn started(
    alloc: Global,
    text: &str,
    steps: u32,
    cache: u32,
    keeper: &mut MemoryKeeper,
) -> Result<Option<Server>, Memory>
    requires { keeper.old.under_way ≡ false }
    ensures { IfOk result (λ made. IfSome made (λ s. IsReadyFor s keeper.new 2000)) }
{
    let code = code_of(alloc, text)?;
    let Ok(verified) = verify(alloc, code) else {
        return Ok(None);
    };
    if !verified.code().handlers.are_routes() {
        return Ok(None);
    }
    let patterns = patterns_of(alloc, verified.code())?;
    match Server::new(alloc, verified, patterns, keeper, cache, steps) {
        Ok(server) => Ok(Some(server)),
        Err(_end) => Ok(None),
    }
}

fn patterns_of(alloc: Global, code: &Code) -> Result<Patterns, Memory>
    requires { Fits code.now }
    ensures { IfOk result (ArePatternsOf code.now) }
{
    patterns_are_sound();
    let patterns = patterns(alloc, &code.queries, &code.changes)?;
    Ok(patterns)
}

/// Serves at most 1,000 connections.
fn serve(
    alloc: Global,
    mut server: Server,
    keeper: &mut MemoryKeeper,
    wire: &mut MemoryWire,
    told: &mut Text,
) -> Result<(), Memory>
    requires { IsReadyFor server keeper.old 2000 }
{
    let mut splitter = Splitter::new(alloc)?;
    let mut left = 2000;
    for _ in 0..1000 {
        match serve_next(alloc, &mut server, keeper, wire, &mut splitter, told, left)? {
            Some(after) => left = after,
            None => return Ok(()),
        }
    }
    Ok(())
}

/// Serves the next connection, where there is one and enough requests may be answered, and says how many may be behind it.
#[tactic(auto, using(crate::proofs::Readiness::ready_if))]
fn serve_next(
    alloc: Global,
    server: &mut Server,
    keeper: &mut MemoryKeeper,
    wire: &mut MemoryWire,
    splitter: &mut Splitter,
    told: &mut Text,
    left: u32,
) -> Result<Option<u32>, Memory>
    requires { IsReadyFor server.old keeper.old left }
    ensures { IfOk result (λ after. IfSome after (λ n. IsReadyFor server.new keeper.new n)) }
{
    if !is_enough(left) {
        return Ok(None);
    }
    let Ok(true) = wire.next() else {
        return Ok(None);
    };
    let before = keeper.reads();
    let end = end_of(alloc, server, keeper, wire, splitter)?;
    tell(alloc, told, &end, keeper.reads().saturating_sub(before))?;
    Ok(fewer(left, &end))
}

/// Whether a connection may be served.
fn is_enough(left: u32) -> bool
    ensures { IsTrue result ↔ (8 ≤ left) }
{
    left >= MOST
}

/// How many requests may be answered after a session, if so many could be before it.
fn fewer(left: u32, end: &SessionEnd) -> Option<u32>
    ensures { IfSome result (λ n. length end.now.marks + n ≡ left) }
{
    let count = end.marks.len();
    if count > left as usize {
        return None;
    }
    Some(left - count as u32)
}

/// The session on the current connection.
fn end_of(
    alloc: Global,
    server: &mut Server,
    keeper: &mut MemoryKeeper,
    wire: &mut MemoryWire,
    splitter: &mut Splitter,
) -> Result<SessionEnd, Memory>
    requires ready { IsReadyFor server.old keeper.old 8 }
    requires current { wire.old.is_current ≡ true }
    ensures { IfOk result (λ end. (n : ℕ) → IsReadyFor server.old keeper.old (length end.marks + n) → IsReadyFor server.new keeper.new n) }
{
    let marks = Room::new(alloc, MOST as usize)?;
    let end = session(alloc, server, keeper, wire, splitter, marks, MOST);
    Ok(end)
}

fn tell(alloc: Global, told: &mut Text, end: &SessionEnd, scans: u64) -> Result<(), Memory> {
    if !told.is_empty() {
        told.push(b' ')?;
    }
    for mark in end.marks.as_slice() {
        told.push(letter(*mark))?;
    }
    let why = char::from(ending(end.why));
    let last = format!(in alloc; "{why}{scans}")?;
    told.extend_from_slice(last.as_bytes())
}

fn letter(mark: Mark) -> u8 {
    match mark {
        Mark::Done => b'd',
        Mark::Keeper => b'k',
        Mark::Memory => b'm',
    }
}

fn ending(why: Why) -> u8 {
    match why {
        Why::End => b'E',
        Why::Truncated => b'T',
        Why::Closed => b'C',
        Why::Full => b'F',
        Why::Wire => b'W',
    }
}
