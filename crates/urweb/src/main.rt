//! The program: words, devices, status. All that it does is in a run.
#![tactic(auto)]

ghost use Rattle.std.specs.Prelude.{◌≡◌, ◌≢◌, true, false};

use std::env;
use std::io::ErrorKind;
use std::process::ExitCode;
use ur_base::{Memory, Text};
use ur_io::{FileShelf, StdSink, StdWire, Wire};
use ur_io_tcp::TcpWire;
use ur_sqlkeeper::SqlBodies;
use ur_stores::{run_in_memory, run_over};
use ur_words::{Command, Wanted, wanted};

/// The status where there is no memory for the words.
const NO_MEMORY: u8 = 8;

fn main(rt: HostRuntime) -> ExitCode {
    match words_and_wanted(&rt) {
        Ok((words, wanted)) => ExitCode::from(with_wire(rt, words.as_slice(), wanted)),
        Err(_) => ExitCode::from(NO_MEMORY),
    }
}

fn words_and_wanted(rt: &HostRuntime) -> Result<(Vec<String>, Wanted), Memory> {
    let words = words_given(rt)?;
    let wanted = wanted(rt.alloc(), words.as_slice())?;
    Ok((words, wanted))
}

/// The words after the program's name, and none where some word is no text, which reads as no command.
fn words_given(rt: &HostRuntime) -> Result<Vec<String>, Memory> {
    let mut words = Vec::new(rt.alloc());
    match env::args(rt) {
        Ok(all) => {
            for word in all.skip(1) {
                words.push(word)?;
            }
        }
        Err(error) if error.kind() == ErrorKind::OutOfMemory => return Err(Memory),
        Err(_) => {}
    }
    Ok(words)
}

/// A run over the connections that are wanted. A port is listened on before anything is printed; where that fails, the run's own
/// first call tries again, and tells.
fn with_wire(rt: HostRuntime, words: &[String], wanted: Wanted) -> u8 {
    let Wanted { command, port, db } = wanted;
    let out = sink(rt, command);
    match command {
        Command::Serve => {
            let mut wire = TcpWire::new(rt, port);
            let _ = wire.listen();
            with_tables(rt, words, db, out, &mut wire)
        }
        _ => {
            let mut wire = StdWire::new(rt);
            with_tables(rt, words, db, out, &mut wire)
        }
    }
}

/// Where reports go. `replay` has its connection on standard input and output, so its reports go to standard error.
fn sink(rt: HostRuntime, command: Command) -> StdSink
    ensures replay { command ≡ Command.Replay → result.is_error ≡ true }
    ensures others { command ≢ Command.Replay → result.is_error ≡ false }
{
    match command {
        Command::Replay => StdSink::err(rt),
        _ => StdSink::out(rt),
    }
}

/// A run with its tables in the file that is wanted, or in memory.
fn with_tables<W: Wire>(
    rt: HostRuntime,
    words: &[String],
    db: Option<Text>,
    mut out: StdSink,
    wire: &mut W,
) -> u8 {
    let alloc = rt.alloc();
    let mut shelf = FileShelf::new(rt);
    match db {
        Some(path) => {
            let bodies = SqlBodies::in_file(rt, path);
            let (outcome, _keeper) = run_over(alloc, words, &mut shelf, wire, bodies, &mut out);
            outcome.status
        }
        None => {
            let (outcome, _keeper) = run_in_memory(alloc, words, &mut shelf, wire, &mut out);
            outcome.status
        }
    }
}
