//! Runs of cases.
use crate::case::{Case, Cases};
use std::alloc::{AllocError, Global};
use std::process::ExitCode;
use std::{env, fs, io};
use ur_base::{Memory, Text};

/// What the texts of cases may be read as, and what comes of them.
pub trait Subjects {
    /// Whether a word names a subject.
    fn has(&self, word: &str) -> bool;

    /// What comes of a text, in the lines that a case wants.
    fn outcome(&self, alloc: Global, word: &str, text: &str) -> Result<Text, Memory>;
}

/// Why a run ended before its last case.
#[derive(Debug, Drop)]
enum RunEnd {
    Memory,
    Io(io::Error),
}

impl From<Memory> for RunEnd {
    fn from(_: Memory) -> RunEnd {
        RunEnd::Memory
    }
}

impl From<AllocError> for RunEnd {
    fn from(_: AllocError) -> RunEnd {
        RunEnd::Memory
    }
}

impl From<io::Error> for RunEnd {
    fn from(error: io::Error) -> RunEnd {
        RunEnd::Io(error)
    }
}

/// Runs the cases of each file that the words of the command line name.
pub fn run<S: Subjects>(rt: &HostRuntime, subjects: &S) -> ExitCode {
    match run_files(rt, subjects) {
        Ok(()) => ExitCode::SUCCESS,
        Err(_) => ExitCode::FAILURE,
    }
}

fn run_files<S: Subjects>(rt: &HostRuntime, subjects: &S) -> Result<(), RunEnd> {
    for name in env::args(rt)?.skip(1) {
        run_file(rt, subjects, name.as_str())?;
    }
    Ok(())
}

/// Runs the cases of a file, and prints how many there are and how many come as they must.
fn run_file<S: Subjects>(rt: &HostRuntime, subjects: &S, name: &str) -> Result<(), RunEnd> {
    let text = fs::read_to_string(rt, name)?;
    let Cases { cases, strays, .. } = Cases::read(rt.alloc(), subjects, text.as_str())?;
    for line in &strays {
        println!(rt; "{name}:{line}: this line is of no case")?;
    }
    let mut good = 0usize;
    for case in &cases {
        if comes_as_it_must(rt, subjects, name, case)? {
            good = good.saturating_add(1);
        }
    }
    println!(rt; "{name}: {good} of {} come as they must", cases.len())?;
    Ok(())
}

/// Whether that comes which a case wants. Both are printed where they differ.
fn comes_as_it_must<S: Subjects>(
    rt: &HostRuntime,
    subjects: &S,
    name: &str,
    case: &Case,
) -> Result<bool, RunEnd> {
    let found = subjects.outcome(rt.alloc(), case.subject.as_str(), case.text.as_str())?;
    if found.as_slice() == case.wanted.as_bytes() {
        return Ok(true);
    }
    println!(rt; "{name}:{}: there comes", case.line)?;
    match str::from_utf8(found.as_slice()) {
        Ok(found) => println!(rt; "{found}")?,
        Err(_) => println!(rt; "no text")?,
    }
    println!(rt; "in place of")?;
    println!(rt; "{}", case.wanted)?;
    Ok(false)
}
