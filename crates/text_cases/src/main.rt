//! Worked cases of tokens and of the grammar, of names, of kinds and of files of projects. docs/CASES.md has the form of a case.
#![tactic(auto)]

mod cons;
mod decls;
mod ends;
mod exps;
mod files;
mod markup;
mod names;
mod outcome;
mod pats;
mod projects;
mod reading;
mod sql;
mod subject;

use case_files::{Subjects, run};
use outcome::outcome;
use std::alloc::Global;
use std::process::ExitCode;
use subject::Subject;
use ur_base::{Memory, Text};

/// The parts of the grammar, the steps of names and of kinds, and files of projects.
struct Grammar;

impl Subjects for Grammar {
    fn has(&self, word: &str) -> bool {
        Subject::of_word(word).is_some()
    }

    fn outcome(&self, alloc: Global, word: &str, text: &str) -> Result<Text, Memory> {
        match Subject::of_word(word) {
            Some(subject) => outcome(alloc, subject, text),
            None => Err(Memory),
        }
    }
}

fn main(rt: HostRuntime) -> ExitCode {
    run(&rt, &Grammar)
}
