//! Worked cases of the checker: whole projects, with their routes and statements or the refusal. docs/CASES.md has the form of a case.
#![tactic(auto)]

mod outcome;
mod projects;
mod sources;

use case_files::{Subjects, run};
use outcome::{outcome, step_of};
use std::alloc::Global;
use std::process::ExitCode;
use ur_base::{Memory, Text};

/// Whole projects.
struct Cases;

impl Subjects for Cases {
    fn has(&self, word: &str) -> bool {
        step_of(word).is_some()
    }

    fn outcome(&self, alloc: Global, word: &str, text: &str) -> Result<Text, Memory> {
        match step_of(word) {
            Some(step) => outcome(alloc, step, text),
            None => Err(Memory),
        }
    }
}

fn main(rt: HostRuntime) -> ExitCode {
    run(&rt, &Cases)
}
