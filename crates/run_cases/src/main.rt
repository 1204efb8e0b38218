//! Worked cases of whole runs. docs/CASES.md has the form of a case.
#![tactic(auto)]

mod devices;
mod given;
mod requests;
mod runs;
mod start;
mod stores;
mod tables;

use case_files::{Printer, Subjects, run};
use runs::put_runs;
use std::alloc::Global;
use std::process::ExitCode;
use ur_base::{Memory, Text};

/// Whole runs.
#[derive(Drop)]
struct WholeRuns {
    rt: HostRuntime,
}

impl Subjects for WholeRuns {
    fn has(&self, word: &str) -> bool {
        word == "run"
    }

    fn outcome(&self, alloc: Global, _word: &str, text: &str) -> Result<Text, Memory> {
        let mut p = Printer::new(alloc);
        put_runs(self.rt, text, &mut p)?;
        p.finish()
    }
}

fn main(rt: HostRuntime) -> ExitCode {
    run(&rt, &WholeRuns { rt })
}
