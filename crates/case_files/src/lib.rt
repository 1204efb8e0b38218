//! Files of worked cases: reads them, asks what comes of each, and prints where something else comes than must come.
//! docs/CASES.md has the form of a case.
#![tactic(auto)]

mod case;
mod printer;
mod runs;
mod written;

pub use case::{Case, Cases};
pub use printer::Printer;
pub use runs::{Subjects, run};
pub use written::plain;
