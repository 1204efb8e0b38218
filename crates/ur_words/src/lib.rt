//! The words of a command line: which command they are, with its options and numbers; and the texts that a run prints.
#![tactic(auto)]

mod asking;
mod commands;
mod counts;
mod fixed;
mod named;
mod numbers;
mod parsing;
mod reading;
mod reading_words;
mod singles;
mod wanting;
mod written;

pub use asking::wanted;
pub use counts::LoadReport;
pub use fixed::{keeper_fault, memory, shelf_fault, usage, wire_fault};
pub use reading::{Reading, Settings};
pub use reading_words::read_words;
pub use wanting::{Command, Wanted};
pub use written::{check_report, load_report, refusal_line, schema_report, serving_line};
