//! Expressions are read.
#![tactic(auto)]

mod atom;
mod choice;
mod code;
mod fields;
mod forms;
mod level;
mod line;
mod markup;
mod signs;
mod tables;

pub use line::exp as read_exp;
