//! Runs whose tables are made here: in memory, or in a database. Their headline has no premise on the keeper.
#![tactic(auto)]

mod running;

pub use running::{run_in_memory, run_over};
