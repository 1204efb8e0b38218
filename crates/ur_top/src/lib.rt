//! The top call: a project is checked, its sites are listed, or requests are answered, those of connections or those
//! that `load` generates from a seed.
#![tactic(auto)]

mod attaching;
mod compiling;
mod connections;
mod load_command;
mod next_connection;
mod notes_of_load;
mod outcome;
mod reporting;
mod reports;
mod requests;
mod running;
mod serving;

pub use load_command::load;
pub use outcome::Outcome;
pub use requests::{next_state, request};
pub use running::run;
