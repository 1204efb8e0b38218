//! The limits on what a typed source declares.
#![tactic(auto)]

mod exceeding;
mod first;
mod limit;
mod nodes;

pub use first::exceeded;
pub use limit::Limit;
