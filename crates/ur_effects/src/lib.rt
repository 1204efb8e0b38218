//! Routes with GET do not write.
#![tactic(auto)]

mod act;
mod chain;
mod deeds;
mod refusing;
mod search;

pub use refusing::effects;
