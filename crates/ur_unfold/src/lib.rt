//! The instances of a checked source, unfolded.
#![tactic(auto)]

mod functions;
mod large;
mod moved;
mod params;
mod refusals;
mod targets;
mod unfolding;

pub use unfolding::unfold;
