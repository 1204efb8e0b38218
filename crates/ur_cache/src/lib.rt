//! The cache of query answers.
#![tactic(auto)]

mod cache;
mod held;
mod size;

pub use cache::{Cache, Settle};
pub use size::fits;
