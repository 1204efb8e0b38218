//! The code of instances, and that it means what the source means.
#![tactic(auto)]

mod coding;
mod law;

pub use coding::mono;
pub use law::{code_keeps_meaning, cookies_stay_basic};
