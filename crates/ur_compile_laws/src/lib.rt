//! The routes of a project that is loaded and typed can be served.
#![tactic(auto)]

mod law;

pub use law::routes_can_be_served;
