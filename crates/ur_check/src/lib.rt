//! The checker: a project's names, its kinds, and then its declarations and bodies in order; its entries, its routes
//! and the names of its fields.
#![tactic(auto)]

mod assembled;
mod bodies;
mod cons;
mod decls;
mod exps;
mod laws;
mod modules;
mod order;
mod texts;
mod whole;

pub use laws::caused_is_none;
pub use order::field_names;
pub use whole::check;
