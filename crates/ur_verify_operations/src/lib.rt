//! The types of first-order operations: what an operation gives for arguments of given types, or why it fits none.
#![tactic(auto)]

mod arguments;
mod deeds;
mod fields;
mod law;
mod markup;
mod misfit;
mod operations;
mod patterns;
mod rows;

pub use law::elements_hold;
pub use misfit::{Misfit, Untyped, mismatch, no_type, unlike, unlike_these};
pub use operations::operation_type;
pub use patterns::{bound_by, covers};
pub use rows::route_types;
