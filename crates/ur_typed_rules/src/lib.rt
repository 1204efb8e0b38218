//! The typing rules that ask nothing of an expression, what breaks them, and how a refusal tells it; and their
//! conditions as tests, each of which passes exactly where its condition holds.
#![tactic(auto)]

mod laws;

pub use laws::{
    arguments_are_decided, branches_are_decided, names_are_decided, pages_are_decided,
    params_are_decided, rows_are_decided, types_are_decided, types_are_told,
};
