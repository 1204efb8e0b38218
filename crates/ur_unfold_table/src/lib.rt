//! The table of forms of a checked source, read by code: the one place that takes expressions apart.
#![tactic(auto)]

mod calls;
mod cases;
mod closed;
mod computed;
mod exps;
mod folds;
mod markups;
mod named;
mod operators;
mod parts;
mod records;
mod routes;
mod shapes;
mod table;
mod typed;

pub use table::Source;
