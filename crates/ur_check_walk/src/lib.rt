//! The typing of written expressions: each is resolved, gets its type, and its statements are numbered.
#![tactic(auto)]

mod applied;
mod begun;
mod bound;
mod chain;
mod closed;
mod embedded;
mod fields;
mod folded;
mod instances;
mod leaves;
mod markup;
mod splices;
mod targets;
mod walk;

pub use walk::typed;
