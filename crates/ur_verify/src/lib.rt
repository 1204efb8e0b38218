//! Verified code: first-order code that fits its types, and queries and changes that fit the tables that they are of.
#![tactic(auto)]

mod changes;
mod columns;
mod environment;
mod functions;
mod infer;
mod law;
mod queries;
mod routes;
mod scalars;
mod verified;

pub use changes::change_fits;
pub use law::{misfits_are_causes, types_are_unique};
pub use queries::query_fits;
pub use verified::{Verified, verify};
