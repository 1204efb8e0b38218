//! The written heads of a project's declarations, as its expressions see them; and which functions answer requests,
//! with their routes.
#![tactic(auto)]

mod aims;
mod arguments;
mod bodies;
mod datatypes;
mod declaring;
mod forms;
mod functions;
mod heads;
mod occurrences;
mod project;
mod routes;
mod signature;
mod stores;

pub use bodies::{BodyScope, HeadScope, body_scope, within_body};
pub use datatypes::{con_in, datatype_in};
pub use declaring::declare;
pub use functions::{functions_in, val_head, val_in};
pub use project::{Project, enter, nothing_declared, top};
pub use routes::{Routes, routes_of};
pub use signature::entries;
pub use stores::{cookie_in, sequence_in, table_in};
