//! First-order code: the functions of a program with its tables, routes, queries and changes; its meaning and typing,
//! and its functions as text.
#![tactic(auto)]

mod code;
mod functions;
mod law;

pub use code::{Code, Cookie};
pub use functions::listing;
pub use law::never_stuck;
