//! Names: what a source does with them, told as a flat list in reading order; each that is used is in scope, and none
//! is given twice where once is allowed.
#![tactic(auto)]

mod cons;
mod decls;
mod event;
mod exps;
mod keys;
mod log;
mod names;
mod scope;
mod spots;
mod texts;

pub use decls::events;
pub use event::{Event, Mark, Sort};
pub use keys::{Key, Keys};
pub use names::check_names;
pub use scope::{Frame, Scope};
pub use texts::{change, parts, query};
