//! A run of first-order code without tables: frames on a vector, one step at a time; and that what a term comes to does
//! not depend on a variable that it does not read.
#![tactic(auto)]

mod control;
mod fields;
mod frame;
mod frames_law;
mod law;
mod operations;
mod over;
mod places;
mod run;
mod stack;
mod steps;
mod unread;
mod walk;

pub use control::{Control, Found, Matched, Next, Pause, Performed};
pub use frame::{Frame, Frames};
pub use frames_law::laws_of_runs;
pub use law::unread_variables_are_not_seen;
pub use operations::Operations;
pub use run::{Stopped, run_call};
pub use stack::Stack;
pub use unread::{are_branches_unread, are_unread, is_unread, is_unread_under};
pub use walk::standing_at;
