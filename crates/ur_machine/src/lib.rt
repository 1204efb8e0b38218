//! A request's run over a keeper of tables, from its call turn by turn through each query, change or draw; and what a
//! cache of answers is to a program.
#![tactic(auto)]

mod calls;
mod cookies;
mod given;
mod law;
mod machine;
mod queries;
mod reached;
mod rest;
mod stop;
mod store_calls;
mod turn;
mod turns_calls;
mod turns_cookies;
mod writes;

pub use calls::{add_masks, atoms_of, held_rows, keep_rows};
pub use cookies::first_value;
pub use given::Given;
pub use law::{answers_are_kept, patterns_are_sound};
pub use machine::Machine;
pub use reached::Reached;
pub use turn::Turn;
