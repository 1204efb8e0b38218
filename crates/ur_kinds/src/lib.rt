//! Kinds: the kind that a constructor has, or the unknown name or the broken rule; and that each constructor that a
//! project writes has the kind that its place wants.
#![tactic(auto)]

mod answer;
mod decls;
mod event;
mod exps;
mod kinded;
mod kinded_laws;
mod kinds;
mod laws;
mod log;
mod name_walk;
mod names;
mod search;
mod state;
mod walk;
mod words;

pub use answer::{has_kind, kind_of};
pub use event::Event;
pub use kinded::check_kinds;
pub use kinded_laws::{each_has_its_kind, faulty_is_not_kinded, one_fault_of_kinds};
pub use kinds::kind_text;
pub use laws::{kinded_is_known, one_kind};
pub use state::{Frame, State, Value};
