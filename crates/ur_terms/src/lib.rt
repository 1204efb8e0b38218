//! First-order terms: what is left of an expression when rows, folds and static parameters are gone.
#![tactic(auto)]

mod law;
mod term;

pub use law::{calls_are_bodies, typed_terms_are_sound};
pub use term::{AnswerForm, Branch, Function, Op, Pattern, Term};
