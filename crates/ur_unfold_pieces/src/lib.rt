//! Pieces of a checked source, the scopes in which they stand, and instances by number; and what constructors and
//! expressions are where their variables stand for what is closed.
#![tactic(auto)]

mod bodies;
mod constructors;
mod fitting;
mod lambdas;
mod nodes;
mod numbering;
mod opening;
mod piece;
mod pieces_constructors;
mod pieces_reading;
mod reading;
mod records;
mod roots;
mod scopes;
mod statics;
mod steps;
mod vals;

pub use bodies::body_of;
pub use constructors::{closed_label, instances_under};
pub use fitting::number_of;
pub use opening::{Key, Opening};
pub use piece::Piece;
pub use pieces_constructors::cons_in;
pub use pieces_reading::{name_in, result_in, static_in, steps_in, text_in, type_in};
pub use reading::{closed_type, name_of, result_type};
pub use scopes::{add_fold, add_scope, step_at, step_scope};
pub use statics::static_of;
pub use steps::{fold_steps, in_step};
