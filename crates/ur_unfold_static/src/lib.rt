//! What is static: whether two expressions are the same, and whether one is computed statically; closed constructors,
//! lambdas of the source and closed static expressions, by number.
#![tactic(auto)]

mod closing;
mod closing_cons;
mod computed;
mod con;
mod cons;
mod entries;
mod exps;
mod lambdas;
mod markups;
mod mentions_exps;
mod mentions_markups;
mod node;
mod nodes;
mod numbers;
mod parts;
mod sought;
mod variants;

pub use closing::Closing;
pub use computed::names_static;
pub use cons::{in_con, in_params, in_row, in_type};
pub use exps::same_exp;
pub use mentions_exps::{fixed_count, in_exp};
pub use node::{Field, Lambda, Node, Scope, Step, number_at};
pub use parts::{same_cons, same_params, same_patterns};
pub use sought::Sought;
