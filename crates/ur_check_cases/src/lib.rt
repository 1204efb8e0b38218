//! The patterns of a `case`, what they bind and whether they cover a type; and the step of a fold as it is written, its
//! scope, and the types of a fold at rows.
#![tactic(auto)]

mod alike;
mod bound;
mod coverage;
mod names;
mod patterns;
mod rows;
mod scopes;
mod steps;

pub use alike::same_pattern;
pub use bound::bound_by;
pub use coverage::covers;
pub use patterns::pattern_at;
pub use rows::{fold_row, fold_type};
pub use scopes::{StepScope, rest_of, row_of_step, step_scope, within_step};
pub use steps::{Step, no_step, step_form};
