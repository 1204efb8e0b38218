//! Kinds, constructors, binders and patterns are read, and the parts of expressions in which no expression stands.
#![tactic(auto)]

mod behind;
mod binder;
mod capital;
mod con;
mod fields;
mod joins;
mod kind;
mod limits;
mod names;
mod nodes;
mod operator;
mod param;
mod parse_parts_param;
mod pattern;
mod removed;
mod whole;
mod words;

pub use binder::{read_binder, sees_binder};
pub use con::con as read_con;
pub use kind::{kind as read_kind, taller};
pub use limits::{MAX_NESTING, MAX_PARENTHESES};
pub use names::expect_field_name;
pub use operator::{Level, Sign, comparison_at, sign_at};
pub use param::con_param as read_con_param;
pub use parse_parts_param::read_param;
pub use pattern::read_pat;
pub use removed::read_removed;
