//! The normal form of a constructor, within the greatest numbers of nodes and of levels; constructors in place of its
//! free variables; the fields of rows, and which types may stand where.
#![tactic(auto)]

mod arguments;
mod environment;
mod fields;
mod kinded;
mod levels;
mod names;
mod normal_fields;
mod putting;
mod standing;
mod walk;
mod words;

pub use arguments::Arguments;
pub use environment::{Layer, Place, Prepared, label_in, normal, normal_in};
pub use fields::{field_type, same_label, same_var, without};
pub use kinded::{is_of_kind, label_is_in, row_is_in, type_is_in};
pub use names::Entry;
pub use putting::{instance, instance_row, instance_type};
pub use standing::{
    holds_arrow, is_arrow, is_placed, is_value_type, may_run, row_holds_arrow, row_is_placed,
    row_of_values,
};
