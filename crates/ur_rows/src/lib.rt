//! Normal forms of constructors: rows in order, substitution, maps, equality and the count of nodes.
#![tactic(auto)]

mod apply;
mod compare;
mod copy;
mod laws;
mod limit;
mod normal;
mod put;
mod same;
mod union;

pub use apply::{
    Argument, Raising, TypeAt, applied, applied_once, applied_type, as_label, as_row, as_type,
    composed, is_here, is_identity, mapped_row, raised, unit,
};
pub use compare::before;
pub use copy::{boxed_normal, copy_label, copy_row, copy_text, copy_type, copy_var};
pub use laws::{concat_is_union, map_of_concat, map_of_identity, map_of_map};
pub use limit::{is_within, left_of_part, left_of_row, left_of_type};
pub use normal::{Label, Normal, NormalType, Part, Var};
pub use put::{Puts, boxed, one, put_label, put_normal, put_part, put_row, put_type};
pub use same::{equal, equal_labels, equal_rows, equal_types};
pub use union::{joined, with_part};
pub use ur_syntax::{copy_kind, equal_kinds};
