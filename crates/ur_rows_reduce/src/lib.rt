//! Functions applied to arguments, maps and unions of rows: what has at most the greatest number of nodes is made, and
//! of what has more its shape is told; and heights of normal forms.
#![tactic(auto)]

mod count;
mod given;
mod held;
mod maps;
mod measuring;
mod occurs;
mod place;
mod putting;

pub use count::{
    Halt, Measured, left_of_mapped_row, put_normal_within, put_row_within, put_type_within,
};
pub use given::{Args, applied};
pub use held::{
    Fields, Held, Large, arrow, fields_of, form_of, measured, outline, raised_held, record_of,
    row_of, sized, type_of, union,
};
pub use maps::mapped;
pub use measuring::{height, lower, row_height, type_height};
pub use place::merged;
pub use putting::{
    AtVariable, Lifts, applied_is_low, mapped_is_low, normal_after, row_after, type_after,
};
