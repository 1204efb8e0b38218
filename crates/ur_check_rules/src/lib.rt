//! For each name and form of expression the tree and the type of the whole from those of its parts. Nothing here walks
//! over written expressions, but for the look whether one has no type of its own.
#![tactic(auto)]

mod calls;
mod fixed;
mod lacking;
mod made;
mod operators;
mod out;
mod records;
mod sides;
mod tags;
mod values;

pub use calls::{
    applied_to, are_static, called, extra_argument, missing_argument, parameters, result_behind,
};
pub use fixed::is_static;
pub use lacking::lacks_type;
pub use made::{
    bind_of, case_of, each_of, fail_of, fold_of, if_of, lambda_of, let_of, pushed, string_of,
    with_branch, with_field,
};
pub use operators::{
    Operation, is_basic, left_may, left_mode, operation_of, operator_of, right_mode,
};
pub use out::{Out, Sites, fits, gives, settled};
pub use records::{cut_out, project_out, record_out};
pub use sides::{return_out, show_out, sides_out, some_out, unary_out};
pub use tags::{absent_out, constructor_out, empty_out, member_constructor_out, tag_of};
pub use values::{
    Applied, Callee, applied_at, callee_of, function_named, member_out, passed_out, var_out,
};
