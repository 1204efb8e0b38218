//! Where an expression stands: what is declared, what is in scope and what is wanted of it; parameters with their types
//! and constructor arguments; and the conditions that ask for nothing else.
#![tactic(auto)]

mod apart;
mod arguments;
mod around;
mod given;
mod locals;
mod modes;
mod names;
mod params;
mod refusals;
mod world;
mod written;

pub use apart::{fields_apart, is_row, is_type, row_apart, type_apart};
pub use arguments::{are_arguments, con_apart, instance_of, instances_of, keeps_arrows};
pub use around::{Around, Cons, Scope, deeper};
pub use locals::{Local, Locals, Place, local_at, repeated_name};
pub use modes::{of_field, of_list, of_option, of_result, of_transaction, row_of, value_of};
pub use names::{Key, Means, Named, key_of, key_text, seen};
pub use params::{
    are_params, binder_local, is_param, local_of, param_out, params_out, tree_params,
    written_is_param,
};
pub use refusals::{
    misfit, mismatch, not_apart, not_of_type, not_so, too_large, twice, type_not_so, types_differ,
    unkinded, unknown,
};
pub use world::{FunctionHead, Head, World, function_at};
pub use written::{label_at, normal_at, row_at, type_at};
