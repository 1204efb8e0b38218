//! Expressions made of their parts, the forms that a word begins, and readers of what is no expression in them.
#![tactic(auto)]

mod argument;
mod begin;
mod bound;
mod capital;
mod dots;
mod embedded;
mod ended;
mod fold;
mod form;
mod gone;
mod height;
mod list;
mod lists;
mod name;
mod params;
mod shape;
mod simple;
mod sql;
mod state;
mod word;

pub use argument::{Given, apply, as_type, as_value};
pub use begin::{sees_argument, sees_base, sees_post};
pub use bound::{binding, sees_binding};
pub use capital::{read_capital, read_nil};
pub use dots::read_dots;
pub use embedded::{get_cookie_of, nextval_of, set_cookie_of, with_code, xml_of};
pub use ended::{
    Line, bind_of, case_of, closed, conditional_of, fold_of, inner, lambda_of, let_of, record_of,
    sequence_of,
};
pub use fold::{boxed_con, folded};
pub use form::{Double, Single, unit_of, with_one, with_two};
pub use gone::read_gone;
pub use height::{greatest_height, may_grow};
pub use list::{Piece, listed};
pub use lists::{with_branch, with_field, with_let_val};
pub use name::decl_name;
pub use params::read_lambda_head;
pub use shape::{Shape, shape_of};
pub use simple::read_simple;
pub use sql::{dml_of, query_of, query_x_of};
pub use state::{read_get_cookie, read_nextval};
pub use word::{FormWord, expect_word_of, form_at, sees_word_of};
