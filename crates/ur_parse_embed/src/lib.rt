//! SQL is read, expressions, SELECT, INSERT, UPDATE and DELETE, with the code of its antiquotes as the tokens that it
//! is; and SQL and XML among code, as skeletons.
#![tactic(auto)]

mod assigning;
mod atoms;
mod change;
mod clauses;
mod columns;
mod embedded;
mod ends;
mod exp;
mod exps;
mod from;
mod insert;
mod lists;
mod made;
mod query;
mod selection;
mod signs;
mod tables;

pub use change::change as read_change;
pub use clauses::filter as read_filter;
pub use columns::column as read_column;
pub use embedded::{MAX_SIGNS, Skeleton, sql_change, sql_query, xml};
pub use ends::{comma_or, finished, sees_operator, word_or};
pub use exp::exp as read_exp;
pub use exps::sexp as read_sexp;
pub use lists::list_of;
pub use query::query as read_query;
pub use tables::table_name as read_table_name;
