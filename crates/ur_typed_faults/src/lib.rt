//! What has a fault is not typed, and what is not typed has a fault, SQL included.
#![tactic(auto)]

mod cause_laws_law;
mod law;
mod sqlcause_laws_law;

pub use cause_laws_law::{none_is_faulty, none_project_is_faulty};
pub use law::{faulty_is_none, faulty_project_is_none};
pub use sqlcause_laws_law::{
    none_change_is_faulty, none_expression_is_faulty, none_query_is_faulty,
};
