//! The typing of queries and of changes.
#![tactic(auto)]

mod actions;
mod bounds;
mod changes;
mod columns;
mod conditions;
mod fields;
mod items;
mod law;
mod order;
mod query;
mod sqlchange_law;
mod sqlchange_typed;
mod typed;

pub use actions::type_change;
pub use law::broken_query_is_untyped;
pub use query::type_query;
pub use sqlchange_law::broken_change_is_untyped;
pub use sqlchange_typed::TypedChange;
pub use typed::TypedQuery;
