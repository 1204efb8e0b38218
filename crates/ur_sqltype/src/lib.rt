//! Expressions of SQL with their types, the shape of a table from its type and its keys, and what queries and changes
//! of SQL stand for and what they break, with its laws.
#![tactic(auto)]

mod antiquotes;
mod columns;
mod constants;
mod expression;
mod grouped;
mod keys;
mod law;
mod made;
mod operators;
mod parts;
mod refusals;
mod row;
mod scope;
mod sqltable_columns;
mod sqltable_law;
mod sqltype_columns;
mod sqltype_law;
mod table;
mod tables;
mod values;

pub use antiquotes::kinds_found;
pub use columns::{capital, column_at, column_of, place};
pub use expression::{exp_kind, of_kind};
pub use grouped::outside;
pub use keys::{SqlKey, twice};
pub use law::{faulty_is_none, kinded_fits, valued_fits};
pub use operators::{Join, Operator, is_optional, same_kind};
pub use parts::{
    any_scalar, basic_scalar, column_in, condition_of, scalar_of, unboxed, with_scalar,
};
pub use refusals::{kind_text, misfit, name_text, number_text, unknown};
pub use row::{kind_type, query_row};
pub use scope::{Source, Within};
pub use sqltable_columns::{column_type_kind, nowhere, type_kind};
pub use sqltable_law::broken_is_none;
pub use sqltype_columns::{column_text, has_column, name_at};
pub use sqltype_law::{
    change_of_fits, faulty_change_is_none, faulty_query_is_none, query_of_fits, stated_is_change,
    stated_is_query,
};
pub use table::{normal_text, table_shape};
pub use tables::{copy_columns, no_table, sources_of, table_at};
pub use values::value_of_kind;
