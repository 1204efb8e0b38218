//! The values that programs compute with, their types and texts, the atoms of cache keys, the shape of a store, and
//! which keys of a table two rows agree on.
#![tactic(auto)]

mod atom;
mod compare;
mod copy;
mod extends;
mod keys;
mod law;
mod nesting;
mod same;
mod schema;
mod size;
mod text;
mod types;
mod types_copy;
mod types_same;
mod types_text;
mod value;

pub use atom::{Atom, atom_laws};
pub use compare::compare_values;
pub use copy::copy_values;
pub use keys::{repeated_key, repeated_key_of, taken_key};
pub use law::{fitting_is_atomic, schemas_extend_themselves};
pub use same::same_values;
pub use schema::{ColumnKind, Numbered, Schema, TableShape};
pub use size::GREATEST_SIZE;
pub use types::{TypeField, ValueType};
pub use types_copy::copy_type;
pub use types_same::{same_type, same_types};
pub use types_text::{type_text, write_around, write_type};
pub use value::{Call, FieldKind, Node, Row, Tag, Value};
