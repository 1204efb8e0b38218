//! First-order code.
use ur_base::{List, Text};
use ur_sql::{Change, Query};
use ur_tags::Handlers;
use ur_terms::Function;
use ur_values::{ColumnKind, Schema, ValueType};

/// A cookie that a program declares: its name, and the kind of its values.
#[derive(Drop)]
pub struct Cookie {
    pub name: Text,
    pub of: ColumnKind,
}

/// First-order code. `targets` are the functions of the routes, by number; `names` are the names of fields, by number;
/// `variants` are the datatype and the argument's type of each constructor, by number.
#[derive(Drop)]
pub struct Code {
    pub schema: Schema,
    pub handlers: Handlers,
    pub targets: List<u32>,
    pub names: List<Text>,
    pub variants: List<(u32, Option<ValueType>)>,
    pub cookies: List<Cookie>,
    pub functions: List<Function>,
    pub queries: List<Query>,
    pub changes: List<Change>,
}
