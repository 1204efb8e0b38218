//! Columns, antiquotes and values of a kind.
ghost use Rattle.std.specs.Prelude.{◌≡◌, ◌↔◌, IsTrue, Some, IsSome, IfOk, Contains, slice_get};
ghost use Rattle.ur_values.specs.Store.{FitsBasic};
ghost use Rattle.ur_sql.specs.Kinds.{constant_kind};
ghost use Rattle.ur_verify.specs.Scope.{columns_of, kind_in};

use std::alloc::Global;
use std::str;
use ur_base::{List, Memory, Text};
use ur_sql::{ColumnAt, Item};
use ur_values::{ColumnKind, Value};

/// Whether a constant has this kind.
pub fn fits_basic(value: &Value, kind: ColumnKind) -> bool
    ensures { IsTrue result ↔ FitsBasic value.now kind }
{
    match value {
        Value::Int(int) => int_fits(*int, kind),
        Value::Str(text) => text_fits(text, kind),
        Value::Bool(holds) => bool_fits(*holds, kind),
        Value::Row(_) => false,
        Value::Many(_) => false,
        Value::Absent => false,
        Value::Present(_) => false,
        Value::Tagged(_, _) => false,
        Value::Markup(_) => false,
    }
}

fn int_fits(int: i64, kind: ColumnKind) -> bool
    ensures { IsTrue result ↔ FitsBasic (Value.Int int) kind }
{
    match kind {
        ColumnKind::Int => true,
        ColumnKind::Str => false,
        ColumnKind::Bool => false,
        ColumnKind::OptInt => false,
        ColumnKind::OptStr => false,
        ColumnKind::OptBool => false,
    }
}

fn text_fits(text: &Text, kind: ColumnKind) -> bool
    ensures { IsTrue result ↔ FitsBasic (Value.Str text.now) kind }
{
    match kind {
        ColumnKind::Int => false,
        ColumnKind::Str => match str::from_utf8(text.as_slice()) {
            Ok(_) => true,
            Err(_) => false,
        },
        ColumnKind::Bool => false,
        ColumnKind::OptInt => false,
        ColumnKind::OptStr => false,
        ColumnKind::OptBool => false,
    }
}

fn bool_fits(holds: bool, kind: ColumnKind) -> bool
    ensures { IsTrue result ↔ FitsBasic (Value.Bool holds) kind }
{
    match kind {
        ColumnKind::Int => false,
        ColumnKind::Str => false,
        ColumnKind::Bool => true,
        ColumnKind::OptInt => false,
        ColumnKind::OptStr => false,
        ColumnKind::OptBool => false,
    }
}

/// The kind of a constant.
pub fn value_kind(value: &Value) -> Option<ColumnKind>
    ensures { result ≡ constant_kind value.now }
{
    match value {
        Value::Int(_) => Some(ColumnKind::Int),
        Value::Str(_) => Some(ColumnKind::Str),
        Value::Bool(_) => Some(ColumnKind::Bool),
        Value::Row(_) => None,
        Value::Many(_) => None,
        Value::Absent => None,
        Value::Present(_) => None,
        Value::Tagged(_, _) => None,
        Value::Markup(_) => None,
    }
}

/// The kind of a column, if the item and the column are there.
pub fn column_kind(items: &[List<ColumnKind>], item: u32, column: u32) -> Option<ColumnKind>
    ensures { result ≡ kind_in items.now item column }
{
    match items.get(item as usize) {
        None => None,
        Some(columns) => kind_at(columns.as_slice(), column),
    }
}

pub fn kind_at(kinds: &[ColumnKind], number: u32) -> Option<ColumnKind>
    ensures { result ≡ slice_get kinds.now number }
{
    match kinds.get(number as usize) {
        None => None,
        Some(kind) => Some(*kind),
    }
}

/// Whether this kind is there and is the other.
pub fn is_kind(found: Option<ColumnKind>, kind: ColumnKind) -> bool
    ensures { IsTrue result ↔ (found ≡ Some kind) }
{
    match found {
        None => false,
        Some(found) => found == kind,
    }
}

/// Whether a column is among those of GROUP BY.
pub fn has_column(group: &[ColumnAt], item: u32, column: u32) -> bool
    ensures { IsTrue result ↔ Contains group.now (record { item = item; column = column }) }
{
    for at in group {
        if at.item == item && at.column == column {
            return true;
        }
    }
    false
}

/// The kinds of the columns of each item.
pub fn columns_of(alloc: Global, from: &[Item]) -> Result<List<List<ColumnKind>>, Memory>
    ensures { IfOk result (λ columns. columns ≡ columns_of from.now) }
{
    let mut columns = List::new(alloc);
    for item in from {
        columns.push(List::from_slice(alloc, item.columns.as_slice())?)?;
    }
    Ok(columns)
}
