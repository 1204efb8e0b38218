//! Columns of items: whether they are there, and how they are written.
ghost use Rattle.std.specs.Prelude.{◌≡◌, IfOk};
ghost use Rattle.std.specs.List.{list_any};
ghost use Rattle.ur_sqltype.specs.Table.{name_at};
ghost use Rattle.ur_sqltype.specs.Query.{is_column};
ghost use Rattle.ur_sqltype.specs.SqltypeFaults.{column_text};

use crate::{Source, name_text};
use std::alloc::Global;
use ur_base::{List, Memory, Text};
use ur_sql::ColumnAt;
use ur_values::ColumnKind;

/// Whether a column is this one.
fn is_column(item: u32, column: u32, at: &ColumnAt) -> bool
    ensures { result ≡ is_column item column at.now }
{
    if at.item != item {
        return false;
    }
    at.column == column
}

pub fn has_column(columns: &[ColumnAt], item: u32, column: u32) -> bool
    ensures { result ≡ list_any (is_column item column) columns.now }
{
    for at in columns {
        if is_column(item, column, at) {
            return true;
        }
    }
    false
}

/// The name of the column at a place.
pub fn name_at<'a>(columns: &'a [(Text, ColumnKind)], at: u32) -> &'a [u8]
    ensures { result.now ≡ name_at columns.now at }
{
    match columns.get(at as usize) {
        None => b"",
        Some(column) => column.0.as_slice(),
    }
}

/// How a column of an item is written.
pub fn column_text(alloc: Global, sources: &[Source], at: ColumnAt) -> Result<Text, Memory>
    ensures { IfOk result (λ text. text ≡ column_text sources.now at) }
{
    match sources.get(at.item as usize) {
        None => Ok(List::new(alloc)),
        Some(source) => {
            let name = name_at(source.columns.as_slice(), at.column);
            name_text(alloc, source.alias.as_slice(), name)
        }
    }
}
