//! Tables by their names, and the items of FROM.
ghost use Rattle.std.specs.Prelude.{◌≡◌, Some, None, IfOk, MatchOption};
ghost use Rattle.ur_base.specs.Stopping.{IfRefused};
ghost use Rattle.ur_tree.specs.FieldNames.{alias_of};
ghost use Rattle.ur_sqltype.specs.Scope.{named_at};
ghost use Rattle.ur_sqltype.specs.Tables.{source_at, sources_of, table_at};
ghost use Rattle.ur_sqltype.specs.SqltypeFaults.{NoTable, NoSource, NoItem};

use crate::{Source, capital, name_text, place, unknown};
use std::alloc::Global;
use ur_base::{List, Memory, Refusal, Stop, Text};
use ur_syntax::{DeclName, FromItem};
use ur_values::{ColumnKind, Schema, TableShape};

/// The table of that whole name, with its number.
fn table_named<'a>(name: &[u8], tables: &'a [TableShape]) -> Option<(usize, &'a TableShape)>
    ensures { MatchOption result (named_at (λ s. s.name) (λ s. s) name.now tables.now ≡ None) (λ t. named_at (λ s. s.name) (λ s. s) name.now tables.now ≡ Some (t.0, t.1.now)) }
{
    for i in 0..tables.len() {
        if tables[i].name.as_slice() == name {
            return Some((i, &tables[i]));
        }
    }
    None
}

/// The table that a module names so, with its number. A module does not name its own with its home.
pub fn table_at<'a>(
    alloc: Global,
    home: &Text,
    tables: &'a Schema,
    x: &DeclName,
) -> Result<Option<(usize, &'a TableShape)>, Memory>
    ensures { IfOk result (λ o. MatchOption o (table_at home.now tables.now x.now ≡ None) (λ t. table_at home.now tables.now x.now ≡ Some (t.0, t.1.now))) }
{
    match &x.module {
        None => {
            let name = name_text(alloc, home.as_slice(), x.name.as_slice())?;
            Ok(table_named(name.as_slice(), tables.tables.as_slice()))
        }
        Some(other) => {
            if other.as_slice() == home.as_slice() {
                return Ok(None);
            }
            let name = name_text(alloc, other.as_slice(), x.name.as_slice())?;
            Ok(table_named(name.as_slice(), tables.tables.as_slice()))
        }
    }
}

/// A name of a table that is not there.
pub fn no_table(alloc: Global, x: &DeclName) -> Result<Refusal, Memory>
    ensures { IfOk result (NoTable x.now) }
{
    match &x.module {
        None => unknown(alloc, x.span, x.name.as_slice()),
        Some(other) => {
            let text = name_text(alloc, other.as_slice(), x.name.as_slice())?;
            unknown(alloc, x.span, text.as_slice())
        }
    }
}

/// The alias of an item: its AS name, or its table's name with the first letter made a capital.
fn alias_of(alloc: Global, alias: &Option<Text>, x: &DeclName) -> Result<Text, Memory>
    ensures { IfOk result (λ a. a ≡ alias_of alias.now x.now) }
{
    match alias {
        None => capital(alloc, x.name.as_slice()),
        Some(a) => List::from_slice(alloc, a.as_slice()),
    }
}

pub fn copy_columns(
    alloc: Global,
    columns: &[(Text, ColumnKind)],
) -> Result<List<(Text, ColumnKind)>, Memory>
    ensures { IfOk result (λ copy. copy ≡ columns.now) }
{
    let mut copied = List::new(alloc);
    for column in columns {
        copied.push((List::from_slice(alloc, column.0.as_slice())?, column.1))?;
    }
    Ok(copied)
}

fn source_at(alloc: Global, home: &Text, tables: &Schema, item: &FromItem) -> Result<Source, Stop>
    ensures source { IfOk result (λ s. source_at home.now tables.now item.now ≡ Some s) }
    ensures refused { IfRefused result (NoSource home.now tables.now item.now) }
{
    match table_at(alloc, home, tables, &item.table)? {
        None => Err(Stop::Refused(no_table(alloc, &item.table)?)),
        Some((number, shape)) => {
            let alias = alias_of(alloc, &item.alias, &item.table)?;
            let table = place(number)?;
            let columns = copy_columns(alloc, shape.columns.as_slice())?;
            Ok(Source {
                alias,
                table,
                columns,
            })
        }
    }
}

/// The items of FROM, in order.
pub fn sources_of(
    alloc: Global,
    home: &Text,
    tables: &Schema,
    items: &[FromItem],
) -> Result<List<Source>, Stop>
    ensures sources { IfOk result (λ ss. sources_of home.now tables.now items.now ≡ Some ss) }
    ensures refused { IfRefused result (NoItem home.now tables.now items.now) }
{
    let mut sources = List::new(alloc);
    for i in 0..items.len() {
        let source = source_at(alloc, home, tables, &items[i])?;
        sources.push(source)?;
    }
    Ok(sources)
}
