//! The shape of the database that bodies stand in.
ghost use Rattle.std.specs.Prelude.{◌≡◌, ◌↔◌, [], ◌∷◌, None, true, false, IsTrue};
ghost use Rattle.ur_sqlkeeper.specs.Table.{column_named, ur_row, ur_key, ur_schema, no_schema};

use sqlite_schema::schema::{Column, Index, Kind, Schema, Table};
use sqlite_value::keys::{Collation, Order};
use sqlite_value::value::Value;

/// Whether there is no table, index or view.
pub(crate) fn is_empty(schema: &Schema) -> bool
    ensures { IsTrue result ↔ (schema.now ≡ no_schema) }
{
    schema.tables.is_empty() && schema.indexes.is_empty() && schema.views.is_empty()
}

/// Whether there is the one table, with the index of its key, and nothing else.
pub(crate) fn is_ours(schema: &Schema) -> bool
    ensures { IsTrue result ↔ (schema.now ≡ ur_schema) }
{
    let [table] = schema.tables.as_slice() else {
        return false;
    };
    let [index] = schema.indexes.as_slice() else {
        return false;
    };
    schema.views.is_empty() && is_table(table) && is_index(index)
}

fn is_table(table: &Table) -> bool
    ensures { IsTrue result ↔ (table.now ≡ ur_row) }
{
    table.name.as_slice() == b"ur_row".as_slice()
        && table.tree == 0
        && has_columns(table)
        && has_key(table)
        && has_unique(table)
        && has_order(table)
        && has_no_more(table)
}

fn has_columns(table: &Table) -> bool
    ensures { IsTrue result ↔ (table.now.columns ≡ ur_row.columns) }
{
    let [tab, num, body] = table.columns.as_slice() else {
        return false;
    };
    is_column(tab, b"Tab", Kind::Integer)
        && is_column(num, b"Num", Kind::Integer)
        && is_column(body, b"Body", Kind::Any)
}

/// Whether it has this name and affinity, is NOT NULL and has no default.
fn is_column(column: &Column, name: &[u8], kind: Kind) -> bool
    ensures { IsTrue result ↔ (column.now ≡ column_named name.now kind) }
{
    column.name.as_slice() == name
        && column.kind == kind
        && !column.is_strict
        && column.not_null
        && matches!(column.default, Value::Null)
        && column.collation == Collation::Binary
}

/// Whether the primary key is its first two columns.
fn has_key(table: &Table) -> bool
    ensures { IsTrue result ↔ ((table.now.key ≡ ur_row.key) × (table.now.primary ≡ ur_row.primary)) }
{
    table.key.is_none() && is_place(table.primary.as_slice())
}

/// Whether these are the places of the first two columns.
fn is_place(columns: &[usize]) -> bool
    ensures { IsTrue result ↔ (columns.now ≡ ur_key.columns) }
{
    columns == [1usize, 2].as_slice()
}

/// Whether those two are all that is unique.
fn has_unique(table: &Table) -> bool
    ensures { IsTrue result ↔ (table.now.uniques ≡ ur_row.uniques) }
{
    let [key] = table.uniques.as_slice() else {
        return false;
    };
    is_place(key.as_slice())
}

/// Whether their index ascends by bytes.
fn has_order(table: &Table) -> bool
    ensures { IsTrue result ↔ (table.now.orders ≡ ur_row.orders) }
{
    let [order] = table.orders.as_slice() else {
        return false;
    };
    *order == Order::PLAIN
}

/// Whether there is no check, reference or default that is computed, and no count of its rowids.
fn has_no_more(table: &Table) -> bool
    ensures { IsTrue result ↔ ((table.now.checks ≡ []) × (table.now.references ≡ []) × (table.now.computed ≡ []) × (table.now.stamps ≡ ur_row.stamps) × (table.now.is_counted ≡ false)) }
{
    table.checks.roots.is_empty()
        && table.references.is_empty()
        && table.computed.is_empty()
        && table.stamps.places.is_empty()
        && table.stamps.terms.roots.is_empty()
        && table.stamps.formats.is_empty()
        && !table.is_counted
}

fn is_index(index: &Index) -> bool
    ensures { IsTrue result ↔ (index.now ≡ ur_key) }
{
    index.name.as_slice() == b"sqlite_autoindex_ur_row_1".as_slice()
        && index.tree == 1
        && index.table == 0
        && is_place(index.columns.as_slice())
        && index.order == Order::PLAIN
        && index.is_unique
}
