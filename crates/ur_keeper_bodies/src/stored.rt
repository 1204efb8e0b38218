//! The text of a store, and the layout of its rows.
ghost use Rattle.std.specs.Prelude.{◌≡◌, IfOk, IfSome};
ghost use Rattle.ur_keeper_bodies.specs.Rows.{kinds_in, MayStand};
ghost use Rattle.ur_keeper_bodies.specs.Stored.{stored_text, parted, body_row, TextsTellLayouts};

use crate::columns::read_columns;
use crate::row::read_row;
use std::alloc::Global;
use ur_base::{List, Memory, Text};
use ur_values::{ColumnKind, Row, Schema};

/// How the rows of a store are laid out: their values alone, or each with the name of its column.
#[derive(Clone, Copy, Debug, PartialEq, Eq)]
pub enum Layout {
    One,
    Two,
}

/// The text of a store of the second layout that keeps this schema: a line for the layout, and the schema's text.
pub fn stored_text(alloc: Global, schema: &Schema) -> Result<Text, Memory>
    ensures { IfOk result (λ text. text ≡ stored_text schema.now) }
{
    let mut text = List::from_slice(alloc, b"layout 2\n".as_slice())?;
    let lines = schema.text(alloc)?;
    text.extend_from_slice(lines.as_slice())?;
    Ok(text)
}

/// The layout that the text of a store tells, and the text of its schema.
pub fn parted(bytes: &[u8]) -> (Layout, &[u8])
    ensures { (result.0, result.1.now) ≡ parted bytes.now }
{
    match bytes.strip_prefix(b"layout 2\n".as_slice()) {
        Some(rest) => (Layout::Two, rest),
        None => (Layout::One, bytes),
    }
}

/// The row of these columns that the bytes are those of in this layout, or None where they are those of no row that may stand in a table.
pub fn read_body(
    alloc: Global,
    layout: Layout,
    columns: &[(Text, ColumnKind)],
    bytes: &[u8],
) -> Result<Option<Row>, Memory>
    ensures read { IfOk result (λ found. found ≡ body_row layout columns.now bytes.now) }
    ensures fits { IfOk result (λ found. IfSome found (MayStand (kinds_in columns.now))) }
{
    match layout {
        Layout::One => read_row(alloc, columns, bytes),
        Layout::Two => read_columns(alloc, columns, bytes),
    }
}

/// The text of a schema is that of a store of the first layout, and behind the line that of one of the second. Does nothing.
pub fn texts_tell_layouts()
    ensures { TextsTellLayouts }
{}
