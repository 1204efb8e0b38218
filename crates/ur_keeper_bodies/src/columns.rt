//! Rows whose bytes name their columns.
ghost use Rattle.std.specs.Prelude.{◌≡◌, ℕ, ◌≤◌, ◌++◌, List, All, IfOk, OnOk, IfSome, length, drop, option_map};
ghost use Rattle.ur_values.specs.Store.{IsStorable};
ghost use Rattle.ur_keeper_bodies.specs.Rows.{text_body, value_body, kinds_in, with_rest, MayBeRead, MayStand};
ghost use Rattle.ur_keeper_bodies.specs.Columns.{columns_body, columns_row, cell_of, behind, missing, BodiesAreRead, ColumnsAreReadBack, GrownRowsAreRead};

use crate::row::{read_value, write_value};
use std::alloc::Global;
use ur_base::{Bytes, List, Memory, Text};
use ur_values::{ColumnKind, Row, Value};

/// The bytes of a row: for each column the length of its name, the name and the value. A name of more bytes than `u32`
/// counts takes memory that is not had.
pub fn columns_bytes(
    alloc: Global,
    columns: &[(Text, ColumnKind)],
    row: &Row,
) -> Result<Bytes, Memory>
    requires sizes { All IsStorable row.now }
    requires long { length columns.now ≤ length row.now }
    ensures { IfOk result (λ bytes. bytes ≡ columns_body columns.now row.now) }
{
    let cells = row.as_slice();
    let mut bytes = List::new(alloc);
    for place in 0..columns.len() {
        write_name(&mut bytes, &columns[place].0)?;
        write_value(&mut bytes, &cells[place])?;
    }
    Ok(bytes)
}

fn write_name(bytes: &mut Bytes, name: &Text) -> Result<(), Memory>
    ensures { OnOk result (bytes.new ≡ bytes.old ++ text_body name.now) }
{
    let Ok(length) = u32::try_from(name.len()) else {
        return Err(Memory);
    };
    bytes.extend_from_slice(&length.to_be_bytes())?;
    bytes.extend_from_slice(name.as_slice())
}

/// The row of these columns that the bytes are those of, or None where they are those of no row that may stand in a table.
/// An optional column that is not there is Absent.
pub fn read_columns(
    alloc: Global,
    columns: &[(Text, ColumnKind)],
    bytes: &[u8],
) -> Result<Option<Row>, Memory>
    ensures read { IfOk result (λ found. found ≡ columns_row columns.now bytes.now) }
    ensures fits { IfOk result (λ found. IfSome found (MayStand (kinds_in columns.now))) }
{
    let mut row = List::new(alloc);
    let mut at: usize = 0;
    for column in columns {
        let Some((value, taken)) = read_cell(alloc, column, &bytes[at..])? else {
            return Ok(None);
        };
        row.push(value)?;
        at += taken;
    }
    if at < bytes.len() {
        return Ok(None);
    }
    Ok(Some(row))
}

/// The value of a column at the front of the bytes, and how many of them it takes with the name.
fn read_cell(
    alloc: Global,
    column: &(Text, ColumnKind),
    bytes: &[u8],
) -> Result<Option<(Value, usize)>, Memory>
    ensures value { IfOk result (λ found. with_rest bytes.now found ≡ cell_of column.now bytes.now) }
    ensures within { IfOk result (λ found. IfSome found (MayBeRead column.now.1 bytes.now)) }
{
    let Some(named) = behind(&column.0, bytes) else {
        return Ok(missing(column.1));
    };
    let Some((value, taken)) = read_value(alloc, column.1, &bytes[named..])? else {
        return Ok(None);
    };
    Ok(Some((value, named + taken)))
}

/// The value of a column that is not there.
fn missing(column: ColumnKind) -> Option<(Value, usize)>
    ensures value { (bytes : List ℕ) → with_rest bytes result ≡ missing column bytes }
    ensures within { (bytes : List ℕ) → IfSome result (MayBeRead column bytes) }
{
    match column.inside() {
        Some(_) => Some((Value::Absent, 0)),
        None => None,
    }
}

/// How many bytes this name takes with its length, where it stands at the front.
fn behind(name: &Text, bytes: &[u8]) -> Option<usize>
    ensures rest { option_map (λ n. drop n bytes.now) result ≡ behind name.now bytes.now }
    ensures within { IfSome result (λ n. n ≤ length bytes.now) }
{
    let (head, rest) = bytes.split_first_chunk::<4>()?;
    let length = u32::from_be_bytes(*head) as usize;
    if length > rest.len() {
        return None;
    }
    let front = &rest[..length];
    if front == name.as_slice() {
        return Some(length + 4);
    }
    None
}

/// A row that may stand in a table is read again from its bytes.
pub fn rows_of_columns_are_read_back()
    ensures { ColumnsAreReadBack }
{}

/// Bytes are read as a row exactly where they are bytes of it.
pub fn bodies_are_read()
    ensures { BodiesAreRead }
{}

/// The bytes of a row of kept columns are read under columns that extend them as the row with Absent in each new column.
pub fn grown_rows_are_read()
    ensures { GrownRowsAreRead }
{}
