//! Rows and next numbers as bytes.
ghost use Rattle.std.specs.Prelude.{◌≡◌, ◌<◌, ◌≤◌, ◌++◌, ◌∷◌, All, IfOk, OnOk, IfSome, IsTrue, IsUtf8, length};
ghost use Rattle.ur_values.specs.Size.{greatest_size};
ghost use Rattle.ur_values.specs.Store.{IsStorable};
ghost use Rattle.ur_keeper_bodies.specs.Rows.{int_body, basic_body, basic_of, option_of, present_at, value_body, row_body, int_front, bool_of, value_of, row_of, number_of, may_be_text, kinds_in, text_body, with_rest, MayBeBasic, MayBeOption, MayBeRead, MayStand, RowsAreReadBack};
ghost use Rattle.ur_values.specs.declared.value.Value.TheVariants as v;
ghost use Rattle.ur_values.specs.declared.schema.ColumnKind.TheVariants as kind;

use std::alloc::Global;
use std::str;
use ur_base::{Boxed, Bytes, List, Memory, Text};
use ur_values::{ColumnKind, Row, Value};

/// The bytes of a row in the first layout: its values, one after the other.
pub fn row_bytes(alloc: Global, row: &Row) -> Result<Bytes, Memory>
    requires { All IsStorable row.now }
    ensures { IfOk result (λ bytes. bytes ≡ row_body row.now) }
{
    let mut bytes = List::new(alloc);
    for value in row.as_slice() {
        write_value(&mut bytes, value)?;
    }
    Ok(bytes)
}

pub(crate) fn write_value(bytes: &mut Bytes, value: &Value) -> Result<(), Memory>
    requires { IsStorable value.now }
    ensures { OnOk result (bytes.new ≡ bytes.old ++ value_body value.now) }
{
    match value {
        Value::Absent => bytes.push(0),
        Value::Present(held) => write_present(bytes, held.get()),
        _ => write_basic(bytes, value),
    }
}

fn write_present(bytes: &mut Bytes, held: &Value) -> Result<(), Memory>
    requires { IsStorable held.now }
    ensures { OnOk result (bytes.new ≡ bytes.old ++ 1 ∷ basic_body held.now) }
{
    bytes.push(1)?;
    write_basic(bytes, held)
}

fn write_basic(bytes: &mut Bytes, value: &Value) -> Result<(), Memory>
    requires { IsStorable value.now }
    ensures { OnOk result (bytes.new ≡ bytes.old ++ basic_body value.now) }
{
    match value {
        Value::Int(number) => bytes.extend_from_slice(&number.to_be_bytes()),
        Value::Str(text) => write_text(bytes, text),
        Value::Bool(flag) => bytes.push(u8::from(*flag)),
        _ => Ok(()),
    }
}

fn write_text(bytes: &mut Bytes, text: &Text) -> Result<(), Memory>
    requires { length text.now ≤ greatest_size }
    ensures { OnOk result (bytes.new ≡ bytes.old ++ text_body text.now) }
{
    let length = text.len() as u32;
    bytes.extend_from_slice(&length.to_be_bytes())?;
    bytes.extend_from_slice(text.as_slice())
}

/// The row of these columns that the bytes are those of in the first layout, or None where they are those of no row that may stand in a
/// table.
pub fn read_row(
    alloc: Global,
    columns: &[(Text, ColumnKind)],
    bytes: &[u8],
) -> Result<Option<Row>, Memory>
    ensures read { IfOk result (λ found. found ≡ row_of (kinds_in columns.now) bytes.now) }
    ensures fits { IfOk result (λ found. IfSome found (MayStand (kinds_in columns.now))) }
{
    let mut row = List::new(alloc);
    let mut at: usize = 0;
    for column in columns {
        let Some((value, taken)) = read_value(alloc, column.1, &bytes[at..])? else {
            return Ok(None);
        };
        row.push(value)?;
        at += taken;
    }
    if at < bytes.len() {
        return Ok(None);
    }
    Ok(Some(row))
}

/// The value at the front of the bytes, and how many of them it takes.
pub(crate) fn read_value(
    alloc: Global,
    column: ColumnKind,
    bytes: &[u8],
) -> Result<Option<(Value, usize)>, Memory>
    ensures value { IfOk result (λ found. with_rest bytes.now found ≡ value_of column bytes.now) }
    ensures within { IfOk result (λ found. IfSome found (MayBeRead column bytes.now)) }
{
    match column {
        ColumnKind::Int => read_basic(alloc, ColumnKind::Int, bytes),
        ColumnKind::Str => read_basic(alloc, ColumnKind::Str, bytes),
        ColumnKind::Bool => read_basic(alloc, ColumnKind::Bool, bytes),
        ColumnKind::OptInt => read_option(alloc, ColumnKind::Int, bytes),
        ColumnKind::OptStr => read_option(alloc, ColumnKind::Str, bytes),
        ColumnKind::OptBool => read_option(alloc, ColumnKind::Bool, bytes),
    }
}

/// An int, a text or a bool at the front of the bytes.
fn read_basic(
    alloc: Global,
    column: ColumnKind,
    bytes: &[u8],
) -> Result<Option<(Value, usize)>, Memory>
    ensures value { IfOk result (λ found. with_rest bytes.now found ≡ basic_of column bytes.now) }
    ensures within { IfOk result (λ found. IfSome found (MayBeBasic column bytes.now)) }
{
    match column {
        ColumnKind::Int => Ok(read_int(bytes)),
        ColumnKind::Str => read_text(alloc, bytes),
        ColumnKind::Bool => Ok(read_bool(bytes)),
        _ => Ok(None),
    }
}

/// An option at the front of the bytes: a byte 0, or a byte 1 and a value.
fn read_option(
    alloc: Global,
    of: ColumnKind,
    bytes: &[u8],
) -> Result<Option<(Value, usize)>, Memory>
    ensures value { IfOk result (λ found. with_rest bytes.now found ≡ option_of of bytes.now) }
    ensures within { IfOk result (λ found. IfSome found (MayBeOption of bytes.now)) }
{
    let Some((first, rest)) = bytes.split_first() else {
        return Ok(None);
    };
    if *first == 0 {
        return Ok(Some((Value::Absent, 1)));
    }
    if *first != 1 {
        return Ok(None);
    }
    let Some((value, taken)) = read_basic(alloc, of, rest)? else {
        return Ok(None);
    };
    present(alloc, value, taken)
}

/// Present of a value that takes so many bytes, one of which stands before it, if it may stand in a table.
fn present(alloc: Global, value: Value, taken: usize) -> Result<Option<(Value, usize)>, Memory>
    requires { taken < 9223372036854775808 }
    ensures { IfOk result (λ found. found ≡ present_at value taken) }
{
    if value.size() > 16777184 {
        return Ok(None);
    }
    let held = Boxed::new(alloc, value)?;
    Ok(Some((Value::Present(held), taken + 1)))
}

fn read_int(bytes: &[u8]) -> Option<(Value, usize)>
    ensures value { with_rest bytes.now result ≡ int_front bytes.now }
    ensures within { IfSome result (MayBeRead kind.Int bytes.now) }
{
    let (head, _rest) = bytes.split_first_chunk::<8>()?;
    Some((Value::Int(i64::from_be_bytes(*head)), 8))
}

fn read_bool(bytes: &[u8]) -> Option<(Value, usize)>
    ensures value { with_rest bytes.now result ≡ bool_of bytes.now }
    ensures within { IfSome result (MayBeRead kind.Bool bytes.now) }
{
    let (first, _rest) = bytes.split_first()?;
    if *first == 0 {
        return Some((Value::Bool(false), 1));
    }
    if *first == 1 {
        return Some((Value::Bool(true), 1));
    }
    None
}

fn read_text(alloc: Global, bytes: &[u8]) -> Result<Option<(Value, usize)>, Memory>
    ensures value { IfOk result (λ found. with_rest bytes.now found ≡ value_of kind.Str bytes.now) }
    ensures within { IfOk result (λ found. IfSome found (MayBeRead kind.Str bytes.now)) }
{
    let Some((head, rest)) = bytes.split_first_chunk::<4>() else {
        return Ok(None);
    };
    let length = u32::from_be_bytes(*head) as usize;
    if length > rest.len() {
        return Ok(None);
    }
    if !may_be_text(&rest[..length]) {
        return Ok(None);
    }
    let text = List::from_slice(alloc, &rest[..length])?;
    Ok(Some((Value::Str(text), length + 4)))
}

fn may_be_text(text: &[u8]) -> bool
    ensures value { result ≡ may_be_text text.now }
    ensures text { IsTrue result → IsUtf8 text.now × (length text.now ≤ 16777184) }
{
    if text.len() > 16777184 {
        return false;
    }
    match str::from_utf8(text) {
        Ok(_) => true,
        Err(_) => false,
    }
}

/// The 8 bytes of a next number.
pub fn number_bytes(alloc: Global, number: i64) -> Result<Bytes, Memory>
    ensures { IfOk result (λ bytes. bytes ≡ int_body number) }
{
    List::from_slice(alloc, &number.to_be_bytes())
}

/// The number that the bytes are those of, or None where they are not 8.
pub fn read_number(bytes: &[u8]) -> Option<i64>
    ensures { result ≡ number_of bytes.now }
{
    let (head, rest) = bytes.split_first_chunk::<8>()?;
    if rest.is_empty() {
        return Some(i64::from_be_bytes(*head));
    }
    None
}

/// A row that may stand in a table is read again from its bytes, so that no two such rows have the same.
pub fn rows_are_read_back()
    ensures { RowsAreReadBack }
{}
