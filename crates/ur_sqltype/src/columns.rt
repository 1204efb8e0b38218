//! Columns by their names.
ghost use Rattle.std.specs.Prelude.{◌≡◌, option_map, IfOk};
ghost use Rattle.ur_tree.specs.FieldNames.{capital, capital_byte};
ghost use Rattle.ur_sqltype.specs.Scope.{column_of, column_from};

use crate::scope::Source;
use std::alloc::Global;
use ur_base::{List, Memory, Text};
use ur_values::ColumnKind;

/// A column of that name, by its place, with its type.
pub fn column_of(name: &[u8], columns: &[(Text, ColumnKind)]) -> Option<(usize, ColumnKind)>
    ensures { result ≡ column_of name.now columns.now }
{
    for i in 0..columns.len() {
        if columns[i].0.as_slice() == name {
            return Some((i, columns[i].1));
        }
    }
    None
}

/// The column of that name of the item with that alias: the places of both, with the column's type.
pub fn column_at(
    alias: &[u8],
    name: &[u8],
    sources: &[Source],
) -> Option<(usize, (usize, ColumnKind))>
    ensures { result ≡ column_from alias.now name.now 0 sources.now }
{
    for i in 0..sources.len() {
        if sources[i].alias.as_slice() == alias {
            return column_in(i, name, sources[i].columns.as_slice());
        }
    }
    None
}

fn column_in(
    item: usize,
    name: &[u8],
    columns: &[(Text, ColumnKind)],
) -> Option<(usize, (usize, ColumnKind))>
    ensures { result ≡ option_map (λ c. (item, c)) (column_of name.now columns.now) }
{
    match column_of(name, columns) {
        None => None,
        Some(found) => Some((item, found)),
    }
}

/// A place as a number of 32 bits.
pub fn place(at: usize) -> Result<u32, Memory>
    ensures { IfOk result (λ p. p ≡ at) }
{
    if at < 4294967296 {
        return Ok(at as u32);
    }
    Err(Memory)
}

/// The name with its first letter made a capital.
pub fn capital(alloc: Global, name: &[u8]) -> Result<Text, Memory>
    ensures { IfOk result (λ text. text ≡ capital name.now) }
{
    let mut text = List::new(alloc);
    match name.split_first() {
        None => Ok(text),
        Some((first, rest)) => {
            text.push(capital_byte(*first))?;
            text.extend_from_slice(rest)?;
            Ok(text)
        }
    }
}

fn capital_byte(byte: u8) -> u8
    ensures { result ≡ capital_byte byte }
{
    if byte < 97 {
        return byte;
    }
    if byte > 122 {
        return byte;
    }
    byte - 32
}
