//! The first key that two rows agree on.
ghost use Rattle.std.specs.Prelude.{◌≡◌, true, false, ◌+◌, ◌<◌, ℕ, IfOk, map, length, slice_index_or};
ghost use Rattle.std.specs.Bool.{OnTrue, OnFalse};
ghost use Rattle.std.specs.Borrow.{Bor};
ghost use Rattle.ur_values.specs.declared.value.Value.TheVariants as v;
ghost use Rattle.ur_values.specs.Order.{value_cmp};
ghost use Rattle.ur_values.specs.Keys.{key_of, is_taken, repeats, repeated_key, taken_key};
ghost use Rattle.ur_values.specs.Store.{Row as RowOf, rows_of};
ghost use Rattle.ur_values.specs.KeyOrder.{key_cmp, agree, lent_rows};

use crate::{Numbered, Row, Value, compare_values};
use std::alloc::Global;
use std::cmp::Ordering;
use ur_base::{List, Memory};

/// The first key on all of whose columns two rows agree. More keys than `u32` has numbers take memory that is not had.
pub fn repeated_key(
    alloc: Global,
    keys: &List<List<u32>>,
    rows: &[&Row],
) -> Result<Option<u32>, Memory>
    ensures { IfOk result (λ key. key ≡ repeated_key keys.now (lent_rows rows.now)) }
{
    let keys = keys.as_slice();
    if keys.len() > u32::MAX as usize {
        return Err(Memory);
    }
    for i in 0..keys.len() {
        if repeats(alloc, keys[i].as_slice(), rows)? {
            return Ok(Some(i as u32));
        }
    }
    Ok(None)
}

/// The same of rows with their numbers.
pub fn repeated_key_of(
    alloc: Global,
    keys: &List<List<u32>>,
    rows: &[Numbered],
) -> Result<Option<u32>, Memory>
    ensures { IfOk result (λ key. key ≡ repeated_key keys.now (rows_of rows.now)) }
{
    let lent = lent(alloc, rows)?;
    repeated_key(alloc, keys, lent.as_slice())
}

/// The first key on all of whose columns a row agrees with one of these, sought row by row.
pub fn taken_key(
    keys: &List<List<u32>>,
    rows: &[Numbered],
    row: &Row,
) -> Result<Option<u32>, Memory>
    ensures { IfOk result (λ key. key ≡ taken_key keys.now (rows_of rows.now) row.now) }
{
    let keys = keys.as_slice();
    if keys.len() > u32::MAX as usize {
        return Err(Memory);
    }
    for i in 0..keys.len() {
        if is_taken(keys[i].as_slice(), rows, row) {
            return Ok(Some(i as u32));
        }
    }
    Ok(None)
}

/// Whether a row agrees with one of these on the columns of a key.
fn is_taken(key: &[u32], rows: &[Numbered], row: &Row) -> bool
    ensures { result ≡ is_taken (rows_of rows.now) row.now key.now }
{
    for other in rows {
        let values = other.row.get();
        if compare_at(key, values, row).is_eq() {
            return true;
        }
    }
    false
}

fn lent<'a>(alloc: Global, rows: &'a [Numbered]) -> Result<Vec<&'a Row>, Memory>
    ensures { IfOk result (λ lent. lent_rows lent.items ≡ rows_of rows.now) }
{
    let mut lent: Vec<&'a Row> = Vec::new(alloc);
    for row in rows {
        let values = row.row.get();
        lent.push(values)?;
    }
    Ok(lent)
}

/// Whether two rows agree on the columns of a key.
fn repeats(alloc: Global, key: &[u32], rows: &[&Row]) -> Result<bool, Memory>
    ensures { IfOk result (λ found. found ≡ repeats (map (key_of key.now) (lent_rows rows.now))) }
{
    let mut sorted: Vec<&Row> = Vec::from_slice(alloc, rows)?;
    sorted.sort_unstable_by(|a, b| compare_at(key, a, b));
    Ok(has_tie(key, sorted.as_slice()))
}

/// Whether two rows that stand side by side agree on the columns of a key.
fn has_tie(key: &[u32], rows: &[&Row]) -> bool
    ensures tie { OnTrue result ((k : ℕ) × (k + 1 < length rows.now) × ((d : Bor RowOf) → agree key.now (slice_index_or rows.now k d) (slice_index_or rows.now (k + 1) d) ≡ true)) }
    ensures apart { OnFalse result ((k : ℕ) → k + 1 < length rows.now → (d : Bor RowOf) → agree key.now (slice_index_or rows.now k d) (slice_index_or rows.now (k + 1) d) ≡ false) }
{
    for i in 1..rows.len() {
        if compare_at(key, rows[i - 1], rows[i]).is_eq() {
            return true;
        }
    }
    false
}

/// Compares two rows on the columns of a key, the first that differs deciding.
fn compare_at(key: &[u32], a: &Row, b: &Row) -> Ordering
    ensures { result ≡ key_cmp key.now a.now b.now }
{
    for column in key {
        let order = compare_cells(a, b, *column);
        if order.is_ne() {
            return order;
        }
    }
    Ordering::Equal
}

fn compare_cells(a: &Row, b: &Row, column: u32) -> Ordering
    ensures { result ≡ value_cmp (slice_index_or a.now column v.Absent) (slice_index_or b.now column v.Absent) }
{
    match a.get(column as usize) {
        None => compare_cell(&Value::Absent, b, column),
        Some(value) => compare_cell(value, b, column),
    }
}

/// Compares a value with that in a column, Absent past the end of the row.
fn compare_cell(a: &Value, b: &Row, column: u32) -> Ordering
    ensures { result ≡ value_cmp a.now (slice_index_or b.now column v.Absent) }
{
    match b.get(column as usize) {
        None => compare_values(a, &Value::Absent),
        Some(value) => compare_values(a, value),
    }
}
