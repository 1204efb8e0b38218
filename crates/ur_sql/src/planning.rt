//! A change as changes of single rows.
ghost use Rattle.std.specs.Prelude.{◌≡◌, ◌&&◌, [], nat_le, IfOk, IsNone, All};
ghost use Rattle.std.specs.List.{list_any};
ghost use Rattle.ur_values.specs.Keys.{repeated_key, most_rows};
ghost use Rattle.ur_values.specs.Store.{FitKinds, FitsShape, kinds_of, rows_of};
ghost use Rattle.ur_values.specs.Numbered.{HaveRisingNumbers};
ghost use Rattle.ur_sql.specs.Change.{is_insert, unless_repeated};
ghost use Rattle.ur_sql.specs.Plan.{plan, planned_as, OnChanges, OfNewRow, Makes};
ghost use Rattle.ur_sql.specs.Typing.{ActionFits};
ghost use Rattle.ur_sql.specs.Merged.{merged};
ghost use Rattle.ur_sql.specs.NewKeys.{added_key, is_set, new_repeat};

use crate::change::{Action, Change, Planned, RowChange};
use crate::row_changes::{row_changes, rows_after};
use crate::scalar::Scalar;
use std::alloc::Global;
use ur_base::{List, Memory};
use ur_values::{Numbered, TableShape, Value, repeated_key, taken_key};

/// A table holds no more rows.
const MOST_ROWS: usize = 1_000_000;

/// What the change of these rows comes to, as changes of single rows, each of which finds its row; together they give
/// the table that the change gives. A key that two rows would agree on comes before a full table, which is told of
/// INSERT alone.
pub fn plan(
    alloc: Global,
    change: &Change,
    args: &[Value],
    rows: &List<Numbered>,
    shape: &TableShape,
) -> Result<Planned, Memory>
    requires args { FitKinds args.now change.now.params }
    requires shape { kinds_of shape.now ≡ change.now.columns }
    requires change { ActionFits change.now.params change.now.columns change.now.action }
    requires rows { All (λ r. FitsShape shape.now r.row) rows.now }
    requires numbers { HaveRisingNumbers rows.now }
    ensures exact { IfOk result (λ p. p ≡ plan change.now.action args.now shape.now.keys rows.now) }
    ensures makes { IfOk result (λ p. OnChanges p (Makes change.now.action args.now shape.now.keys rows.now)) }
    ensures fits { IfOk result (λ p. OnChanges p (All (OfNewRow (FitsShape shape.now)))) }
{
    plan_action(alloc, &change.action, args, rows, &shape.keys)
}

/// The same of rows of which no two agree on a key: a new row is looked for alone, and no key is looked at where no column of
/// one is set. Of other rows it says what single rows are changed, and not which keys repeat.
pub fn plan_sound(
    alloc: Global,
    change: &Change,
    args: &[Value],
    rows: &List<Numbered>,
    shape: &TableShape,
) -> Result<Planned, Memory>
    requires args { FitKinds args.now change.now.params }
    requires shape { kinds_of shape.now ≡ change.now.columns }
    requires change { ActionFits change.now.params change.now.columns change.now.action }
    requires rows { All (λ r. FitsShape shape.now r.row) rows.now }
    requires numbers { HaveRisingNumbers rows.now }
    ensures exact { IsNone (repeated_key shape.now.keys (rows_of rows.now)) → IfOk result (λ p. p ≡ plan change.now.action args.now shape.now.keys rows.now) }
    ensures fits { IfOk result (λ p. OnChanges p (All (OfNewRow (FitsShape shape.now)))) }
{
    let changes = row_changes(alloc, &change.action, args, rows)?;
    let repeated = new_repeat(alloc, &change.action, rows, &changes, &shape.keys)?;
    Ok(outcome(&change.action, rows.len(), repeated, changes))
}

/// What an action on these rows comes to, where two rows may not agree on a key, whatever the types: `plan` says more
/// of typed changes.
pub fn plan_action(
    alloc: Global,
    action: &Action,
    args: &[Value],
    rows: &List<Numbered>,
    keys: &List<List<u32>>,
) -> Result<Planned, Memory>
    ensures { HaveRisingNumbers rows.now → IfOk result (λ p. p ≡ plan action.now args.now keys.now rows.now) }
{
    let changes = row_changes(alloc, action, args, rows)?;
    let repeated = key_after(alloc, rows, &changes, keys)?;
    Ok(outcome(action, rows.len(), repeated, changes))
}

/// The first key that two rows agree on after row changes.
fn key_after(
    alloc: Global,
    rows: &List<Numbered>,
    changes: &List<RowChange>,
    keys: &List<List<u32>>,
) -> Result<Option<u32>, Memory>
    ensures { IfOk result (λ key. key ≡ repeated_key keys.now (merged rows.now changes.now)) }
{
    let after = rows_after(alloc, rows, changes)?;
    repeated_key(alloc, keys, after.as_slice())
}

/// The same where no two rows agree on a key before.
fn new_repeat(
    alloc: Global,
    action: &Action,
    rows: &List<Numbered>,
    changes: &List<RowChange>,
    keys: &List<List<u32>>,
) -> Result<Option<u32>, Memory>
    ensures { IfOk result (λ key. key ≡ new_repeat action.now keys.now rows.now changes.now) }
{
    match action {
        Action::Insert(_) => added_key(rows, changes, keys),
        Action::Update(sets, _) => {
            if set_some(sets.as_slice(), keys.as_slice()) {
                return key_after(alloc, rows, changes, keys);
            }
            Ok(None)
        }
        Action::Delete(_) => Ok(None),
    }
}

/// The first key on which the row that is added agrees with one that is there.
fn added_key(
    rows: &List<Numbered>,
    changes: &List<RowChange>,
    keys: &List<List<u32>>,
) -> Result<Option<u32>, Memory>
    ensures { IfOk result (λ key. key ≡ added_key keys.now rows.now changes.now) }
{
    match changes.as_slice().first() {
        Some(RowChange::Add(row)) => taken_key(keys, rows.as_slice(), row),
        _ => Ok(None),
    }
}

/// Whether a column of one of these keys is set.
fn set_some(sets: &[(u32, Scalar)], keys: &[List<u32>]) -> bool
    ensures { result ≡ list_any (list_any (is_set sets.now)) keys.now }
{
    for key in keys {
        if set_one(sets, key.as_slice()) {
            return true;
        }
    }
    false
}

fn set_one(sets: &[(u32, Scalar)], key: &[u32]) -> bool
    ensures { result ≡ list_any (is_set sets.now) key.now }
{
    for column in key {
        if is_set(sets, *column) {
            return true;
        }
    }
    false
}

fn is_set(sets: &[(u32, Scalar)], column: u32) -> bool
    ensures { result ≡ is_set sets.now column }
{
    for set in sets {
        if set.0 == column {
            return true;
        }
    }
    false
}

/// The changes, unless a key repeats or an INSERT finds the table full.
fn outcome(action: &Action, rows: usize, repeated: Option<u32>, changes: List<RowChange>) -> Planned
    ensures { result ≡ planned_as (unless_repeated repeated (is_insert action.now && nat_le most_rows rows) []) changes }
{
    match repeated {
        Some(key) => Planned::DuplicateKey(key),
        None => {
            if is_insert(action) && rows >= MOST_ROWS {
                return Planned::TableFull;
            }
            Planned::Changes(changes)
        }
    }
}

fn is_insert(action: &Action) -> bool
    ensures { result ≡ is_insert action.now }
{
    match action {
        Action::Insert(_) => true,
        Action::Update(_, _) => false,
        Action::Delete(_) => false,
    }
}
