//! Changes that fit their tables.
ghost use Rattle.std.specs.Prelude.{◌≡◌, ◌↔◌, IsTrue, IfOk, map, nat_eq};
ghost use Rattle.std.specs.List.{IsDistinct, list_any};
ghost use Rattle.ur_sql.specs.Typing.{ActionFits, ChangeFits, SetsFit};
ghost use Rattle.ur_verify.specs.Scope.{scope};

use crate::columns::kind_at;
use crate::queries::{is_table, may_be_condition};
use crate::scalars::has_kind;
use std::alloc::Global;
use ur_base::{List, Memory};
use ur_sql::{Action, Change, Scalar};
use ur_values::{ColumnKind, Schema};

/// Whether a change fits its table.
pub fn change_fits(alloc: Global, schema: &Schema, change: &Change) -> Result<bool, Memory>
    ensures { IfOk result (λ fits. IsTrue fits ↔ ChangeFits schema.now change.now) }
{
    let params = change.params.as_slice();
    let columns = change.columns.as_slice();
    if !is_table(schema, change.table, columns) {
        return Ok(false);
    }
    action_fits(alloc, params, columns, &change.action)
}

fn action_fits(
    alloc: Global,
    params: &[ColumnKind],
    columns: &[ColumnKind],
    action: &Action,
) -> Result<bool, Memory>
    ensures { IfOk result (λ fits. IsTrue fits ↔ ActionFits params.now columns.now action.now) }
{
    match action {
        Action::Insert(sets) => {
            let sets = sets.as_slice();
            if !sets_fit(sets, params, &[], columns) {
                return Ok(false);
            }
            if !are_distinct(sets) {
                return Ok(false);
            }
            Ok(sets.len() == columns.len())
        }
        Action::Update(sets, condition) => {
            let sets = sets.as_slice();
            let items = [List::from_slice(alloc, columns)?];
            if !sets_fit(sets, params, &items, columns) {
                return Ok(false);
            }
            if !are_distinct(sets) {
                return Ok(false);
            }
            Ok(may_be_condition(condition, params, &items))
        }
        Action::Delete(condition) => {
            let items = [List::from_slice(alloc, columns)?];
            Ok(may_be_condition(condition, params, &items))
        }
    }
}

/// Whether each column is there, and its value has its kind.
fn sets_fit(
    sets: &[(u32, Scalar)],
    params: &[ColumnKind],
    items: &[List<ColumnKind>],
    columns: &[ColumnKind],
) -> bool
    ensures { IsTrue result ↔ SetsFit (scope params.now items.now) columns.now sets.now }
{
    for set in sets {
        match kind_at(columns, set.0) {
            None => return false,
            Some(kind) => {
                if !has_kind(&set.1, params, items, kind) {
                    return false;
                }
            }
        }
    }
    true
}

/// Whether no column is set twice.
fn are_distinct(sets: &[(u32, Scalar)]) -> bool
    ensures { IsTrue result ↔ IsDistinct nat_eq (map (λ set. set.0) sets.now) }
{
    let mut left = sets;
    while let Some((set, rest)) = left.split_first() {
        if is_set(rest, set.0) {
            return false;
        }
        left = rest;
    }
    true
}

fn is_set(sets: &[(u32, Scalar)], column: u32) -> bool
    ensures { result ≡ list_any (nat_eq column) (map (λ set. set.0) sets.now) }
{
    for set in sets {
        if column == set.0 {
            return true;
        }
    }
    false
}
