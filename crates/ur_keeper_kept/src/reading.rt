//! The rows of a table from their bodies.
ghost use Rattle.std.specs.Prelude.{◌≡◌, ◌+◌, ◌<◌, length, pos, ◌&&◌, cond, T, Some, None, IfOk, OnOk, IfSome, IfNone};
ghost use Rattle.std.specs.Ordering.{int_cmp, int_eq};
ghost use Rattle.std.specs.FinMap.{is_sorted};
ghost use Rattle.ur_keeper_bodies.specs.Bodies.{BodyMap, body_at, written_one, written};
ghost use Rattle.ur_keeper_kept.specs.Laid.{columns_at};
ghost use Rattle.ur_keeper_kept.specs.Kept.{AreRead};
ghost use Rattle.ur_keeper_kept.specs.Faults.{AreReadable};

use std::alloc::Global;
use ur_base::{Bytes, List, Memory, Shared, Text};
use ur_keeper_bodies::{BodyChange, Layout, read_body};
use ur_values::{ColumnKind, Numbered, Schema};

/// Rows, and the number that comes next.
#[derive(Drop)]
pub(crate) struct Found {
    pub(crate) rows: List<Numbered>,
    pub(crate) next: i64,
}

/// The rows of these bodies in this layout, or None where one is none of a row of these columns or the numbers do not rise from 0.
pub(crate) fn read_rows(
    alloc: Global,
    layout: Layout,
    columns: &[(Text, ColumnKind)],
    entries: &[(i64, Bytes)],
) -> Result<Option<Found>, Memory>
    ensures read { IfOk result (λ found. IfSome found (λ f. AreRead layout columns.now entries.now f.rows f.next)) }
    ensures unread { IfOk result (λ found. IfNone found (T (is_sorted int_cmp entries.now) → AreReadable layout columns.now entries.now → ⊥)) }
{
    let mut rows: List<Numbered> = List::new(alloc);
    let mut next: i64 = 0;
    for entry in entries {
        if entry.0 < next {
            return Ok(None);
        }
        if entry.0 == i64::MAX {
            return Ok(None);
        }
        let Some(row) = read_body(alloc, layout, columns, entry.1.as_slice())? else {
            return Ok(None);
        };
        let shared = Shared::new(alloc, row)?;
        rows.push(Numbered {
            number: entry.0 as u64,
            row: shared,
        })?;
        next = entry.0 + 1;
    }
    Ok(Some(Found { rows, next }))
}

/// The tab of a table.
pub(crate) fn table_tab(table: u32) -> i64
    ensures { result ≡ pos (2 + table) }
{
    i64::from(table) + 2
}

/// The columns of a table.
pub(crate) fn columns_at(schema: &Schema, table: usize) -> &[(Text, ColumnKind)]
    requires { table < length schema.now.tables }
    ensures { result.now ≡ columns_at schema.now table }
{
    schema.tables.as_slice()[table].columns.as_slice()
}

/// A body after a change of the map.
pub(crate) fn change_body(
    alloc: Global,
    body: &mut Option<Bytes>,
    tab: i64,
    num: i64,
    change: &BodyChange,
) -> Result<(), Memory>
    ensures { OnOk result ((m : BodyMap) → body.old ≡ body_at m tab num → body.new ≡ body_at (written_one m change.now) tab num) }
{
    match change {
        BodyChange::Add(t, n, put) => {
            let here = is_here(*t, *n, tab, num);
            put_body(alloc, body, here, put)?;
            Ok(())
        }
        BodyChange::Put(t, n, put) => {
            let here = is_here(*t, *n, tab, num);
            put_body(alloc, body, here, put)?;
            Ok(())
        }
        BodyChange::Drop(t, n) => {
            let here = is_here(*t, *n, tab, num);
            take_body(body, here);
            Ok(())
        }
    }
}

/// Whether a place is this one.
fn is_here(t: i64, n: i64, tab: i64, num: i64) -> bool
    ensures { result ≡ (int_eq t tab && int_eq n num) }
{
    if t == tab {
        return n == num;
    }
    false
}

fn put_body(alloc: Global, body: &mut Option<Bytes>, here: bool, put: &Bytes) -> Result<(), Memory>
    ensures { OnOk result (body.new ≡ cond here (Some put.now) body.old) }
{
    if here {
        *body = Some(List::from_slice(alloc, put.as_slice())?);
    }
    Ok(())
}

fn take_body(body: &mut Option<Bytes>, here: bool)
    ensures { body.new ≡ cond here None body.old }
{
    if here {
        *body = None;
    }
}
