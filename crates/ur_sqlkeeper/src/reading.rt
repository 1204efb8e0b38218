//! Bodies from the rows of an answer.
ghost use Rattle.std.specs.Prelude.{◌≡◌, true, IsTrue, map, T, IfOk};
ghost use Rattle.std.specs.Ordering.{int_cmp};
ghost use Rattle.std.specs.Option.{option_to_list};
ghost use Rattle.std.specs.FinMap.{is_sorted};
ghost use Rattle.sqlite.specs.Held.{state};
ghost use Rattle.sqlite.specs.Order.{bytes, column};
ghost use Rattle.ur_keeper_bodies.specs.Bodies.{bodies_of, body_at};
ghost use Rattle.ur_sqlkeeper.specs.Rows.{map_in};
ghost use Rattle.ur_sqlkeeper.specs.Entries.{Above, entry_in, body_in};
ghost use Rattle.ur_sqlkeeper.specs.Serving.{IsOurs, IsServing, IsStill};

use crate::honest::Honest;
use crate::statements::{rows_at, rows_of};
use sqlite::{Connection, Error, ErrorCode, Row};
use std::alloc::Global;
use ur_base::{Bytes, List};

/// The rows of an answer are not those that the key of the table lets stand.
const CORRUPT: Error = Error::SqliteFailure(ErrorCode::DatabaseCorrupt);

/// The bodies of one table, by rising number.
pub(crate) fn read<S: Honest>(
    alloc: Global,
    conn: &mut Connection<S>,
    tab: i64,
) -> Result<List<(i64, Bytes)>, Error>
    ensures bodies { S.is_honest ≡ true → IsOurs (state S.Store conn.old).now → IfOk result (λ found. found ≡ bodies_of (map_in ((state S.Store conn.old).now.trees 0)) tab) }
    ensures still { S.is_honest ≡ true → IsServing (state S.Store conn.old) → IsStill (state S.Store conn.old).now (state S.Store conn.new) }
{
    let rows = rows_of(conn, tab)?;
    let found = entries(alloc, rows.as_slice())?;
    Ok(found)
}

/// One body, or None where there is none.
pub(crate) fn one<S: Honest>(
    conn: &mut Connection<S>,
    tab: i64,
    num: i64,
) -> Result<Option<Bytes>, Error>
    ensures body { S.is_honest ≡ true → IsOurs (state S.Store conn.old).now → IfOk result (λ found. found ≡ body_at (map_in ((state S.Store conn.old).now.trees 0)) tab num) }
    ensures still { S.is_honest ≡ true → IsServing (state S.Store conn.old) → IsStill (state S.Store conn.old).now (state S.Store conn.new) }
{
    let rows = rows_at(conn, tab, num)?;
    let found = only(rows.as_slice())?;
    Ok(found)
}

/// Rows of numbers and bodies, whose numbers must rise.
fn entries(alloc: Global, rows: &[Row]) -> Result<List<(i64, Bytes)>, Error>
    ensures found { IfOk result (λ found. found ≡ map entry_in rows.now) }
    ensures rise { IfOk result (λ found. T (is_sorted int_cmp found)) }
{
    let mut found = Vec::new(alloc);
    let mut last = None;
    for row in rows {
        let read = entry(row)?;
        if !is_above(last, read.0) {
            return Err(CORRUPT);
        }
        last = Some(read.0);
        found.push(read)?;
    }
    Ok(List::from_vec(found))
}

/// Whether the number is above the last one, if there is one.
fn is_above(last: Option<i64>, num: i64) -> bool
    ensures { IsTrue result → Above last num }
{
    match last {
        Some(last) => last < num,
        None => true,
    }
}

/// A number and a body.
fn entry(row: &Row) -> Result<(i64, Bytes), Error>
    ensures { IfOk result (λ entry. entry ≡ entry_in row.now) }
{
    let num: i64 = row.get(0)?;
    let body = blob(row, 1)?;
    Ok((num, body))
}

/// The body in the one row, or None where there is no row.
fn only(rows: &[Row]) -> Result<Option<Bytes>, Error>
    ensures { IfOk result (λ found. option_to_list found ≡ map body_in rows.now) }
{
    match rows {
        [] => Ok(None),
        [row] => {
            let body = blob(row, 0)?;
            Ok(Some(body))
        }
        _ => Err(CORRUPT),
    }
}

/// The bytes in a column.
fn blob(row: &Row, at: usize) -> Result<Bytes, Error>
    ensures { IfOk result (λ body. body ≡ bytes (column row.now at)) }
{
    let body: Vec<u8> = row.get(at)?;
    Ok(List::from_vec(body))
}
