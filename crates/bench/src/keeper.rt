//! A keeper in memory: a large table is scanned, changed and rolled back.
ghost use Rattle.std.specs.Prelude.{◌≡◌, ◌+◌, ◌≤◌, ◌<◌, IfOk, OnOk, true, false};
ghost use Rattle.ur_keeper.specs.Tables.{Keeps};
ghost use Rattle.ur_keeper.specs.Keeper.{IsRowOf};
ghost use Rattle.ur_keeper.specs.Memory.{empty_memory};
ghost use Rattle.bench.specs.Rows.{rows_schema, HasRows};

use std::alloc::Global;
use std::fmt;
use ur_base::{List, Memory};
use ur_keeper::{Keeper, KeeperEnd, MemoryKeeper};
use ur_values::{ColumnKind, Row, Schema, TableShape, Value};

/// The greatest number of rows of a table.
pub const MOST_ROWS: u32 = 1_000_000;

/// How many rows were read, replaced and removed, and how many were there before and after the rollback.
#[derive(Clone, Copy, Debug, PartialEq, Eq)]
pub struct Changes {
    scanned: usize,
    replaced: u32,
    removed: u32,
    left: usize,
    after: usize,
}

impl fmt::Display for Changes {
    fn fmt<W: fmt::Write>(&self, f: &mut fmt::Formatter<W>) -> fmt::Result {
        write!(
            f,
            "scanned {} replaced {} removed {} left {} after {}",
            self.scanned, self.replaced, self.removed, self.left, self.after
        )
    }
}

/// Fills a table and saves it; then scans it, replaces each row, removes every second one, scans it again and rolls back.
pub fn change_all(alloc: Global, rows: u32) -> Result<Changes, KeeperEnd>
    requires { rows ≤ MOST_ROWS }
{
    let (schema, first, second) = shape_and_rows(alloc)?;
    let mut keeper = MemoryKeeper::new(alloc, List::new(alloc));
    drop(keeper.attach(&schema)?);
    keeper.begin();
    fill(&mut keeper, &first, rows)?;
    keeper.commit()?;
    keeper.begin();
    let scanned = keeper.scan(0)?.len();
    replace_all(&mut keeper, &second, rows)?;
    remove_half(&mut keeper, rows)?;
    let left = keeper.scan(0)?.len();
    keeper.rollback();
    let after = keeper.table(0).len();
    Ok(Changes {
        scanned,
        replaced: rows,
        removed: rows / 2,
        left,
        after,
    })
}

/// Adds this many rows to an empty table.
fn fill(keeper: &mut MemoryKeeper, row: &Row, count: u32) -> Result<(), KeeperEnd>
    requires few { count ≤ MOST_ROWS }
    requires rows { HasRows 0 0 keeper.old }
    requires row { IsRowOf (Keeps rows_schema) 0 row.now }
    ensures { OnOk result (HasRows 0 count keeper.new) }
{
    for _ in 0..count {
        keeper.insert(0, row)?;
    }
    Ok(())
}

/// Replaces each row of a table.
fn replace_all(keeper: &mut MemoryKeeper, row: &Row, count: u32) -> Result<(), KeeperEnd>
    requires rows { HasRows 0 count keeper.old }
    requires row { IsRowOf (Keeps rows_schema) 0 row.now }
    ensures { OnOk result (HasRows 0 count keeper.new) }
{
    for number in 0..count {
        keeper.replace(0, u64::from(number), row)?;
    }
    Ok(())
}

/// Removes every second row of a table.
fn remove_half(keeper: &mut MemoryKeeper, count: u32) -> Result<(), KeeperEnd>
    requires rows { HasRows 0 count keeper.old }
    ensures { OnOk result (HasRows count count keeper.new) }
{
    for pair in 0..count / 2 {
        keeper.remove(0, u64::from(2 * pair + 1))?;
    }
    Ok(())
}

/// A table of an int and a text, without keys, and two rows of it.
fn shape_and_rows(alloc: Global) -> Result<(Schema, Row, Row), Memory>
    ensures schema { IfOk result (λ made. made.0 ≡ rows_schema) }
    ensures first { IfOk result (λ made. IsRowOf (Keeps rows_schema) 0 made.1) }
    ensures second { IfOk result (λ made. IsRowOf (Keeps rows_schema) 0 made.2) }
{
    let mut columns = List::new(alloc);
    columns.push((List::from_slice(alloc, b"Id")?, ColumnKind::Int))?;
    columns.push((List::from_slice(alloc, b"Text")?, ColumnKind::Str))?;
    let mut tables = List::new(alloc);
    tables.push(TableShape {
        name: List::from_slice(alloc, b"Rows")?,
        columns,
        keys: List::new(alloc),
        primary: false,
    })?;
    let schema = Schema {
        tables,
        sequences: List::new(alloc),
    };
    Ok((schema, row(alloc, 1)?, row(alloc, 2)?))
}

/// A row with this int.
fn row(alloc: Global, id: i64) -> Result<Row, Memory>
    ensures { IfOk result (λ row. IsRowOf (Keeps rows_schema) 0 row) }
{
    let mut row = List::new(alloc);
    row.push(Value::Int(id))?;
    row.push(Value::Str(List::from_slice(alloc, b"a text")?))?;
    Ok(row)
}
