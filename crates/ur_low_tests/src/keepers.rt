//! A keeper in memory: stores that are attached again, and a row that is added.
ghost use Rattle.std.specs.Prelude.{◌≡◌, false, IfOk};
ghost use Rattle.ur_keeper.specs.Tables.{Keeps};
ghost use Rattle.ur_keeper.specs.Keeper.{IsRowOf};
ghost use Rattle.ur_keeper.specs.Memory.{empty_memory};
ghost use Rattle.ur_low_tests.specs.Trials.{HasOneTable};

use std::alloc::Global;
use ur_base::{List, Memory};
use ur_keeper::{Attached, Keeper, KeeperEnd, MemoryKeeper, add_row};
use ur_values::{ColumnKind, Row, Schema, TableShape, Value};

/// A table with an int column and no key, and a row of it.
fn plain(alloc: Global, name: &[u8]) -> Result<(Schema, Row), Memory>
    ensures table { IfOk result (λ made. HasOneTable made.0) }
    ensures row { IfOk result (λ made. IsRowOf (Keeps made.0) 0 made.1) }
{
    let mut columns = List::new(alloc);
    columns.push((List::from_slice(alloc, b"Id")?, ColumnKind::Int))?;
    let name = List::from_slice(alloc, name)?;
    let mut tables = List::new(alloc);
    tables.push(TableShape {
        name,
        columns,
        keys: List::new(alloc),
        primary: false,
    })?;
    let schema = Schema {
        tables,
        sequences: List::new(alloc),
    };
    let mut row = List::new(alloc);
    row.push(Value::Int(7))?;
    Ok((schema, row))
}

/// Whether a second row is added after a first one, and how many rows are saved then.
fn second_row(
    keeper: &mut MemoryKeeper,
    schema: &Schema,
    row: &Row,
) -> Result<(Result<(), KeeperEnd>, usize), KeeperEnd>
    requires fresh { keeper.old ≡ empty_memory keeper.old.plan.fail }
    requires table { HasOneTable schema.now }
    requires row { IsRowOf (Keeps schema.now) 0 row.now }
{
    drop(keeper.attach(schema)?);
    add_row(keeper, 0, row)?;
    let added = add_row(keeper, 0, row);
    Ok((added, keeper.table(0).len()))
}

/// Whether the second row fails or is there where this call fails: attach, then scan, insert and commit, twice.
fn is_whole(alloc: Global, call: u64) -> Result<bool, KeeperEnd> {
    let (schema, row) = plain(alloc, b"Notes")?;
    let mut keeper = MemoryKeeper::new(alloc, List::from_slice(alloc, &[call])?);
    let (added, rows) = second_row(&mut keeper, &schema, &row)?;
    match added {
        Ok(()) => Ok(call == 8 && rows == 2),
        Err(KeeperEnd::Failed) => Ok(call < 8 && rows == 1),
        Err(KeeperEnd::Memory) => Ok(false),
    }
}

#[test]
fn a_row_is_added_whole_or_not_at_all(rt: HostRuntime) -> Result<(), KeeperEnd> {
    for call in 5..=8_u64 {
        assert!(rt; is_whole(rt.alloc(), call)?, "call {call}");
    }
    Ok(())
}

/// Whether a store has this schema already, or gives the one that it has.
fn keeps<K: Keeper>(keeper: &mut K, schema: &Schema, first: &Schema) -> Result<bool, KeeperEnd>
    requires { K.under_way keeper.old ≡ false }
    ensures { K.under_way keeper.new ≡ false }
{
    match keeper.attach(schema)? {
        Attached::Ready => Ok(schema.same(first)),
        Attached::Differs(kept) => Ok(kept.same(first) && !schema.same(first)),
    }
}

fn keeps_the_first(alloc: Global) -> Result<bool, KeeperEnd> {
    let (notes, _row) = plain(alloc, b"Notes")?;
    let (other, _row) = plain(alloc, b"Other")?;
    let mut keeper = MemoryKeeper::new(alloc, List::new(alloc));
    let first = keeps(&mut keeper, &notes, &notes)?;
    let second = keeps(&mut keeper, &other, &notes)?;
    let again = keeps(&mut keeper, &notes, &notes)?;
    Ok(first && second && again)
}

#[test]
fn a_store_keeps_its_first_schema(rt: HostRuntime) -> Result<(), KeeperEnd> {
    assert!(rt; keeps_the_first(rt.alloc())?);
    Ok(())
}
