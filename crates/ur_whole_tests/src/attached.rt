//! A keeper over bodies in memory: a store is taken whole or not at all, and keeps its schema.
use std::alloc::Global;
use ur_base::{List, Memory};
use ur_keeper::{Attached, Keeper, KeeperEnd};
use ur_keeper_bodies::MemoryBodies;
use ur_keeper_kept::Kept;
use ur_values::{ColumnKind, Schema, TableShape};

fn columns(alloc: Global) -> Result<List<(List<u8>, ColumnKind)>, Memory> {
    let mut columns = List::new(alloc);
    columns.push((List::from_slice(alloc, b"Body")?, ColumnKind::Str))?;
    columns.push((List::from_slice(alloc, b"Id")?, ColumnKind::Int))?;
    Ok(columns)
}

fn keys(alloc: Global) -> Result<List<List<u32>>, Memory> {
    let mut keys = List::new(alloc);
    keys.push(List::from_slice(alloc, &[1])?)?;
    Ok(keys)
}

/// One table of this name and one sequence.
fn schema(alloc: Global, name: &[u8]) -> Result<Schema, Memory> {
    let table = TableShape {
        name: List::from_slice(alloc, name)?,
        columns: columns(alloc)?,
        keys: keys(alloc)?,
        primary: true,
    };
    let mut tables = List::new(alloc);
    tables.push(table)?;
    let mut sequences = List::new(alloc);
    sequences.push(List::from_slice(alloc, b"Main.ids")?)?;
    Ok(Schema { tables, sequences })
}

fn is_ready(answer: Result<Attached, KeeperEnd>) -> bool {
    match answer {
        Ok(Attached::Ready) => true,
        _ => false,
    }
}

fn differs(answer: Result<Attached, KeeperEnd>) -> bool {
    match answer {
        Ok(Attached::Differs(_)) => true,
        _ => false,
    }
}

fn failed(answer: Result<Attached, KeeperEnd>) -> bool {
    match answer {
        Err(KeeperEnd::Failed) => true,
        _ => false,
    }
}

/// Whether an `attach` fails where this call of the bodies does, and the next one takes the store.
fn fails_at(alloc: Global, call: u64) -> Result<bool, Memory> {
    let notes = schema(alloc, b"Main.note")?;
    let mut fail = List::new(alloc);
    fail.push(call)?;
    let mut keeper = Kept::new(alloc, MemoryBodies::new(alloc, fail));
    let first = failed(keeper.attach(&notes));
    let second = is_ready(keeper.attach(&notes));
    Ok(first && second)
}

/// Whether an empty store is taken, also once more, and another schema differs.
fn takes_one(alloc: Global) -> Result<bool, Memory> {
    let notes = schema(alloc, b"Main.note")?;
    let other = schema(alloc, b"Main.other")?;
    let mut keeper = Kept::new(alloc, MemoryBodies::new(alloc, List::new(alloc)));
    let first = is_ready(keeper.attach(&notes));
    let second = differs(keeper.attach(&other));
    let third = is_ready(keeper.attach(&notes));
    Ok(first && second && third)
}

/// The first `attach` makes five calls.
#[test]
fn a_failed_attach_is_made_again(rt: HostRuntime) -> Result<(), Memory> {
    let alloc = rt.alloc();
    assert!(rt; fails_at(alloc, 1)?);
    assert!(rt; fails_at(alloc, 2)?);
    assert!(rt; fails_at(alloc, 3)?);
    assert!(rt; fails_at(alloc, 4)?);
    assert!(rt; fails_at(alloc, 5)?);
    assert!(rt; !fails_at(alloc, 6)?);
    Ok(())
}

#[test]
fn a_store_keeps_one_schema(rt: HostRuntime) -> Result<(), Memory> {
    let alloc = rt.alloc();
    assert!(rt; takes_one(alloc)?);
    Ok(())
}
