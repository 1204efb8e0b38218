//! Changes of tables that are full.
use std::alloc::Global;
use ur_base::{List, Memory, Shared};
use ur_sql::{Action, Planned, Scalar, plan_action};
use ur_values::{Numbered, Value};

/// So many rows without columns.
fn empty_rows(alloc: Global, count: u64) -> Result<List<Numbered>, Memory> {
    let mut rows = List::new(alloc);
    for number in 0..count {
        let row = Shared::new(alloc, List::new(alloc))?;
        rows.push(Numbered { number, row })?;
    }
    Ok(rows)
}

/// No key, or the empty one.
fn empty_keys(alloc: Global, count: u32) -> Result<List<List<u32>>, Memory> {
    let mut keys = List::new(alloc);
    for _ in 0..count {
        keys.push(List::new(alloc))?;
    }
    Ok(keys)
}

/// `+` for changes, `K` for a key that would repeat, and `F` for a table that is full.
fn letter(planned: &Planned) -> u8 {
    match planned {
        Planned::Changes(_) => b'+',
        Planned::DuplicateKey(_) => b'K',
        Planned::TableFull => b'F',
    }
}

/// What the action comes to on so many rows without columns, with so many empty keys.
fn comes_to(alloc: Global, action: &Action, rows: u64, keys: u32) -> Result<u8, Memory> {
    let rows = empty_rows(alloc, rows)?;
    let keys = empty_keys(alloc, keys)?;
    let planned = plan_action(alloc, action, &[], &rows, &keys)?;
    Ok(letter(&planned))
}

/// What the insertion of a row without columns comes to.
fn inserts(alloc: Global, rows: u64, keys: u32) -> Result<u8, Memory> {
    let insert = Action::Insert(List::new(alloc));
    comes_to(alloc, &insert, rows, keys)
}

/// A row without columns repeats an empty key, which comes before the number of rows.
#[test]
fn a_full_table_takes_no_row(rt: HostRuntime) -> Result<(), Memory> {
    let alloc = rt.alloc();
    assert!(rt; inserts(alloc, 999_999, 0)? == b'+');
    assert!(rt; inserts(alloc, 1_000_000, 0)? == b'F');
    assert!(rt; inserts(alloc, 1_000_000, 1)? == b'K');
    Ok(())
}

/// What the deletion of no row comes to.
fn deletes_nothing(alloc: Global, rows: u64) -> Result<u8, Memory> {
    let nothing = Action::Delete(Some(Scalar::Constant(Value::Bool(false))));
    comes_to(alloc, &nothing, rows, 0)
}

#[test]
fn a_full_table_is_changed(rt: HostRuntime) -> Result<(), Memory> {
    assert!(rt; deletes_nothing(rt.alloc(), 1_000_000)? == b'+');
    Ok(())
}
