//! Changes of a large table, planned: all rows take new keys, and a new row is looked up in two keys.
use std::alloc::Global;
use std::fmt;
use ur_base::{List, Memory, Shared};
use ur_sql::{Action, Planned, Scalar, plan_action};
use ur_values::{Numbered, Row, Value};

/// An odd number, whose multiples differ modulo 2^64 and come in no order.
const MIXER: i64 = -7_046_029_254_386_353_131;

/// How many rows UPDATE and INSERT change, and whether INSERT of a row that is there repeats a key.
#[derive(Clone, Copy, Debug, PartialEq, Eq)]
pub struct Plans {
    updated: usize,
    inserted: usize,
    repeats: bool,
}

impl fmt::Display for Plans {
    fn fmt<W: fmt::Write>(&self, f: &mut fmt::Formatter<W>) -> fmt::Result {
        write!(
            f,
            "updated {} inserted {} repeats {}",
            self.updated, self.inserted, self.repeats
        )
    }
}

/// Plans an UPDATE of each row, an INSERT of a new row and one of a row that is there.
pub fn plan_all(alloc: Global, count: u32) -> Result<Plans, Memory> {
    let rows = rows(alloc, count)?;
    let updated = planned_update(alloc, &rows)?;
    let inserted = planned_insert(alloc, &rows, cell(count))?;
    let repeated = planned_insert(alloc, &rows, cell(0))?;
    Ok(Plans {
        updated: changed(&updated),
        inserted: changed(&inserted),
        repeats: matches!(&repeated, Planned::DuplicateKey(_)),
    })
}

fn changed(planned: &Planned) -> usize {
    match planned {
        Planned::Changes(changes) => changes.len(),
        Planned::DuplicateKey(_) => 0,
        Planned::TableFull => 0,
    }
}

/// UPDATE exchanges the columns of each row.
fn planned_update(alloc: Global, rows: &List<Numbered>) -> Result<Planned, Memory> {
    let keys = keys(alloc)?;
    let sets = sets(alloc, false)?;
    plan_action(alloc, &Action::Update(sets, None), &[], rows, &keys)
}

/// INSERT of a row with this int and its negative.
fn planned_insert(alloc: Global, rows: &List<Numbered>, n: i64) -> Result<Planned, Memory> {
    let keys = keys(alloc)?;
    let sets = sets(alloc, true)?;
    let args = [Value::Int(n), Value::Int(n.wrapping_neg())];
    plan_action(alloc, &Action::Insert(sets), &args, rows, &keys)
}

/// Each of the two columns is a key.
fn keys(alloc: Global) -> Result<List<List<u32>>, Memory> {
    let first = List::from_slice(alloc, &[0])?;
    let second = List::from_slice(alloc, &[1])?;
    let mut keys = List::new(alloc);
    keys.push(first)?;
    keys.push(second)?;
    Ok(keys)
}

/// Both columns, of the parameters or of each other.
fn sets(alloc: Global, new: bool) -> Result<List<(u32, Scalar)>, Memory> {
    let mut sets = List::new(alloc);
    sets.push((0, operand(new, 0, 1)))?;
    sets.push((1, operand(new, 1, 0)))?;
    Ok(sets)
}

/// A parameter, or a column.
fn operand(new: bool, parameter: u32, column: u32) -> Scalar {
    if new {
        Scalar::Param(parameter)
    } else {
        Scalar::Column(0, column)
    }
}

/// So many rows, each of an int and its negative, in no order.
fn rows(alloc: Global, count: u32) -> Result<List<Numbered>, Memory> {
    let mut rows = List::new(alloc);
    for n in 0..count {
        let row = Shared::new(alloc, pair(alloc, cell(n))?)?;
        let number = u64::from(n);
        rows.push(Numbered { number, row })?;
    }
    Ok(rows)
}

/// The first cell of the row with this number.
fn cell(n: u32) -> i64 {
    i64::from(n).wrapping_mul(MIXER)
}

fn pair(alloc: Global, n: i64) -> Result<Row, Memory> {
    let mut row = List::new(alloc);
    row.push(Value::Int(n))?;
    row.push(Value::Int(n.wrapping_neg()))?;
    Ok(row)
}
