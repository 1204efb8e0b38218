//! Queries over large tables: a join on equal columns, groups, and an order.
use std::alloc::Global;
use ur_base::{Boxed, List, Memory, Name, Shared};
use ur_sql::{Aggregate, ColumnAt, Comparison, Field, OrderKey, Query, Scalar, answer};
use ur_values::{Numbered, Row, Value};

/// SELECT s.A FROM s JOIN t ON s.A = t.A over two tables of this many rows: how many rows it answers.
pub fn join(alloc: Global, rows: u32) -> Result<usize, Memory> {
    let mut tables = List::new(alloc);
    tables.push(table(alloc, rows)?)?;
    tables.push(table(alloc, rows)?)?;
    let query = joined(alloc)?;
    answered(alloc, &query, tables.as_slice())
}

/// SELECT SUM(s.A) FROM s GROUP BY s.B over this many rows, four of each group: how many groups there are.
pub fn group(alloc: Global, rows: u32) -> Result<usize, Memory> {
    let tables = one(alloc, table(alloc, rows)?)?;
    let query = grouped(alloc)?;
    answered(alloc, &query, tables.as_slice())
}

/// SELECT s.A FROM s ORDER BY s.B DESC, s.A over this many rows: how many rows it answers.
pub fn order(alloc: Global, rows: u32) -> Result<usize, Memory> {
    let tables = one(alloc, table(alloc, rows)?)?;
    let query = ordered(alloc)?;
    answered(alloc, &query, tables.as_slice())
}

fn answered(alloc: Global, query: &Query, tables: &[List<Numbered>]) -> Result<usize, Memory> {
    Ok(answer(alloc, query, &[], tables)?.len())
}

/// The first columns of both items are equal.
fn equal_columns(alloc: Global) -> Result<Scalar, Memory> {
    let left = Boxed::new(alloc, Scalar::Column(0, 0))?;
    let right = Boxed::new(alloc, Scalar::Column(1, 0))?;
    Ok(Scalar::Compare(Comparison::Equal, left, right))
}

fn joined(alloc: Global) -> Result<Query, Memory> {
    let condition = equal_columns(alloc)?;
    let on = one(alloc, condition)?;
    let mut query = select(alloc, first_column())?;
    query.on = on;
    Ok(query)
}

fn grouped(alloc: Global) -> Result<Query, Memory> {
    let group = one(alloc, ColumnAt { item: 0, column: 1 })?;
    let sum = Aggregate::Sum(Scalar::Column(0, 0));
    let mut query = select(alloc, Field::Over(Name(0), sum))?;
    query.group = group;
    Ok(query)
}

fn key(column: u32, descending: bool) -> OrderKey {
    OrderKey {
        by: Scalar::Column(0, column),
        descending,
    }
}

fn ordered(alloc: Global) -> Result<Query, Memory> {
    let mut order = one(alloc, key(1, true))?;
    order.push(key(0, false))?;
    let mut query = select(alloc, first_column())?;
    query.order = order;
    Ok(query)
}

fn first_column() -> Field {
    Field::Single(Name(0), Scalar::Column(0, 0))
}

fn one<T: Drop>(alloc: Global, element: T) -> Result<List<T>, Memory> {
    let mut list = List::new(alloc);
    list.push(element)?;
    Ok(list)
}

/// SELECT of this field.
fn select(alloc: Global, field: Field) -> Result<Query, Memory> {
    let fields = one(alloc, field)?;
    Ok(Query {
        params: List::new(alloc),
        fields,
        from: List::new(alloc),
        on: List::new(alloc),
        filter: None,
        group: List::new(alloc),
        order: List::new(alloc),
        limit: None,
        offset: None,
    })
}

/// A table of this many rows: a number that stands in one row alone, the rows in no order of it, and one that stands
/// in four.
fn table(alloc: Global, rows: u32) -> Result<List<Numbered>, Memory> {
    let mut table = List::new(alloc);
    for i in 0..rows {
        let mixed = u64::from(i).wrapping_mul(7919) % u64::from(rows);
        let row = Shared::new(alloc, row(alloc, mixed)?)?;
        let number = u64::from(i);
        table.push(Numbered { number, row })?;
    }
    Ok(table)
}

fn row(alloc: Global, number: u64) -> Result<Row, Memory> {
    let mut row = List::new(alloc);
    row.push(Value::Int(number.cast_signed()))?;
    row.push(Value::Int((number / 4).cast_signed()))?;
    Ok(row)
}
