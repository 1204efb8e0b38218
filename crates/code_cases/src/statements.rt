//! Queries and changes, as cases write them.
use crate::words::{first, kinds, number, numbers};
use std::alloc::Global;
use ur_base::{Boxed, List, Memory, Name};
use ur_sql::{Action, Change, ColumnAt, Comparison, Field, Item, OrderKey, Query, Scalar};
use ur_values::{ColumnKind, Schema, Value};

/// The kinds of a table's columns.
fn kinds_of(alloc: Global, schema: &Schema, table: u32) -> Result<List<ColumnKind>, Memory> {
    let mut kinds = List::new(alloc);
    if let Some(shape) = schema.tables.get(table as usize) {
        for column in shape.columns.as_slice() {
            kinds.push(column.1)?;
        }
    }
    Ok(kinds)
}

fn item(alloc: Global, schema: &Schema, table: u32) -> Result<Item, Memory> {
    let columns = kinds_of(alloc, schema, table)?;
    Ok(Item { table, columns })
}

fn items(alloc: Global, schema: &Schema, tables: &str) -> Result<List<Item>, Memory> {
    let mut items = List::new(alloc);
    for table in tables.split(',') {
        let item = item(alloc, schema, number(table))?;
        items.push(item)?;
    }
    Ok(items)
}

/// These columns of the first table, by rising names.
fn fields(alloc: Global, columns: &str) -> Result<List<Field>, Memory> {
    let mut fields = List::new(alloc);
    let mut name = 0u32;
    for column in columns.split(',') {
        fields.push(Field::Single(Name(name), Scalar::Column(0, number(column))))?;
        name = name.saturating_add(1);
    }
    Ok(fields)
}

/// The columns by which rows are ordered.
fn order(alloc: Global, columns: &List<u32>) -> Result<List<OrderKey>, Memory> {
    let mut order = List::new(alloc);
    for column in columns.as_slice() {
        let by = Scalar::Column(0, *column);
        let descending = false;
        order.push(OrderKey { by, descending })?;
    }
    Ok(order)
}

fn ordered(alloc: Global, columns: &str) -> Result<List<OrderKey>, Memory> {
    let columns = numbers(alloc, columns)?;
    order(alloc, &columns)
}

/// A column `c0`, what is passed `p0`, or an int.
fn side(alloc: Global, word: &str) -> Result<Boxed<Scalar>, Memory> {
    let behind = word.get(1..).unwrap_or("");
    let scalar = match word.as_bytes().first() {
        Some(b'c') => Scalar::Column(0, number(behind)),
        Some(b'p') => Scalar::Param(number(behind)),
        _ => Scalar::Constant(Value::Int(word.parse::<i64>().unwrap_or(0))),
    };
    Boxed::new(alloc, scalar)
}

/// `c0=p0`
fn equation(alloc: Global, word: &str) -> Result<Scalar, Memory> {
    let (left, right) = word.split_once('=').unwrap_or((word, ""));
    let left = side(alloc, left)?;
    let right = side(alloc, right)?;
    Ok(Scalar::Compare(Comparison::Equal, left, right))
}

/// An equation and another one.
fn both(alloc: Global, one: &str, other: &str) -> Result<Scalar, Memory> {
    let one = Boxed::new(alloc, equation(alloc, one)?)?;
    let other = Boxed::new(alloc, equation(alloc, other)?)?;
    Ok(Scalar::And(one, other))
}

/// `c0=7&p0=8` are two equations, and `-` is none.
fn filter(alloc: Global, word: &str) -> Result<Option<Scalar>, Memory> {
    if word == "-" {
        return Ok(None);
    }
    match word.split_once('&') {
        Some((one, other)) => Ok(Some(both(alloc, one, other)?)),
        None => Ok(Some(equation(alloc, word)?)),
    }
}

/// The columns of the first table by which rows are grouped.
fn grouped(alloc: Global, columns: &str) -> Result<List<ColumnAt>, Memory> {
    let mut group = List::new(alloc);
    for word in columns.split(',') {
        if let Ok(column) = word.parse::<u32>() {
            group.push(ColumnAt { item: 0, column })?;
        }
    }
    Ok(group)
}

fn select(
    alloc: Global,
    params: List<ColumnKind>,
    fields: List<Field>,
    from: List<Item>,
    filter: Option<Scalar>,
    group: List<ColumnAt>,
    order: List<OrderKey>,
) -> Query {
    Query {
        params,
        fields,
        from,
        on: List::new(alloc),
        filter,
        group,
        order,
        limit: None,
        offset: None,
    }
}

/// `s 0 2,0 c1=p0 0` asks with a string that is passed for the columns 2 and 0 of the table 0 where column 1 is that string, by column 0. A word
/// more names the columns of groups.
pub fn query(alloc: Global, schema: &Schema, line: &str) -> Result<Query, Memory> {
    let (params, rest) = first(line);
    let (tables, rest) = first(rest);
    let (columns, rest) = first(rest);
    let (condition, rest) = first(rest);
    let (by, groups) = first(rest);
    let params = kinds(alloc, params)?;
    let group = grouped(alloc, groups)?;
    let from = items(alloc, schema, tables)?;
    let fields = fields(alloc, columns)?;
    let order = ordered(alloc, by)?;
    let filter = filter(alloc, condition)?;
    Ok(select(alloc, params, fields, from, filter, group, order))
}

// ---- changes

/// These columns, or all where none is written.
fn columns_of(alloc: Global, kinds: &List<ColumnKind>, words: &str) -> Result<List<u32>, Memory> {
    if !words.is_empty() {
        return numbers(alloc, words);
    }
    let mut columns = List::new(alloc);
    let mut n = 0u32;
    for _kind in kinds.as_slice() {
        columns.push(n)?;
        n = n.saturating_add(1);
    }
    Ok(columns)
}

/// The kinds of these columns.
fn params_of(
    alloc: Global,
    kinds: &List<ColumnKind>,
    columns: &List<u32>,
) -> Result<List<ColumnKind>, Memory> {
    let mut params = List::new(alloc);
    for column in columns.as_slice() {
        if let Some(kind) = kinds.get(*column as usize) {
            params.push(*kind)?;
        }
    }
    Ok(params)
}

/// What is passed, for each of the columns.
fn sets(alloc: Global, columns: &List<u32>) -> Result<List<(u32, Scalar)>, Memory> {
    let mut sets = List::new(alloc);
    let mut n = 0u32;
    for column in columns.as_slice() {
        sets.push((*column, Scalar::Param(n)))?;
        n = n.saturating_add(1);
    }
    Ok(sets)
}

/// A row of what is passed for the table of this number. Words more name its columns.
pub fn insert(alloc: Global, schema: &Schema, line: &str) -> Result<Change, Memory> {
    let (table, words) = first(line);
    let table = number(table);
    let kinds = kinds_of(alloc, schema, table)?;
    let columns = columns_of(alloc, &kinds, words)?;
    let params = params_of(alloc, &kinds, &columns)?;
    let sets = sets(alloc, &columns)?;
    Ok(Change {
        params,
        table,
        columns: kinds,
        action: Action::Insert(sets),
    })
}

/// `0 s c1=p0` drops the rows of the table 0 whose column 1 is the string that is passed.
pub fn delete(alloc: Global, schema: &Schema, line: &str) -> Result<Change, Memory> {
    let (table, rest) = first(line);
    let (params, condition) = first(rest);
    let table = number(table);
    let columns = kinds_of(alloc, schema, table)?;
    let params = kinds(alloc, params)?;
    let filter = filter(alloc, condition)?;
    Ok(Change {
        params,
        table,
        columns,
        action: Action::Delete(filter),
    })
}
