//! Queries that fit the tables.
ghost use Rattle.std.specs.Prelude.{◌≡◌, ◌↔◌, IsTrue, IsSome, IfSome, IfOk, All, Contains, map, slice_get};
ghost use Rattle.std.specs.List.{list_any};
ghost use Rattle.ur_values.specs.Store.{kinds_of};
ghost use Rattle.ur_sql.specs.Answer.{is_aggregate};
ghost use Rattle.ur_sql.specs.Typing.{AggregateFits, AreConditions, BoundFits, FieldFits, FieldReadsOnly, HasSomeKind, IsGrouped, IsTyped, MayBeCondition, QueryFits, ReadsOnly};
ghost use Rattle.ur_verify.specs.Scope.{columns_of, kind_in, scope};

use crate::columns::{column_kind, columns_of, has_column, is_kind, kind_at};
use crate::scalars::{has_basic_kind, has_kind, has_some_kind, reads_only};
use std::alloc::Global;
use ur_base::{List, Memory, Name};
use ur_sql::{Aggregate, Bound, ColumnAt, Field, Item, OrderKey, Query, Scalar};
use ur_values::{ColumnKind, Schema};

/// Whether a query fits the tables.
pub fn query_fits(alloc: Global, schema: &Schema, query: &Query) -> Result<bool, Memory>
    ensures { IfOk result (λ fits. IsTrue fits ↔ QueryFits schema.now query.now) }
{
    if !are_tables(schema, query.from.as_slice()) {
        return Ok(false);
    }
    let items = columns_of(alloc, query.from.as_slice())?;
    Ok(is_typed(query, items.as_slice()))
}

/// Whether each item has the columns of its table.
fn are_tables(schema: &Schema, from: &[Item]) -> bool
    ensures { IsTrue result ↔ All (λ item. slice_get (map kinds_of schema.now.tables) item.table ≡ Some item.columns) from.now }
{
    for item in from {
        if !is_table(schema, item.table, item.columns.as_slice()) {
            return false;
        }
    }
    true
}

/// Whether a table is there and has columns of these kinds.
pub fn is_table(schema: &Schema, table: u32, columns: &[ColumnKind]) -> bool
    ensures { IsTrue result ↔ (slice_get (map kinds_of schema.now.tables) table ≡ Some columns.now) }
{
    let Some(shape) = schema.tables.get(table as usize) else {
        return false;
    };
    if shape.columns.len() != columns.len() {
        return false;
    }
    for i in 0..columns.len() {
        if shape.columns.as_slice()[i].1 != columns[i] {
            return false;
        }
    }
    true
}

fn is_typed(query: &Query, items: &[List<ColumnKind>]) -> bool
    requires { items.now ≡ columns_of query.now.from }
    ensures { IsTrue result ↔ IsTyped query.now }
{
    let params = query.params.as_slice();
    if !are_conditions(query.on.as_slice(), params, items) {
        return false;
    }
    if !may_be_condition(&query.filter, params, items) {
        return false;
    }
    if !fields_fit(query.fields.as_slice(), params, items) {
        return false;
    }
    if !columns_are_there(query.group.as_slice(), items) {
        return false;
    }
    if !keys_fit(query.order.as_slice(), params, items) {
        return false;
    }
    if !bounds_fit(query) {
        return false;
    }
    if !is_grouped(query) {
        return true;
    }
    grouped_fits(query)
}

fn bounds_fit(query: &Query) -> bool
    ensures { IsTrue result ↔ (IfSome query.now.limit (BoundFits query.now.params) × IfSome query.now.offset (BoundFits query.now.params)) }
{
    let params = query.params.as_slice();
    bound_fits(query.limit, params) && bound_fits(query.offset, params)
}

pub fn are_conditions(
    conditions: &[Scalar],
    params: &[ColumnKind],
    items: &[List<ColumnKind>],
) -> bool
    ensures { IsTrue result ↔ AreConditions (scope params.now items.now) conditions.now }
{
    for by in conditions {
        if !has_kind(by, params, items, ColumnKind::Bool) {
            return false;
        }
    }
    true
}

pub fn may_be_condition(
    condition: &Option<Scalar>,
    params: &[ColumnKind],
    items: &[List<ColumnKind>],
) -> bool
    ensures { IsTrue result ↔ MayBeCondition (scope params.now items.now) condition.now }
{
    match condition {
        None => true,
        Some(by) => has_kind(by, params, items, ColumnKind::Bool),
    }
}

fn fields_fit(fields: &[Field], params: &[ColumnKind], items: &[List<ColumnKind>]) -> bool
    ensures { IsTrue result ↔ All (FieldFits (scope params.now items.now)) fields.now }
{
    for field in fields {
        if !field_fits(field, params, items) {
            return false;
        }
    }
    true
}

fn field_fits(field: &Field, params: &[ColumnKind], items: &[List<ColumnKind>]) -> bool
    ensures { IsTrue result ↔ FieldFits (scope params.now items.now) field.now }
{
    match field {
        Field::Columns(_, columns) => named_are_there(columns.as_slice(), items),
        Field::Single(_, by) => has_some_kind(by, params, items),
        Field::Over(_, aggregate) => aggregate_fits(aggregate, params, items),
    }
}

fn aggregate_fits(aggregate: &Aggregate, params: &[ColumnKind], items: &[List<ColumnKind>]) -> bool
    ensures { IsTrue result ↔ AggregateFits (scope params.now items.now) aggregate.now }
{
    match aggregate {
        Aggregate::Count => true,
        Aggregate::Sum(by) => has_kind(by, params, items, ColumnKind::Int),
        Aggregate::Min(by) => has_basic_kind(by, params, items),
        Aggregate::Max(by) => has_basic_kind(by, params, items),
    }
}

fn named_are_there(columns: &[(Name, ColumnAt)], items: &[List<ColumnKind>]) -> bool
    ensures { IsTrue result ↔ All (λ c. IsSome (kind_in items.now c.1.item c.1.column)) columns.now }
{
    for column in columns {
        if column_kind(items, column.1.item, column.1.column).is_none() {
            return false;
        }
    }
    true
}

fn columns_are_there(columns: &[ColumnAt], items: &[List<ColumnKind>]) -> bool
    ensures { IsTrue result ↔ All (λ at. IsSome (kind_in items.now at.item at.column)) columns.now }
{
    for at in columns {
        if column_kind(items, at.item, at.column).is_none() {
            return false;
        }
    }
    true
}

fn keys_fit(keys: &[OrderKey], params: &[ColumnKind], items: &[List<ColumnKind>]) -> bool
    ensures { IsTrue result ↔ All (λ k. HasSomeKind (scope params.now items.now) k.by) keys.now }
{
    for key in keys {
        if !has_some_kind(&key.by, params, items) {
            return false;
        }
    }
    true
}

fn bound_fits(bound: Option<Bound>, params: &[ColumnKind]) -> bool
    ensures { IsTrue result ↔ IfSome bound (BoundFits params.now) }
{
    match bound {
        None => true,
        Some(Bound::Is(_)) => true,
        Some(Bound::Param(number)) => is_kind(kind_at(params, number), ColumnKind::Int),
    }
}

// ---- what is grouped

fn is_grouped(query: &Query) -> bool
    ensures { IsTrue result ↔ IsGrouped query.now }
{
    if has_aggregate(query.fields.as_slice()) {
        return true;
    }
    !query.group.is_empty()
}

fn has_aggregate(fields: &[Field]) -> bool
    ensures { result ≡ list_any is_aggregate fields.now }
{
    for field in fields {
        if let Field::Over(_, _) = field {
            return true;
        }
    }
    false
}

fn grouped_fits(query: &Query) -> bool
    ensures { IsTrue result ↔ (All (FieldReadsOnly query.now.group) query.now.fields × All (λ k. ReadsOnly query.now.group k.by) query.now.order) }
{
    let group = query.group.as_slice();
    fields_read_only(query.fields.as_slice(), group)
        && keys_read_only(query.order.as_slice(), group)
}

fn fields_read_only(fields: &[Field], group: &[ColumnAt]) -> bool
    ensures { IsTrue result ↔ All (FieldReadsOnly group.now) fields.now }
{
    for field in fields {
        if !field_reads_only(field, group) {
            return false;
        }
    }
    true
}

fn field_reads_only(field: &Field, group: &[ColumnAt]) -> bool
    ensures { IsTrue result ↔ FieldReadsOnly group.now field.now }
{
    match field {
        Field::Columns(_, columns) => named_read_only(columns.as_slice(), group),
        Field::Single(_, by) => reads_only(by, group),
        Field::Over(_, _) => true,
    }
}

fn named_read_only(columns: &[(Name, ColumnAt)], group: &[ColumnAt]) -> bool
    ensures { IsTrue result ↔ All (λ c. Contains group.now c.1) columns.now }
{
    for column in columns {
        if !has_column(group, column.1.item, column.1.column) {
            return false;
        }
    }
    true
}

fn keys_read_only(keys: &[OrderKey], group: &[ColumnAt]) -> bool
    ensures { IsTrue result ↔ All (λ k. ReadsOnly group.now k.by) keys.now }
{
    for key in keys {
        if !reads_only(&key.by, group) {
            return false;
        }
    }
    true
}
