//! The types of what queries take and give.
ghost use Rattle.std.specs.Prelude.{◌≡◌, IfOk, map, Some, slice_get, option_map};
ghost use Rattle.ur_values.specs.declared.types.ValueType.TheVariants as ty;
ghost use Rattle.ur_sql.specs.Typing.{Kinds, column_kind, kinds_in};
ghost use Rattle.ur_sql.specs.Kinds.{constant_kind, plain_kind, scalar_kind};
ghost use Rattle.ur_terms.specs.Types.{unit_type, record_type};
ghost use Rattle.ur_code.specs.RowType as row;
ghost use Rattle.ur_code.specs.RouteTypes as route;
ghost use Rattle.ur_verify_operations.specs.Fields.{pair};

use crate::arguments::optional;
use std::alloc::Global;
use ur_base::{List, Memory, Name};
use ur_sql::{Aggregate, ColumnAt, Field, Query, Scalar};
use ur_tags::{FormField, Param, Route};
use ur_values::{ColumnKind, TypeField, Value, ValueType};

/// The type of a kind.
pub fn kind_type(alloc: Global, kind: ColumnKind) -> Result<ValueType, Memory>
    ensures { IfOk result (λ t. t ≡ row.kind_type kind) }
{
    match kind {
        ColumnKind::Int => Ok(ValueType::Int),
        ColumnKind::Str => Ok(ValueType::Str),
        ColumnKind::Bool => Ok(ValueType::Bool),
        ColumnKind::OptInt => optional(alloc, &ValueType::Int),
        ColumnKind::OptStr => optional(alloc, &ValueType::Str),
        ColumnKind::OptBool => optional(alloc, &ValueType::Bool),
    }
}

pub fn kind_types(alloc: Global, kinds: &[ColumnKind]) -> Result<List<ValueType>, Memory>
    ensures { IfOk result (λ ts. ts ≡ map row.kind_type kinds.now) }
{
    let mut types = List::new(alloc);
    for kind in kinds {
        types.push(kind_type(alloc, *kind)?)?;
    }
    Ok(types)
}

fn kind_at(kinds: &[ColumnKind], number: u32) -> Option<ColumnKind>
    ensures { result ≡ slice_get kinds.now number }
{
    match kinds.get(number as usize) {
        None => None,
        Some(kind) => Some(*kind),
    }
}

fn column_kind(query: &Query, item: u32, column: u32) -> Option<ColumnKind>
    ensures { result ≡ column_kind (kinds_in query.now) item column }
{
    match query.from.get(item as usize) {
        None => None,
        Some(from) => kind_at(from.columns.as_slice(), column),
    }
}

fn constant_kind(value: &Value) -> Option<ColumnKind>
    ensures { result ≡ constant_kind value.now }
{
    match value {
        Value::Int(_) => Some(ColumnKind::Int),
        Value::Str(_) => Some(ColumnKind::Str),
        Value::Bool(_) => Some(ColumnKind::Bool),
        Value::Row(_) => None,
        Value::Many(_) => None,
        Value::Absent => None,
        Value::Present(_) => None,
        Value::Tagged(_, _) => None,
        Value::Markup(_) => None,
    }
}

/// The kind that an expression may have: what stands at its head decides it, and under SOME what stands inside.
fn scalar_kind(query: &Query, by: &Scalar) -> Option<ColumnKind>
    ensures { result ≡ scalar_kind (kinds_in query.now) by.now }
{
    match by {
        Scalar::Present(a) => match plain_kind(query, a.get()) {
            None => None,
            Some(of) => of.optional(),
        },
        _ => plain_kind(query, by),
    }
}

/// The kind of an expression that is no SOME.
fn plain_kind(query: &Query, by: &Scalar) -> Option<ColumnKind>
    ensures { result ≡ plain_kind (kinds_in query.now) by.now }
{
    match by {
        Scalar::Constant(value) => constant_kind(value),
        Scalar::Column(item, column) => column_kind(query, *item, *column),
        Scalar::Param(number) => kind_at(query.params.as_slice(), *number),
        Scalar::Or(_, _) => Some(ColumnKind::Bool),
        Scalar::And(_, _) => Some(ColumnKind::Bool),
        Scalar::Not(_) => Some(ColumnKind::Bool),
        Scalar::Compare(_, _, _) => Some(ColumnKind::Bool),
        Scalar::Add(_, _) => Some(ColumnKind::Int),
        Scalar::Sub(_, _) => Some(ColumnKind::Int),
        Scalar::Mul(_, _) => Some(ColumnKind::Int),
        Scalar::Neg(_) => Some(ColumnKind::Int),
        Scalar::Null(kind) => Some(*kind),
        Scalar::Present(_) => None,
    }
}

fn kind_type_of(alloc: Global, kind: Option<ColumnKind>) -> Result<Option<ValueType>, Memory>
    ensures { IfOk result (λ t. t ≡ option_map row.kind_type kind) }
{
    match kind {
        None => Ok(None),
        Some(kind) => Ok(Some(kind_type(alloc, kind)?)),
    }
}

fn optional_kind(alloc: Global, kind: Option<ColumnKind>) -> Result<Option<ValueType>, Memory>
    ensures { IfOk result (λ t. t ≡ option_map (λ k. ty.Opt (row.kind_type k)) kind) }
{
    match kind {
        None => Ok(None),
        Some(kind) => Ok(Some(optional(alloc, &kind_type(alloc, kind)?)?)),
    }
}

fn aggregate_type(
    alloc: Global,
    query: &Query,
    aggregate: &Aggregate,
) -> Result<Option<ValueType>, Memory>
    ensures { IfOk result (λ t. t ≡ row.aggregate_type (kinds_in query.now) aggregate.now) }
{
    match aggregate {
        Aggregate::Count => Ok(Some(ValueType::Int)),
        Aggregate::Sum(_) => Ok(Some(ValueType::Int)),
        Aggregate::Min(by) => optional_kind(alloc, scalar_kind(query, by)),
        Aggregate::Max(by) => optional_kind(alloc, scalar_kind(query, by)),
    }
}

/// The type of a column of the answer, if the column is there.
fn column_field(
    alloc: Global,
    query: &Query,
    column: &(Name, ColumnAt),
) -> Result<Option<TypeField>, Memory>
    ensures { IfOk result (λ f. option_map pair f ≡ row.column_type (kinds_in query.now) column.now) }
{
    let kind = column_kind(query, column.1.item, column.1.column);
    match kind_type_of(alloc, kind)? {
        None => Ok(None),
        Some(of) => Ok(Some(TypeField { name: column.0, of })),
    }
}

fn columns_type(
    alloc: Global,
    query: &Query,
    columns: &[(Name, ColumnAt)],
) -> Result<Option<ValueType>, Memory>
    ensures { IfOk result (λ t. t ≡ option_map record_type (row.all_there (map (row.column_type (kinds_in query.now)) columns.now))) }
{
    let mut fields = List::new(alloc);
    for column in columns {
        match column_field(alloc, query, column)? {
            None => return Ok(None),
            Some(field) => fields.push(field)?,
        }
    }
    Ok(Some(ValueType::Record(fields)))
}

fn named(name: Name, of: Option<ValueType>) -> Option<TypeField>
    ensures { option_map pair result ≡ option_map (λ t. (name, t)) of }
{
    match of {
        None => None,
        Some(of) => Some(TypeField { name, of }),
    }
}

fn field_type(alloc: Global, query: &Query, field: &Field) -> Result<Option<TypeField>, Memory>
    ensures { IfOk result (λ f. option_map pair f ≡ row.field_type (kinds_in query.now) field.now) }
{
    match field {
        Field::Columns(name, columns) => {
            Ok(named(*name, columns_type(alloc, query, columns.as_slice())?))
        }
        Field::Single(name, by) => Ok(named(*name, kind_type_of(alloc, scalar_kind(query, by))?)),
        Field::Over(name, aggregate) => Ok(named(*name, aggregate_type(alloc, query, aggregate)?)),
    }
}

/// The record of a query's fields, if each of them has a type.
fn typed_row(alloc: Global, query: &Query) -> Result<Option<ValueType>, Memory>
    ensures { IfOk result (λ t. t ≡ row.row_type query.now) }
{
    let mut fields = List::new(alloc);
    for field in query.fields.as_slice() {
        match field_type(alloc, query, field)? {
            None => return Ok(None),
            Some(field) => fields.push(field)?,
        }
    }
    Ok(Some(ValueType::Record(fields)))
}

/// The type of a query's rows.
pub fn row_type(alloc: Global, query: &Query) -> Result<ValueType, Memory>
    ensures { IfOk result (λ t. t ≡ (row.query_type query.now).1) }
{
    match typed_row(alloc, query)? {
        None => Ok(ValueType::Record(List::new(alloc))),
        Some(of) => Ok(of),
    }
}

// ---- routes

fn param_type(alloc: Global, param: Param) -> ValueType
    ensures { result ≡ route.param_type param }
{
    match param {
        Param::Int => ValueType::Int,
        Param::Str => ValueType::Str,
        Param::Bool => ValueType::Bool,
        Param::Unit => ValueType::Record(List::new(alloc)),
    }
}

fn box_type(checkbox: bool) -> ValueType
    ensures { result ≡ route.box_type checkbox }
{
    if checkbox {
        return ValueType::Bool;
    }
    ValueType::Str
}

fn form_fields(alloc: Global, form: &[FormField]) -> Result<List<TypeField>, Memory>
    ensures { IfOk result (λ fs. map pair fs ≡ map route.form_field_type form.now) }
{
    let mut fields = List::new(alloc);
    for field in form {
        fields.push(TypeField {
            name: field.number,
            of: box_type(field.checkbox),
        })?;
    }
    Ok(fields)
}

fn path_types(alloc: Global, params: &[Param]) -> Result<List<ValueType>, Memory>
    ensures { IfOk result (λ ts. ts ≡ map route.param_type params.now) }
{
    let mut types = List::new(alloc);
    for param in params {
        types.push(param_type(alloc, *param))?;
    }
    Ok(types)
}

/// The types of the arguments of a route's call.
pub fn route_types(alloc: Global, of: &Route) -> Result<List<ValueType>, Memory>
    ensures { IfOk result (λ ts. ts ≡ route.route_params of.now) }
{
    let mut types = path_types(alloc, of.params.as_slice())?;
    if !of.form.is_empty() {
        let fields = form_fields(alloc, of.form.as_slice())?;
        types.push(ValueType::Record(fields))?;
    }
    Ok(types)
}
