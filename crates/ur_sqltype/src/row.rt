//! The row of a query's answer.
ghost use Rattle.std.specs.Prelude.{◌≡◌, [], map, slice_get, slice_index_or, IfOk};
ghost use Rattle.ur_rows.specs.Made as made;
ghost use Rattle.ur_sql.specs.Kinds.{constant_kind, plain_kind, scalar_kind};
ghost use Rattle.ur_sql.specs.Typing.{column_kind, kinds_in};
ghost use Rattle.ur_tree.specs.Scalars.{kind_type};
ghost use Rattle.ur_tree.specs.QueryRow.{kind_if_any, named_part, columns_row, aggregate_type, field_part, fields_row, query_row};

use std::alloc::Global;
use ur_base::{List, Memory, Name, Text};
use ur_rows::{Label, NormalType, Part, boxed, with_part};
use ur_sql::{Aggregate, ColumnAt, Field, Item, Query, Scalar};
use ur_values::{ColumnKind, Value};

fn record_type(row: List<Part>) -> NormalType
    ensures { result ≡ made.record_of row }
{
    NormalType::Record(row)
}

fn kind_if_any(alloc: Global, kind: Option<ColumnKind>) -> Result<NormalType, Memory>
    ensures { IfOk result (λ t. t ≡ kind_if_any kind) }
{
    match kind {
        None => Ok(record_type(List::new(alloc))),
        Some(kind) => kind_type(alloc, kind),
    }
}

/// The type of a kind.
pub fn kind_type(alloc: Global, kind: ColumnKind) -> Result<NormalType, Memory>
    ensures { IfOk result (λ t. t ≡ kind_type kind) }
{
    match kind {
        ColumnKind::Int => Ok(NormalType::Int),
        ColumnKind::Str => Ok(NormalType::Str),
        ColumnKind::Bool => Ok(NormalType::Bool),
        ColumnKind::OptInt => option_of(alloc, NormalType::Int),
        ColumnKind::OptStr => option_of(alloc, NormalType::Str),
        ColumnKind::OptBool => option_of(alloc, NormalType::Bool),
    }
}

fn constant_kind(value: &Value) -> Option<ColumnKind>
    ensures { result ≡ constant_kind value.now }
{
    match value {
        Value::Int(_) => Some(ColumnKind::Int),
        Value::Str(_) => Some(ColumnKind::Str),
        Value::Bool(_) => Some(ColumnKind::Bool),
        _ => None,
    }
}

fn columns_at<'a>(from: &'a [Item], item: u32) -> &'a [ColumnKind]
    ensures { result.now ≡ slice_index_or (map (λ i. i.columns) from.now) item [] }
{
    match from.get(item as usize) {
        None => &[],
        Some(item) => item.columns.as_slice(),
    }
}

fn column_kind(core: &Query, item: u32, column: u32) -> Option<ColumnKind>
    ensures { result ≡ column_kind (kinds_in core.now) item column }
{
    let kinds = columns_at(core.from.as_slice(), item);
    match kinds.get(column as usize) {
        None => None,
        Some(kind) => Some(*kind),
    }
}

fn param_kind(core: &Query, number: u32) -> Option<ColumnKind>
    ensures { result ≡ slice_get core.now.params number }
{
    match core.params.get(number as usize) {
        None => None,
        Some(kind) => Some(*kind),
    }
}

/// The kind of an expression that is no SOME, by what stands at its head.
fn plain_kind(core: &Query, by: &Scalar) -> Option<ColumnKind>
    ensures { result ≡ plain_kind (kinds_in core.now) by.now }
{
    match by {
        Scalar::Constant(value) => constant_kind(value),
        Scalar::Column(item, column) => column_kind(core, *item, *column),
        Scalar::Param(number) => param_kind(core, *number),
        Scalar::Or(_, _) => Some(ColumnKind::Bool),
        Scalar::And(_, _) => Some(ColumnKind::Bool),
        Scalar::Not(_) => Some(ColumnKind::Bool),
        Scalar::Compare(_, _, _) => Some(ColumnKind::Bool),
        Scalar::Add(_, _) => Some(ColumnKind::Int),
        Scalar::Sub(_, _) => Some(ColumnKind::Int),
        Scalar::Mul(_, _) => Some(ColumnKind::Int),
        Scalar::Neg(_) => Some(ColumnKind::Int),
        Scalar::Null(kind) => Some(*kind),
        Scalar::Present(_) => None,
    }
}

/// The kind of an expression's values.
fn scalar_kind(core: &Query, by: &Scalar) -> Option<ColumnKind>
    ensures { result ≡ scalar_kind (kinds_in core.now) by.now }
{
    match by {
        Scalar::Present(a) => match plain_kind(core, a.get()) {
            None => None,
            Some(of) => of.optional(),
        },
        _ => plain_kind(core, by),
    }
}

fn name_text<'a>(names: &'a [Text], name: Name) -> &'a [u8]
    ensures { result.now ≡ slice_index_or names.now name.0 [] }
{
    match names.get(name.0 as usize) {
        None => b"",
        Some(text) => text.as_slice(),
    }
}

/// The field that has the name with this number.
fn named_part(alloc: Global, names: &[Text], name: Name, of: NormalType) -> Result<Part, Memory>
    ensures { IfOk result (λ p. p ≡ named_part names.now name of) }
{
    let of = boxed(alloc, of)?;
    let text = List::from_slice(alloc, name_text(names, name))?;
    Ok(Part::Field(Label::Literal(text), of))
}

/// The field of a selected column.
fn column_part(
    alloc: Global,
    names: &[Text],
    core: &Query,
    name: Name,
    at: ColumnAt,
) -> Result<Part, Memory>
    ensures { IfOk result (λ p. p ≡ named_part names.now name (kind_if_any (column_kind (kinds_in core.now) at.item at.column))) }
{
    let of = kind_if_any(alloc, column_kind(core, at.item, at.column))?;
    named_part(alloc, names, name, of)
}

/// The row of an alias.
fn columns_row(
    alloc: Global,
    names: &[Text],
    core: &Query,
    columns: &[(Name, ColumnAt)],
) -> Result<List<Part>, Memory>
    ensures { IfOk result (λ row. row ≡ columns_row names.now (kinds_in core.now) columns.now) }
{
    let mut row = List::new(alloc);
    let mut i = columns.len();
    while i > 0 {
        i = i - 1;
        let part = column_part(alloc, names, core, columns[i].0, columns[i].1)?;
        row = with_part(part, row)?;
    }
    Ok(row)
}

/// The field of an alias.
fn columns_part(
    alloc: Global,
    names: &[Text],
    core: &Query,
    name: Name,
    columns: &[(Name, ColumnAt)],
) -> Result<Part, Memory>
    ensures { IfOk result (λ p. p ≡ named_part names.now name (made.record_of (columns_row names.now (kinds_in core.now) columns.now))) }
{
    let row = columns_row(alloc, names, core, columns)?;
    named_part(alloc, names, name, record_type(row))
}

fn option_of(alloc: Global, of: NormalType) -> Result<NormalType, Memory>
    ensures { IfOk result (λ t. t ≡ made.option_of of) }
{
    let of = boxed(alloc, of)?;
    Ok(NormalType::Opt(of))
}

fn aggregate_type(alloc: Global, core: &Query, of: &Aggregate) -> Result<NormalType, Memory>
    ensures { IfOk result (λ t. t ≡ aggregate_type (kinds_in core.now) of.now) }
{
    match of {
        Aggregate::Count => Ok(NormalType::Int),
        Aggregate::Sum(_) => Ok(NormalType::Int),
        Aggregate::Min(by) => option_of(alloc, kind_if_any(alloc, scalar_kind(core, by))?),
        Aggregate::Max(by) => option_of(alloc, kind_if_any(alloc, scalar_kind(core, by))?),
    }
}

/// The part of the row that a field gives.
fn field_part(alloc: Global, names: &[Text], core: &Query, field: &Field) -> Result<Part, Memory>
    ensures { IfOk result (λ p. p ≡ field_part names.now (kinds_in core.now) field.now) }
{
    match field {
        Field::Columns(name, columns) => {
            columns_part(alloc, names, core, *name, columns.as_slice())
        }
        Field::Single(name, by) => {
            named_part(
                alloc,
                names,
                *name,
                kind_if_any(alloc, scalar_kind(core, by))?,
            )
        }
        Field::Over(name, of) => {
            let of = aggregate_type(alloc, core, of)?;
            named_part(alloc, names, *name, of)
        }
    }
}

/// The row of a query's answer.
pub fn query_row(alloc: Global, names: &[Text], core: &Query) -> Result<List<Part>, Memory>
    ensures { IfOk result (λ row. row ≡ query_row names.now core.now) }
{
    let fields = core.fields.as_slice();
    let mut row = List::new(alloc);
    let mut i = fields.len();
    while i > 0 {
        i = i - 1;
        let part = field_part(alloc, names, core, &fields[i])?;
        row = with_part(part, row)?;
    }
    Ok(row)
}
