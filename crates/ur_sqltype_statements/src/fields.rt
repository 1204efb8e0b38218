//! The fields of an answer.
ghost use Rattle.std.specs.Prelude.{◌≡◌, ◌≤◌, ◌++◌, ℕ, if◌then◌else◌, List, [], ◌∷◌, Some, map, length, insert, nat_eq, slice_index_or, IfOk, Contains};
ghost use Rattle.std.specs.List.{list_any};
ghost use Rattle.ur_base.specs.Stopping.{IfRefused, Says};
ghost use Rattle.ur_syntax.specs.declared.sql.Selected.{Selected as WrittenItem};
ghost use Rattle.ur_syntax.specs.declared.sql.Selected.TheVariants as selected;
ghost use Rattle.ur_sqltype.specs.Lists.{all_of, behind, repeated};
ghost use Rattle.ur_sqltype.specs.Query.{name_number, name_of, is_chosen, columns_from, alias_field, alias_fields, aggregated, named_field, named_form, named_items, field_number, with_field, in_order, named_of, all_fields, fields_of};
ghost use Rattle.ur_sqltype.specs.SqltypeFaults.{Breaks, AggregateBreaks, ItemBreaks};

use crate::columns::{chosen_of, is_chosen};
use std::alloc::Global;
use ur_base::{Boxed, List, Memory, Name, Refusal, Span, Stop, Text};
use ur_sql::{Aggregate, ColumnAt, Field, Scalar};
use ur_sqltype::{Source, Within, any_scalar, basic_scalar, place, scalar_of, twice};
use ur_syntax::{Aggregate as WrittenAggregate, Selected, Selection, SqlExp, SqlQuery};
use ur_values::ColumnKind;

/// The place of a name, or 0.
fn name_place(names: &[Text], name: &[u8]) -> usize
    ensures { result ≡ name_number names.now name.now }
{
    for i in 0..names.len() {
        if names[i].as_slice() == name {
            return i;
        }
    }
    0
}

/// A name by its number.
fn name_of(names: &[Text], name: &[u8]) -> Result<Name, Memory>
    ensures { IfOk result (λ n. n ≡ name_of names.now name.now) }
{
    let number = place(name_place(names, name))?;
    Ok(Name(number))
}

// ---- the columns of an alias

/// One more column, if it is selected, at the end.
fn with_chosen(
    names: &[Text],
    chosen: &Option<List<ColumnAt>>,
    item: u32,
    place: u32,
    name: &Text,
    columns: List<(Name, ColumnAt)>,
) -> Result<List<(Name, ColumnAt)>, Memory>
    ensures { IfOk result (λ more. more ≡ (if is_chosen chosen.now item place then columns ++ (name_of names.now name.now, record { item = item; column = place }) ∷ [] else columns)) }
{
    if !is_chosen(chosen, item, place) {
        return Ok(columns);
    }
    let mut columns = columns;
    let name = name_of(names, name.as_slice())?;
    columns.push((
        name,
        ColumnAt {
            item,
            column: place,
        },
    ))?;
    Ok(columns)
}

/// The selected columns of an item.
fn columns_from(
    alloc: Global,
    names: &[Text],
    chosen: &Option<List<ColumnAt>>,
    item: u32,
    all: &[(Text, ColumnKind)],
) -> Result<List<(Name, ColumnAt)>, Memory>
    ensures { IfOk result (λ columns. columns ≡ columns_from names.now chosen.now item 0 all.now) }
{
    let mut columns = List::new(alloc);
    for i in 0..all.len() {
        let at = place(i)?;
        columns = with_chosen(names, chosen, item, at, &all[i].0, columns)?;
    }
    Ok(columns)
}

/// One more alias, if any of its columns is selected, at the end.
fn with_alias(
    alloc: Global,
    names: &[Text],
    chosen: &Option<List<ColumnAt>>,
    item: u32,
    source: &Source,
    fields: List<Field>,
) -> Result<List<Field>, Memory>
    ensures { IfOk result (λ more. more ≡ fields ++ alias_field (name_of names.now source.now.alias) (columns_from names.now chosen.now item 0 source.now.columns)) }
{
    let columns = columns_from(alloc, names, chosen, item, source.columns.as_slice())?;
    if columns.is_empty() {
        return Ok(fields);
    }
    let name = name_of(names, source.alias.as_slice())?;
    with_columns(fields, name, columns)
}

fn with_columns(
    fields: List<Field>,
    name: Name,
    columns: List<(Name, ColumnAt)>,
) -> Result<List<Field>, Memory>
    ensures { IfOk result (λ more. more ≡ fields ++ Field.Columns name columns ∷ []) }
{
    let mut fields = fields;
    fields.push(Field::Columns(name, columns))?;
    Ok(fields)
}

/// A record of each alias of which columns are selected.
fn alias_fields(
    alloc: Global,
    names: &[Text],
    chosen: &Option<List<ColumnAt>>,
    sources: &[Source],
) -> Result<List<Field>, Memory>
    ensures { IfOk result (λ fields. fields ≡ alias_fields names.now chosen.now 0 sources.now) }
{
    let mut fields = List::new(alloc);
    for i in 0..sources.len() {
        let item = place(i)?;
        fields = with_alias(alloc, names, chosen, item, &sources[i], fields)?;
    }
    Ok(fields)
}

// ---- what has an AS name

fn sum(of: Boxed<Scalar>) -> Aggregate
    ensures { result ≡ Aggregate.Sum of }
{
    Aggregate::Sum(of.into_inner())
}

fn least(of: Boxed<Scalar>) -> Aggregate
    ensures { result ≡ Aggregate.Min of }
{
    Aggregate::Min(of.into_inner())
}

fn greatest(of: Boxed<Scalar>) -> Aggregate
    ensures { result ≡ Aggregate.Max of }
{
    Aggregate::Max(of.into_inner())
}

/// An aggregate: SUM is of ints, MIN and MAX are of ints, strings and bools.
fn aggregated(alloc: Global, within: &Within, of: &WrittenAggregate) -> Result<Aggregate, Stop>
    ensures typed { IfOk result (λ g. aggregated within.now of.now ≡ Some g) }
    ensures refused { IfRefused result (λ r. AggregateBreaks within.now r of.now) }
{
    match of {
        WrittenAggregate::Count => Ok(Aggregate::Count),
        WrittenAggregate::Sum(e) => {
            let scalar = scalar_of(alloc, within, e, ColumnKind::Int)?;
            Ok(sum(scalar))
        }
        WrittenAggregate::Min(e) => {
            let scalar = basic_scalar(alloc, within, e)?;
            Ok(least(scalar))
        }
        WrittenAggregate::Max(e) => {
            let scalar = basic_scalar(alloc, within, e)?;
            Ok(greatest(scalar))
        }
    }
}

fn single(name: Name, of: Boxed<Scalar>) -> Field
    ensures { result ≡ Field.Single name of }
{
    Field::Single(name, of.into_inner())
}

fn over(name: Name, of: Aggregate) -> Field
    ensures { result ≡ Field.Over name of }
{
    Field::Over(name, of)
}

fn with_field_at_end(fields: List<Field>, field: Field) -> Result<List<Field>, Memory>
    ensures { IfOk result (λ more. more ≡ fields ++ field ∷ []) }
{
    let mut fields = fields;
    fields.push(field)?;
    Ok(fields)
}

/// An expression with an AS name.
fn single_field(
    alloc: Global,
    names: &[Text],
    within: &Within,
    e: &SqlExp,
    name: &Text,
) -> Result<Field, Stop>
    ensures typed { IfOk result (λ f. named_field names.now within.now (selected.Named e.now name.now) ≡ Some f) }
    ensures refused { IfRefused result (λ r. ItemBreaks within.now r (selected.Named e.now name.now)) }
{
    let name = name_of(names, name.as_slice())?;
    let scalar = any_scalar(alloc, within, e)?;
    Ok(single(name, scalar))
}

/// An aggregate with its AS name.
fn over_field(
    alloc: Global,
    names: &[Text],
    within: &Within,
    span: Span,
    of: &WrittenAggregate,
    name: &Text,
) -> Result<Field, Stop>
    ensures typed { IfOk result (λ f. named_field names.now within.now (selected.Aggregate span of.now name.now) ≡ Some f) }
    ensures refused { IfRefused result (λ r. ItemBreaks within.now r (selected.Aggregate span of.now name.now)) }
{
    let name = name_of(names, name.as_slice())?;
    let aggregate = aggregated(alloc, within, of)?;
    Ok(over(name, aggregate))
}

/// One more field, of what has an AS name, at the end.
fn with_named(
    alloc: Global,
    names: &[Text],
    within: &Within,
    item: &Selected,
    fields: List<Field>,
) -> Result<List<Field>, Stop>
    ensures typed { IfOk result (λ more. behind fields (all_of (named_field names.now within.now) (named_form item.now)) ≡ Some more) }
    ensures refused { IfRefused result (λ r. ItemBreaks within.now r item.now) }
{
    match item {
        Selected::Column(_) => Ok(fields),
        Selected::Named(e, name) => {
            let field = single_field(alloc, names, within, e, name)?;
            let more = with_field_at_end(fields, field)?;
            Ok(more)
        }
        Selected::Aggregate(span, of, name) => {
            let field = over_field(alloc, names, within, *span, of, name)?;
            let more = with_field_at_end(fields, field)?;
            Ok(more)
        }
    }
}

fn named_in(
    alloc: Global,
    names: &[Text],
    within: &Within,
    items: &[Selected],
) -> Result<List<Field>, Stop>
    ensures typed { IfOk result (λ fs. all_of (named_field names.now within.now) (named_items items.now) ≡ Some fs) }
    ensures refused { IfRefused result (λ r. (s : WrittenItem) × Contains items.now s × ItemBreaks within.now r s) }
{
    let mut fields = List::new(alloc);
    for i in 0..items.len() {
        fields = with_named(alloc, names, within, &items[i], fields)?;
    }
    Ok(fields)
}

/// The fields that have AS names.
fn named_of(
    alloc: Global,
    names: &[Text],
    within: &Within,
    query: &SqlQuery,
) -> Result<List<Field>, Stop>
    ensures typed { IfOk result (λ fs. named_of names.now within.now query.now.selection ≡ Some fs) }
    ensures refused { IfRefused result (λ r. (others : List (List ℕ)) → Breaks others within.now query.now r) }
{
    match &query.selection {
        Selection::All => Ok(List::new(alloc)),
        Selection::Items(items) => {
            let fields = named_in(alloc, names, within, items.as_slice())?;
            Ok(fields)
        }
    }
}

// ---- all fields in order

/// The number of a field's name.
fn number_of(field: &Field) -> u32
    ensures { result ≡ field_number field.now }
{
    match field {
        Field::Columns(name, _) => name.0,
        Field::Single(name, _) => name.0,
        Field::Over(name, _) => name.0,
    }
}

/// Where a field goes among others.
fn place_of(field: &Field, fields: &[Field]) -> usize
    ensures within { result ≤ length fields.now }
    ensures place { with_field field.now fields.now ≡ insert fields.now result field.now }
{
    let number = number_of(field);
    for at in 0..fields.len() {
        let other = number_of(&fields[at]);
        if other >= number {
            return at;
        }
    }
    fields.len()
}

/// One more field at its place.
fn with_field(field: Field, fields: List<Field>) -> Result<List<Field>, Memory>
    ensures { IfOk result (λ more. more ≡ with_field field fields) }
{
    let at = place_of(&field, fields.as_slice());
    let mut all = fields.into_vec();
    all.insert(at, field)?;
    Ok(List::from_vec(all))
}

/// The fields by the numbers of their names.
fn in_order(alloc: Global, fields: List<Field>) -> Result<List<Field>, Memory>
    ensures { IfOk result (λ all. all ≡ in_order fields) }
{
    let mut left = fields;
    let mut done = List::new(alloc);
    while let Some(field) = left.pop() {
        done = with_field(field, done)?;
    }
    Ok(done)
}

fn joined(alloc: Global, fields: List<Field>, more: List<Field>) -> Result<List<Field>, Memory>
    ensures { IfOk result (λ all. all ≡ in_order (fields ++ more)) }
{
    let mut fields = fields;
    fields.append(more)?;
    let all = in_order(alloc, fields)?;
    Ok(all)
}

/// The fields of the answer, whose names may clash.
fn all_fields(
    alloc: Global,
    names: &[Text],
    within: &Within,
    query: &SqlQuery,
) -> Result<List<Field>, Stop>
    ensures typed { IfOk result (λ fs. all_fields names.now within.now query.now.selection ≡ Some fs) }
    ensures refused { IfRefused result (λ r. (others : List (List ℕ)) → Breaks others within.now query.now r) }
{
    let chosen = chosen_of(alloc, within, query)?;
    let named = named_of(alloc, names, within, query)?;
    let fields = alias_fields(alloc, names, &chosen, within.sources.as_slice())?;
    let all = joined(alloc, fields, named)?;
    Ok(all)
}

fn has_number(fields: &[Field], number: u32) -> bool
    ensures { result ≡ list_any (nat_eq number) (map field_number fields.now) }
{
    for field in fields {
        if number == number_of(field) {
            return true;
        }
    }
    false
}

/// The first number of a name that stands once more behind itself.
fn repeated_number(fields: &[Field]) -> Option<u32>
    ensures { result ≡ repeated nat_eq (map field_number fields.now) }
{
    let mut left = fields;
    while let Some((field, rest)) = left.split_first() {
        let number = number_of(field);
        if has_number(rest, number) {
            return Some(number);
        }
        left = rest;
    }
    None
}

/// Two fields of one name.
fn clash(alloc: Global, span: Span, names: &[Text], number: u32) -> Result<Refusal, Memory>
    ensures { IfOk result (λ r. Says r 8 (slice_index_or names.now number []) []) }
{
    match names.get(number as usize) {
        None => twice(alloc, span, b""),
        Some(name) => twice(alloc, span, name.as_slice()),
    }
}

/// The fields of the answer, no name of which comes twice.
pub fn fields_of(
    alloc: Global,
    names: &[Text],
    within: &Within,
    query: &SqlQuery,
) -> Result<List<Field>, Stop>
    ensures typed { IfOk result (λ fs. fields_of names.now within.now query.now.selection ≡ Some fs) }
    ensures refused { IfRefused result (Breaks names.now within.now query.now) }
{
    let fields = all_fields(alloc, names, within, query)?;
    match repeated_number(fields.as_slice()) {
        None => Ok(fields),
        Some(number) => Err(Stop::Refused(clash(alloc, query.span, names, number)?)),
    }
}
