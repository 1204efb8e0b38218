//! The columns that a change sets, with their values.
ghost use Rattle.std.specs.Prelude.{◌≡◌, [], ◌∷◌, ◌++◌, Some, map, nat_eq, length, IfOk};
ghost use Rattle.std.specs.List.{list_any};
ghost use Rattle.ur_base.specs.Stopping.{IfRefused, Says};
ghost use Rattle.ur_sqltype.specs.Lists.{all_of, behind, repeated};
ghost use Rattle.ur_sqltype.specs.Table.{name_at};
ghost use Rattle.ur_sqltype.specs.Change.{set_at, set_number, sets_of, assigned, paired, within_insert, within_row};
ghost use Rattle.ur_sqltype.specs.SqltypeFaults.{SetBreaks, SetsBreak};

use std::alloc::Global;
use ur_base::{Boxed, List, Memory, Refusal, Span, Stop, Text};
use ur_sql::Scalar;
use ur_sqltype::{
    Source, Within, capital, column_of, copy_columns, name_at, place, twice, unknown, value_of_kind,
};
use ur_syntax::{Assignment, DeclName, SqlExp};
use ur_values::{ColumnKind, TableShape};

/// Within INSERT no column stands.
pub fn within_insert(alloc: Global, kinds: &[ColumnKind]) -> Result<Within, Memory>
    ensures { IfOk result (λ w. w ≡ within_insert kinds.now) }
{
    let antiquotes = List::from_slice(alloc, kinds)?;
    Ok(Within {
        sources: List::new(alloc),
        bare: List::new(alloc),
        antiquotes,
    })
}

/// Within UPDATE and DELETE the columns stand bare, or after the table's name.
pub fn within_row(
    alloc: Global,
    x: &DeclName,
    number: usize,
    shape: &TableShape,
    kinds: &[ColumnKind],
) -> Result<Within, Memory>
    ensures { IfOk result (λ w. w ≡ within_row x.now (number, shape.now) kinds.now) }
{
    let alias = capital(alloc, x.name.as_slice())?;
    let table = place(number)?;
    let columns = copy_columns(alloc, shape.columns.as_slice())?;
    let bare = copy_columns(alloc, shape.columns.as_slice())?;
    let antiquotes = List::from_slice(alloc, kinds)?;
    let sources = one_source(alloc, alias, table, columns)?;
    Ok(Within {
        sources,
        bare,
        antiquotes,
    })
}

fn one_source(
    alloc: Global,
    alias: Text,
    table: u32,
    columns: List<(Text, ColumnKind)>,
) -> Result<List<Source>, Memory>
    ensures { IfOk result (λ ss. ss ≡ record { alias = alias; table = table; columns = columns } ∷ []) }
{
    let mut sources = List::new(alloc);
    sources.push(Source {
        alias,
        table,
        columns,
    })?;
    Ok(sources)
}

fn pushed(
    sets: List<(u32, Scalar)>,
    at: u32,
    value: Boxed<Scalar>,
) -> Result<List<(u32, Scalar)>, Memory>
    ensures { IfOk result (λ more. more ≡ sets ++ (at, value) ∷ []) }
{
    let mut sets = sets;
    sets.push((at, value.into_inner()))?;
    Ok(sets)
}

/// One more column with its value, which has the column's type, or is NULL where the column is optional.
fn with_set(
    alloc: Global,
    within: &Within,
    columns: &[(Text, ColumnKind)],
    name: &Text,
    value: &SqlExp,
    sets: List<(u32, Scalar)>,
) -> Result<List<(u32, Scalar)>, Stop>
    ensures typed { IfOk result (λ more. behind sets (all_of (set_at within.now columns.now) ((name.now, value.now) ∷ [])) ≡ Some more) }
    ensures refused { IfRefused result (SetBreaks within.now columns.now (name.now, value.now)) }
{
    match column_of(name.as_slice(), columns) {
        None => Err(Stop::Refused(unknown(alloc, value.span, name.as_slice())?)),
        Some((at, kind)) => {
            let at = place(at)?;
            let scalar = value_of_kind(alloc, within, value, kind)?;
            let more = pushed(sets, at, scalar)?;
            Ok(more)
        }
    }
}

/// The columns of an INSERT with their values, of which there are as many.
fn all_inserted(
    alloc: Global,
    within: &Within,
    columns: &[(Text, ColumnKind)],
    names: &[Text],
    values: &[SqlExp],
) -> Result<List<(u32, Scalar)>, Stop>
    requires { length names.now ≡ length values.now }
    ensures typed { IfOk result (λ ss. all_of (set_at within.now columns.now) (paired names.now values.now) ≡ Some ss) }
    ensures refused { IfRefused result (SetsBreak within.now columns.now (paired names.now values.now)) }
{
    let mut sets = List::new(alloc);
    for i in 0..names.len() {
        sets = with_set(alloc, within, columns, &names[i], &values[i], sets)?;
    }
    Ok(sets)
}

/// The columns of an UPDATE with their values.
fn all_updated(
    alloc: Global,
    within: &Within,
    columns: &[(Text, ColumnKind)],
    assignments: &[Assignment],
) -> Result<List<(u32, Scalar)>, Stop>
    ensures typed { IfOk result (λ ss. all_of (set_at within.now columns.now) (map assigned assignments.now) ≡ Some ss) }
    ensures refused { IfRefused result (SetsBreak within.now columns.now (map assigned assignments.now)) }
{
    let mut sets = List::new(alloc);
    for i in 0..assignments.len() {
        let set = &assignments[i];
        sets = with_set(alloc, within, columns, &set.column, &set.value, sets)?;
    }
    Ok(sets)
}

/// The first column that is set once more behind itself.
fn repeated_set(sets: &[(u32, Scalar)]) -> Option<u32>
    ensures { result ≡ repeated nat_eq (map set_number sets.now) }
{
    let mut left = sets;
    while let Some((set, rest)) = left.split_first() {
        if is_set(rest, set.0) {
            return Some(set.0);
        }
        left = rest;
    }
    None
}

fn is_set(sets: &[(u32, Scalar)], column: u32) -> bool
    ensures { result ≡ list_any (nat_eq column) (map set_number sets.now) }
{
    for set in sets {
        if column == set.0 {
            return true;
        }
    }
    false
}

/// A column that is set twice.
fn set_twice(
    alloc: Global,
    span: Span,
    columns: &[(Text, ColumnKind)],
    at: u32,
) -> Result<Refusal, Memory>
    ensures { IfOk result (λ r. Says r 8 (name_at columns.now at) []) }
{
    twice(alloc, span, name_at(columns, at))
}

/// The columns of an INSERT with their values, none twice.
pub fn inserted(
    alloc: Global,
    within: &Within,
    span: Span,
    columns: &[(Text, ColumnKind)],
    names: &[Text],
    values: &[SqlExp],
) -> Result<List<(u32, Scalar)>, Stop>
    requires { length names.now ≡ length values.now }
    ensures typed { IfOk result (λ ss. sets_of within.now columns.now (paired names.now values.now) ≡ Some ss) }
    ensures refused { IfRefused result (SetsBreak within.now columns.now (paired names.now values.now)) }
{
    let sets = all_inserted(alloc, within, columns, names, values)?;
    match repeated_set(sets.as_slice()) {
        None => Ok(sets),
        Some(at) => Err(Stop::Refused(set_twice(alloc, span, columns, at)?)),
    }
}

/// The columns of an UPDATE with their values, none twice.
pub fn updated(
    alloc: Global,
    within: &Within,
    span: Span,
    columns: &[(Text, ColumnKind)],
    assignments: &[Assignment],
) -> Result<List<(u32, Scalar)>, Stop>
    ensures typed { IfOk result (λ ss. sets_of within.now columns.now (map assigned assignments.now) ≡ Some ss) }
    ensures refused { IfRefused result (SetsBreak within.now columns.now (map assigned assignments.now)) }
{
    let sets = all_updated(alloc, within, columns, assignments)?;
    match repeated_set(sets.as_slice()) {
        None => Ok(sets),
        Some(at) => Err(Stop::Refused(set_twice(alloc, span, columns, at)?)),
    }
}
