//! Changes.
ghost use Rattle.std.specs.Prelude.{◌≡◌, ℕ, Some, length, bytes_eq, option_map, IfOk};
ghost use Rattle.std.specs.Fmt.{decimal};
ghost use Rattle.std.specs.List.{list_any};
ghost use Rattle.ur_base.specs.Stopping.{IfRefused, Says};
ghost use Rattle.ur_values.specs.Store.{kinds_of};
ghost use Rattle.ur_syntax.specs.declared.sql.DeclName.{DeclName as Target};
ghost use Rattle.ur_syntax.specs.declared.sql.SqlChange.TheVariants as written;
ghost use Rattle.ur_sql.specs.Typing.{ChangeFits};
ghost use Rattle.ur_sqltype.specs.Change.{insert_of, update_of, condition_of, action_of, change_at, change_of, target_of, within_row};
ghost use Rattle.ur_sqltype_statements.specs.SqlchangeFound.{IsTypedChange};
ghost use Rattle.ur_sqltype.specs.SqltypeFaults.{ActBreaks, ChangeBreaks, ChangeHasFault, missing_name};

use crate::changes::{inserted, updated, within_insert, within_row};
use crate::sqlchange_typed::TypedChange;
use std::alloc::Global;
use ur_base::{Boxed, List, Memory, Refusal, Span, Stop, Text};
use ur_rows::Normal;
use ur_sql::{Action, Change, Scalar};
use ur_sqltype::{
    change_of_fits, condition_of, kinds_found, misfit, no_table, number_text, place, table_at,
    unboxed,
};
use ur_syntax::{Assignment, ConEnv, DeclName, SqlChange, SqlExp};
use ur_values::{ColumnKind, Schema, TableShape};

// ---- INSERT

/// Another number of values than of columns.
fn other_number(alloc: Global, span: Span, values: usize, columns: usize) -> Result<Refusal, Memory>
    ensures { IfOk result (λ r. Says r 12 (decimal values) (decimal columns)) }
{
    let left = number_text(alloc, values as u64)?;
    let right = number_text(alloc, columns as u64)?;
    misfit(alloc, span, left.as_slice(), right.as_slice())
}

fn has_name(names: &[Text], name: &[u8]) -> bool
    ensures { result ≡ list_any (bytes_eq name.now) names.now }
{
    for other in names {
        if name == other.as_slice() {
            return true;
        }
    }
    false
}

/// The first column whose name is none of these.
fn missing_name<'a>(names: &[Text], columns: &'a [(Text, ColumnKind)]) -> &'a [u8]
    ensures { result.now ≡ missing_name names.now columns.now }
{
    for i in 0..columns.len() {
        if !has_name(names, columns[i].0.as_slice()) {
            return columns[i].0.as_slice();
        }
    }
    b""
}

fn insert_all(sets: List<(u32, Scalar)>) -> Action
    ensures { result ≡ Action.Insert sets }
{
    Action::Insert(sets)
}

/// The sets of an INSERT, which has as many values as columns.
fn complete(
    alloc: Global,
    span: Span,
    shape: &TableShape,
    names: &[Text],
    values: &[SqlExp],
    kinds: &[ColumnKind],
) -> Result<Action, Stop>
    requires { length names.now ≡ length values.now }
    ensures typed { IfOk result (λ a. insert_of kinds.now shape.now names.now values.now ≡ Some a) }
    ensures refused { IfRefused result (λ r. (at : ℕ) (x : Target) → ActBreaks kinds.now (at, shape.now) (written.Insert span x names.now values.now) r) }
{
    let within = within_insert(alloc, kinds)?;
    let sets = inserted(
        alloc,
        &within,
        span,
        shape.columns.as_slice(),
        names,
        values,
    )?;
    let count = names.len();
    let columns = shape.columns.len();
    if count == columns {
        return Ok(insert_all(sets));
    }
    let name = missing_name(names, shape.columns.as_slice());
    Err(Stop::Refused(misfit(alloc, span, b"no value", name)?))
}

/// An INSERT.
fn insert_of(
    alloc: Global,
    span: Span,
    x: &DeclName,
    at: usize,
    shape: &TableShape,
    names: &[Text],
    values: &[SqlExp],
    kinds: &[ColumnKind],
) -> Result<Action, Stop>
    ensures typed { IfOk result (λ a. insert_of kinds.now shape.now names.now values.now ≡ Some a) }
    ensures refused { IfRefused result (ActBreaks kinds.now (at, shape.now) (written.Insert span x.now names.now values.now)) }
{
    let _place = at;
    let _target = x;
    let count = names.len();
    let given = values.len();
    if count == given {
        return complete(alloc, span, shape, names, values, kinds);
    }
    Err(Stop::Refused(other_number(alloc, span, given, count)?))
}

// ---- UPDATE and DELETE

fn update_all(sets: List<(u32, Scalar)>, condition: Option<Boxed<Scalar>>) -> Action
    ensures { result ≡ Action.Update sets condition }
{
    Action::Update(sets, unboxed(condition))
}

fn delete_all(condition: Option<Boxed<Scalar>>) -> Action
    ensures { result ≡ Action.Delete condition }
{
    Action::Delete(unboxed(condition))
}

/// An UPDATE.
fn update_of(
    alloc: Global,
    span: Span,
    x: &DeclName,
    at: usize,
    shape: &TableShape,
    assignments: &[Assignment],
    condition: &Option<SqlExp>,
    kinds: &[ColumnKind],
) -> Result<Action, Stop>
    ensures typed { IfOk result (λ a. update_of (within_row x.now (at, shape.now) kinds.now) shape.now assignments.now condition.now ≡ Some a) }
    ensures refused { IfRefused result (ActBreaks kinds.now (at, shape.now) (written.Update span x.now assignments.now condition.now)) }
{
    let within = within_row(alloc, x, at, shape, kinds)?;
    let sets = updated(alloc, &within, span, shape.columns.as_slice(), assignments)?;
    let filter = condition_of(alloc, &within, condition)?;
    Ok(update_all(sets, filter))
}

/// A DELETE.
fn delete_of(
    alloc: Global,
    span: Span,
    x: &DeclName,
    at: usize,
    shape: &TableShape,
    condition: &Option<SqlExp>,
    kinds: &[ColumnKind],
) -> Result<Action, Stop>
    ensures typed { IfOk result (λ a. option_map Action.Delete (condition_of (within_row x.now (at, shape.now) kinds.now) condition.now) ≡ Some a) }
    ensures refused { IfRefused result (ActBreaks kinds.now (at, shape.now) (written.Delete span x.now condition.now)) }
{
    let _span = span;
    let within = within_row(alloc, x, at, shape, kinds)?;
    let filter = condition_of(alloc, &within, condition)?;
    Ok(delete_all(filter))
}

// ---- the whole

/// What a change does to its table.
fn action_of(
    alloc: Global,
    at: usize,
    shape: &TableShape,
    change: &SqlChange,
    kinds: &[ColumnKind],
) -> Result<Action, Stop>
    ensures typed { IfOk result (λ a. action_of kinds.now (at, shape.now) change.now ≡ Some a) }
    ensures refused { IfRefused result (ActBreaks kinds.now (at, shape.now) change.now) }
{
    match change {
        SqlChange::Insert(span, x, names, values) => insert_of(
            alloc,
            *span,
            x,
            at,
            shape,
            names.as_slice(),
            values.as_slice(),
            kinds,
        ),
        SqlChange::Update(span, x, assignments, condition) => update_of(
            alloc,
            *span,
            x,
            at,
            shape,
            assignments.as_slice(),
            condition,
            kinds,
        ),
        SqlChange::Delete(span, x, condition) => {
            delete_of(alloc, *span, x, at, shape, condition, kinds)
        }
    }
}

fn target_of(change: &SqlChange) -> &DeclName
    ensures { result.now ≡ target_of change.now }
{
    match change {
        SqlChange::Insert(_, x, _, _) => x,
        SqlChange::Update(_, x, _, _) => x,
        SqlChange::Delete(_, x, _) => x,
    }
}

fn kinds_of(alloc: Global, shape: &TableShape) -> Result<List<ColumnKind>, Memory>
    ensures { IfOk result (λ kinds. kinds ≡ kinds_of shape.now) }
{
    let mut kinds = List::new(alloc);
    for column in shape.columns.as_slice() {
        kinds.push(column.1)?;
    }
    Ok(kinds)
}

fn made(params: List<ColumnKind>, table: u32, columns: List<ColumnKind>, action: Action) -> Change
    ensures { result ≡ record { params = params; table = table; columns = columns; action = action } }
{
    Change {
        params,
        table,
        columns,
        action,
    }
}

/// The change of its table.
fn change_at(
    alloc: Global,
    at: usize,
    shape: &TableShape,
    change: &SqlChange,
    kinds: &[ColumnKind],
) -> Result<Change, Stop>
    ensures typed { IfOk result (λ c. change_at kinds.now change.now (at, shape.now) ≡ Some c) }
    ensures refused { IfRefused result (ActBreaks kinds.now (at, shape.now) change.now) }
{
    let params = List::from_slice(alloc, kinds)?;
    let table = place(at)?;
    let columns = kinds_of(alloc, shape)?;
    let action = action_of(alloc, at, shape, change, kinds)?;
    Ok(made(params, table, columns, action))
}

/// The core change, with these types of its antiquotes.
fn change_of(
    alloc: Global,
    home: &Text,
    tables: &Schema,
    change: &SqlChange,
    kinds: &[ColumnKind],
) -> Result<Change, Stop>
    ensures typed { IfOk result (λ c. change_of home.now tables.now kinds.now change.now ≡ Some c) }
    ensures refused { IfRefused result (ChangeHasFault home.now tables.now kinds.now change.now) }
{
    let x = target_of(change);
    let found = table_at(alloc, home, tables, x)?;
    match found {
        None => Err(Stop::Refused(no_table(alloc, x)?)),
        Some((at, shape)) => {
            let core = change_at(alloc, at, shape, change, kinds)?;
            Ok(core)
        }
    }
}

fn typed_change(core: Change, antiquotes: List<ColumnKind>) -> TypedChange
    ensures { result ≡ record { core = core; antiquotes = antiquotes } }
{
    TypedChange { core, antiquotes }
}

/// The typed change of what is written in the module that `env` names, over the tables. `found` are the types found of its
/// antiquotes, in written order, `datatypes` the names of the datatypes, by number. A refusal is E07, E08 or E12; that of an
/// antiquote of another type has no place.
pub fn type_change(
    alloc: Global,
    env: &ConEnv,
    tables: &Schema,
    change: &SqlChange,
    found: &[Normal],
    datatypes: &[Text],
) -> Result<TypedChange, Stop>
    ensures typed { IfOk result (IsTypedChange env.now.home tables.now found.now change.now) }
    ensures fits { IfOk result (λ t. ChangeFits tables.now t.core) }
    ensures refused { IfRefused result (ChangeBreaks datatypes.now env.now.home tables.now found.now change.now) }
{
    change_of_fits();
    let kinds = kinds_found(alloc, found, datatypes)?;
    let core = change_of(alloc, &env.home, tables, change, kinds.as_slice())?;
    Ok(typed_change(core, kinds))
}
