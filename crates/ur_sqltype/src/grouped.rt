//! Columns outside of aggregates.
ghost use Rattle.std.specs.Prelude.{◌≡◌};
ghost use Rattle.std.specs.List.{list_any};
ghost use Rattle.ur_sql.specs.Answer.{is_aggregate};
ghost use Rattle.ur_sqltype.specs.Choice.{or_else, first_in};
ghost use Rattle.ur_sqltype.specs.Query.{at_outside, outside_in, field_outside, key_outside, is_grouped, outside};

use crate::sqltype_columns::has_column;
use ur_base::Name;
use ur_sql::{ColumnAt, Field, OrderKey, Query, Scalar};

/// The column, where it is none of these.
fn at_outside(group: &[ColumnAt], at: ColumnAt) -> Option<ColumnAt>
    ensures { result ≡ at_outside group.now at }
{
    if has_column(group, at.item, at.column) {
        return None;
    }
    Some(at)
}

fn or_else(first: Option<ColumnAt>, other: Option<ColumnAt>) -> Option<ColumnAt>
    ensures { result ≡ or_else first other }
{
    match first {
        Some(at) => Some(at),
        None => other,
    }
}

/// The first column of an expression that is none of these.
#[tactic(auto, using(crate::proofs::SqltypeEquations::outs))]
fn outside_in(by: &Scalar, group: &[ColumnAt]) -> Option<ColumnAt>
    ensures { result ≡ outside_in group.now by.now }
{
    match by {
        Scalar::Constant(_) => None,
        Scalar::Column(item, column) => at_outside(
            group,
            ColumnAt {
                item: *item,
                column: *column,
            },
        ),
        Scalar::Param(_) => None,
        Scalar::Or(a, b) => or_else(outside_in(a.get(), group), outside_in(b.get(), group)),
        Scalar::And(a, b) => or_else(outside_in(a.get(), group), outside_in(b.get(), group)),
        Scalar::Not(a) => outside_in(a.get(), group),
        Scalar::Compare(_, a, b) => {
            or_else(outside_in(a.get(), group), outside_in(b.get(), group))
        }
        Scalar::Add(a, b) => or_else(outside_in(a.get(), group), outside_in(b.get(), group)),
        Scalar::Sub(a, b) => or_else(outside_in(a.get(), group), outside_in(b.get(), group)),
        Scalar::Mul(a, b) => or_else(outside_in(a.get(), group), outside_in(b.get(), group)),
        Scalar::Neg(a) => outside_in(a.get(), group),
        Scalar::Null(_) => None,
        Scalar::Present(a) => outside_in(a.get(), group),
    }
}

fn columns_outside(columns: &[(Name, ColumnAt)], group: &[ColumnAt]) -> Option<ColumnAt>
    ensures { result ≡ first_in (λ c. at_outside group.now c.1) columns.now }
{
    for i in 0..columns.len() {
        match at_outside(group, columns[i].1) {
            Some(at) => return Some(at),
            None => {}
        }
    }
    None
}

/// The first column of a field, outside of an aggregate, that is none of these.
fn field_outside(field: &Field, group: &[ColumnAt]) -> Option<ColumnAt>
    ensures { result ≡ field_outside group.now field.now }
{
    match field {
        Field::Columns(_, columns) => columns_outside(columns.as_slice(), group),
        Field::Single(_, by) => outside_in(by, group),
        Field::Over(_, _) => None,
    }
}

fn fields_outside(fields: &[Field], group: &[ColumnAt]) -> Option<ColumnAt>
    ensures { result ≡ first_in (field_outside group.now) fields.now }
{
    for i in 0..fields.len() {
        match field_outside(&fields[i], group) {
            Some(at) => return Some(at),
            None => {}
        }
    }
    None
}

fn keys_outside(keys: &[OrderKey], group: &[ColumnAt]) -> Option<ColumnAt>
    ensures { result ≡ first_in (key_outside group.now) keys.now }
{
    for i in 0..keys.len() {
        match outside_in(&keys[i].by, group) {
            Some(at) => return Some(at),
            None => {}
        }
    }
    None
}

fn is_aggregate(field: &Field) -> bool
    ensures { result ≡ is_aggregate field.now }
{
    match field {
        Field::Columns(_, _) => false,
        Field::Single(_, _) => false,
        Field::Over(_, _) => true,
    }
}

fn has_aggregate(fields: &[Field]) -> bool
    ensures { result ≡ list_any is_aggregate fields.now }
{
    for field in fields {
        if is_aggregate(field) {
            return true;
        }
    }
    false
}

/// Whether GROUP BY or an aggregate stands in a query.
fn is_grouped(core: &Query) -> bool
    ensures { result ≡ is_grouped core.now }
{
    if has_aggregate(core.fields.as_slice()) {
        return true;
    }
    !core.group.is_empty()
}

/// The first column outside of aggregates that is no GROUP BY column, in SELECT or ORDER BY, where the query is grouped.
pub fn outside(core: &Query) -> Option<ColumnAt>
    ensures { result ≡ outside core.now }
{
    if !is_grouped(core) {
        return None;
    }
    let group = core.group.as_slice();
    match fields_outside(core.fields.as_slice(), group) {
        Some(at) => Some(at),
        None => keys_outside(core.order.as_slice(), group),
    }
}
