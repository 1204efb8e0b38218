//! Kinds of expressions, and the columns that they read.
ghost use Rattle.std.specs.Prelude.{◌≡◌, ◌↔◌, IsTrue, IsSome};
ghost use Rattle.ur_sql.specs.Typing.{Compares, HasKind, HasSomeKind, HasBasicKind, ReadsOnly};
ghost use Rattle.ur_values.specs.Kinds.{inside};
ghost use Rattle.ur_sql.specs.Kinds.{plain_kind, scalar_kind};
ghost use Rattle.ur_verify.specs.Scope.{scope};

use crate::columns::{column_kind, fits_basic, has_column, is_kind, kind_at, value_kind};
use ur_base::List;
use ur_sql::{ColumnAt, Comparison, Scalar};
use ur_values::ColumnKind;

/// Whether an expression has this kind.
pub fn has_kind(
    by: &Scalar,
    params: &[ColumnKind],
    items: &[List<ColumnKind>],
    kind: ColumnKind,
) -> bool
    ensures { IsTrue result ↔ HasKind (scope params.now items.now) by.now kind }
{
    match by {
        Scalar::Constant(value) => fits_basic(value, kind),
        Scalar::Column(item, column) => is_kind(column_kind(items, *item, *column), kind),
        Scalar::Param(number) => is_kind(kind_at(params, *number), kind),
        Scalar::Or(a, b) => {
            if !same_kind(kind, ColumnKind::Bool) {
                return false;
            }
            has_kind(a.get(), params, items, ColumnKind::Bool)
                && has_kind(b.get(), params, items, ColumnKind::Bool)
        }
        Scalar::And(a, b) => {
            if !same_kind(kind, ColumnKind::Bool) {
                return false;
            }
            has_kind(a.get(), params, items, ColumnKind::Bool)
                && has_kind(b.get(), params, items, ColumnKind::Bool)
        }
        Scalar::Not(a) => {
            if !same_kind(kind, ColumnKind::Bool) {
                return false;
            }
            has_kind(a.get(), params, items, ColumnKind::Bool)
        }
        Scalar::Compare(comparison, a, b) => {
            if !same_kind(kind, ColumnKind::Bool) {
                return false;
            }
            match head_kind(a.get(), params, items) {
                None => false,
                Some(of) => {
                    if !compares(*comparison, of) {
                        return false;
                    }
                    has_kind(a.get(), params, items, of) && has_kind(b.get(), params, items, of)
                }
            }
        }
        Scalar::Add(a, b) => {
            if !same_kind(kind, ColumnKind::Int) {
                return false;
            }
            has_kind(a.get(), params, items, ColumnKind::Int)
                && has_kind(b.get(), params, items, ColumnKind::Int)
        }
        Scalar::Sub(a, b) => {
            if !same_kind(kind, ColumnKind::Int) {
                return false;
            }
            has_kind(a.get(), params, items, ColumnKind::Int)
                && has_kind(b.get(), params, items, ColumnKind::Int)
        }
        Scalar::Mul(a, b) => {
            if !same_kind(kind, ColumnKind::Int) {
                return false;
            }
            has_kind(a.get(), params, items, ColumnKind::Int)
                && has_kind(b.get(), params, items, ColumnKind::Int)
        }
        Scalar::Neg(a) => {
            if !same_kind(kind, ColumnKind::Int) {
                return false;
            }
            has_kind(a.get(), params, items, ColumnKind::Int)
        }
        Scalar::Null(of) => is_null_kind(*of, kind),
        Scalar::Present(a) => match kind.inside() {
            None => false,
            Some(of) => has_kind(a.get(), params, items, of),
        },
    }
}

/// Whether NULL of one kind has another.
fn is_null_kind(of: ColumnKind, kind: ColumnKind) -> bool
    ensures { IsTrue result ↔ ((kind ≡ of) × IsSome (inside of)) }
{
    same_kind(kind, of) && is_optional(of)
}

fn is_optional(kind: ColumnKind) -> bool
    ensures { IsTrue result ↔ IsSome (inside kind) }
{
    kind.inside().is_some()
}

fn same_kind(kind: ColumnKind, other: ColumnKind) -> bool
    ensures { IsTrue result ↔ (kind ≡ other) }
{
    kind == other
}

fn compares(comparison: Comparison, kind: ColumnKind) -> bool
    ensures { IsTrue result ↔ Compares comparison kind }
{
    match comparison {
        Comparison::Equal => true,
        Comparison::Unequal => true,
        Comparison::Less => kind.is_ordered(),
        Comparison::LessEqual => kind.is_ordered(),
        Comparison::Greater => kind.is_ordered(),
        Comparison::GreaterEqual => kind.is_ordered(),
    }
}

/// The kind that an expression has, if it has one: what stands at its head decides it, and under SOME what stands inside.
fn head_kind(by: &Scalar, params: &[ColumnKind], items: &[List<ColumnKind>]) -> Option<ColumnKind>
    ensures { result ≡ scalar_kind (scope params.now items.now) by.now }
{
    match by {
        Scalar::Present(a) => match plain_kind(a.get(), params, items) {
            None => None,
            Some(of) => of.optional(),
        },
        _ => plain_kind(by, params, items),
    }
}

/// The kind of an expression that is no SOME.
fn plain_kind(by: &Scalar, params: &[ColumnKind], items: &[List<ColumnKind>]) -> Option<ColumnKind>
    ensures { result ≡ plain_kind (scope params.now items.now) by.now }
{
    match by {
        Scalar::Constant(value) => value_kind(value),
        Scalar::Column(item, column) => column_kind(items, *item, *column),
        Scalar::Param(number) => kind_at(params, *number),
        Scalar::Or(_, _) => Some(ColumnKind::Bool),
        Scalar::And(_, _) => Some(ColumnKind::Bool),
        Scalar::Not(_) => Some(ColumnKind::Bool),
        Scalar::Compare(_, _, _) => Some(ColumnKind::Bool),
        Scalar::Add(_, _) => Some(ColumnKind::Int),
        Scalar::Sub(_, _) => Some(ColumnKind::Int),
        Scalar::Mul(_, _) => Some(ColumnKind::Int),
        Scalar::Neg(_) => Some(ColumnKind::Int),
        Scalar::Null(kind) => Some(*kind),
        Scalar::Present(_) => None,
    }
}

/// Whether an expression has a kind.
pub fn has_some_kind(by: &Scalar, params: &[ColumnKind], items: &[List<ColumnKind>]) -> bool
    ensures { IsTrue result ↔ HasSomeKind (scope params.now items.now) by.now }
{
    match head_kind(by, params, items) {
        None => false,
        Some(kind) => has_kind(by, params, items, kind),
    }
}

/// Whether an expression has a kind that is not optional.
pub fn has_basic_kind(by: &Scalar, params: &[ColumnKind], items: &[List<ColumnKind>]) -> bool
    ensures { IsTrue result ↔ HasBasicKind (scope params.now items.now) by.now }
{
    match head_kind(by, params, items) {
        None => false,
        Some(kind) => match kind.inside() {
            None => has_kind(by, params, items, kind),
            Some(_) => false,
        },
    }
}

/// Whether an expression reads these columns alone.
pub fn reads_only(by: &Scalar, group: &[ColumnAt]) -> bool
    ensures { IsTrue result ↔ ReadsOnly group.now by.now }
{
    match by {
        Scalar::Constant(_) => true,
        Scalar::Column(item, column) => has_column(group, *item, *column),
        Scalar::Param(_) => true,
        Scalar::Or(a, b) => reads_only(a.get(), group) && reads_only(b.get(), group),
        Scalar::And(a, b) => reads_only(a.get(), group) && reads_only(b.get(), group),
        Scalar::Not(a) => reads_only(a.get(), group),
        Scalar::Compare(_, a, b) => reads_only(a.get(), group) && reads_only(b.get(), group),
        Scalar::Add(a, b) => reads_only(a.get(), group) && reads_only(b.get(), group),
        Scalar::Sub(a, b) => reads_only(a.get(), group) && reads_only(b.get(), group),
        Scalar::Mul(a, b) => reads_only(a.get(), group) && reads_only(b.get(), group),
        Scalar::Neg(a) => reads_only(a.get(), group),
        Scalar::Null(_) => true,
        Scalar::Present(a) => reads_only(a.get(), group),
    }
}
