//! Expressions where a type is wanted.
ghost use Rattle.std.specs.Prelude.{◌≡◌, [], ◌∷◌, ◌++◌, Some, IfOk};
ghost use Rattle.ur_base.specs.Stopping.{IfRefused};
ghost use Rattle.ur_values.specs.declared.schema.ColumnKind.TheVariants as kind;
ghost use Rattle.ur_syntax.specs.declared.sql.SqlExp.{SqlExp as Written};
ghost use Rattle.ur_sqltype.specs.Faults.{HasFault, Misfits};
ghost use Rattle.ur_sqltype.specs.Lists.{maybe};
ghost use Rattle.ur_sqltype.specs.Query.{of_kind, of_some_kind, of_basic_kind, as_column, column_in};
ghost use Rattle.ur_sqltype.specs.SqltypeFaults.{BasicBreaks, ColumnBreaks};

use crate::{Within, exp_kind, is_optional, kind_text, misfit, of_kind};
use std::alloc::Global;
use ur_base::{Boxed, List, Memory, Span, Stop};
use ur_sql::{ColumnAt, Scalar};
use ur_syntax::SqlExp;
use ur_values::ColumnKind;

/// The expression of this kind.
pub fn scalar_of(
    alloc: Global,
    within: &Within,
    e: &SqlExp,
    wanted: ColumnKind,
) -> Result<Boxed<Scalar>, Stop>
    ensures typed { IfOk result (λ x. of_kind wanted within.now e.now ≡ Some x) }
    ensures refused { IfRefused result (Misfits within.now e.now.form wanted) }
{
    let scalar = of_kind(alloc, within, e, wanted)?;
    Ok(scalar)
}

/// The expression, of any kind.
pub fn any_scalar(alloc: Global, within: &Within, e: &SqlExp) -> Result<Boxed<Scalar>, Stop>
    ensures typed { IfOk result (λ x. of_some_kind within.now e.now ≡ Some x) }
    ensures refused { IfRefused result (HasFault within.now e.now.form) }
{
    let (scalar, _) = exp_kind(alloc, within, e)?;
    Ok(scalar)
}

/// The expression, of type int, string or bool.
pub fn basic_scalar(alloc: Global, within: &Within, e: &SqlExp) -> Result<Boxed<Scalar>, Stop>
    ensures typed { IfOk result (λ x. of_basic_kind within.now e.now ≡ Some x) }
    ensures refused { IfRefused result (BasicBreaks within.now e.now) }
{
    let (scalar, kind) = exp_kind(alloc, within, e)?;
    if is_optional(kind) {
        return Err(Stop::Refused(misfit(alloc, e.span, kind_text(kind), b"int, string or bool")?));
    }
    Ok(scalar)
}

/// A condition, which may be left out.
pub fn condition_of(
    alloc: Global,
    within: &Within,
    condition: &Option<SqlExp>,
) -> Result<Option<Boxed<Scalar>>, Stop>
    ensures typed { IfOk result (λ x. maybe (of_kind kind.Bool within.now) condition.now ≡ Some x) }
    ensures refused { IfRefused result (λ r. (e : Written) × (condition.now ≡ Some e) × Misfits within.now e.form kind.Bool r) }
{
    match condition {
        None => Ok(None),
        Some(e) => {
            let scalar = scalar_of(alloc, within, e, ColumnKind::Bool)?;
            Ok(Some(scalar))
        }
    }
}

/// One more expression at the end.
pub fn with_scalar(list: List<Scalar>, scalar: Boxed<Scalar>) -> Result<List<Scalar>, Memory>
    ensures { IfOk result (λ more. more ≡ list ++ scalar ∷ []) }
{
    let mut list = list;
    list.push(scalar.into_inner())?;
    Ok(list)
}

/// What may be left out, out of its box.
pub fn unboxed(scalar: Option<Boxed<Scalar>>) -> Option<Scalar>
    ensures { result ≡ scalar }
{
    match scalar {
        None => None,
        Some(of) => Some(of.into_inner()),
    }
}

/// The column that an expression is, if it is one.
pub fn as_column(scalar: &Scalar) -> Option<ColumnAt>
    ensures { result ≡ as_column scalar.now }
{
    match scalar {
        Scalar::Column(item, column) => Some(ColumnAt {
            item: *item,
            column: *column,
        }),
        _ => None,
    }
}

/// A column of some item.
pub fn column_in(alloc: Global, within: &Within, e: &SqlExp) -> Result<ColumnAt, Stop>
    ensures column { IfOk result (λ at. column_in within.now e.now ≡ Some at) }
    ensures refused { IfRefused result (ColumnBreaks within.now e.now) }
{
    let (scalar, kind) = exp_kind(alloc, within, e)?;
    let _kind = kind;
    match as_column(scalar.get()) {
        Some(at) => Ok(at),
        None => Err(Stop::Refused(misfit(alloc, e.span, b"expression", b"column")?)),
    }
}
