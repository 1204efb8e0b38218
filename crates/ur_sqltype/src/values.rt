//! Values of columns.
ghost use Rattle.std.specs.Prelude.{◌≡◌, IfOk, Some};
ghost use Rattle.ur_base.specs.Stopping.{IfRefused};
ghost use Rattle.ur_sqltype.specs.Expression.{valued};
ghost use Rattle.ur_sqltype.specs.Faults.{MisfitsColumn};

use crate::expression::{is_null, of_kind};
use crate::operators::is_optional;
use crate::refusals::{kind_text, misfit};
use crate::scope::Within;
use std::alloc::Global;
use ur_base::{Boxed, Stop};
use ur_sql::Scalar;
use ur_syntax::SqlExp;
use ur_values::ColumnKind;

/// What INSERT or SET gives to a column of this kind.
pub fn value_of_kind(
    alloc: Global,
    within: &Within,
    e: &SqlExp,
    wanted: ColumnKind,
) -> Result<Boxed<Scalar>, Stop>
    ensures kinded { IfOk result (λ x. valued wanted within.now e.now ≡ Some x) }
    ensures refused { IfRefused result (MisfitsColumn within.now e.now.form wanted) }
{
    if !is_null(&e.form) {
        return of_kind(alloc, within, e, wanted);
    }
    if !is_optional(wanted) {
        return Err(Stop::Refused(misfit(alloc, e.span, b"NULL", kind_text(wanted))?));
    }
    Ok(Boxed::new(alloc, Scalar::Null(wanted))?)
}
