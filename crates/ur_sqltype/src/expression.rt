//! What expressions of SQL stand for, with their types.
ghost use Rattle.std.specs.Prelude.{◌≡◌, true, IfOk, Some, option_and_then};
ghost use Rattle.ur_base.specs.Stopping.{IfRefused};
ghost use Rattle.ur_syntax.specs.declared.sql.SqlBinary.{SqlBinary as Written};
ghost use Rattle.ur_syntax.specs.declared.sql.SqlForm.{SqlForm as Form};
ghost use Rattle.ur_syntax.specs.declared.sql.SqlForm.TheVariants as form;
ghost use Rattle.ur_sqltype.specs.declared.operators.Operator.TheVariants as does;
ghost use Rattle.ur_sqltype.specs.Expression.{kinded, on_both, joined, compared, operator_of, is_null, null_compared, binary, both_typed};
ghost use Rattle.ur_sqltype.specs.Faults.{HasFault, Misfits, TestsNull};

use crate::constants::{antiquote, bare, int, qualified, string, truth};
use crate::made::{compared, joined, negated, negative, present, with_null};
use crate::operators::{
    Join, Operator, is_equality, is_optional, may_compare, operator_of, same_kind, side_kind,
};
use crate::refusals::{kind_text, misfit, no_option};
use crate::scope::Within;
use std::alloc::Global;
use ur_base::{Boxed, Stop};
use ur_sql::{Comparison, Scalar};
use ur_syntax::{SqlBinary, SqlExp, SqlForm};
use ur_values::ColumnKind;

/// What an expression stands for, and its type.
#[cycle(kinding)]
pub fn exp_kind(
    alloc: Global,
    within: &Within,
    e: &SqlExp,
) -> Result<(Boxed<Scalar>, ColumnKind), Stop>
    ensures kinded { IfOk result (λ o. kinded within.now e.now.form ≡ Some o) }
    ensures refused { IfRefused result (HasFault within.now e.now.form) }
{
    match &e.form {
        SqlForm::Binary(o, a, b) => operation(alloc, within, o, a.get(), b.get()),
        SqlForm::Not(a) => negation(alloc, within, a.get()),
        SqlForm::Negative(a) => minus(alloc, within, a.get()),
        SqlForm::IsNull(a) => {
            null_compared(alloc, within, Comparison::Equal, false, false, a.get())
        },
        SqlForm::IsNotNull(a) => {
            null_compared(alloc, within, Comparison::Unequal, false, false, a.get())
        },
        SqlForm::Int(n) => int(alloc, within, e.span, *n),
        SqlForm::Str(text) => string(alloc, within, e.span, text),
        SqlForm::True => Ok(truth(alloc, within, true)?),
        SqlForm::False => Ok(truth(alloc, within, false)?),
        SqlForm::Null => Err(Stop::Refused(misfit(alloc, e.span, b"NULL", b"annotation")?)),
        SqlForm::Some(a) => some(alloc, within, a.get()),
        SqlForm::Column(name) => bare(alloc, within, e.span, name),
        SqlForm::Qualified(q, name) => qualified(alloc, within, e.span, q, name),
        SqlForm::Anti(number) => antiquote(alloc, within, e.span, *number),
    }
}

/// The expression of this kind.
#[cycle(kinding)]
pub fn of_kind(
    alloc: Global,
    within: &Within,
    e: &SqlExp,
    wanted: ColumnKind,
) -> Result<Boxed<Scalar>, Stop>
    ensures kinded { IfOk result (λ x. kinded within.now e.now.form ≡ Some (x, wanted)) }
    ensures refused { IfRefused result (Misfits within.now e.now.form wanted) }
{
    let (of, found) = exp_kind(alloc, within, e)?;
    if same_kind(found, wanted) {
        return Ok(of);
    }
    Err(Stop::Refused(misfit(alloc, e.span, kind_text(found), kind_text(wanted))?))
}

#[cycle(kinding)]
fn operation(
    alloc: Global,
    within: &Within,
    o: &SqlBinary,
    a: &SqlExp,
    b: &SqlExp,
) -> Result<(Boxed<Scalar>, ColumnKind), Stop>
    ensures kinded { IfOk result (λ r. kinded within.now (form.Binary o.now a.now b.now) ≡ Some r) }
    ensures refused { IfRefused result (HasFault within.now (form.Binary o.now a.now b.now)) }
{
    match operator_of(o) {
        Operator::Joins(join) => joining(alloc, within, join, a, b),
        Operator::Compares(c) => equating(alloc, within, c, a, b),
    }
}

#[cycle(kinding)]
fn joining(
    alloc: Global,
    within: &Within,
    join: Join,
    a: &SqlExp,
    b: &SqlExp,
) -> Result<(Boxed<Scalar>, ColumnKind), Stop>
    ensures kinded { IfOk result (λ r. on_both (joined join) (kinded within.now a.now.form) (kinded within.now b.now.form) ≡ Some r) }
    ensures refused { IfRefused result (λ r. (o : Written) → operator_of o ≡ does.Joins join → HasFault within.now (form.Binary o a.now b.now) r) }
{
    let kind = side_kind(join);
    let left = of_kind(alloc, within, a, kind)?;
    let right = of_kind(alloc, within, b, kind)?;
    let made = joined(alloc, join, left, right)?;
    Ok((made, kind))
}

/// A comparison, which may have NULL at one side where it is an equation or a disequation.
#[cycle(kinding)]
fn equating(
    alloc: Global,
    within: &Within,
    c: Comparison,
    a: &SqlExp,
    b: &SqlExp,
) -> Result<(Boxed<Scalar>, ColumnKind), Stop>
    ensures kinded { IfOk result (λ r. binary (does.Compares c) (is_null a.now.form) (is_null b.now.form) (kinded within.now a.now.form) (kinded within.now b.now.form) ≡ Some r) }
    ensures refused { IfRefused result (λ r. (o : Written) → operator_of o ≡ does.Compares c → HasFault within.now (form.Binary o a.now b.now) r) }
{
    if !is_equality(c) {
        return comparing(alloc, within, c, a, b);
    }
    if is_null(&a.form) {
        return null_compared(alloc, within, c, true, true, b);
    }
    if is_null(&b.form) {
        return null_compared(alloc, within, c, false, true, a);
    }
    comparing(alloc, within, c, a, b)
}

#[cycle(kinding)]
fn comparing(
    alloc: Global,
    within: &Within,
    c: Comparison,
    a: &SqlExp,
    b: &SqlExp,
) -> Result<(Boxed<Scalar>, ColumnKind), Stop>
    ensures kinded { IfOk result (λ r. on_both (compared c) (kinded within.now a.now.form) (kinded within.now b.now.form) ≡ Some r) }
    ensures refused { IfRefused result (λ r. (o : Written) → operator_of o ≡ does.Compares c → both_typed (does.Compares c) (is_null a.now.form) (is_null b.now.form) ≡ true → HasFault within.now (form.Binary o a.now b.now) r) }
{
    let (left, kind) = exp_kind(alloc, within, a)?;
    if !may_compare(c, kind) {
        return Err(Stop::Refused(misfit(alloc, a.span, kind_text(kind), b"int or string")?));
    }
    let right = of_kind(alloc, within, b, kind)?;
    let made = compared(alloc, c, left, right)?;
    Ok((made, ColumnKind::Bool))
}

#[cycle(kinding)]
fn negation(alloc: Global, within: &Within, a: &SqlExp) -> Result<(Boxed<Scalar>, ColumnKind), Stop>
    ensures kinded { IfOk result (λ r. kinded within.now (form.Not a.now) ≡ Some r) }
    ensures refused { IfRefused result (HasFault within.now (form.Not a.now)) }
{
    let of = of_kind(alloc, within, a, ColumnKind::Bool)?;
    let made = negated(alloc, of)?;
    Ok((made, ColumnKind::Bool))
}

#[cycle(kinding)]
fn minus(alloc: Global, within: &Within, a: &SqlExp) -> Result<(Boxed<Scalar>, ColumnKind), Stop>
    ensures kinded { IfOk result (λ r. kinded within.now (form.Negative a.now) ≡ Some r) }
    ensures refused { IfRefused result (HasFault within.now (form.Negative a.now)) }
{
    let of = of_kind(alloc, within, a, ColumnKind::Int)?;
    let made = negative(alloc, of)?;
    Ok((made, ColumnKind::Int))
}

/// An expression of an optional type compared with NULL, which stands first or last, and is written beside it or not.
#[cycle(kinding)]
fn null_compared(
    alloc: Global,
    within: &Within,
    c: Comparison,
    first: bool,
    beside: bool,
    a: &SqlExp,
) -> Result<(Boxed<Scalar>, ColumnKind), Stop>
    ensures kinded { IfOk result (λ r. option_and_then (null_compared c first) (kinded within.now a.now.form) ≡ Some r) }
    ensures refused { IfRefused result (λ r. (e : Form) → TestsNull c first beside e a.now.form → HasFault within.now e r) }
{
    let (of, kind) = exp_kind(alloc, within, a)?;
    if !is_optional(kind) {
        return Err(Stop::Refused(no_option(alloc, a.span, beside, kind)?));
    }
    let made = with_null(alloc, c, first, of, kind)?;
    Ok((made, ColumnKind::Bool))
}

/// SOME of an expression.
#[cycle(kinding)]
fn some(alloc: Global, within: &Within, a: &SqlExp) -> Result<(Boxed<Scalar>, ColumnKind), Stop>
    ensures kinded { IfOk result (λ r. kinded within.now (form.Some a.now) ≡ Some r) }
    ensures refused { IfRefused result (HasFault within.now (form.Some a.now)) }
{
    let (of, kind) = exp_kind(alloc, within, a)?;
    match kind.optional() {
        None => {
            let refusal = misfit(alloc, a.span, kind_text(kind), b"int, string or bool")?;
            Err(Stop::Refused(refusal))
        }
        Some(optional) => {
            let made = present(alloc, of)?;
            Ok((made, optional))
        }
    }
}

/// Whether an expression is NULL.
pub fn is_null(e: &SqlForm) -> bool
    ensures { result ≡ is_null e.now }
{
    match e {
        SqlForm::Null => true,
        _ => false,
    }
}
