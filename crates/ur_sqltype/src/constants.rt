//! Expressions without parts.
ghost use Rattle.std.specs.Prelude.{◌≡◌, IfOk, Some};
ghost use Rattle.std.specs.Str.{is_utf8};
ghost use Rattle.ur_base.specs.Stopping.{IfRefused};
ghost use Rattle.ur_syntax.specs.declared.sql.SqlForm.TheVariants as form;
ghost use Rattle.ur_sql.specs.declared.scalar.Scalar.TheVariants as scalar;
ghost use Rattle.ur_sqltype.specs.Expression.{kinded, truth_form};
ghost use Rattle.ur_sqltype.specs.Faults.{HasFault, TellsSql, misfit, six_kinds};

use crate::columns::{capital, column_at, column_of, place};
use crate::refusals::{misfit, name_text, number_text, unknown};
use crate::scope::Within;
use std::alloc::Global;
use std::str;
use ur_base::{Boxed, List, Memory, Refusal, Span, Stop, Text};
use ur_sql::Scalar;
use ur_values::{ColumnKind, Value};

/// An int. One over the greatest has no type.
pub fn int(
    alloc: Global,
    within: &Within,
    span: Span,
    n: u64,
) -> Result<(Boxed<Scalar>, ColumnKind), Stop>
    ensures kinded { IfOk result (λ o. kinded within.now (form.Int n) ≡ Some o) }
    ensures refused { IfRefused result (HasFault within.now (form.Int n)) }
{
    let _within = within;
    if n < 9223372036854775808 {
        let made = constant(alloc, Value::Int(n as i64))?;
        return Ok((made, ColumnKind::Int));
    }
    let left = number_text(alloc, n)?;
    Err(Stop::Refused(misfit(alloc, span, left.as_slice(), b"int")?))
}

/// A string. Bytes that are no text have no type.
pub fn string(
    alloc: Global,
    within: &Within,
    span: Span,
    text: &Text,
) -> Result<(Boxed<Scalar>, ColumnKind), Stop>
    ensures kinded { IfOk result (λ o. kinded within.now (form.Str text.now) ≡ Some o) }
    ensures refused { IfRefused result (HasFault within.now (form.Str text.now)) }
{
    let _within = within;
    if is_text(text.as_slice()) {
        let copy = List::from_slice(alloc, text.as_slice())?;
        let made = constant(alloc, Value::Str(copy))?;
        return Ok((made, ColumnKind::Str));
    }
    Err(Stop::Refused(misfit(alloc, span, b"bytes", b"string")?))
}

fn is_text(bytes: &[u8]) -> bool
    ensures { result ≡ is_utf8 bytes.now }
{
    match str::from_utf8(bytes) {
        Ok(_) => true,
        Err(_) => false,
    }
}

pub fn truth(
    alloc: Global,
    within: &Within,
    holds: bool,
) -> Result<(Boxed<Scalar>, ColumnKind), Memory>
    ensures { IfOk result (λ o. kinded within.now (truth_form holds) ≡ Some o) }
{
    let _within = within;
    let made = constant(alloc, Value::Bool(holds))?;
    Ok((made, ColumnKind::Bool))
}

fn constant(alloc: Global, value: Value) -> Result<Boxed<Scalar>, Memory>
    ensures { IfOk result (λ x. x ≡ scalar.Constant value) }
{
    Boxed::new(alloc, Scalar::Constant(value))
}

/// A column by its name alone.
pub fn bare(
    alloc: Global,
    within: &Within,
    span: Span,
    name: &Text,
) -> Result<(Boxed<Scalar>, ColumnKind), Stop>
    ensures kinded { IfOk result (λ o. kinded within.now (form.Column name.now) ≡ Some o) }
    ensures refused { IfRefused result (HasFault within.now (form.Column name.now)) }
{
    match column_of(name.as_slice(), within.bare.as_slice()) {
        None => Err(Stop::Refused(unknown(alloc, span, name.as_slice())?)),
        Some((at, kind)) => {
            let made = column(alloc, 0, at)?;
            Ok((made, kind))
        }
    }
}

/// A column of an item of FROM.
pub fn qualified(
    alloc: Global,
    within: &Within,
    span: Span,
    qualifier: &Text,
    name: &Text,
) -> Result<(Boxed<Scalar>, ColumnKind), Stop>
    ensures kinded { IfOk result (λ o. kinded within.now (form.Qualified qualifier.now name.now) ≡ Some o) }
    ensures refused { IfRefused result (HasFault within.now (form.Qualified qualifier.now name.now)) }
{
    let alias = capital(alloc, qualifier.as_slice())?;
    match column_at(alias.as_slice(), name.as_slice(), within.sources.as_slice()) {
        None => {
            let text = name_text(alloc, qualifier.as_slice(), name.as_slice())?;
            Err(Stop::Refused(unknown(alloc, span, text.as_slice())?))
        }
        Some((item, (at, kind))) => {
            let made = column(alloc, item, at)?;
            Ok((made, kind))
        }
    }
}

fn column(alloc: Global, item: usize, at: usize) -> Result<Boxed<Scalar>, Memory>
    ensures { IfOk result (λ x. x ≡ scalar.Column item at) }
{
    let item = place(item)?;
    let at = place(at)?;
    Boxed::new(alloc, Scalar::Column(item, at))
}

/// An antiquote, which has the type that was found of it.
pub fn antiquote(
    alloc: Global,
    within: &Within,
    span: Span,
    number: u32,
) -> Result<(Boxed<Scalar>, ColumnKind), Stop>
    ensures kinded { IfOk result (λ o. kinded within.now (form.Anti number) ≡ Some o) }
    ensures refused { IfRefused result (HasFault within.now (form.Anti number)) }
{
    match within.antiquotes.get(number as usize) {
        None => Err(Stop::Refused(of_six(alloc, span, b"no antiquote")?)),
        Some(kind) => {
            let made = Boxed::new(alloc, Scalar::Param(number))?;
            Ok((made, *kind))
        }
    }
}

/// What was found, where a type of SQL is wanted.
fn of_six(alloc: Global, span: Span, found: &[u8]) -> Result<Refusal, Memory>
    ensures { IfOk result (λ r. TellsSql r (misfit found.now six_kinds)) }
{
    misfit(
        alloc,
        span,
        found,
        b"int, string, bool or an option of these",
    )
}
