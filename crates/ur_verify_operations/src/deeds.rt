//! What a program declares: constructors, forms and routes, queries, changes, sequences and cookies.
ghost use Rattle.std.specs.Prelude.{◌≡◌, ◌↔◌, [], ◌∷◌, IsTrue, IfOk, Some, take, drop, slice_get};
ghost use Rattle.ur_values.specs.declared.types.ValueType.TheVariants as ty;
ghost use Rattle.ur_terms.specs.declared.term.Op.TheVariants as op;
ghost use Rattle.ur_terms.specs.Types.{OpType, IsValueFor, field_kind, answer_type, args_of, form_type};
ghost use Rattle.ur_code.specs.Fits.{signature};
ghost use Rattle.ur_verify_operations.specs.Answering.{Answers, Says};
ghost use Rattle.ur_verify_operations.specs.Misfits.{OperationMisfit};
ghost use Rattle.ur_verify_operations.specs.Saying.{OtherTypes};
ghost use Rattle.ur_verify_operations.specs.Parts.{IsLast, Submits};

use crate::arguments::{exactly, optional};
use crate::markup::holding;
use crate::misfit::{Untyped, no_type};
use crate::rows::{kind_type, kind_types, route_types, row_type};
use std::alloc::Global;
use std::str;
use ur_base::{Boxed, List, Memory, Name, Text};
use ur_code::Code;
use ur_tags::Route;
use ur_terms::AnswerForm;
use ur_values::{FieldKind, TypeField, ValueType, copy_type, same_types};

fn unit(alloc: Global) -> ValueType
    ensures { result ≡ ty.Record [] }
{
    ValueType::Record(List::new(alloc))
}

/// A constructor's argument, where it has one.
fn takes(
    alloc: Global,
    code: &Code,
    ts: &[ValueType],
    argument: &Option<ValueType>,
    gives: ValueType,
) -> Result<ValueType, Untyped>
    ensures fits { Answers (λ r. (ts.now ≡ args_of argument.now) × (r ≡ gives)) result }
    ensures told { Says (OtherTypes code.now.names ts.now (args_of argument.now)) result }
{
    match argument {
        None => exactly(alloc, code, ts, &[], gives),
        Some(of) => {
            let wanted = copy_type(alloc, of)?;
            exactly(alloc, code, ts, &[wanted], gives)
        }
    }
}

/// A datatype's constructor.
pub fn tagged(
    alloc: Global,
    code: &Code,
    ts: &[ValueType],
    number: u32,
) -> Result<ValueType, Untyped>
    ensures fits { Answers (OpType (signature code.now) (op.Tagged number) ts.now) result }
    ensures told { Says (OperationMisfit (signature code.now) (op.Tagged number) ts.now) result }
{
    match code.variants.get(number as usize) {
        None => Err(Untyped::Misfit(no_type(alloc, b"a constructor")?)),
        Some(variant) => takes(alloc, code, ts, &variant.1, ValueType::Datatype(variant.0)),
    }
}

/// `error`, at this type.
pub fn fail(
    alloc: Global,
    code: &Code,
    ts: &[ValueType],
    of: &ValueType,
) -> Result<ValueType, Untyped>
    ensures fits { Answers (OpType (signature code.now) (op.Fail of.now) ts.now) result }
    ensures told { Says (OperationMisfit (signature code.now) (op.Fail of.now) ts.now) result }
{
    let gives = copy_type(alloc, of)?;
    exactly(alloc, code, ts, &[ValueType::Xbody], gives)
}

/// Text in a page.
pub fn text(alloc: Global, code: &Code, ts: &[ValueType], text: &Text) -> Result<ValueType, Untyped>
    ensures fits { Answers (OpType (signature code.now) (op.Text text.now) ts.now) result }
    ensures told { Says (OperationMisfit (signature code.now) (op.Text text.now) ts.now) result }
{
    match str::from_utf8(text.as_slice()) {
        Err(_) => Err(Untyped::Misfit(no_type(alloc, b"text")?)),
        Ok(_) => exactly(alloc, code, ts, &[], ValueType::Xbody),
    }
}

// ---- forms and routes

fn is_value_for(kind: FieldKind, ts: &[ValueType]) -> bool
    ensures { IsTrue result ↔ IsValueFor kind ts.now }
{
    if ts.is_empty() {
        return true;
    }
    match kind {
        FieldKind::Textbox => same_types(ts, &[ValueType::Str]),
        FieldKind::Password => same_types(ts, &[ValueType::Str]),
        FieldKind::Textarea => false,
        FieldKind::Checkbox => false,
    }
}

fn field_kind(kind: FieldKind) -> ValueType
    ensures { result ≡ field_kind kind }
{
    match kind {
        FieldKind::Textbox => ValueType::Str,
        FieldKind::Password => ValueType::Str,
        FieldKind::Textarea => ValueType::Str,
        FieldKind::Checkbox => ValueType::Bool,
    }
}

fn is_named(code: &Code, name: Name, text: &Text) -> bool
    ensures { IsTrue result ↔ (slice_get code.now.names name.0 ≡ Some text.now) }
{
    match code.names.get(name.0 as usize) {
        None => false,
        Some(known) => known.as_slice() == text.as_slice(),
    }
}

fn one_field(alloc: Global, name: Name, of: ValueType) -> Result<ValueType, Memory>
    ensures { IfOk result (λ r. r ≡ form_type ((name, of) ∷ [])) }
{
    let mut fields = List::new(alloc);
    fields.push(TypeField { name, of })?;
    Ok(ValueType::Form(fields))
}

/// A form's field.
pub fn input(
    alloc: Global,
    code: &Code,
    ts: &[ValueType],
    kind: FieldKind,
    name: Name,
    text: &Text,
) -> Result<ValueType, Untyped>
    ensures fits { Answers (OpType (signature code.now) (op.Input kind name text.now) ts.now) result }
    ensures told { Says (OperationMisfit (signature code.now) (op.Input kind name text.now) ts.now) result }
{
    if !is_named(code, name, text) {
        return Err(Untyped::Misfit(no_type(alloc, b"the name of a field")?));
    }
    if !is_value_for(kind, ts) {
        return Err(Untyped::Misfit(no_type(alloc, b"a value for the field")?));
    }
    Ok(one_field(alloc, name, field_kind(kind))?)
}

fn answers_get(route: &Route) -> bool
    ensures { result ≡ route.now.get }
{
    route.get
}

fn answers_post(route: &Route) -> bool
    ensures { result ≡ route.now.post }
{
    route.post
}

/// The first arguments, as many as are in front.
fn front(ts: &[ValueType], count: u32) -> &[ValueType]
    ensures { result.now ≡ take count ts.now }
{
    if count as usize <= ts.len() {
        return &ts[..count as usize];
    }
    ts
}

/// The arguments behind the first ones.
fn behind(ts: &[ValueType], count: u32) -> &[ValueType]
    ensures { result.now ≡ drop count ts.now }
{
    if count as usize <= ts.len() {
        return &ts[count as usize..];
    }
    &[]
}

/// A link to a route.
pub fn link(
    alloc: Global,
    code: &Code,
    ts: &[ValueType],
    route: u32,
    args: u32,
) -> Result<ValueType, Untyped>
    ensures fits { Answers (OpType (signature code.now) (op.Link route args) ts.now) result }
    ensures told { Says (OperationMisfit (signature code.now) (op.Link route args) ts.now) result }
{
    let Some(target) = code.handlers.routes.get(route as usize) else {
        return Err(Untyped::Misfit(no_type(alloc, b"a route")?));
    };
    if !answers_get(target) {
        return Err(Untyped::Misfit(no_type(alloc, b"a route that answers GET")?));
    }
    let types = route_types(alloc, target)?;
    if !same_types(front(ts, args), types.as_slice()) {
        return Err(Untyped::Misfit(no_type(alloc, b"the arguments of the route")?));
    }
    holding(alloc, code, behind(ts, args))
}

fn agree(empty: bool, unit: bool) -> bool
    ensures { IsTrue result ↔ (empty ≡ unit) }
{
    if unit {
        return empty;
    }
    !empty
}

/// Whether a type is a record, of no fields exactly where `unit` is true.
fn is_last(of: &ValueType, unit: bool) -> bool
    ensures { IsTrue result ↔ IsLast unit of.now }
{
    match of {
        ValueType::Record(fields) => agree(fields.is_empty(), unit),
        _ => false,
    }
}

/// Whether these are a route's arguments but the last, and the last is a record, of no fields exactly where `unit` is true.
fn submits(params: &[ValueType], ts: &[ValueType], unit: bool) -> bool
    ensures { IsTrue result ↔ Submits unit ts.now params.now }
{
    match params.split_last() {
        None => false,
        Some((last, others)) => is_last(last, unit) && same_types(ts, others),
    }
}

/// A submit button.
pub fn submit(
    alloc: Global,
    code: &Code,
    ts: &[ValueType],
    route: u32,
    args: u32,
    unit: bool,
) -> Result<ValueType, Untyped>
    ensures fits { Answers (OpType (signature code.now) (op.Submit route args unit) ts.now) result }
    ensures told { Says (OperationMisfit (signature code.now) (op.Submit route args unit) ts.now) result }
{
    let Some(target) = code.handlers.routes.get(route as usize) else {
        return Err(Untyped::Misfit(no_type(alloc, b"a route")?));
    };
    if !answers_post(target) {
        return Err(Untyped::Misfit(no_type(alloc, b"a route that answers POST")?));
    }
    let types = route_types(alloc, target)?;
    if !submits(types.as_slice(), front(ts, args), unit) {
        return Err(Untyped::Misfit(no_type(alloc, b"the arguments of the route")?));
    }
    if !is_value_for(FieldKind::Textbox, behind(ts, args)) {
        return Err(Untyped::Misfit(no_type(alloc, b"the text of a button")?));
    }
    Ok(ValueType::Form(List::new(alloc)))
}

// ---- queries, changes, sequences and cookies

fn answer_type(alloc: Global, how: AnswerForm, row: ValueType) -> Result<ValueType, Memory>
    ensures { IfOk result (λ r. r ≡ answer_type how row) }
{
    match how {
        AnswerForm::All => Ok(ValueType::Many(Boxed::new(alloc, row)?)),
        AnswerForm::One => Ok(row),
        AnswerForm::OneOrNone => Ok(ValueType::Opt(Boxed::new(alloc, row)?)),
    }
}

/// A query.
pub fn ask(
    alloc: Global,
    code: &Code,
    ts: &[ValueType],
    how: AnswerForm,
    site: u32,
) -> Result<ValueType, Untyped>
    ensures fits { Answers (OpType (signature code.now) (op.Ask how site) ts.now) result }
    ensures told { Says (OperationMisfit (signature code.now) (op.Ask how site) ts.now) result }
{
    let Some(query) = code.queries.get(site as usize) else {
        return Err(Untyped::Misfit(no_type(alloc, b"a query")?));
    };
    let params = kind_types(alloc, query.params.as_slice())?;
    let row = row_type(alloc, query)?;
    let gives = answer_type(alloc, how, row)?;
    exactly(alloc, code, ts, params.as_slice(), gives)
}

/// A change.
pub fn write(
    alloc: Global,
    code: &Code,
    ts: &[ValueType],
    update: u32,
) -> Result<ValueType, Untyped>
    ensures fits { Answers (OpType (signature code.now) (op.Write update) ts.now) result }
    ensures told { Says (OperationMisfit (signature code.now) (op.Write update) ts.now) result }
{
    let Some(change) = code.changes.get(update as usize) else {
        return Err(Untyped::Misfit(no_type(alloc, b"a change")?));
    };
    let params = kind_types(alloc, change.params.as_slice())?;
    exactly(alloc, code, ts, params.as_slice(), unit(alloc))
}

/// A draw.
pub fn next(
    alloc: Global,
    code: &Code,
    ts: &[ValueType],
    sequence: u32,
) -> Result<ValueType, Untyped>
    ensures fits { Answers (OpType (signature code.now) (op.Next sequence) ts.now) result }
    ensures told { Says (OperationMisfit (signature code.now) (op.Next sequence) ts.now) result }
{
    if sequence as usize >= code.schema.sequences.len() {
        return Err(Untyped::Misfit(no_type(alloc, b"a sequence")?));
    }
    exactly(alloc, code, ts, &[], ValueType::Int)
}

pub fn get_cookie(
    alloc: Global,
    code: &Code,
    ts: &[ValueType],
    cookie: u32,
) -> Result<ValueType, Untyped>
    ensures fits { Answers (OpType (signature code.now) (op.GetCookie cookie) ts.now) result }
    ensures told { Says (OperationMisfit (signature code.now) (op.GetCookie cookie) ts.now) result }
{
    let Some(cookie) = code.cookies.get(cookie as usize) else {
        return Err(Untyped::Misfit(no_type(alloc, b"a cookie")?));
    };
    let of = kind_type(alloc, cookie.of)?;
    let gives = optional(alloc, &of)?;
    exactly(alloc, code, ts, &[], gives)
}

pub fn set_cookie(
    alloc: Global,
    code: &Code,
    ts: &[ValueType],
    cookie: u32,
) -> Result<ValueType, Untyped>
    ensures fits { Answers (OpType (signature code.now) (op.SetCookie cookie) ts.now) result }
    ensures told { Says (OperationMisfit (signature code.now) (op.SetCookie cookie) ts.now) result }
{
    let Some(cookie) = code.cookies.get(cookie as usize) else {
        return Err(Untyped::Misfit(no_type(alloc, b"a cookie")?));
    };
    let of = kind_type(alloc, cookie.of)?;
    exactly(alloc, code, ts, &[of], unit(alloc))
}
