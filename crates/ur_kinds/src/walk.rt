//! The kind of a constructor, or a fault that stands in it.
ghost use Rattle.std.specs.Prelude.{◌≡◌, IfOk, OnOk, IsTrue};
ghost use Rattle.ur_base.specs.Stopping.{IfRefused};
ghost use Rattle.ur_base.specs.declared.refusal.Span.{Span};
ghost use Rattle.ur_syntax.specs.declared.kind.Kind.TheVariants as kind;
ghost use Rattle.ur_syntax.specs.declared.con.ConForm.{ConForm};
ghost use Rattle.ur_syntax.specs.declared.con.ConForm.TheVariants as con;
ghost use Rattle.ur_syntax.specs.Forms.{apply_con, fn_con};
ghost use Rattle.ur_syntax.specs.Kinds.{is_plain as plain};
ghost use Rattle.ur_syntax.specs.HasKind.{HasKind, IsName};
ghost use Rattle.ur_kinds.specs.Faults.{HasFault, Misfits};
ghost use Rattle.ur_kinds.specs.Words.{is_map};
ghost use Rattle.ur_kinds.specs.Walk.{scope_of, IsOther, HeadFits, HeadFault, MapFits, FieldKinded, FieldFault, RecordFieldKinded, RecordFieldFault, LabelFault};

use crate::kinds::{arrow, bad_kind, is_plain};
use crate::names::Names;
use crate::words::{is_form, is_map, member, named};
use std::alloc::Global;
use ur_base::{Boxed, List, Span, Stop, Text};
use ur_syntax::{CField, Con, ConForm, FieldName, Kind, RecordField, copy_kind, equal_kinds};

/// What is applied: something of a kind, or `map f`, or `xml form []`.
#[derive(Drop)]
pub enum Head {
    Of(Kind),
    Map,
    Form,
}

/// The found kind is the wanted one, or else this is refused.
fn same(alloc: Global, span: Span, found: &Kind, wanted: &Kind) -> Result<(), Stop>
    ensures same { OnOk result (found.now ≡ wanted.now) }
    ensures refused { IfRefused result (IsOther found.now wanted.now) }
{
    if equal_kinds(found, wanted) {
        return Ok(());
    }
    Err(Stop::Refused(bad_kind(alloc, span, found, wanted)?))
}

/// A field's name is a literal or has the kind of names.
fn label(alloc: Global, names: &Names, span: Span, name: &FieldName) -> Result<(), Stop>
    ensures name { OnOk result (IsName (scope_of names.now) name.now) }
    ensures refused { IfRefused result (LabelFault (scope_of names.now) name.now) }
{
    match name {
        FieldName::Literal(_) => Ok(()),
        FieldName::Variable(x) => {
            let found = named(alloc, names, span, x)?;
            same(alloc, span, &found, &Kind::Name)
        }
    }
}

/// The kind of a constructor.
#[cycle(kinding)]
pub fn kind_in(alloc: Global, names: &Names, con: &Con) -> Result<Kind, Stop>
    ensures kind { IfOk result (HasKind (scope_of names.now) con.now.form) }
    ensures refused { IfRefused result (HasFault (scope_of names.now) con.now.form) }
{
    match &con.form {
        ConForm::Lambda(x, kind, body) => function(alloc, names, body.get(), con.span, x, kind),
        ConForm::Arrow(a, b) => {
            of_kind(alloc, names, a.get(), &Kind::Star)?;
            of_kind(alloc, names, b.get(), &Kind::Star)?;
            Ok(Kind::Star)
        }
        ConForm::Concat(a, b) => {
            of_kind(alloc, names, a.get(), &Kind::Row)?;
            of_kind(alloc, names, b.get(), &Kind::Row)?;
            Ok(Kind::Row)
        }
        ConForm::App(f, a) => {
            let head = head_of(alloc, names, f.get())?;
            applied(alloc, names, a.get(), f.get().span, head)
        }
        ConForm::Var(x) => named(alloc, names, con.span, x),
        ConForm::Member(m, x) => member(alloc, names, con.span, m, x),
        ConForm::Name(_) => Ok(Kind::Name),
        ConForm::Row(fields) => row(alloc, names, con.span, fields),
        ConForm::Record(fields) => record(alloc, names, con.span, fields),
        ConForm::RecordOf(r) => {
            of_kind(alloc, names, r.get(), &Kind::Row)?;
            Ok(Kind::Star)
        }
    }
}

/// A constructor has this kind.
#[cycle(kinding)]
pub fn of_kind(alloc: Global, names: &Names, con: &Con, wanted: &Kind) -> Result<(), Stop>
    ensures kind { OnOk result (HasKind (scope_of names.now) con.now.form wanted.now) }
    ensures refused { IfRefused result (Misfits (scope_of names.now) con.now.form wanted.now) }
{
    let found = kind_in(alloc, names, con)?;
    same(alloc, con.span, &found, wanted)
}

/// `fn x :: kind => body`.
#[cycle(kinding)]
fn function(
    alloc: Global,
    names: &Names,
    body: &Con,
    span: Span,
    x: &Text,
    kind: &Kind,
) -> Result<Kind, Stop>
    ensures kind { IfOk result (HasKind (scope_of names.now) (fn_con x.now kind.now body.now.span body.now.form)) }
    ensures refused { IfRefused result (HasFault (scope_of names.now) (fn_con x.now kind.now body.now.span body.now.form)) }
{
    if !is_plain(kind) {
        return Err(Stop::Refused(bad_kind(alloc, span, kind, &Kind::Star)?));
    }
    let result = kind_in(alloc, &Names::Bound(&*x, &*kind, &*names), body)?;
    Ok(arrow(alloc, copy_kind(alloc, kind)?, result)?)
}

/// What is applied.
#[cycle(kinding)]
fn head_of(alloc: Global, names: &Names, f: &Con) -> Result<Head, Stop>
    ensures kind { IfOk result (HeadFits (scope_of names.now) f.now.form) }
    ensures refused { IfRefused result (HeadFault (scope_of names.now) f.now.form) }
{
    if is_form(names, f) {
        return Ok(Head::Form);
    }
    if is_map(names, f) {
        map_head(alloc, names, f)?;
        return Ok(Head::Map);
    }
    Ok(Head::Of(kind_in(alloc, names, f)?))
}

/// `map f` is of a function of types.
#[cycle(kinding)]
fn map_head(alloc: Global, names: &Names, f: &Con) -> Result<(), Stop>
    requires map { IsTrue (is_map (scope_of names.now) f.now.form) }
    ensures kind { OnOk result (MapFits (scope_of names.now) f.now.form) }
    ensures refused { IfRefused result (HeadFault (scope_of names.now) f.now.form) }
{
    match &f.form {
        ConForm::App(_, g) => {
            let wanted = arrow(alloc, Kind::Star, Kind::Star)?;
            of_kind(alloc, names, g.get(), &wanted)
        }
        _ => unreachable!(),
    }
}

/// What is applied, with its argument.
#[cycle(kinding)]
fn applied(alloc: Global, names: &Names, a: &Con, span: Span, head: Head) -> Result<Kind, Stop>
    ensures kind { IfOk result (λ k. (p : Span) (f : ConForm) → HeadFits (scope_of names.now) f head → HasKind (scope_of names.now) (apply_con p f a.now.span a.now.form) k) }
    ensures refused { IfRefused result (λ r. (p : Span) (f : ConForm) → HeadFits (scope_of names.now) f head → HasFault (scope_of names.now) (apply_con p f a.now.span a.now.form) r) }
{
    match head {
        Head::Of(kind) => given(alloc, names, a, span, &kind),
        Head::Map => {
            of_kind(alloc, names, a, &Kind::Row)?;
            Ok(Kind::Row)
        }
        Head::Form => {
            of_kind(alloc, names, a, &Kind::Row)?;
            Ok(Kind::Star)
        }
    }
}

/// Something of a kind, with its argument.
#[cycle(kinding)]
fn given(alloc: Global, names: &Names, a: &Con, span: Span, kind: &Kind) -> Result<Kind, Stop>
    ensures kind { IfOk result (λ k. (p : Span) (f : ConForm) → HasKind (scope_of names.now) f kind.now → HasKind (scope_of names.now) (apply_con p f a.now.span a.now.form) k) }
    ensures refused { IfRefused result (λ r. (p : Span) (f : ConForm) → HasKind (scope_of names.now) f kind.now → HasFault (scope_of names.now) (apply_con p f a.now.span a.now.form) r) }
{
    match kind {
        Kind::Arrow(from, to) => {
            of_kind(alloc, names, a, from.get())?;
            Ok(copy_kind(alloc, to.get())?)
        }
        Kind::Star => no_function(alloc, names, a, span, kind),
        Kind::Name => no_function(alloc, names, a, span, kind),
        Kind::Row => no_function(alloc, names, a, span, kind),
    }
}

/// Something that is no function, with its argument.
#[cycle(kinding)]
fn no_function(alloc: Global, names: &Names, a: &Con, span: Span, kind: &Kind) -> Result<Kind, Stop>
    requires plain { IsTrue (plain kind.now) }
    ensures kind { IfOk result (λ k. (p : Span) (f : ConForm) → HasKind (scope_of names.now) f kind.now → HasKind (scope_of names.now) (apply_con p f a.now.span a.now.form) k) }
    ensures refused { IfRefused result (λ r. (p : Span) (f : ConForm) → HasKind (scope_of names.now) f kind.now → HasFault (scope_of names.now) (apply_con p f a.now.span a.now.form) r) }
{
    let argument = kind_in(alloc, names, a)?;
    let wanted = arrow(alloc, argument, Kind::Star)?;
    Err(Stop::Refused(bad_kind(alloc, span, kind, &wanted)?))
}

/// `[A = con, x]`.
#[cycle(kinding)]
fn row(alloc: Global, names: &Names, span: Span, fields: &List<CField>) -> Result<Kind, Stop>
    ensures kind { IfOk result (HasKind (scope_of names.now) (con.Row fields.now)) }
    ensures refused { IfRefused result (HasFault (scope_of names.now) (con.Row fields.now)) }
{
    let fields = fields.as_slice();
    for i in 0..fields.len() {
        field(alloc, names, span, &fields[i])?;
    }
    Ok(Kind::Row)
}

#[cycle(kinding)]
fn field(alloc: Global, names: &Names, span: Span, field: &CField) -> Result<(), Stop>
    ensures kind { OnOk result (FieldKinded (scope_of names.now) field.now) }
    ensures refused { IfRefused result (FieldFault (scope_of names.now) field.now) }
{
    match field {
        CField::Bare(name) => label(alloc, names, span, name),
        CField::Given(name, con) => {
            label(alloc, names, span, name)?;
            of_kind(alloc, names, con, &Kind::Star)
        }
    }
}

/// `{A : con}`.
#[cycle(kinding)]
fn record(
    alloc: Global,
    names: &Names,
    span: Span,
    fields: &List<RecordField>,
) -> Result<Kind, Stop>
    ensures kind { IfOk result (HasKind (scope_of names.now) (con.Record fields.now)) }
    ensures refused { IfRefused result (HasFault (scope_of names.now) (con.Record fields.now)) }
{
    let fields = fields.as_slice();
    for i in 0..fields.len() {
        record_field(alloc, names, span, &fields[i])?;
    }
    Ok(Kind::Star)
}

#[cycle(kinding)]
fn record_field(alloc: Global, names: &Names, span: Span, field: &RecordField) -> Result<(), Stop>
    ensures kind { OnOk result (RecordFieldKinded (scope_of names.now) field.now) }
    ensures refused { IfRefused result (RecordFieldFault (scope_of names.now) field.now) }
{
    label(alloc, names, span, &field.name)?;
    of_kind(alloc, names, &field.con, &Kind::Star)
}
