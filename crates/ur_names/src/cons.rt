//! The events of constructors.
ghost use Rattle.std.specs.Prelude.{◌≡◌, [], ◌∷◌, ◌++◌, OnOk, flat_map, bytes_eq};
ghost use Rattle.ur_names.specs.declared.event.Event.TheVariants as event;
ghost use Rattle.ur_names.specs.Cons.{in_label, in_con, in_mapped, in_head, in_field, in_record_field, in_con_param, is_word, is_empty_row, is_xml_form, is_form, is_map};

use crate::event::{Event, Sort};
use crate::log::{bind, close, given, member, open, own};
use std::alloc::Global;
use ur_base::{List, Memory, Span};
use ur_syntax::{CField, Con, ConForm, ConParam, FieldName, RecordField};

/// Whether a constructor is this word.
fn is_word(con: &Con, word: &[u8]) -> bool
    ensures { result ≡ is_word word.now con.now.form }
{
    match &con.form {
        ConForm::Var(x) => x.as_slice() == word,
        _ => false,
    }
}

fn is_empty_row(con: &Con) -> bool
    ensures { result ≡ is_empty_row con.now.form }
{
    match &con.form {
        ConForm::Row(fields) => fields.is_empty(),
        _ => false,
    }
}

fn is_xml_form(con: &Con) -> bool
    ensures { result ≡ is_xml_form con.now.form }
{
    match &con.form {
        ConForm::App(h, f) => is_word(h.get(), b"xml") && is_word(f.get(), b"form"),
        _ => false,
    }
}

/// Whether a constructor is `xml form []`.
fn is_form(con: &Con) -> bool
    ensures { result ≡ is_form con.now.form }
{
    match &con.form {
        ConForm::App(h, e) => is_xml_form(h.get()) && is_empty_row(e.get()),
        _ => false,
    }
}

/// Whether a constructor is `map f`.
fn is_map(con: &Con) -> bool
    ensures { result ≡ is_map con.now.form }
{
    match &con.form {
        ConForm::App(h, _) => is_word(h.get(), b"map"),
        _ => false,
    }
}

pub fn label(
    alloc: Global,
    out: &mut List<Event>,
    span: Span,
    name: &FieldName,
) -> Result<(), Memory>
    ensures { OnOk result (out.new ≡ out.old ++ in_label span name.now) }
{
    match name {
        FieldName::Literal(_) => Ok(()),
        FieldName::Variable(x) => {
            own(alloc, out, Sort::Con, span, x)?;
            Ok(())
        }
    }
}

/// The events of a constructor.
#[cycle(con)]
pub fn con(alloc: Global, out: &mut List<Event>, c: &Con) -> Result<(), Memory>
    ensures { OnOk result (out.new ≡ out.old ++ in_con c.now.span c.now.form) }
{
    match &c.form {
        ConForm::Lambda(x, _, body) => {
            open(out)?;
            bind(alloc, out, Sort::Con, x)?;
            con(alloc, out, body.get())?;
            close(out)?;
            Ok(())
        }
        ConForm::Arrow(a, b) => {
            con(alloc, out, a.get())?;
            con(alloc, out, b.get())?;
            Ok(())
        }
        ConForm::Concat(a, b) => {
            con(alloc, out, a.get())?;
            con(alloc, out, b.get())?;
            Ok(())
        }
        ConForm::App(f, a) => {
            head(alloc, out, f.get())?;
            con(alloc, out, a.get())?;
            Ok(())
        }
        ConForm::Var(x) => {
            own(alloc, out, Sort::Con, c.span, x)?;
            Ok(())
        }
        ConForm::Member(m, x) => {
            member(alloc, out, Sort::Con, c.span, m, x)?;
            Ok(())
        }
        ConForm::Name(_) => Ok(()),
        ConForm::Row(fields) => {
            row(alloc, out, c.span, fields.as_slice())?;
            Ok(())
        }
        ConForm::Record(fields) => {
            record(alloc, out, c.span, fields.as_slice())?;
            Ok(())
        }
        ConForm::RecordOf(r) => {
            con(alloc, out, r.get())?;
            Ok(())
        }
    }
}

/// The events of what is applied.
#[cycle(con)]
fn head(alloc: Global, out: &mut List<Event>, f: &Con) -> Result<(), Memory>
    ensures { OnOk result (out.new ≡ out.old ++ in_head f.now.span f.now.form) }
{
    if is_form(f) {
        out.push(Event::Form(f.span))?;
        return Ok(());
    }
    if is_map(f) {
        mapped(alloc, out, f)?;
        return Ok(());
    }
    con(alloc, out, f)?;
    Ok(())
}

/// The events of `map f`.
#[cycle(con)]
fn mapped(alloc: Global, out: &mut List<Event>, f: &Con) -> Result<(), Memory>
    ensures { OnOk result (out.new ≡ out.old ++ in_mapped f.now.span f.now.form) }
{
    match &f.form {
        ConForm::App(_, g) => {
            out.push(Event::Map(f.span))?;
            con(alloc, out, g.get())?;
            Ok(())
        }
        _ => Ok(()),
    }
}

#[cycle(con)]
fn row(alloc: Global, out: &mut List<Event>, span: Span, fields: &[CField]) -> Result<(), Memory>
    ensures { OnOk result (out.new ≡ out.old ++ flat_map (in_field span) fields.now) }
{
    for field in fields {
        row_field(alloc, out, span, field)?;
    }
    Ok(())
}

#[cycle(con)]
fn row_field(alloc: Global, out: &mut List<Event>, span: Span, field: &CField) -> Result<(), Memory>
    ensures { OnOk result (out.new ≡ out.old ++ in_field span field.now) }
{
    match field {
        CField::Bare(name) => {
            label(alloc, out, span, name)?;
            Ok(())
        }
        CField::Given(name, c) => {
            label(alloc, out, span, name)?;
            con(alloc, out, c)?;
            Ok(())
        }
    }
}

#[cycle(con)]
fn record(
    alloc: Global,
    out: &mut List<Event>,
    span: Span,
    fields: &[RecordField],
) -> Result<(), Memory>
    ensures { OnOk result (out.new ≡ out.old ++ flat_map (in_record_field span) fields.now) }
{
    for field in fields {
        label(alloc, out, span, &field.name)?;
        con(alloc, out, &field.con)?;
    }
    Ok(())
}

/// The events of a parameter that is a constructor.
pub fn con_param(
    alloc: Global,
    out: &mut List<Event>,
    span: Span,
    param: &ConParam,
) -> Result<(), Memory>
    ensures { OnOk result (out.new ≡ out.old ++ in_con_param span param.now) }
{
    match param {
        ConParam::Kinded(x, _) => {
            given(alloc, out, Sort::Con, span, x)?;
            bind(alloc, out, Sort::Con, x)?;
            Ok(())
        }
        ConParam::Disjoint(c, d) => {
            con(alloc, out, c)?;
            con(alloc, out, d)?;
            Ok(())
        }
    }
}
