//! The first unknown name of a constructor, in reading order.
ghost use Rattle.ur_syntax.specs.declared.con.ConForm.TheVariants as con;
ghost use Rattle.ur_kinds.specs.Unknown.{unknown_own, unknown_label, unknown_in, unknown_in_mapped, unknown_in_field};
ghost use Rattle.ur_kinds.specs.Walk.{scope_of, NamesTold, unknown_in_head, unknown_in_record_field};

use crate::names::{Key, Names, seen};
use crate::words::{is_form, is_maker_word, is_map, is_type_word, unknown, unknown_member};
use std::alloc::Global;
use ur_base::{List, Span, Stop, Text};
use ur_syntax::{CField, Con, ConForm, FieldName, RecordField};

fn own_known(alloc: Global, names: &Names, span: Span, x: &Text) -> Result<(), Stop>
    ensures { NamesTold result (unknown_own (scope_of names.now) x.now) }
{
    if seen(names, &Key::Own(x)).is_some() {
        return Ok(());
    }
    if is_type_word(x) {
        return Ok(());
    }
    if is_maker_word(x) {
        return Ok(());
    }
    Err(Stop::Refused(unknown(alloc, span, x)?))
}

fn member_known(alloc: Global, names: &Names, span: Span, m: &Text, x: &Text) -> Result<(), Stop>
    ensures { NamesTold result (unknown_in (scope_of names.now) (con.Member m.now x.now)) }
{
    if seen(names, &Key::Member(m, x)).is_some() {
        return Ok(());
    }
    Err(Stop::Refused(unknown_member(alloc, span, m, x)?))
}

fn label_known(alloc: Global, names: &Names, span: Span, label: &FieldName) -> Result<(), Stop>
    ensures { NamesTold result (unknown_label (scope_of names.now) label.now) }
{
    match label {
        FieldName::Literal(_) => Ok(()),
        FieldName::Variable(x) => own_known(alloc, names, span, x),
    }
}

/// All names of a constructor are known, or the first one that is not is refused.
#[cycle(naming)]
pub fn names_known(alloc: Global, names: &Names, con: &Con) -> Result<(), Stop>
    ensures { NamesTold result (unknown_in (scope_of names.now) con.now.form) }
{
    match &con.form {
        ConForm::Lambda(x, kind, body) => {
            names_known(alloc, &Names::Bound(&*x, &*kind, &*names), body.get())
        }
        ConForm::Arrow(a, b) => {
            names_known(alloc, names, a.get())?;
            names_known(alloc, names, b.get())
        }
        ConForm::Concat(a, b) => {
            names_known(alloc, names, a.get())?;
            names_known(alloc, names, b.get())
        }
        ConForm::App(f, a) => {
            head_known(alloc, names, f.get())?;
            names_known(alloc, names, a.get())
        }
        ConForm::Var(x) => own_known(alloc, names, con.span, x),
        ConForm::Member(m, x) => member_known(alloc, names, con.span, m, x),
        ConForm::Name(_) => Ok(()),
        ConForm::Row(fields) => fields_known(alloc, names, con.span, fields),
        ConForm::Record(fields) => record_known(alloc, names, con.span, fields),
        ConForm::RecordOf(r) => names_known(alloc, names, r.get()),
    }
}

/// The names of what is applied, but for the words of `map f` and `xml form []`.
#[cycle(naming)]
fn head_known(alloc: Global, names: &Names, f: &Con) -> Result<(), Stop>
    ensures { NamesTold result (unknown_in_head (scope_of names.now) f.now.form) }
{
    if is_form(names, f) {
        return Ok(());
    }
    if is_map(names, f) {
        return mapped_known(alloc, names, f);
    }
    names_known(alloc, names, f)
}

/// The names of `map f` without its word.
#[cycle(naming)]
fn mapped_known(alloc: Global, names: &Names, f: &Con) -> Result<(), Stop>
    ensures { NamesTold result (unknown_in_mapped (scope_of names.now) f.now.form) }
{
    match &f.form {
        ConForm::App(_, g) => names_known(alloc, names, g.get()),
        _ => Ok(()),
    }
}

#[cycle(naming)]
fn fields_known(alloc: Global, names: &Names, span: Span, fields: &List<CField>) -> Result<(), Stop>
    ensures { NamesTold result (unknown_in (scope_of names.now) (con.Row fields.now)) }
{
    let fields = fields.as_slice();
    for i in 0..fields.len() {
        field_known(alloc, names, span, &fields[i])?;
    }
    Ok(())
}

#[cycle(naming)]
fn field_known(alloc: Global, names: &Names, span: Span, field: &CField) -> Result<(), Stop>
    ensures { NamesTold result (unknown_in_field (scope_of names.now) field.now) }
{
    match field {
        CField::Bare(label) => label_known(alloc, names, span, label),
        CField::Given(label, con) => {
            label_known(alloc, names, span, label)?;
            names_known(alloc, names, con)
        }
    }
}

#[cycle(naming)]
fn record_known(
    alloc: Global,
    names: &Names,
    span: Span,
    fields: &List<RecordField>,
) -> Result<(), Stop>
    ensures { NamesTold result (unknown_in (scope_of names.now) (con.Record fields.now)) }
{
    let fields = fields.as_slice();
    for i in 0..fields.len() {
        record_field_known(alloc, names, span, &fields[i])?;
    }
    Ok(())
}

#[cycle(naming)]
fn record_field_known(
    alloc: Global,
    names: &Names,
    span: Span,
    field: &RecordField,
) -> Result<(), Stop>
    ensures { NamesTold result (unknown_in_record_field (scope_of names.now) field.now) }
{
    label_known(alloc, names, span, &field.name)?;
    names_known(alloc, names, &field.con)
}
