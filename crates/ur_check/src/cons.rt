//! The names in constructors.
ghost use Rattle.std.specs.Prelude.{◌≡◌, [], ◌∷◌, ◌++◌, OnOk, flat_map};
ghost use Rattle.ur_tree.specs.FieldNames.{of_name, of_con, of_field, of_con_param};
ghost use Rattle.ur_check.specs.Parts.{of_record_field};

use std::alloc::Global;
use ur_base::{List, Memory, Text};
use ur_rows::copy_text;
use ur_syntax::{CField, Con, ConForm, ConParam, FieldName, RecordField};

pub fn add(alloc: Global, out: &mut List<Text>, name: &Text) -> Result<(), Memory>
    ensures { OnOk result (out.new ≡ out.old ++ name.now ∷ []) }
{
    let text = copy_text(alloc, name)?;
    out.push(text)?;
    Ok(())
}

pub fn name(alloc: Global, out: &mut List<Text>, x: &FieldName) -> Result<(), Memory>
    ensures { OnOk result (out.new ≡ out.old ++ of_name x.now) }
{
    match x {
        FieldName::Literal(a) => {
            add(alloc, out, a)?;
            Ok(())
        }
        FieldName::Variable(_) => Ok(()),
    }
}

/// The names in a constructor.
#[cycle(con)]
pub fn con(alloc: Global, out: &mut List<Text>, c: &Con) -> Result<(), Memory>
    ensures { OnOk result (out.new ≡ out.old ++ of_con c.now) }
{
    match &c.form {
        ConForm::Lambda(_, _, body) => {
            con(alloc, out, body.get())?;
            Ok(())
        }
        ConForm::Arrow(a, b) => {
            con(alloc, out, a.get())?;
            con(alloc, out, b.get())?;
            Ok(())
        }
        ConForm::Concat(a, b) => {
            con(alloc, out, a.get())?;
            con(alloc, out, b.get())?;
            Ok(())
        }
        ConForm::App(f, a) => {
            con(alloc, out, f.get())?;
            con(alloc, out, a.get())?;
            Ok(())
        }
        ConForm::Var(_) => Ok(()),
        ConForm::Member(_, _) => Ok(()),
        ConForm::Name(a) => {
            add(alloc, out, a)?;
            Ok(())
        }
        ConForm::Row(fields) => {
            row(alloc, out, fields.as_slice())?;
            Ok(())
        }
        ConForm::Record(fields) => {
            record(alloc, out, fields.as_slice())?;
            Ok(())
        }
        ConForm::RecordOf(r) => {
            con(alloc, out, r.get())?;
            Ok(())
        }
    }
}

#[cycle(con)]
fn row(alloc: Global, out: &mut List<Text>, fields: &[CField]) -> Result<(), Memory>
    ensures { OnOk result (out.new ≡ out.old ++ flat_map of_field fields.now) }
{
    for field in fields {
        row_field(alloc, out, field)?;
    }
    Ok(())
}

#[cycle(con)]
fn row_field(alloc: Global, out: &mut List<Text>, field: &CField) -> Result<(), Memory>
    ensures { OnOk result (out.new ≡ out.old ++ of_field field.now) }
{
    match field {
        CField::Bare(x) => {
            name(alloc, out, x)?;
            Ok(())
        }
        CField::Given(x, c) => {
            name(alloc, out, x)?;
            con(alloc, out, c)?;
            Ok(())
        }
    }
}

#[cycle(con)]
fn record(alloc: Global, out: &mut List<Text>, fields: &[RecordField]) -> Result<(), Memory>
    ensures { OnOk result (out.new ≡ out.old ++ flat_map of_record_field fields.now) }
{
    for field in fields {
        name(alloc, out, &field.name)?;
        con(alloc, out, &field.con)?;
    }
    Ok(())
}

/// The names in a constructor parameter.
pub fn con_param(alloc: Global, out: &mut List<Text>, param: &ConParam) -> Result<(), Memory>
    ensures { OnOk result (out.new ≡ out.old ++ of_con_param param.now) }
{
    match param {
        ConParam::Kinded(_, _) => Ok(()),
        ConParam::Disjoint(c, d) => {
            con(alloc, out, c)?;
            con(alloc, out, d)?;
            Ok(())
        }
    }
}
