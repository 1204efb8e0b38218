//! The fields of the form that gives a function its last argument.
ghost use Rattle.std.specs.Prelude.{◌≡◌, ◌↔◌, ◌<◌, IsTrue, bytes_eq, [], map, Some, IfOk, IfSome, All, slice_get};
ghost use Rattle.ur_rows.specs.declared.normal.Label.TheVariants as label;
ghost use Rattle.ur_rows.specs.Made as made;
ghost use Rattle.ur_rows.specs.Order.{joined};
ghost use Rattle.ur_tree.specs.Routes.{box_type};
ghost use Rattle.ur_check_heads.specs.Forms.{form_part, HasName, AreRising, IsForm, IsFormOf};

use std::alloc::Global;
use ur_base::{List, Memory, Name, Text};
use ur_rows::{Label, NormalType, Part, copy_row, copy_text, equal_rows, joined};
use ur_tags::FormField;

/// A length as a number.
pub fn number(length: usize) -> Result<u32, Memory>
    ensures { IfOk result (λ n. n ≡ length) }
{
    match u32::try_from(length) {
        Ok(n) => Ok(n),
        Err(_large) => Err(Memory),
    }
}

fn is_named(one: &Text, other: &Text) -> bool
    ensures { result ≡ bytes_eq one.now other.now }
{
    one.as_slice() == other.as_slice()
}

/// The number of the field that is named so.
fn number_of(names: &[Text], name: &Text) -> Result<Name, Memory>
    ensures { IfOk result (λ n. slice_get names.now n.0 ≡ Some name.now) }
{
    for i in 0..names.len() {
        if is_named(&names[i], name) {
            let at = number(i)?;
            return Ok(Name(at));
        }
    }
    Err(Memory)
}

/// Whether a field of that type is a checkbox, where it may be one of a form.
fn checkbox(of: &NormalType) -> Option<bool>
    ensures { IfSome result (λ b. box_type b ≡ of.now) }
{
    match of {
        NormalType::Bool => Some(true),
        NormalType::Str => Some(false),
        _ => None,
    }
}

fn form_field(
    alloc: Global,
    names: &[Text],
    name: &Text,
    of: &NormalType,
) -> Result<FormField, Memory>
    ensures named { IfOk result (HasName names.now) }
    ensures part { IfOk result (λ f. form_part names.now f ≡ made.field (label.Literal name.now) of.now) }
{
    match checkbox(of) {
        Some(checkbox) => {
            let number = number_of(names, name)?;
            let name = copy_text(alloc, name)?;
            Ok(FormField {
                number,
                name,
                checkbox,
            })
        }
        None => Err(Memory),
    }
}

fn labelled(
    alloc: Global,
    names: &[Text],
    label: &Label,
    of: &NormalType,
) -> Result<FormField, Memory>
    ensures named { IfOk result (HasName names.now) }
    ensures part { IfOk result (λ f. form_part names.now f ≡ made.field label.now of.now) }
{
    match label {
        Label::Literal(name) => {
            let field = form_field(alloc, names, name, of)?;
            Ok(field)
        }
        Label::Variable(_) => Err(Memory),
    }
}

/// The field of a form that gives one of a record.
fn field_of(alloc: Global, names: &[Text], part: &Part) -> Result<FormField, Memory>
    ensures named { IfOk result (HasName names.now) }
    ensures part { IfOk result (λ f. form_part names.now f ≡ part.now) }
{
    match part {
        Part::Field(label, of) => {
            let field = labelled(alloc, names, label, of.get())?;
            Ok(field)
        }
        _ => Err(Memory),
    }
}

fn fields_of(alloc: Global, names: &[Text], row: &[Part]) -> Result<List<FormField>, Memory>
    ensures named { IfOk result (All (HasName names.now)) }
    ensures parts { IfOk result (λ form. map (form_part names.now) form ≡ row.now) }
{
    let mut form = List::new(alloc);
    for i in 0..row.len() {
        let field = field_of(alloc, names, &row[i])?;
        form.push(field)?;
    }
    Ok(form)
}

/// Each part of a row stands at its place.
fn is_ordered(alloc: Global, row: &List<Part>) -> Result<bool, Memory>
    ensures { IfOk result (λ b. IsTrue b → joined row.now [] ≡ row.now) }
{
    let copy = copy_row(alloc, row)?;
    let ordered = joined(copy, List::new(alloc))?;
    Ok(equal_rows(&ordered, row))
}

/// The second field has the greater number.
fn rises(one: &FormField, other: &FormField) -> bool
    ensures { IsTrue result ↔ (one.now.number.0 < other.now.number.0) }
{
    one.number.0 < other.number.0
}

/// Each field has a greater number than those before it.
fn are_rising(form: &[FormField]) -> bool
    ensures { IsTrue result ↔ AreRising form.now }
{
    for i in 1..form.len() {
        let before = &form[i - 1];
        let field = &form[i];
        if !rises(before, field) {
            return false;
        }
    }
    true
}

/// The form whose record has that row.
fn form_in(alloc: Global, names: &[Text], row: &List<Part>) -> Result<List<FormField>, Memory>
    ensures { IfOk result (IsFormOf names.now row.now) }
{
    let ordered = is_ordered(alloc, row)?;
    let form = fields_of(alloc, names, row.as_slice())?;
    if form.is_empty() {
        return Err(Memory);
    }
    if !ordered {
        return Err(Memory);
    }
    if are_rising(form.as_slice()) {
        return Ok(form);
    }
    Err(Memory)
}

/// The form that gives an argument of that type.
pub fn form_of(alloc: Global, names: &[Text], of: &NormalType) -> Result<List<FormField>, Memory>
    ensures { IfOk result (IsForm names.now of.now) }
{
    match of {
        NormalType::Record(row) => {
            let form = form_in(alloc, names, row)?;
            Ok(form)
        }
        _ => Err(Memory),
    }
}
