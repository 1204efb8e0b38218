//! What closed constructors say: the numbers of names, and first-order types.
ghost use Rattle.std.specs.Prelude.{◌≡◌, ◌++◌, position, bytes_eq, option_map, IfOk, OnOk};
ghost use Rattle.ur_terms.specs.Types.{unit_type};
ghost use Rattle.ur_source.specs.Reading.{label_number, number_or_first, value_type, closed_type, result_type};
ghost use Rattle.ur_unfold_static.specs.Scopes.{cons_of};
ghost use Rattle.ur_unfold_pieces.specs.Reading.{numbered, part_field_types, row_field_types};

use crate::constructors::{closed_label, type_under};
use std::alloc::Global;
use ur_base::{Boxed, List, Memory, Name, Text};
use ur_rows::{Label, NormalType, Part};
use ur_unfold_static::{Closing, Scope};
use ur_values::{TypeField, ValueType};

/// The place of a name. More names than `u32` has numbers take memory that is not had.
fn place_of(names: &List<Text>, name: &[u8]) -> Result<Option<u32>, Memory>
    ensures { IfOk result (λ place. place ≡ position (λ n. bytes_eq n name.now) names.now) }
{
    let known = names.as_slice();
    if known.len() > u32::MAX as usize {
        return Err(Memory);
    }
    for place in 0..known.len() {
        if known[place].as_slice() == name {
            return Ok(Some(place as u32));
        }
    }
    Ok(None)
}

/// The number of a name.
fn number_of(names: &List<Text>, name: &[u8]) -> Result<Option<Name>, Memory>
    ensures { IfOk result (λ number. number ≡ option_map numbered (position (λ n. bytes_eq n name.now) names.now)) }
{
    match place_of(names, name)? {
        None => Ok(None),
        Some(place) => Ok(Some(Name(place))),
    }
}

/// The number of the name that a label stands for; none where it stands for no name of the project.
pub fn name_of(
    names: &List<Text>,
    closing: &Closing<'_>,
    scope: &Scope,
    label: &Label,
) -> Result<Option<Name>, Memory>
    ensures { IfOk result (λ number. number ≡ label_number names.now (cons_of closing.now scope.now) label.now) }
{
    match closed_label(closing, scope, label) {
        None => Ok(None),
        Some(name) => number_of(names, name),
    }
}

/// The number of a closed label's name, or the first one.
fn number_or_first(names: &List<Text>, label: &Label) -> Result<Name, Memory>
    ensures { IfOk result (λ number. number ≡ number_or_first names.now label.now) }
{
    match label {
        Label::Literal(name) => match number_of(names, name.as_slice())? {
            Some(number) => Ok(number),
            None => Ok(Name(0)),
        },
        Label::Variable(_) => Ok(Name(0)),
    }
}

fn unit_type(alloc: Global) -> ValueType
    ensures { result ≡ unit_type }
{
    ValueType::Record(List::new(alloc))
}

/// The type of values that a closed type stands for.
#[cycle(reading)]
#[tactic(auto, using(crate::proofs::Values::values))]
fn value_type(alloc: Global, names: &List<Text>, t: &NormalType) -> Result<ValueType, Memory>
    ensures { IfOk result (λ of. of ≡ value_type names.now t.now) }
{
    match t {
        NormalType::Int => Ok(ValueType::Int),
        NormalType::Str => Ok(ValueType::Str),
        NormalType::Bool => Ok(ValueType::Bool),
        NormalType::Page => Ok(ValueType::Page),
        NormalType::Xbody => Ok(ValueType::Xbody),
        NormalType::Xtable => Ok(ValueType::Xtable),
        NormalType::Xtr => Ok(ValueType::Xtr),
        NormalType::Variable(_) => Ok(unit_type(alloc)),
        NormalType::Datatype(d) => Ok(ValueType::Datatype(*d)),
        NormalType::Opt(t) => Ok(ValueType::Opt(boxed_value_type(alloc, names, t.get())?)),
        NormalType::Many(t) => Ok(ValueType::Many(boxed_value_type(alloc, names, t.get())?)),
        NormalType::Transaction(_) => Ok(unit_type(alloc)),
        NormalType::Arrow(_, _) => Ok(unit_type(alloc)),
        NormalType::Record(r) => Ok(ValueType::Record(field_types(alloc, names, r)?)),
        NormalType::Form(r) => Ok(ValueType::Form(field_types(alloc, names, r)?)),
    }
}

#[cycle(reading)]
fn boxed_value_type(
    alloc: Global,
    names: &List<Text>,
    t: &NormalType,
) -> Result<Boxed<ValueType>, Memory>
    ensures { IfOk result (λ of. of ≡ value_type names.now t.now) }
{
    let of = value_type(alloc, names, t)?;
    Boxed::new(alloc, of)
}

#[cycle(reading)]
fn field_types(
    alloc: Global,
    names: &List<Text>,
    row: &List<Part>,
) -> Result<List<TypeField>, Memory>
    ensures { IfOk result (λ fields. fields ≡ row_field_types names.now row.now) }
{
    let parts = row.as_slice();
    let mut fields = List::new(alloc);
    for i in 0..parts.len() {
        push_field_type(alloc, names, &parts[i], &mut fields)?;
    }
    Ok(fields)
}

#[cycle(reading)]
#[tactic(auto, using(crate::proofs::Values::values))]
fn push_field_type(
    alloc: Global,
    names: &List<Text>,
    part: &Part,
    fields: &mut List<TypeField>,
) -> Result<(), Memory>
    ensures { OnOk result (fields.new ≡ fields.old ++ part_field_types names.now part.now) }
{
    match part {
        Part::Field(label, t) => {
            let name = number_or_first(names, label)?;
            let of = value_type(alloc, names, t.get())?;
            fields.push(TypeField { name, of })
        }
        Part::Piece(_) => Ok(()),
        Part::Mapped(_, _) => Ok(()),
    }
}

/// The type of values that a type under the scope stands for. There is no memory for one that has too many nodes or is too
/// high.
pub fn closed_type(
    alloc: Global,
    names: &List<Text>,
    closing: &Closing<'_>,
    scope: &Scope,
    t: &NormalType,
) -> Result<ValueType, Memory>
    ensures { IfOk result (λ of. of ≡ closed_type names.now (cons_of closing.now scope.now) t.now) }
{
    let closed = type_under(alloc, closing, scope, t)?;
    value_type(alloc, names, &closed)
}

/// The type of values of a result under the scope. A transaction has that of what it gives.
pub fn result_type(
    alloc: Global,
    names: &List<Text>,
    closing: &Closing<'_>,
    scope: &Scope,
    t: &NormalType,
) -> Result<ValueType, Memory>
    ensures { IfOk result (λ of. of ≡ (result_type names.now (cons_of closing.now scope.now) t.now).1) }
{
    match t {
        NormalType::Transaction(t) => closed_type(alloc, names, closing, scope, t.get()),
        _ => closed_type(alloc, names, closing, scope, t),
    }
}
