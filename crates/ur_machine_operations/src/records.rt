//! Operations on records.
ghost use Rattle.std.specs.Prelude.{◌≡◌, ◌≢◌, IfOk, Some, None, nat_lt, position, ◌==◌};
ghost use Rattle.std.specs.List.{position_or_len};
ghost use Rattle.ur_machine_frames.specs.Plays.{nothing};
ghost use Rattle.ur_terms.specs.Ops.{does};
ghost use Rattle.ur_terms.specs.Values.{fields_of, with_field, field_at, fields_together, without_field};
ghost use Rattle.ur_machine_operations.specs.Comes.{Comes, CanDo};

use crate::built::built;
use crate::lists::with_item;
use crate::operands::{into_fields, one, two};
use std::alloc::Global;
use ur_base::{List, Memory, Name};
use ur_machine_frames::Performed;
use ur_terms::Op;
use ur_values::Value;

pub(crate) fn record(alloc: Global, names: &List<Name>, args: List<Value>) -> Performed
    requires { CanDo (does nothing (Op.Record names.now) args) }
    ensures { Comes (does nothing (Op.Record names.now) args) result }
{
    match fields_of(alloc, names, args) {
        Ok(fields) => built(Value::Row(fields)),
        Err(_) => Performed::Memory,
    }
}

pub(crate) fn project(name: Name, args: List<Value>) -> Performed
    requires { CanDo (does nothing (Op.Project name) args) }
    ensures { Comes (does nothing (Op.Project name) args) result }
{
    match field_at(name, into_fields(one(args))) {
        Some(value) => Performed::Done(value),
        None => unreachable!(),
    }
}

pub(crate) fn join(args: List<Value>) -> Performed
    requires { CanDo (does nothing Op.Join args) }
    ensures { Comes (does nothing Op.Join args) result }
{
    let (a, b) = two(args);
    match fields_together(into_fields(a), into_fields(b)) {
        Ok(fields) => built(Value::Row(fields)),
        Err(_) => Performed::Memory,
    }
}

pub(crate) fn cut(name: Name, args: List<Value>) -> Performed
    requires { CanDo (does nothing (Op.Cut name) args) }
    ensures { Comes (does nothing (Op.Cut name) args) result }
{
    Performed::Done(Value::Row(without_field(name, into_fields(one(args)))))
}

/// Each name with its value, in the order of names.
fn fields_of(
    alloc: Global,
    names: &List<Name>,
    values: List<Value>,
) -> Result<List<(Name, Value)>, Memory>
    requires { fields_of names.now values ≢ None }
    ensures { IfOk result (λ fields. fields_of names.now values ≡ Some fields) }
{
    let mut fields = List::new(alloc);
    let mut values = values;
    while let Some(value) = values.pop() {
        match names.get(values.len()) {
            Some(name) => fields = with_field(*name, value, fields)?,
            None => unreachable!(),
        }
    }
    Ok(fields)
}

/// The fields of both records.
fn fields_together(
    more: List<(Name, Value)>,
    fields: List<(Name, Value)>,
) -> Result<List<(Name, Value)>, Memory>
    ensures { IfOk result (λ all. all ≡ fields_together more fields) }
{
    let mut more = more;
    let mut all = fields;
    while let Some((name, value)) = more.pop() {
        all = with_field(name, value, all)?;
    }
    Ok(all)
}

/// The fields and one more, in its place by name.
fn with_field(
    name: Name,
    value: Value,
    fields: List<(Name, Value)>,
) -> Result<List<(Name, Value)>, Memory>
    ensures { IfOk result (λ more. more ≡ with_field (name, value) fields) }
{
    let place = place_for(name, &fields);
    with_item(fields, place, (name, value))
}

/// Where a field with this name goes: before the first that has a greater one.
fn place_for(name: Name, fields: &List<(Name, Value)>) -> usize
    ensures { result ≡ position_or_len (λ field. nat_lt name.0 field.0.0) fields.now }
{
    match fields.iter().position(|field| name.0 < field.0.0) {
        Some(place) => place,
        None => fields.len(),
    }
}

/// The value of the field with this name.
fn field_at(name: Name, fields: List<(Name, Value)>) -> Option<Value>
    ensures { result ≡ field_at name fields }
{
    let mut fields = fields;
    match place_of(name, &fields) {
        Some(place) => Some(fields.remove(place).1),
        None => None,
    }
}

/// The place of the field with this name.
fn place_of(name: Name, fields: &List<(Name, Value)>) -> Option<usize>
    ensures { result ≡ position (λ field. field.0.0 == name.0) fields.now }
{
    fields.iter().position(|field| field.0.0 == name.0)
}

/// The fields but the one with this name.
fn without_field(name: Name, fields: List<(Name, Value)>) -> List<(Name, Value)>
    ensures { result ≡ without_field name fields }
{
    let mut fields = fields.into_vec();
    fields.retain(|field| field.0.0 != name.0);
    List::from_vec(fields)
}
