//! Instances, scopes that are prepared once, and fields of a row.
use std::alloc::Global;
use ur_base::{List, Memory, Span, Stop, Text};
use ur_rows::{Label, Normal, NormalType, Part, Var, boxed, equal, equal_labels, equal_types, one};
use ur_rows_normal::{
    Layer, Place, Prepared, field_type, instance_type, is_of_kind, label_in, normal_in,
};
use ur_rows_reduce::Halt;
use ur_syntax::{CField, Con, ConForm, FieldName, Kind};

fn text(alloc: Global, bytes: &[u8]) -> Result<Text, Memory> {
    List::from_slice(alloc, bytes)
}

fn literal(alloc: Global, name: &[u8]) -> Result<Label, Memory> {
    Ok(Label::Literal(text(alloc, name)?))
}

fn row(alloc: Global, label: Label, t: NormalType) -> Result<List<Part>, Memory> {
    let part = Part::Field(label, boxed(alloc, t)?);
    one(alloc, part)
}

// ---- instances

/// `$[x0 = x1]`
fn of_variables(alloc: Global) -> Result<NormalType, Memory> {
    let name = Label::Variable(Var::Free(0));
    let row = row(alloc, name, NormalType::Variable(Var::Free(1)))?;
    Ok(NormalType::Record(row))
}

/// `$[A = int]`
fn of_int(alloc: Global) -> Result<NormalType, Memory> {
    let name = literal(alloc, b"A")?;
    let row = row(alloc, name, NormalType::Int)?;
    Ok(NormalType::Record(row))
}

fn is_of_int(alloc: Global, made: &NormalType) -> Result<bool, Memory> {
    let wanted = of_int(alloc)?;
    Ok(equal_types(made, &wanted))
}

/// Whether the type at a name and `int` is `$[A = int]`.
fn gives_of_int(alloc: Global, name: Label, t: &NormalType) -> Result<bool, Memory> {
    let args = [Normal::Name(name), Normal::Type(NormalType::Int)];
    match instance_type(alloc, &args, t) {
        Ok(made) => is_of_int(alloc, &made),
        Err(Halt::Memory) => Err(Memory),
        Err(Halt::TooLarge) => Ok(false),
    }
}

/// Whether `$[x0 = x1]` is `$[A = int]` at `A` and `int`.
fn is_instance(alloc: Global) -> Result<bool, Memory> {
    let name = literal(alloc, b"A")?;
    let t = of_variables(alloc)?;
    gives_of_int(alloc, name, &t)
}

/// Whether the row of a field `x0` has the kind of rows where `x0` has that kind.
fn is_row_with(alloc: Global, kind: Kind) -> Result<bool, Memory> {
    let name = Label::Variable(Var::Free(0));
    let form = Normal::Row(row(alloc, name, NormalType::Int)?);
    is_of_kind(&form, &Kind::Row, &[kind])
}

#[test]
fn an_instance_of_a_name_and_a_type(rt: HostRuntime) -> Result<(), Memory> {
    assert!(rt; is_instance(rt.alloc())?);
    assert!(rt; is_row_with(rt.alloc(), Kind::Name)?);
    assert!(rt; !is_row_with(rt.alloc(), Kind::Star)?);
    Ok(())
}

// ---- a scope that is prepared once

fn at(form: ConForm) -> Con {
    Con {
        span: Span {
            file: 0,
            from: 0,
            to: 0,
        },
        form,
    }
}

fn var(alloc: Global, x: &[u8]) -> Result<Con, Memory> {
    let name = text(alloc, x)?;
    Ok(at(ConForm::Var(name)))
}

/// Defines `t` of the module `M` as `int`.
fn define(alloc: Global, scope: &mut Prepared, home: &Text) -> Result<(), Memory> {
    let name = text(alloc, b"t")?;
    let int = var(alloc, b"int")?;
    scope.define(alloc, home, &name, &int)
}

fn module(alloc: Global) -> Result<Prepared, Memory> {
    let home = text(alloc, b"M")?;
    let mut scope = Prepared::empty(alloc, &home)?;
    define(alloc, &mut scope, &home)?;
    Ok(scope)
}

/// `[nm = t]`
fn named_field(alloc: Global) -> Result<Con, Memory> {
    let name = FieldName::Variable(text(alloc, b"nm")?);
    let field = CField::Given(name, var(alloc, b"t")?);
    let mut fields = List::new(alloc);
    fields.push(field)?;
    Ok(at(ConForm::Row(fields)))
}

/// Whether the form is the row of one field of int under the first variable.
fn is_row(alloc: Global, form: &Normal) -> Result<bool, Memory> {
    let name = Label::Variable(Var::Free(0));
    let wanted = Normal::Row(row(alloc, name, NormalType::Int)?);
    Ok(equal(form, &wanted))
}

fn is_form(alloc: Global, place: &Place, con: &Con) -> Result<bool, Memory> {
    match normal_in(alloc, place, con) {
        Ok(form) => is_row(alloc, &form),
        Err(Stop::Memory) => Err(Memory),
        Err(Stop::Refused(_)) => Ok(false),
    }
}

/// Whether `nm` is the first variable at the place.
fn is_first(alloc: Global, place: &Place) -> Result<bool, Memory> {
    let name = FieldName::Variable(text(alloc, b"nm")?);
    let label = label_in(alloc, place, &name)?;
    Ok(equal_labels(&label, &Label::Variable(Var::Free(0))))
}

/// Whether `nm` is the first variable at the place, and `[nm = t]` the row of a field of it.
fn is_step(alloc: Global, place: &Place) -> Result<bool, Memory> {
    if !is_first(alloc, place)? {
        return Ok(false);
    }
    let con = named_field(alloc)?;
    is_form(alloc, place, &con)
}

fn is_prepared_in(alloc: Global, scope: &Prepared) -> Result<bool, Memory> {
    let place = scope.in_scope();
    let mut step = Layer::new(alloc, &place);
    let name = text(alloc, b"nm")?;
    step.bind(alloc, &name, &Kind::Name)?;
    let within = step.over(&place);
    let found = is_step(alloc, &within)?;
    Ok(found)
}

fn is_prepared(alloc: Global) -> Result<bool, Memory> {
    let scope = module(alloc)?;
    is_prepared_in(alloc, &scope)
}

#[test]
fn a_step_within_a_prepared_module(rt: HostRuntime) -> Result<(), Memory> {
    assert!(rt; is_prepared(rt.alloc())?);
    Ok(())
}

// ---- fields

/// Whether the field `A` of a row is an int.
fn is_int_at(alloc: Global, fields: &List<Part>) -> Result<bool, Memory> {
    let name = literal(alloc, b"A")?;
    match field_type(&name, fields) {
        Some(t) => Ok(equal_types(t, &NormalType::Int)),
        None => Ok(false),
    }
}

/// Whether it is one in `[A = int, A = string]`, which no text has as its normal form.
fn is_first_of_two(alloc: Global) -> Result<bool, Memory> {
    let name = literal(alloc, b"A")?;
    let mut fields = row(alloc, name, NormalType::Int)?;
    let name = literal(alloc, b"A")?;
    let more = row(alloc, name, NormalType::Str)?;
    fields.append(more)?;
    is_int_at(alloc, &fields)
}

#[test]
fn the_first_field_of_a_name(rt: HostRuntime) -> Result<(), Memory> {
    assert!(rt; is_first_of_two(rt.alloc())?);
    Ok(())
}
