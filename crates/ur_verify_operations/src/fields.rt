//! Fields of records and forms.
ghost use Rattle.std.specs.Prelude.{◌≡◌, ◌≢◌, ◌↔◌, [], ◌∷◌, IsTrue, IfOk, AllPairs, Contains, MatchOption, length, ◌≤◌};
ghost use Rattle.std.specs.Option.{option_copied};
ghost use Rattle.ur_values.specs.declared.types.ValueType.TheVariants as ty;
ghost use Rattle.ur_terms.specs.declared.term.Op.TheVariants as op;
ghost use Rattle.ur_terms.specs.Types.{OpType};
ghost use Rattle.ur_code.specs.Fits.{signature};
ghost use Rattle.ur_verify_operations.specs.Answering.{Answers, Says};
ghost use Rattle.ur_verify_operations.specs.Misfits.{OperationMisfit};
ghost use Rattle.ur_verify_operations.specs.Fields as by_name;

use crate::arguments::{one, two};
use crate::misfit::{Untyped, no_type, unlike};
use std::alloc::Global;
use ur_base::{List, Memory, Name};
use ur_code::Code;
use ur_values::{TypeField, ValueType, copy_type};

/// The type of the field with this name.
pub fn type_at(fields: &[TypeField], name: Name) -> Option<&ValueType>
    ensures { option_copied result ≡ by_name.type_at name fields.now }
{
    for field in fields {
        if field.name.0 == name.0 {
            return Some(&field.of);
        }
    }
    None
}

/// The number of fields at the front whose names are not greater.
fn place_of(fields: &[TypeField], name: Name) -> usize
    ensures place { result ≡ by_name.place_of name fields.now }
    ensures within { result ≤ length fields.now }
{
    for i in 0..fields.len() {
        if name.0 < fields[i].name.0 {
            return i;
        }
    }
    fields.len()
}

/// The fields with one more, in its place by name.
fn with_type(fields: List<TypeField>, field: TypeField) -> Result<List<TypeField>, Memory>
    ensures { IfOk result (λ r. r ≡ by_name.with_type field fields) }
{
    let place = place_of(fields.as_slice(), field.name);
    let mut items = fields.into_vec();
    items.insert(place, field)?;
    Ok(List::from_vec(items))
}

fn copy_field(alloc: Global, field: &TypeField) -> Result<TypeField, Memory>
    ensures { IfOk result (λ r. r ≡ field.now) }
{
    let of = copy_type(alloc, &field.of)?;
    Ok(TypeField {
        name: field.name,
        of,
    })
}

/// The fields of both.
pub fn together(
    alloc: Global,
    fields: &[TypeField],
    others: List<TypeField>,
) -> Result<List<TypeField>, Memory>
    ensures { IfOk result (λ r. r ≡ by_name.types_together fields.now others) }
{
    let mut made = others;
    let mut left = fields;
    while let Some((field, rest)) = left.split_last() {
        made = with_type(made, copy_field(alloc, field)?)?;
        left = rest;
    }
    Ok(made)
}

/// Whether no name is in both.
pub fn are_apart(fields: &[TypeField], others: &[TypeField]) -> bool
    ensures { result ≡ by_name.are_apart fields.now others.now }
{
    for field in fields {
        if type_at(others, field.name).is_some() {
            return false;
        }
    }
    true
}

/// The fields but the one with this name.
fn without_type(alloc: Global, fields: &[TypeField], name: Name) -> Result<List<TypeField>, Memory>
    ensures { IfOk result (λ r. r ≡ by_name.without_type name fields.now) }
{
    let mut kept = List::new(alloc);
    for field in fields {
        if field.name.0 != name.0 {
            kept.push(copy_field(alloc, field)?)?;
        }
    }
    Ok(kept)
}

fn named(alloc: Global, names: &[Name], ts: &[ValueType]) -> Result<List<TypeField>, Memory>
    requires { length names.now ≡ length ts.now }
    ensures { IfOk result (λ r. r ≡ by_name.named names.now ts.now) }
{
    let mut made = List::new(alloc);
    for i in 0..names.len() {
        let of = copy_type(alloc, &ts[i])?;
        let name = names[i];
        made.push(TypeField { name, of })?;
    }
    Ok(made)
}

fn is_among(names: &[Name], name: Name) -> bool
    ensures { IsTrue result ↔ Contains names.now name }
{
    for other in names {
        if other.0 == name.0 {
            return true;
        }
    }
    false
}

/// Whether no name stands twice.
fn are_distinct(names: &[Name]) -> bool
    ensures { IsTrue result ↔ AllPairs (λ m n. m ≢ n) names.now }
{
    for i in 0..names.len() {
        if is_among(&names[..i], names[i]) {
            return false;
        }
    }
    true
}

/// The fields of the record that is the only argument.
fn fields_of(ts: &[ValueType]) -> Option<&List<TypeField>>
    ensures { MatchOption result ((fs : List TypeField) → ts.now ≡ ty.Record fs ∷ [] → ⊥) (λ fs. ts.now ≡ ty.Record fs.now ∷ []) }
{
    let Some(a) = one(ts) else {
        return None;
    };
    as_record(a)
}

pub fn as_record(of: &ValueType) -> Option<&List<TypeField>>
    ensures { MatchOption result ((fs : List TypeField) → of.now ≡ ty.Record fs → ⊥) (λ fs. of.now ≡ ty.Record fs.now) }
{
    match of {
        ValueType::Record(fields) => Some(fields),
        _ => None,
    }
}

/// A record with these names.
pub fn record(
    alloc: Global,
    code: &Code,
    ts: &[ValueType],
    names: &List<Name>,
) -> Result<ValueType, Untyped>
    ensures fits { Answers (OpType (signature code.now) (op.Record names.now) ts.now) result }
    ensures told { Says (OperationMisfit (signature code.now) (op.Record names.now) ts.now) result }
{
    let names = names.as_slice();
    if names.len() != ts.len() || !are_distinct(names) {
        return Err(Untyped::Misfit(no_type(alloc, b"a value for each name")?));
    }
    let fields = named(alloc, names, ts)?;
    let sorted = together(alloc, fields.as_slice(), List::new(alloc))?;
    Ok(ValueType::Record(sorted))
}

/// The field of a record.
pub fn projection(
    alloc: Global,
    code: &Code,
    ts: &[ValueType],
    name: Name,
) -> Result<ValueType, Untyped>
    ensures fits { Answers (OpType (signature code.now) (op.Project name) ts.now) result }
    ensures told { Says (OperationMisfit (signature code.now) (op.Project name) ts.now) result }
{
    let Some(fields) = fields_of(ts) else {
        return Err(Untyped::Misfit(no_type(alloc, b"a record")?));
    };
    match type_at(fields.as_slice(), name) {
        Some(of) => Ok(copy_type(alloc, of)?),
        None => Err(Untyped::Misfit(no_type(alloc, b"a field of this name")?)),
    }
}

/// Two records without a name in both.
pub fn join(alloc: Global, code: &Code, ts: &[ValueType]) -> Result<ValueType, Untyped>
    ensures fits { Answers (OpType (signature code.now) op.Join ts.now) result }
    ensures told { Says (OperationMisfit (signature code.now) op.Join ts.now) result }
{
    let Some((a, b)) = two(ts) else {
        return Err(Untyped::Misfit(no_type(alloc, b"two arguments")?));
    };
    let Some(fields) = as_record(a) else {
        return Err(Untyped::Misfit(unlike(alloc, code, a, b"a record")?));
    };
    let Some(others) = as_record(b) else {
        return Err(Untyped::Misfit(unlike(alloc, code, b, b"a record")?));
    };
    if !are_apart(fields.as_slice(), others.as_slice()) {
        return Err(Untyped::Misfit(no_type(alloc, b"records without a name in both")?));
    }
    Ok(ValueType::Record(joined(alloc, fields.as_slice(), others.as_slice())?))
}

fn joined(
    alloc: Global,
    fields: &[TypeField],
    others: &[TypeField],
) -> Result<List<TypeField>, Memory>
    ensures { IfOk result (λ r. r ≡ by_name.types_together fields.now others.now) }
{
    let others = copy_fields(alloc, others)?;
    together(alloc, fields, others)
}

pub fn copy_fields(alloc: Global, fields: &[TypeField]) -> Result<List<TypeField>, Memory>
    ensures { IfOk result (λ r. r ≡ fields.now) }
{
    let mut copied = List::new(alloc);
    for field in fields {
        copied.push(copy_field(alloc, field)?)?;
    }
    Ok(copied)
}

/// A record without a field.
pub fn cut(alloc: Global, code: &Code, ts: &[ValueType], name: Name) -> Result<ValueType, Untyped>
    ensures fits { Answers (OpType (signature code.now) (op.Cut name) ts.now) result }
    ensures told { Says (OperationMisfit (signature code.now) (op.Cut name) ts.now) result }
{
    let Some(fields) = fields_of(ts) else {
        return Err(Untyped::Misfit(no_type(alloc, b"a record")?));
    };
    if type_at(fields.as_slice(), name).is_none() {
        return Err(Untyped::Misfit(no_type(alloc, b"a field of this name")?));
    }
    Ok(ValueType::Record(without_type(alloc, fields.as_slice(), name)?))
}
