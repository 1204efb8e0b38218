//! Copies of types.
ghost use Rattle.std.specs.Prelude.{◌≡◌, IfOk};

use crate::types::{TypeField, ValueType};
use std::alloc::Global;
use ur_base::{Boxed, List, Memory};

/// A type of its own that equals this one.
#[cycle(copying)]
pub fn copy_type(alloc: Global, of: &ValueType) -> Result<ValueType, Memory>
    ensures { IfOk result (λ copy. copy ≡ of.now) }
{
    let copy = match of {
        ValueType::Int => ValueType::Int,
        ValueType::Str => ValueType::Str,
        ValueType::Bool => ValueType::Bool,
        ValueType::Record(fields) => ValueType::Record(copy_fields(alloc, fields)?),
        ValueType::Opt(of) => ValueType::Opt(copy_boxed(alloc, of)?),
        ValueType::Many(of) => ValueType::Many(copy_boxed(alloc, of)?),
        ValueType::Datatype(number) => ValueType::Datatype(*number),
        ValueType::Page => ValueType::Page,
        ValueType::Xbody => ValueType::Xbody,
        ValueType::Xtable => ValueType::Xtable,
        ValueType::Xtr => ValueType::Xtr,
        ValueType::Form(fields) => ValueType::Form(copy_fields(alloc, fields)?),
    };
    Ok(copy)
}

#[cycle(copying)]
fn copy_boxed(alloc: Global, of: &Boxed<ValueType>) -> Result<Boxed<ValueType>, Memory>
    ensures { IfOk result (λ copy. copy ≡ of.now) }
{
    let copy = copy_type(alloc, of.get())?;
    Boxed::new(alloc, copy)
}

#[cycle(copying)]
fn copy_fields(alloc: Global, fields: &List<TypeField>) -> Result<List<TypeField>, Memory>
    ensures { IfOk result (λ copy. copy ≡ fields.now) }
{
    let mut copied = List::new(alloc);
    for field in fields.as_slice() {
        let of = copy_type(alloc, &field.of)?;
        let name = field.name;
        copied.push(TypeField { name, of })?;
    }
    Ok(copied)
}
