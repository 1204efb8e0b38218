//! Equality of types.
ghost use Rattle.std.specs.Prelude.{◌≡◌, ◌↔◌, IsTrue};

use crate::types::{TypeField, ValueType};
use ur_base::{Boxed, List};

/// Whether two types are the same. Takes no memory.
#[cycle(comparing)]
pub fn same_type(of: &ValueType, other: &ValueType) -> bool
    ensures { IsTrue result ↔ (of.now ≡ other.now) }
{
    match of {
        ValueType::Int => match other {
            ValueType::Int => true,
            _ => false,
        },
        ValueType::Str => match other {
            ValueType::Str => true,
            _ => false,
        },
        ValueType::Bool => match other {
            ValueType::Bool => true,
            _ => false,
        },
        ValueType::Record(fields) => match other {
            ValueType::Record(others) => same_fields(fields, others),
            _ => false,
        },
        ValueType::Opt(held) => match other {
            ValueType::Opt(other) => same_type(held.get(), other.get()),
            _ => false,
        },
        ValueType::Many(held) => match other {
            ValueType::Many(other) => same_type(held.get(), other.get()),
            _ => false,
        },
        ValueType::Datatype(number) => match other {
            ValueType::Datatype(other) => *number == *other,
            _ => false,
        },
        ValueType::Page => match other {
            ValueType::Page => true,
            _ => false,
        },
        ValueType::Xbody => match other {
            ValueType::Xbody => true,
            _ => false,
        },
        ValueType::Xtable => match other {
            ValueType::Xtable => true,
            _ => false,
        },
        ValueType::Xtr => match other {
            ValueType::Xtr => true,
            _ => false,
        },
        ValueType::Form(fields) => match other {
            ValueType::Form(others) => same_fields(fields, others),
            _ => false,
        },
    }
}

#[cycle(comparing)]
fn same_fields(fields: &List<TypeField>, others: &List<TypeField>) -> bool
    ensures { IsTrue result ↔ (fields.now ≡ others.now) }
{
    let xs = fields.as_slice();
    let ys = others.as_slice();
    if xs.len() != ys.len() {
        return false;
    }
    for i in 0..xs.len() {
        if xs[i].name != ys[i].name || !same_type(&xs[i].of, &ys[i].of) {
            return false;
        }
    }
    true
}

/// Whether two lists have the same types in the same order. Takes no memory.
pub fn same_types(types: &[ValueType], others: &[ValueType]) -> bool
    ensures { IsTrue result ↔ (types.now ≡ others.now) }
{
    if types.len() != others.len() {
        return false;
    }
    for i in 0..types.len() {
        if !same_type(&types[i], &others[i]) {
            return false;
        }
    }
    true
}
