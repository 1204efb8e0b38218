//! Copies and comparisons of types.
use std::alloc::Global;
use ur_base::{Boxed, List, Memory, Name};
use ur_values::{TypeField, ValueType, copy_type, same_type};

/// So many lists that each hold the one before, the first of this type.
fn tall(alloc: Global, lists: u32, inner: ValueType) -> Result<ValueType, Memory> {
    let mut of = inner;
    for _ in 0..lists {
        of = ValueType::Many(Boxed::new(alloc, of)?);
    }
    Ok(of)
}

/// A record with a form in it.
fn record(alloc: Global) -> Result<ValueType, Memory> {
    let mut inner = List::new(alloc);
    inner.push(TypeField {
        name: Name(1),
        of: ValueType::Str,
    })?;
    let mut fields = List::new(alloc);
    fields.push(TypeField {
        name: Name(0),
        of: ValueType::Form(inner),
    })?;
    Ok(ValueType::Record(fields))
}

fn has_copy(alloc: Global, of: &ValueType) -> Result<bool, Memory> {
    let copy = copy_type(alloc, of)?;
    Ok(same_type(of, &copy))
}

fn is_copied(alloc: Global, lists: u32) -> Result<bool, Memory> {
    let inner = record(alloc)?;
    let of = tall(alloc, lists, inner)?;
    has_copy(alloc, &of)
}

#[test]
fn a_type_as_high_as_a_tree_of_the_source(rt: HostRuntime) -> Result<(), Memory> {
    assert!(rt; is_copied(rt.alloc(), 4093)?);
    Ok(())
}

/// An option of an int, and whether its copy is the same and a list of an int another type.
fn an_option_stays_an_option(alloc: Global) -> Result<bool, Memory> {
    let of = ValueType::Opt(Boxed::new(alloc, ValueType::Int)?);
    let list = ValueType::Many(Boxed::new(alloc, ValueType::Int)?);
    Ok(has_copy(alloc, &of)? && !same_type(&of, &list) && !same_type(&list, &of))
}

/// Whether a record with a field more is another type, from both sides.
fn a_field_more_is_another_type(alloc: Global) -> Result<bool, Memory> {
    let one = record(alloc)?;
    let ValueType::Record(mut fields) = record(alloc)? else {
        return Ok(false);
    };
    fields.push(TypeField {
        name: Name(2),
        of: ValueType::Bool,
    })?;
    let two = ValueType::Record(fields);
    Ok(!same_type(&one, &two) && !same_type(&two, &one))
}

#[test]
fn options_are_no_lists_and_records_are_as_wide(rt: HostRuntime) -> Result<(), Memory> {
    assert!(rt; an_option_stays_an_option(rt.alloc())?);
    assert!(rt; a_field_more_is_another_type(rt.alloc())?);
    Ok(())
}
