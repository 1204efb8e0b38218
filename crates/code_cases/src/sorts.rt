//! Types, as cases write them: a letter or a digit each, an operator behind what it is of.
use case_files::Printer;
use std::alloc::Global;
use ur_base::{Boxed, List, Memory, Name, Text};
use ur_values::{TypeField, ValueType, write_type};

/// `i` is an int, `s` a string, `b` a bool, `x` a part of a page and `p` a whole one, `f` a form that sends nothing, `u` a record without
/// fields, and a digit a datatype.
fn leaf(alloc: Global, byte: u8) -> Option<ValueType> {
    match byte {
        b'i' => Some(ValueType::Int),
        b's' => Some(ValueType::Str),
        b'b' => Some(ValueType::Bool),
        b'x' => Some(ValueType::Xbody),
        b'p' => Some(ValueType::Page),
        b'f' => Some(ValueType::Form(List::new(alloc))),
        b'u' => Some(ValueType::Record(List::new(alloc))),
        b'0'..=b'9' => Some(ValueType::Datatype(u32::from(byte - b'0'))),
        _ => None,
    }
}

fn boxed(alloc: Global, stack: &mut Vec<ValueType>) -> Result<Boxed<ValueType>, Memory> {
    match stack.pop() {
        Some(last) => Boxed::new(alloc, last),
        None => Err(Memory),
    }
}

/// A record of these types, by rising names.
fn record(alloc: Global, types: Vec<ValueType>) -> Result<ValueType, Memory> {
    let mut fields = List::new(alloc);
    let mut number = 0u32;
    for of in types {
        let name = Name(number);
        fields.push(TypeField { name, of })?;
        number = number.saturating_add(1);
    }
    Ok(ValueType::Record(fields))
}

/// So many of the last types as a record.
fn recorded(alloc: Global, stack: &mut Vec<ValueType>, count: usize) -> Result<ValueType, Memory> {
    let from = stack.len().saturating_sub(count);
    let types = stack.split_off(from)?;
    record(alloc, types)
}

/// `?` makes a type optional, `*` a list of it, `.` a record of one and `{` one of two.
fn operated(alloc: Global, stack: &mut Vec<ValueType>, byte: u8) -> Result<ValueType, Memory> {
    match byte {
        b'?' => Ok(ValueType::Opt(boxed(alloc, stack)?)),
        b'*' => Ok(ValueType::Many(boxed(alloc, stack)?)),
        b'.' => recorded(alloc, stack, 1),
        b'{' => recorded(alloc, stack, 2),
        _ => Err(Memory),
    }
}

fn step(alloc: Global, stack: &mut Vec<ValueType>, byte: u8) -> Result<(), Memory> {
    let next = match leaf(alloc, byte) {
        Some(of) => of,
        None => operated(alloc, stack, byte)?,
    };
    stack.push(next)?;
    Ok(())
}

/// The types of a word, none of `-`.
pub fn sorts(alloc: Global, word: &str) -> Result<List<ValueType>, Memory> {
    let mut stack = Vec::new(alloc);
    if word != "-" {
        for byte in word.as_bytes() {
            step(alloc, &mut stack, *byte)?;
        }
    }
    Ok(List::from_vec(stack))
}

/// The last type of a word, where it has one.
pub fn last_sort(alloc: Global, word: &str) -> Result<Option<ValueType>, Memory> {
    let mut all = sorts(alloc, word)?;
    Ok(all.pop())
}

/// The one type of a word.
pub fn sort(alloc: Global, word: &str) -> Result<ValueType, Memory> {
    match last_sort(alloc, word)? {
        Some(of) => Ok(of),
        None => Err(Memory),
    }
}

/// The texts of types, with a stop behind each.
pub fn put_sorts(
    alloc: Global,
    names: &[Text],
    types: &[ValueType],
    p: &mut Printer,
) -> Result<(), Memory> {
    let mut text = List::new(alloc);
    for of in types {
        write_type(alloc, &mut text, names, of)?;
        text.push(b'.')?;
    }
    p.put(b"=");
    p.word(text.as_slice());
    Ok(())
}
