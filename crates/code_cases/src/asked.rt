//! What comes of questions about code.
use crate::calls::{call, put_call, put_value, value};
use crate::codes::{nothing, take_text};
use crate::sorts::{put_sorts, sort, sorts};
use crate::subject::Question;
use crate::terms::{operation, pattern};
use crate::words::{first, kind, number};
use case_files::Printer;
use std::alloc::Global;
use ur_base::{List, Memory, Stop};
use ur_code::{Code, listing};
use ur_effects::effects;
use ur_tags::{Handlers, path, route, segment, unsegment};
use ur_terms::{Branch, Op, Term};
use ur_values::{ColumnKind, Value, ValueType, type_text};
use ur_verify::verify;
use ur_verify_operations::{Misfit, Untyped, bound_by, covers, operation_type, route_types};

/// What comes of the last line that is none of code, in the code of the others.
pub fn answer(alloc: Global, question: Question, text: &str, p: &mut Printer) -> Result<(), Stop> {
    let mut code = nothing(alloc);
    let words = take_text(alloc, &mut code, text)?;
    match question {
        Question::Verified => verified(alloc, code, p),
        Question::Effects => put_effects(alloc, &code, p),
        _ => Ok(put(alloc, question, &code, words, p)?),
    }
}

fn verified(alloc: Global, code: Code, p: &mut Printer) -> Result<(), Stop> {
    let _verified = verify(alloc, code)?;
    p.put(b"= ok");
    Ok(())
}

fn put_effects(alloc: Global, code: &Code, p: &mut Printer) -> Result<(), Stop> {
    effects(alloc, code)?;
    p.put(b"= ok");
    Ok(())
}

fn put(
    alloc: Global,
    question: Question,
    code: &Code,
    words: &str,
    p: &mut Printer,
) -> Result<(), Memory> {
    match question {
        Question::Types => put_types(alloc, code, words, p),
        Question::Listing => put_listing(alloc, code, p),
        Question::Gives => put_given(alloc, code, words, p),
        Question::Covers => put_covers(alloc, code, words, p),
        Question::Binds => put_bound(alloc, code, words, p),
        Question::Arguments => put_arguments(alloc, code, words, p),
        Question::Path => put_path(alloc, &code.handlers, words, p),
        Question::Call => put_routed(alloc, &code.handlers, words, p),
        _ => put_segment(alloc, words, p),
    }
}

// ---- types

fn put_types(alloc: Global, code: &Code, words: &str, p: &mut Printer) -> Result<(), Memory> {
    let types = sorts(alloc, words)?;
    put_sorts(alloc, code.names.as_slice(), types.as_slice(), p)
}

fn put_listing(alloc: Global, code: &Code, p: &mut Printer) -> Result<(), Memory> {
    let text = listing(alloc, code)?;
    p.put(b"= ");
    p.plain(text.as_slice());
    Ok(())
}

fn put_misfit(p: &mut Printer, misfit: &Misfit) {
    p.put(b"!");
    p.word(misfit.left.as_slice());
    p.word(b"for");
    p.word(misfit.right.as_slice());
}

fn put_type(alloc: Global, code: &Code, of: &ValueType, p: &mut Printer) -> Result<(), Memory> {
    let text = type_text(alloc, code.names.as_slice(), of)?;
    p.put(b"=");
    p.word(text.as_slice());
    Ok(())
}

fn put_result(
    alloc: Global,
    code: &Code,
    found: &Result<ValueType, Untyped>,
    p: &mut Printer,
) -> Result<(), Memory> {
    match found {
        Ok(of) => put_type(alloc, code, of, p),
        Err(Untyped::Misfit(misfit)) => {
            put_misfit(p, misfit);
            Ok(())
        }
        Err(Untyped::Memory) => Err(Memory),
    }
}

fn put_gives(
    alloc: Global,
    code: &Code,
    op: &Op,
    types: &[ValueType],
    p: &mut Printer,
) -> Result<(), Memory> {
    let found = operation_type(alloc, code, op, types);
    put_result(alloc, code, &found, p)
}

fn put_op(alloc: Global, code: &Code, op: &Op, types: &str, p: &mut Printer) -> Result<(), Memory> {
    let types = sorts(alloc, types)?;
    put_gives(alloc, code, op, types.as_slice(), p)
}

/// `of:0 is{` is an operation and the types of its arguments.
fn put_given(alloc: Global, code: &Code, words: &str, p: &mut Printer) -> Result<(), Memory> {
    let (word, types) = first(words);
    let (name, of) = word.split_once(':').unwrap_or((word, ""));
    let op = operation(alloc, name, of)?;
    put_op(alloc, code, &op, types, p)
}

// ---- patterns

fn branches(alloc: Global, patterns: &str) -> Result<List<Branch>, Memory> {
    let mut branches = List::new(alloc);
    for byte in patterns.as_bytes() {
        branches.push(Branch {
            pattern: pattern(*byte),
            body: Term::Bool(true),
        })?;
    }
    Ok(branches)
}

fn are_covered(alloc: Global, code: &Code, patterns: &str, of: &ValueType) -> Result<bool, Memory> {
    let branches = branches(alloc, patterns)?;
    Ok(covers(code, branches.as_slice(), of))
}

/// `BA 0` is patterns and a type.
fn put_covers(alloc: Global, code: &Code, words: &str, p: &mut Printer) -> Result<(), Memory> {
    let (patterns, of) = first(words);
    let of = sort(alloc, of)?;
    let covered = are_covered(alloc, code, patterns, &of)?;
    p.put(if covered { b"= all" } else { b"= not all" });
    Ok(())
}

fn put_binds(
    alloc: Global,
    code: &Code,
    byte: u8,
    of: &ValueType,
    p: &mut Printer,
) -> Result<(), Memory> {
    match bound_by(alloc, code, &pattern(byte), of) {
        Ok(types) => put_sorts(alloc, code.names.as_slice(), types.as_slice(), p),
        Err(Untyped::Misfit(misfit)) => {
            put_misfit(p, &misfit);
            Ok(())
        }
        Err(Untyped::Memory) => Err(Memory),
    }
}

/// `B 0` is a pattern and a type.
fn put_bound(alloc: Global, code: &Code, words: &str, p: &mut Printer) -> Result<(), Memory> {
    let (word, of) = first(words);
    let of = sort(alloc, of)?;
    let byte = word.as_bytes().first().copied().unwrap_or(b'_');
    put_binds(alloc, code, byte, &of, p)
}

// ---- routes

/// The arguments of the route with this number.
fn put_arguments(alloc: Global, code: &Code, words: &str, p: &mut Printer) -> Result<(), Memory> {
    match code.handlers.routes.get(number(words) as usize) {
        Some(route) => {
            let types = route_types(alloc, route)?;
            put_sorts(alloc, code.names.as_slice(), types.as_slice(), p)
        }
        None => Err(Memory),
    }
}

fn put_path(
    alloc: Global,
    handlers: &Handlers,
    words: &str,
    p: &mut Printer,
) -> Result<(), Memory> {
    let call = call(alloc, words)?;
    let path = path(alloc, handlers, &call)?;
    p.put(b"=");
    p.word(path.as_slice());
    Ok(())
}

fn put_routed(
    alloc: Global,
    handlers: &Handlers,
    path: &str,
    p: &mut Printer,
) -> Result<(), Memory> {
    if !handlers.are_routes() {
        return Err(Memory);
    }
    p.put(b"=");
    match route(alloc, handlers, path)? {
        Some(call) => put_call(p, &call),
        None => p.word(b"nowhere"),
    }
    Ok(())
}

// ---- segments

fn put_read(alloc: Global, segment: &str, of: ColumnKind, p: &mut Printer) -> Result<(), Memory> {
    match unsegment(alloc, segment, of)? {
        Some(value) => put_value(p, &value),
        None => p.word(b"none"),
    }
    Ok(())
}

fn put_back(alloc: Global, value: &Value, p: &mut Printer) -> Result<(), Memory> {
    if value.is_basic() {
        let text = segment(alloc, value)?;
        p.word(text.as_slice());
    }
    Ok(())
}

/// `i-1` is a kind and a segment, of which the value comes; of `=-1`, a value, its segment does.
fn put_segment(alloc: Global, words: &str, p: &mut Printer) -> Result<(), Memory> {
    p.put(b"=");
    if let Some(word) = words.strip_prefix('=') {
        let value = value(alloc, word)?;
        return put_back(alloc, &value, p);
    }
    let (letter, segment) = words.split_at_checked(1).unwrap_or(("", ""));
    match letter.as_bytes().first() {
        Some(letter) => put_read(alloc, segment, kind(*letter).unwrap_or(ColumnKind::Str), p),
        None => Ok(()),
    }
}
