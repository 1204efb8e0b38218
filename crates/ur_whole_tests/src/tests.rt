//! Sources that no text spells: a target that is no root, a function in no module, bodies of many levels, and roots at
//! the limit.
use std::alloc::Global;
use ur_base::{Boxed, List, Memory, Refusal, Stop, Text};
use ur_rows::NormalType;
use ur_tags::Handlers;
use ur_tree::{Exp, Function, Typed, Unary};
use ur_unfold::unfold;
use ur_values::Schema;

fn text(alloc: Global, bytes: &[u8]) -> Result<Text, Memory> {
    List::from_slice(alloc, bytes)
}

/// A function without parameters.
fn function(alloc: Global, unit_number: u32, name: &[u8], body: Exp) -> Result<Function, Memory> {
    Ok(Function {
        module: unit_number,
        name: text(alloc, name)?,
        cons: List::new(alloc),
        params: List::new(alloc),
        result: NormalType::Int,
        body,
    })
}

/// The source of one module, `M`, with these functions and one route.
fn source(alloc: Global, functions: List<Function>, target: u32) -> Result<Typed, Memory> {
    let mut modules = List::new(alloc);
    modules.push(text(alloc, b"M")?)?;
    let mut targets = List::new(alloc);
    targets.push(target)?;
    Ok(Typed {
        modules,
        names: List::new(alloc),
        datatypes: List::new(alloc),
        variants: List::new(alloc),
        schema: Schema {
            tables: List::new(alloc),
            sequences: List::new(alloc),
        },
        cookies: List::new(alloc),
        vals: List::new(alloc),
        functions,
        queries: List::new(alloc),
        changes: List::new(alloc),
        handlers: Handlers {
            routes: List::new(alloc),
        },
        targets,
    })
}

fn says(refusal: &Refusal, code: u8, left: &[u8], right: &[u8]) -> bool {
    refusal.code == code && refusal.left.as_slice() == left && refusal.right.as_slice() == right
}

/// What is wanted of a source: so many instances, a refusal with these texts, or want of memory.
#[derive(Clone, Copy)]
enum Wanted<'a> {
    Instances(usize),
    Refused(u8, &'a [u8], &'a [u8]),
    Memory,
}

fn comes(alloc: Global, typed: Typed, wanted: &Wanted<'_>) -> bool {
    match (unfold(alloc, typed), wanted) {
        (Ok(closed), Wanted::Instances(count)) => closed.functions.len() == *count,
        (Err(Stop::Refused(refusal)), Wanted::Refused(code, left, right)) => {
            says(&refusal, *code, left, right)
        }
        (Err(Stop::Memory), Wanted::Memory) => true,
        _ => false,
    }
}

// ---- one function

fn one(alloc: Global, unit_number: u32, target: u32, body: Exp) -> Result<Typed, Memory> {
    let mut functions = List::new(alloc);
    functions.push(function(alloc, unit_number, b"f", body)?)?;
    source(alloc, functions, target)
}

fn plain(
    alloc: Global,
    unit_number: u32,
    target: u32,
    wanted: &Wanted<'_>,
) -> Result<bool, Memory> {
    let typed = one(alloc, unit_number, target, Exp::Int(1))?;
    Ok(comes(alloc, typed, wanted))
}

#[test]
fn targets_and_modules(rt: HostRuntime) -> Result<(), Memory> {
    assert!(rt; plain(rt.alloc(), 0, 0, &Wanted::Instances(1))?);
    assert!(rt; plain(rt.alloc(), 0, 1, &Wanted::Memory)?);
    assert!(rt; plain(rt.alloc(), 1, 0, &Wanted::Memory)?);
    Ok(())
}

// ---- high bodies

/// `1` under so many signs.
fn high(alloc: Global, signs: u32) -> Result<Exp, Memory> {
    let mut e = Exp::Int(1);
    for _ in 0..signs {
        e = Exp::Unary(Unary::Neg, Boxed::new(alloc, e)?);
    }
    Ok(e)
}

fn of_height(alloc: Global, signs: u32, wanted: &Wanted<'_>) -> Result<bool, Memory> {
    let body = high(alloc, signs)?;
    let typed = one(alloc, 0, 0, body)?;
    Ok(comes(alloc, typed, wanted))
}

#[test]
fn bodies_of_many_levels(rt: HostRuntime) -> Result<(), Memory> {
    let deep = Wanted::Refused(18, b"nesting", b"1024");
    assert!(rt; of_height(rt.alloc(), 1023, &Wanted::Instances(1))?);
    assert!(rt; of_height(rt.alloc(), 1024, &deep)?);
    assert!(rt; of_height(rt.alloc(), 2047, &deep)?);
    Ok(())
}

// ---- many roots

fn many(alloc: Global, count: u32) -> Result<List<Function>, Memory> {
    let mut functions = List::new(alloc);
    for _ in 0..count {
        functions.push(function(alloc, 0, b"f", Exp::Int(1))?)?;
    }
    Ok(functions)
}

/// So many roots, the last one with the name `g`.
fn of_roots(alloc: Global, before: u32, wanted: &Wanted<'_>) -> Result<bool, Memory> {
    let mut functions = many(alloc, before)?;
    functions.push(function(alloc, 0, b"g", Exp::Int(1))?)?;
    let typed = source(alloc, functions, 0)?;
    Ok(comes(alloc, typed, wanted))
}

#[test]
fn the_most_roots(rt: HostRuntime) -> Result<(), Memory> {
    assert!(rt; of_roots(rt.alloc(), 4095, &Wanted::Instances(4096))?);
    assert!(rt; of_roots(rt.alloc(), 4096, &Wanted::Refused(17, b"M.g", b"4096"))?);
    Ok(())
}
