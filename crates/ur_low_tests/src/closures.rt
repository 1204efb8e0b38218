//! Worked closures, each call that takes memory once.
use std::alloc::Global;
use ur_base::Memory;
use ur_congruence::{Closure, Term};

/// The term of a symbol and one argument, where there is room for it.
fn applied(closure: &mut Closure, symbol: u32, argument: Term) -> Result<Term, Memory> {
    if closure.is_full() || !closure.has(argument) {
        return Err(Memory);
    }
    closure.apply(symbol, &[argument])
}

fn variable(closure: &mut Closure, number: u32) -> Result<Term, Memory> {
    if closure.is_full() {
        return Err(Memory);
    }
    closure.variable(number)
}

fn constant(closure: &mut Closure, number: u32) -> Result<Term, Memory> {
    if closure.is_full() {
        return Err(Memory);
    }
    closure.constant(number)
}

fn equate(closure: &mut Closure, a: Term, b: Term) -> Result<(), Memory> {
    if !closure.has(a) || !closure.has(b) {
        return Err(Memory);
    }
    closure.equate(a, b)
}

fn are_same(closure: &Closure, a: Term, b: Term) -> bool {
    closure.has(a) && closure.has(b) && closure.same(a, b)
}

/// The term of one symbol that is applied so often.
fn power(closure: &mut Closure, of: Term, times: u32) -> Result<Term, Memory> {
    let mut term = of;
    for _ in 0..times {
        term = applied(closure, 7, term)?;
    }
    Ok(term)
}

/// Whether three and five steps back to the variable make one step lead back too, and none does before the second.
fn steps_lead_back(closure: &mut Closure) -> Result<bool, Memory> {
    let x = variable(closure, 0)?;
    let one = power(closure, x, 1)?;
    let three = power(closure, one, 2)?;
    let five = power(closure, three, 2)?;
    equate(closure, three, x)?;
    let early = are_same(closure, one, x);
    equate(closure, five, x)?;
    Ok(!early && are_same(closure, one, x))
}

fn lead_back(alloc: Global) -> Result<bool, Memory> {
    let mut closure = Closure::new(alloc);
    steps_lead_back(&mut closure)
}

/// Whether the class of a constant that is equal to a variable has two terms, beside a constant, and there is a number for each term.
fn makes_a_class(closure: &mut Closure) -> Result<bool, Memory> {
    let one = constant(closure, 1)?;
    let other = constant(closure, 2)?;
    let x = variable(closure, 0)?;
    equate(closure, one, x)?;
    let sizes = (size_of(closure, one)?, size_of(closure, other)?);
    let classes = closure.classes()?;
    Ok(classes.len() == 3 && sizes == (2, 1))
}

fn class_of_two(alloc: Global) -> Result<bool, Memory> {
    let mut closure = Closure::new(alloc);
    makes_a_class(&mut closure)
}

fn size_of(closure: &Closure, term: Term) -> Result<usize, Memory> {
    if !closure.has(term) {
        return Ok(0);
    }
    let class = closure.members(term)?;
    Ok(class.len())
}

#[test]
fn equations_follow(rt: HostRuntime) -> Result<(), Memory> {
    assert!(rt; lead_back(rt.alloc())?);
    assert!(rt; class_of_two(rt.alloc())?);
    Ok(())
}
