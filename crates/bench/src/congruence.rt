//! Closures of many terms: a chain of equations, pairs of classes, and powers of one symbol.
use std::alloc::Global;
use ur_base::{List, Memory};
use ur_congruence::{Closure, Term};

/// The greatest number of terms.
pub const MOST_TERMS: u32 = 65_000;

/// The sizes of the classes that are joined in pairs.
const SIZES: [usize; 16] = [
    1, 2, 4, 8, 16, 32, 64, 128, 256, 512, 1024, 2048, 4096, 8192, 16_384, 32_768,
];

/// Variables, each equal to the next: how many are equal to the first.
pub fn chain(alloc: Global, terms: u32) -> Result<usize, Memory> {
    let mut closure = Closure::new(alloc);
    let variables = variables(alloc, &mut closure, terms)?;
    join_neighbours(&mut closure, variables.as_slice())?;
    equal_to_first(&closure, variables.as_slice())
}

/// Equates each term with the next.
fn join_neighbours(closure: &mut Closure, terms: &[Term]) -> Result<(), Memory> {
    for pair in terms.windows(2) {
        if let (Some(first), Some(second)) = (pair.first(), pair.get(1)) {
            equate(closure, *first, *second)?;
        }
    }
    Ok(())
}

/// Variables, of which classes of one size are joined in pairs until one is left: how many are equal to the first.
pub fn pairwise(alloc: Global, terms: u32) -> Result<usize, Memory> {
    let mut closure = Closure::new(alloc);
    let variables = variables(alloc, &mut closure, terms)?;
    let variables = variables.as_slice();
    for size in SIZES {
        join_halves(&mut closure, variables, size)?;
    }
    equal_to_first(&closure, variables)
}

/// In each block of twice this size, joins the class of the first half with that of the second.
fn join_halves(closure: &mut Closure, terms: &[Term], size: usize) -> Result<(), Memory> {
    for block in terms.chunks(size.saturating_mul(2).max(1)) {
        if let (Some(first), Some(second)) = (block.first(), block.get(size)) {
            equate(closure, *first, *second)?;
        }
    }
    Ok(())
}

/// A variable and its applications under one symbol, one on the other, the last two of which are equal to it, so that all
/// are: how many are equal to the variable.
pub fn powers(alloc: Global, applications: u32) -> Result<usize, Memory> {
    let mut closure = Closure::new(alloc);
    let mut all = variables(alloc, &mut closure, 1)?;
    for _application in 0..applications {
        if let Some(last) = all.as_slice().last() {
            let next = apply(&mut closure, *last)?;
            all.push(next)?;
        }
    }
    let all = all.as_slice();
    equate_last_two(&mut closure, all)?;
    equal_to_first(&closure, all)
}

/// Equates the last two terms with the first.
fn equate_last_two(closure: &mut Closure, terms: &[Term]) -> Result<(), Memory> {
    if let Some(first) = terms.first() {
        for term in &terms[terms.len().saturating_sub(2)..] {
            equate(closure, *term, *first)?;
        }
    }
    Ok(())
}

/// So many variables.
fn variables(alloc: Global, closure: &mut Closure, count: u32) -> Result<List<Term>, Memory> {
    let mut variables = List::new(alloc);
    for number in 0..count {
        if closure.is_full() {
            return Err(Memory);
        }
        let term = closure.variable(number)?;
        variables.push(term)?;
    }
    Ok(variables)
}

fn apply(closure: &mut Closure, argument: Term) -> Result<Term, Memory> {
    if closure.is_full() || !closure.has(argument) {
        return Err(Memory);
    }
    closure.apply(0, &[argument])
}

fn equate(closure: &mut Closure, a: Term, b: Term) -> Result<(), Memory> {
    if !closure.has(a) || !closure.has(b) {
        return Err(Memory);
    }
    closure.equate(a, b)
}

/// How many terms are equal to the first of these.
fn equal_to_first(closure: &Closure, terms: &[Term]) -> Result<usize, Memory> {
    match terms.first() {
        Some(first) if closure.has(*first) => Ok(closure.members(*first)?.len()),
        _ => Ok(0),
    }
}
