//! Trees of the greatest height.
use std::alloc::Global;
use ur_base::{Boxed, Memory};
use ur_sql::{Scalar, SqlTerm, holds, value_of};
use ur_values::Value;

const HEIGHT: u32 = 4096;

/// TRUE under an odd number of NOT.
fn nots(alloc: Global) -> Result<Scalar, Memory> {
    let mut all = Scalar::Constant(Value::Bool(true));
    for _ in 1..HEIGHT {
        all = Scalar::Not(Boxed::new(alloc, all)?);
    }
    Ok(all)
}

fn is_false(alloc: Global) -> Result<bool, Memory> {
    let condition = nots(alloc)?;
    Ok(!holds(&[], &[], &condition))
}

fn one_more(alloc: Global, all: Scalar) -> Result<Scalar, Memory> {
    let all = Boxed::new(alloc, all)?;
    let one = Boxed::new(alloc, Scalar::Constant(Value::Int(1)))?;
    Ok(Scalar::Add(all, one))
}

/// As many ones as the greatest height.
fn ones(alloc: Global) -> Result<Scalar, Memory> {
    let mut all = Scalar::Constant(Value::Int(1));
    for _ in 1..HEIGHT {
        all = one_more(alloc, all)?;
    }
    Ok(all)
}

fn is_sum(alloc: Global) -> Result<bool, Memory> {
    let sum = ones(alloc)?;
    let value = value_of(alloc, &[], &[], &sum)?;
    Ok(value.same(&Value::Int(4096)))
}

/// A constant under as many signs as give the greatest height.
fn signs(alloc: Global) -> Result<SqlTerm, Memory> {
    let mut term = SqlTerm::Constant(Value::Int(1));
    for _ in 1..HEIGHT {
        term = SqlTerm::Neg(Boxed::new(alloc, term)?);
    }
    Ok(term)
}

/// Whether the term is a constant under so many signs.
fn has_signs(term: &SqlTerm, count: u32) -> bool {
    let mut left = term;
    for _ in 0..count {
        match left {
            SqlTerm::Neg(inner) => left = inner.get(),
            _ => return false,
        }
    }
    match left {
        SqlTerm::Constant(_) => true,
        _ => false,
    }
}

fn is_copied(alloc: Global) -> Result<bool, Memory> {
    let term = signs(alloc)?;
    let copy = term.copy(alloc)?;
    Ok(has_signs(&copy, HEIGHT - 1))
}

#[test]
fn the_highest_trees_are_walked(rt: HostRuntime) -> Result<(), Memory> {
    assert!(rt; is_false(rt.alloc())?);
    assert!(rt; is_sum(rt.alloc())?);
    assert!(rt; is_copied(rt.alloc())?);
    Ok(())
}
