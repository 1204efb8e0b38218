//! The terms of a pair, with their numbers.
ghost use Rattle.std.specs.Prelude.{[], All, IfOk, OnOk};
ghost use Rattle.ur_conditions.specs.Terms.{HasAtoms};
ghost use Rattle.ur_conditions.specs.Pairs.{side_terms, key_terms, arg_terms, AreAtoms};
ghost use Rattle.ur_invalidate.specs.Stages.{Stands, AddsAllSides, AddsPlain, AreNumbersOf};

use crate::numbering::Numbering;
use std::alloc::Global;
use ur_base::{List, Memory};
use ur_conditions::Pair;
use ur_sql::SqlTerm;

/// The terms of a pair in a closure, and the numbers of its key positions, its arguments and the sides of its
/// disequations.
#[derive(Drop)]
pub struct PairNumbers {
    pub numbering: Numbering,
    pub keys: List<u32>,
    pub args: List<u32>,
    pub sides: List<(u32, u32)>,
}

/// Numbers the terms of a pair, and adds its equations to the closure.
pub fn number_pair(alloc: Global, pair: &Pair) -> Result<PairNumbers, Memory>
    requires { AreAtoms pair.now }
    ensures { IfOk result (AreNumbersOf pair.now) }
{
    let mut numbering = Numbering::new(alloc);
    equate_all(&mut numbering, alloc, pair.equations.as_slice())?;
    let sides = number_sides(&mut numbering, alloc, pair.disequations.as_slice())?;
    let keys = number_keys(&mut numbering, alloc, pair.keys)?;
    let args = number_args(&mut numbering, alloc, pair.args)?;
    Ok(PairNumbers {
        numbering,
        keys,
        args,
        sides,
    })
}

/// Numbers the sides of equations, and adds these to the closure.
fn equate_all(
    numbering: &mut Numbering,
    alloc: Global,
    equations: &[(SqlTerm, SqlTerm)],
) -> Result<(), Memory>
    requires stands { Stands [] [] numbering.old }
    requires atoms { All (λ e. HasAtoms e.0 × HasAtoms e.1) equations.now }
    ensures { OnOk result (Stands equations.now (side_terms equations.now) numbering.new) }
{
    for equation in equations {
        numbering.equate(alloc, equation)?;
    }
    Ok(())
}

/// Numbers the sides of disequations.
fn number_sides(
    numbering: &mut Numbering,
    alloc: Global,
    disequations: &[(SqlTerm, SqlTerm)],
) -> Result<List<(u32, u32)>, Memory>
    requires { All (λ e. HasAtoms e.0 × HasAtoms e.1) disequations.now }
    ensures { IfOk result (AddsAllSides numbering.old numbering.new disequations.now) }
{
    let mut all = List::new(alloc);
    for sides in disequations {
        let numbers = numbering.sides(alloc, sides)?;
        all.push(numbers)?;
    }
    Ok(all)
}

/// Numbers the key positions.
fn number_keys(numbering: &mut Numbering, alloc: Global, count: u32) -> Result<List<u32>, Memory>
    ensures { IfOk result (AddsPlain numbering.old numbering.new (key_terms count)) }
{
    let mut all = List::new(alloc);
    for number in 0..count {
        let term = numbering.number(alloc, &SqlTerm::Key(number))?;
        all.push(term.number)?;
    }
    Ok(all)
}

/// Numbers the arguments.
fn number_args(numbering: &mut Numbering, alloc: Global, count: u32) -> Result<List<u32>, Memory>
    ensures { IfOk result (AddsPlain numbering.old numbering.new (arg_terms count)) }
{
    let mut all = List::new(alloc);
    for number in 0..count {
        let term = numbering.number(alloc, &SqlTerm::Arg(number))?;
        all.push(term.number)?;
    }
    Ok(all)
}
