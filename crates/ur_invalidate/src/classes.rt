//! The classes of a pair's terms.
ghost use Rattle.std.specs.Prelude.{◌≡◌, ◌<◌, ◌↔◌, All, IfOk, IsTrue, length};
ghost use Rattle.ur_congruence.specs.Terms.{HasTerm};
ghost use Rattle.ur_conditions.specs.Patterns.{is_null};
ghost use Rattle.ur_conditions.specs.Pairs.{AreAtoms};
ghost use Rattle.ur_invalidate.specs.PairClasses.{AreClassesOf};
ghost use Rattle.ur_invalidate.specs.Stages.{AreApart, AreWithin, IsApart, read_at, classes_at, constants_at, sides_at};

use crate::numbering::Numbering;
use crate::pair_numbers::{PairNumbers, number_pair};
use std::alloc::Global;
use ur_base::{List, Memory};
use ur_conditions::Pair;
use ur_congruence::{Closure, Term};
use ur_values::Value;

/// The classes of the terms that a pattern is read off, by number: of each key position, of each argument, of the
/// constants in order, each as often as it stands there, and of the sides of each disequation; and whether a NULL and a
/// SOME share one.
#[derive(Drop)]
pub struct Classes {
    pub keys: List<u32>,
    pub args: List<u32>,
    pub constants: List<(Value, u32)>,
    pub disequations: List<(u32, u32)>,
    pub null_meets_some: bool,
}

/// The classes of the terms of a pair. A pair of more than 65,536 terms takes memory that is not had.
pub fn classes_of(alloc: Global, pair: &Pair) -> Result<Classes, Memory>
    requires { AreAtoms pair.now }
    ensures { IfOk result (AreClassesOf pair.now) }
{
    let numbers = number_pair(alloc, pair)?;
    let classes = numbers.numbering.closure.classes()?;
    let apart = nulls_are_apart(&numbers.numbering);
    read_at(alloc, classes.as_slice(), &numbers, !apart)
}

/// The classes of the numbers of a pair.
fn read_at(
    alloc: Global,
    classes: &[u32],
    numbers: &PairNumbers,
    null_meets_some: bool,
) -> Result<Classes, Memory>
    requires { AreWithin classes.now numbers.now }
    ensures { IfOk result (λ all. all ≡ read_at classes.now numbers.now null_meets_some) }
{
    let keys = classes_at(alloc, classes, &numbers.keys)?;
    let args = classes_at(alloc, classes, &numbers.args)?;
    let constants = constants_at(alloc, classes, &numbers.numbering.constants)?;
    let disequations = sides_at(alloc, classes, &numbers.sides)?;
    Ok(Classes {
        keys,
        args,
        constants,
        disequations,
        null_meets_some,
    })
}

/// The classes of terms, by number.
fn classes_at(alloc: Global, classes: &[u32], numbers: &List<u32>) -> Result<List<u32>, Memory>
    requires { All (λ n. n < length classes.now) numbers.now }
    ensures { IfOk result (λ all. all ≡ classes_at classes.now numbers.now) }
{
    let numbers = numbers.as_slice();
    let mut all = List::new(alloc);
    for number in numbers {
        all.push(classes[*number as usize])?;
    }
    Ok(all)
}

/// Constants with their classes.
fn constants_at(
    alloc: Global,
    classes: &[u32],
    constants: &List<(Value, u32)>,
) -> Result<List<(Value, u32)>, Memory>
    requires { All (λ c. c.1 < length classes.now) constants.now }
    ensures { IfOk result (λ all. all ≡ constants_at classes.now constants.now) }
{
    let constants = constants.as_slice();
    let mut all = List::new(alloc);
    for constant in constants {
        let value = constant.0.copy(alloc)?;
        all.push((value, classes[constant.1 as usize]))?;
    }
    Ok(all)
}

/// The classes of sides.
fn sides_at(
    alloc: Global,
    classes: &[u32],
    sides: &List<(u32, u32)>,
) -> Result<List<(u32, u32)>, Memory>
    requires { All (λ s. (s.0 < length classes.now) × (s.1 < length classes.now)) sides.now }
    ensures { IfOk result (λ all. all ≡ sides_at classes.now sides.now) }
{
    let sides = sides.as_slice();
    let mut all = List::new(alloc);
    for side in sides {
        all.push((classes[side.0 as usize], classes[side.1 as usize]))?;
    }
    Ok(all)
}

/// Whether no NULL among the constants shares its class with a SOME. Takes no memory.
fn nulls_are_apart(numbering: &Numbering) -> bool
    requires { All (λ c. HasTerm numbering.now.closure c.1) numbering.now.constants }
    ensures { IsTrue result ↔ AreApart numbering.now }
{
    are_apart(&numbering.closure, numbering.constants.as_slice())
}

fn are_apart(closure: &Closure, constants: &[(Value, u32)]) -> bool
    requires { All (λ c. HasTerm closure.now c.1) constants.now }
    ensures { IsTrue result ↔ All (IsApart closure.now) constants.now }
{
    for constant in constants {
        if !is_apart(closure, constant) {
            return false;
        }
    }
    true
}

/// Whether the constant is no NULL, or no SOME shares its class.
fn is_apart(closure: &Closure, constant: &(Value, u32)) -> bool
    requires { HasTerm closure.now constant.now.1 }
    ensures { IsTrue result ↔ IsApart closure.now constant.now }
{
    if is_null(&constant.0) {
        let null = Term { number: constant.1 };
        !closure.meets_some(null)
    } else {
        true
    }
}

fn is_null(value: &Value) -> bool
    ensures { result ≡ is_null value.now }
{
    match value {
        Value::Absent => true,
        _ => false,
    }
}
