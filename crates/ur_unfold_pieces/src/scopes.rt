//! Scopes and the steps of folds by number.
ghost use Rattle.std.specs.Prelude.{◌≡◌, option_and_then, slice_get};
ghost use Rattle.ur_source.specs.Reading.{Cons};
ghost use Rattle.ur_source.specs.Items.{Scope as Around, in_step as inside};
ghost use Rattle.ur_unfold_static.specs.Scopes.{StepIs};
ghost use Rattle.ur_unfold_pieces.specs.Keys.{Added, Gives};
ghost use Rattle.ur_unfold_pieces.specs.Moving.{Stays};
ghost use Rattle.ur_unfold_pieces.specs.Standing.{ScopeIs};

use crate::in_step;
use crate::opening::Opening;
use std::alloc::Global;
use ur_base::List;
use ur_meaning::Halt;
use ur_unfold_static::{Scope, Step};

/// How many scopes there may be, and how many folds.
const SCOPES: usize = 4_194_304;

/// The number of a scope.
pub fn add_scope(scopes: &mut List<Scope>, scope: Scope) -> Result<u32, Halt>
    ensures { Added scopes.old scopes.new scope result }
{
    let count = scopes.len();
    if count >= SCOPES {
        return Err(Halt::Memory);
    }
    scopes.push(scope)?;
    Ok(count as u32)
}

/// The number of a fold's steps.
pub fn add_fold(folds: &mut List<List<Step>>, steps: List<Step>) -> Result<u32, Halt>
    ensures { Added folds.old folds.new steps result }
{
    let count = folds.len();
    if count >= SCOPES {
        return Err(Halt::Memory);
    }
    folds.push(steps)?;
    Ok(count as u32)
}

/// The step at this place among those of a fold.
pub fn step_at(folds: &List<List<Step>>, steps: u32, place: u32) -> Option<Step>
    ensures { result ≡ option_and_then (λ ss. slice_get ss place) (slice_get folds.now steps) }
{
    match folds.get(steps as usize) {
        None => None,
        Some(steps) => match steps.get(place as usize) {
            None => None,
            Some(step) => Some(*step),
        },
    }
}

/// The number of the scope of a fold's step.
pub fn step_scope(
    alloc: Global,
    table: &mut Opening<'_>,
    scope: u32,
    step: Step,
) -> Result<u32, Halt>
    ensures scope { (around : Around) (k : Cons) → ScopeIs table.old scope around → StepIs table.old.closing step k → Gives (λ n. ScopeIs table.new n (inside k around)) result }
    ensures stays { Stays table.old table.new }
{
    match table.scopes.get(scope as usize) {
        None => Err(Halt::Memory),
        Some(around) => {
            let cons = in_step(alloc, &around.cons, step)?;
            let fixed = List::from_slice(alloc, around.fixed.as_slice())?;
            add_scope(&mut table.scopes, Scope { cons, fixed })
        }
    }
}
