//! The public call.
ghost use Rattle.std.specs.Prelude.{IfOk, OnOk};
ghost use Rattle.ur_base.specs.Stopping.{IfRefused};
ghost use Rattle.ur_source.specs.Instances.{IsClosed};
ghost use Rattle.ur_source.specs.Kept.{KeepsMeaning};
ghost use Rattle.ur_unfold_pieces.specs.Standing.{instances_in};
ghost use Rattle.ur_unfold.specs.Limits.{IsSmall};
ghost use Rattle.ur_unfold.specs.Making.{AreMade, AreTerms};
ghost use Rattle.ur_unfold.specs.Unfolding.{ExplainsUnfolded};

use crate::functions::functions_of;
use crate::large::are_small;
use crate::moved::closed_of;
use crate::refusals::stop_of;
use crate::targets::{targets_of, variants_of};
use std::alloc::Global;
use ur_base::{List, Stop};
use ur_meaning::{Halt, all_terms};
use ur_terms::{Function, Term};
use ur_tree::{Closed, Typed};
use ur_unfold_pieces::Opening;
use ur_unfold_table::Source;
use ur_values::ValueType;

/// The instances of a checked source, which keep its meaning. What has no form becomes a term that fits no type, so that
/// nothing is asked of the source. There is no memory for a target that is no root.
pub fn unfold(alloc: Global, typed: Typed) -> Result<Closed, Stop>
    ensures instances { IfOk result (IsClosed typed) }
    ensures meaning { IfOk result (KeepsMeaning typed) }
    ensures small { OnOk result (IsSmall typed) }
    ensures refused { IfRefused result (ExplainsUnfolded typed) }
{
    let made = made_of(alloc, &typed)?;
    let Made {
        functions,
        targets,
        variants,
    } = made;
    Ok(closed_of(typed, targets, variants, functions))
}

/// The first-order functions, the instances of the routes, and the types of constructors' arguments.
#[derive(Drop)]
struct Made {
    functions: List<Function>,
    targets: List<u32>,
    variants: List<(u32, Option<ValueType>)>,
}

fn made_of(alloc: Global, typed: &Typed) -> Result<Made, Stop>
    ensures made { IfOk result (AreMade typed.now) }
    ensures small { OnOk result (IsSmall typed.now) }
    ensures refused { IfRefused result (ExplainsUnfolded typed.now) }
{
    let of = Opening::new(alloc, typed)?;
    of.closing.each_once();
    let mut table = Source { of };
    match all_terms(alloc, &mut table) {
        Ok(bodies) => made_by(alloc, typed, &table.of, bodies),
        Err(halt) => Err(stop_of(alloc, typed, halt)),
    }
}

/// The same of the terms of all instances.
fn made_by(
    alloc: Global,
    typed: &Typed,
    table: &Opening<'_>,
    bodies: List<Term>,
) -> Result<Made, Stop>
    requires { AreTerms typed.now (instances_in table.now) bodies }
    ensures made { IfOk result (AreMade typed.now) }
    ensures small { OnOk result (IsSmall typed.now) }
    ensures refused { IfRefused result (ExplainsUnfolded typed.now) }
{
    if !are_small(table) {
        return Err(stop_of(alloc, typed, Halt::Large));
    }
    let functions = functions_of(alloc, typed, table, bodies)?;
    let targets = targets_of(alloc, typed, table)?;
    let variants = variants_of(alloc, typed, table)?;
    Ok(Made {
        functions,
        targets,
        variants,
    })
}
