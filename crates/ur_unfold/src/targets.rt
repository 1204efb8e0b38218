//! The instances of routes, and the types of constructors' arguments.
ghost use Rattle.std.specs.Prelude.{◌≡◌, [], IfOk};
ghost use Rattle.std.specs.List.{AllZip};
ghost use Rattle.ur_source.specs.Reading.{closed_type};
ghost use Rattle.ur_source.specs.Instances.{IsTarget, IsVariant};
ghost use Rattle.ur_unfold_pieces.specs.Rooted.{root_key};
ghost use Rattle.ur_unfold_pieces.specs.Standing.{instances_in};

use std::alloc::Global;
use ur_base::{List, Memory};
use ur_rows::NormalType;
use ur_tree::{Typed, Variant};
use ur_unfold_pieces::{Key, Opening, closed_type, number_of};
use ur_unfold_static::Scope;
use ur_values::ValueType;

/// The instances of the routes. There is no memory for a target that is no root.
pub fn targets_of(alloc: Global, typed: &Typed, table: &Opening<'_>) -> Result<List<u32>, Memory>
    ensures { IfOk result (AllZip (IsTarget (instances_in table.now)) typed.now.targets) }
{
    let all = typed.targets.as_slice();
    let mut targets = List::new(alloc);
    for i in 0..all.len() {
        let target = target_of(alloc, table, all[i])?;
        targets.push(target)?;
    }
    Ok(targets)
}

/// The number of the instance of a function without constructors and static arguments.
fn target_of(alloc: Global, table: &Opening<'_>, function: u32) -> Result<u32, Memory>
    ensures { IfOk result (IsTarget (instances_in table.now) function) }
{
    let key = root(alloc, function);
    match table.instances.get_index_of(&key) {
        None => Err(Memory),
        Some(place) => {
            let number = number_of(place)?;
            Ok(number)
        }
    }
}

fn root(alloc: Global, function: u32) -> Key
    ensures { result ≡ root_key function }
{
    Key {
        function,
        cons: List::new(alloc),
        fixed: List::new(alloc),
    }
}

/// The datatype and argument of each constructor.
pub fn variants_of(
    alloc: Global,
    typed: &Typed,
    table: &Opening<'_>,
) -> Result<List<(u32, Option<ValueType>)>, Memory>
    ensures { IfOk result (AllZip (IsVariant typed.now.names) typed.now.variants) }
{
    let all = typed.variants.as_slice();
    let mut variants = List::new(alloc);
    for i in 0..all.len() {
        let variant = variant_of(alloc, typed, table, &all[i])?;
        variants.push(variant)?;
    }
    Ok(variants)
}

fn variant_of(
    alloc: Global,
    typed: &Typed,
    table: &Opening<'_>,
    variant: &Variant,
) -> Result<(u32, Option<ValueType>), Memory>
    ensures { IfOk result (IsVariant typed.now.names variant.now) }
{
    match &variant.arg {
        None => Ok((variant.datatype, None)),
        Some(t) => {
            let of = plain_type(alloc, typed, table, t)?;
            Ok((variant.datatype, Some(of)))
        }
    }
}

/// The type of values that a type without variables stands for.
fn plain_type(
    alloc: Global,
    typed: &Typed,
    table: &Opening<'_>,
    t: &NormalType,
) -> Result<ValueType, Memory>
    ensures { IfOk result (λ of. of ≡ closed_type typed.now.names [] t.now) }
{
    let scope = Scope {
        cons: List::new(alloc),
        fixed: List::new(alloc),
    };
    closed_type(alloc, &typed.names, &table.closing, &scope, t)
}
