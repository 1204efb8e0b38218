//! The types of value parameters.
ghost use Rattle.std.specs.Prelude.{◌≡◌, ◌∷◌, [], ◌++◌, map, IfOk, OnOk};
ghost use Rattle.ur_source.specs.Reading.{closed_type};
ghost use Rattle.ur_source.specs.Instances.{value_params};
ghost use Rattle.ur_unfold_static.specs.Scopes.{cons_of};

use std::alloc::Global;
use ur_base::{List, Memory, Text};
use ur_tree::Param;
use ur_unfold_pieces::closed_type;
use ur_unfold_static::{Closing, Scope};
use ur_values::ValueType;

/// The types of the value parameters under the scope.
pub fn params_of(
    alloc: Global,
    names: &List<Text>,
    closing: &Closing<'_>,
    scope: &Scope,
    params: &List<Param>,
) -> Result<List<ValueType>, Memory>
    ensures { IfOk result (λ types. types ≡ map (closed_type names.now (cons_of closing.now scope.now)) (value_params params.now)) }
{
    let all = params.as_slice();
    let mut types = List::new(alloc);
    for i in 0..all.len() {
        push_type(alloc, names, closing, scope, &all[i], &mut types)?;
    }
    Ok(types)
}

/// The type of a parameter, unless it is static.
fn push_type(
    alloc: Global,
    names: &List<Text>,
    closing: &Closing<'_>,
    scope: &Scope,
    param: &Param,
    types: &mut List<ValueType>,
) -> Result<(), Memory>
    ensures { OnOk result (types.new ≡ types.old ++ map (closed_type names.now (cons_of closing.now scope.now)) (value_params (param.now ∷ []))) }
{
    if param.fixed {
        return Ok(());
    }
    let of = closed_type(alloc, names, closing, scope, &param.of)?;
    types.push(of)
}
