//! The arguments of a route's call: those that stand in its path, and the record of its form.
ghost use Rattle.std.specs.Prelude.{◌≡◌, ◌++◌, [], ◌∷◌, map, IfOk, IfSome};
ghost use Rattle.ur_tags.specs.declared.routes.Param.TheVariants as param;
ghost use Rattle.ur_tree.specs.Routes.{param_type};
ghost use Rattle.ur_tree.specs.Typing.{types_of};
ghost use Rattle.ur_check_heads.specs.Forms.{AreArguments};

use crate::forms::form_of;
use std::alloc::Global;
use ur_base::{List, Memory, Text};
use ur_rows::{NormalType, Part};
use ur_tags::{FormField, Param};
use ur_tree::Param as TreeParam;

fn unit_param(row: &List<Part>) -> Option<Param>
    ensures { IfSome result (λ p. (p ≡ param.Unit) × (row.now ≡ [])) }
{
    if row.is_empty() {
        return Some(Param::Unit);
    }
    None
}

/// What stands in a path for an argument of that type, if it may.
fn param_of(of: &NormalType) -> Option<Param>
    ensures { IfSome result (λ p. param_type p ≡ of.now) }
{
    match of {
        NormalType::Int => Some(Param::Int),
        NormalType::Str => Some(Param::Str),
        NormalType::Bool => Some(Param::Bool),
        NormalType::Record(row) => unit_param(row),
        _ => None,
    }
}

fn param_at(param: &TreeParam) -> Option<Param>
    ensures { IfSome result (λ p. param_type p ≡ param.now.of) }
{
    param_of(&param.of)
}

/// What stands in a path for parameters, of which each may.
fn params_of(alloc: Global, params: &[TreeParam]) -> Result<List<Param>, Memory>
    ensures { IfOk result (λ list. map param_type list ≡ types_of params.now) }
{
    let mut list = List::new(alloc);
    for i in 0..params.len() {
        match param_at(&params[i]) {
            Some(of) => list.push(of)?,
            None => return Err(Memory),
        }
    }
    Ok(list)
}

/// What stands in a path, and the fields of a form.
#[derive(Drop)]
pub struct Arguments {
    pub params: List<Param>,
    pub form: List<FormField>,
}

/// The last argument stands in the path too, or a form gives it.
fn with_last(
    alloc: Global,
    names: &[Text],
    params: List<Param>,
    last: &TreeParam,
) -> Result<Arguments, Memory>
    ensures { IfOk result (AreArguments names.now (map param_type params ++ last.now.of ∷ [])) }
{
    match param_at(last) {
        Some(of) => {
            let mut params = params;
            params.push(of)?;
            Ok(Arguments {
                params,
                form: List::new(alloc),
            })
        }
        None => {
            let form = form_of(alloc, names, &last.of)?;
            Ok(Arguments { params, form })
        }
    }
}

/// The arguments of a function with these parameters.
pub fn arguments_of(
    alloc: Global,
    names: &[Text],
    params: &[TreeParam],
) -> Result<Arguments, Memory>
    ensures { IfOk result (AreArguments names.now (types_of params.now)) }
{
    match params.split_last() {
        Some((last, front)) => {
            let before = params_of(alloc, front)?;
            let all = with_last(alloc, names, before, last)?;
            Ok(all)
        }
        None => Ok(Arguments {
            params: List::new(alloc),
            form: List::new(alloc),
        }),
    }
}
