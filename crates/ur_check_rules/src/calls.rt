//! Applications.
ghost use Rattle.std.specs.Prelude.{◌≡◌, ◌||◌, not, true, false, ℕ, List as GhostList, map, IfOk, OnOk, codes};
ghost use Rattle.ur_base.specs.Stopping.{IfRefused};
ghost use Rattle.ur_tree.specs.declared.exp.Exp.TheVariants as exp;
ghost use Rattle.ur_tree.specs.Make as make;
ghost use Rattle.ur_tree.specs.IsStatic.{is_static};
ghost use Rattle.ur_tree.specs.Typing as typing;
ghost use Rattle.ur_typed_rules.specs.Faults.{TellsType, not_so};
ghost use Rattle.ur_typed.specs.Faults as faults;
ghost use Rattle.ur_check_scopes.specs.Views.{StopIs};
ghost use Rattle.ur_check_rules.specs.Views.{args_with};

use crate::fixed::is_static;
use crate::made::apply_of;
use crate::out::Out;
use std::alloc::Global;
use ur_base::{Boxed, List, Memory, Span, Stop};
use ur_check_scopes::{mismatch, not_so};
use ur_rows::{Normal, NormalType, copy_type};
use ur_tree::{Exp, Param};

/// An argument for which there is no parameter.
pub fn extra_argument(alloc: Global, span: Span) -> Stop
    ensures { (names : GhostList (GhostList ℕ)) → StopIs names faults.no_further result }
{
    mismatch(alloc, span, b"an argument", b"no further argument")
}

/// A parameter for which there is no argument.
pub fn missing_argument(alloc: Global, span: Span) -> Stop
    ensures { (names : GhostList (GhostList ℕ)) → StopIs names faults.missing_argument result }
{
    not_so(alloc, span, b"too few arguments", b"all arguments")
}

/// What stands at a static parameter is static.
pub fn are_static(alloc: Global, span: Span, params: &[Param], args: &[Exp]) -> Result<(), Stop>
    ensures ok { OnOk result (typing.are_static_at params.now (args_with args.now).1 ≡ true) }
    ensures refused { IfRefused result (λ r. (typing.are_static_at params.now (args_with args.now).1 ≡ false) × ((names : GhostList (GhostList ℕ)) → TellsType names r (not_so (codes "an argument") (codes "a static expression")))) }
{
    if are_static_at(params, args) {
        return Ok(());
    }
    Err(not_so(alloc, span, b"an argument", b"a static expression"))
}

#[tactic(auto, using(crate::proofs::Params::static_at))]
fn are_static_at(params: &[Param], args: &[Exp]) -> bool
    ensures { result ≡ typing.are_static_at params.now (args_with args.now).1 }
{
    let mut params = params;
    let mut args = args;
    while let Some((param, further)) = params.split_first() {
        match args.split_first() {
            Some((arg, rest)) => {
                if !may_stand_at(param, arg) {
                    return false;
                }
                args = rest;
            }
            None => return true,
        }
        params = further;
    }
    true
}

fn may_stand_at(param: &Param, arg: &Exp) -> bool
    ensures { result ≡ (not param.now.fixed || is_static arg.now) }
{
    !param.fixed || is_static(arg)
}

/// A call of a named function.
pub fn called(
    alloc: Global,
    number: u32,
    cons: List<Normal>,
    args: List<Exp>,
    of: NormalType,
) -> Result<Out, Memory>
    ensures of { IfOk result (λ o. o.of ≡ of) }
    ensures exp { IfOk result (λ o. o.exp ≡ make.apply (exp.Function number cons) (args_with args).0 (args_with args).1) }
{
    let function = Boxed::new(alloc, Exp::Function(number, cons))?;
    let out = applied_to(alloc, function, args, of)?;
    Ok(out)
}

/// What is static otherwise, at all its arguments.
pub fn applied_to(
    alloc: Global,
    function: Boxed<Exp>,
    args: List<Exp>,
    of: NormalType,
) -> Result<Out, Memory>
    ensures of { IfOk result (λ o. o.of ≡ of) }
    ensures exp { IfOk result (λ o. o.exp ≡ make.apply function (args_with args).0 (args_with args).1) }
{
    let exp = apply_of(alloc, function, args)?;
    Ok(Out { of, exp })
}

/// The parameters of a type of functions.
#[tactic(auto, using(crate::proofs::Params::arrows))]
pub fn parameters<'a>(alloc: Global, of: &'a NormalType) -> Result<List<&'a NormalType>, Memory>
    ensures { IfOk result (λ ts. map (λ t. t.now) ts ≡ (typing.parameters of.now).0) }
{
    let mut params = List::new(alloc);
    let mut left = of;
    while let NormalType::Arrow(a, b) = left {
        params.push(a.get())?;
        left = b.get();
    }
    Ok(params)
}

/// What a type of functions gives behind all its parameters.
#[tactic(auto, using(crate::proofs::Params::arrows))]
pub fn result_behind(alloc: Global, of: &NormalType) -> Result<NormalType, Memory>
    ensures { IfOk result (λ t. t ≡ (typing.parameters of.now).1) }
{
    let mut left = of;
    while let NormalType::Arrow(_, b) = left {
        left = b.get();
    }
    let result = copy_type(alloc, left)?;
    Ok(result)
}
