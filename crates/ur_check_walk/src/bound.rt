//! Forms that bind names, and branches.
ghost use Rattle.std.specs.Prelude.{◌≡◌, ◌++◌, ◌∷◌, [], IfOk, OnOk, None, option_map, Some, map, codes, true, false};
ghost use Rattle.std.specs.Option.{option_copied};
ghost use mathlib.Core.Former.{Count as GhostCount};
ghost use Rattle.ur_base.specs.Stopping.{IfRefused};
ghost use Rattle.ur_syntax.specs.declared.exp.Exp.{Exp as GhostExp};
ghost use Rattle.ur_syntax.specs.declared.exp.ExpForm.{ExpForm as GhostForm, Row_of-LetVal};
ghost use Rattle.ur_syntax.specs.declared.exp.ExpForm.TheVariants as e;
ghost use Rattle.ur_syntax.specs.declared.exp.Binder.TheVariants as binder;
ghost use Rattle.ur_rows.specs.declared.normal.NormalType.{NormalType as GhostType};
ghost use Rattle.ur_rows.specs.declared.normal.NormalType.TheVariants as ty;
ghost use Rattle.ur_rows.specs.Made.{arrow_of};
ghost use Rattle.ur_rows.specs.Types as types;
ghost use Rattle.ur_tree.specs.Text as texts;
ghost use Rattle.ur_tree.specs.declared.exp.Exp.{Exp as GhostResolved};
ghost use Rattle.ur_tree.specs.Make as make;
ghost use Rattle.ur_typed_rules.specs.Scopes.{World as GhostWorld, Scope as GhostScope, Mode as GhostMode, finds, wants};
ghost use Rattle.ur_typed_rules.specs.Tests.{are_distinct, covers};
ghost use Rattle.ur_typed_rules.specs.Patterns.{BreaksCover};
ghost use Rattle.ur_typed_rules.specs.Rules as conditions;
ghost use Rattle.ur_typed_rules.specs.Faults.{TellsType as TellsFault, not_of_type, not_so};
ghost use Rattle.ur_typed.specs.Rules as rules;
ghost use Rattle.ur_typed.specs.Rules.{Sites as GhostSites, Out as GhostOut};
ghost use Rattle.ur_typed.specs.Walking as walking;
ghost use Rattle.ur_typed.specs.Causes.{HasFault, BreaksVals};
ghost use Rattle.ur_check_scopes.specs.Views.{Stands, StopIs, Refuses, mode_of, world_in, declared_in, local_in, param_in};
ghost use Rattle.ur_check_cases.specs.Covering.{patterns_in};
ghost use Rattle.ur_check_rules.specs.Views.{sites_in, out_in, branches_with};
ghost use Rattle.ur_check_walk.specs.Binding.{IsWithin, IsWithinLambda, chosen_of, branch_row, asked, IsBranch, BranchFault, BranchesFault, before, val_row, TwiceTold, GivesSides, TellsSides, GivesBranches, TellsBranches, GivesBranch, TellsBranch, GivesVals, TellsVals, GivesFurther, TellsFurther, TellsType};
ghost use Rattle.ur_check_walk.specs.Promises.{StandsSomewhere, Gives, Tells};

use crate::walk::typed;
use std::alloc::Global;
use std::slice;
use ur_base::{List, Memory, Span, Stop};
use ur_check_cases::{covers, pattern_at};
use ur_check_rules::{Out, Sites, bind_of, case_of, lambda_of, let_of, settled, with_branch};
use ur_check_scopes::{
    Around, Local, Locals, Scope, World, are_params, binder_local, deeper, not_of_type, of_result,
    params_out, repeated_name, tree_params, twice, type_at, type_not_so, value_of,
};
use ur_rows::{NormalType, boxed, copy_text, copy_type};
use ur_rows_normal::{holds_arrow, is_value_type};
use ur_syntax::{Binder, Branch, Exp, LambdaParam, LetVal};
use ur_terms::Pattern;
use ur_tree::Branch as ResolvedBranch;

/// The same place with the names of one binder more.
pub fn within<'b>(around: &'b Around<'b>, own: &'b [Local]) -> Around<'b>
    ensures { IsWithin around.now own.now result }
{
    Around {
        world: around.world,
        scope: Scope {
            cons: around.scope.cons,
            locals: Locals::Bound(own, &around.scope.locals),
        },
        levels: around.levels,
    }
}

fn within_lambda<'b>(around: &'b Around<'b>, own: &'b [Local]) -> Around<'b>
    ensures { IsWithinLambda around.now own.now result }
{
    Around {
        world: around.world,
        scope: Scope {
            cons: around.scope.cons,
            locals: Locals::Lambda(own, &around.scope.locals),
        },
        levels: around.levels,
    }
}

/// A type that is none of a transaction.
fn not_run(alloc: Global, around: &Around, span: Span, of: &NormalType) -> Stop
    ensures { StopIs around.now.world.now.datatype_names (not_of_type around.now.world.now.datatype_names of.now (codes "transaction")) result }
{
    let names = around.world.datatype_names.as_slice();
    not_of_type(alloc, names, span, of, b"transaction")
}

/// What the expression gives where it is run.
fn run_value(
    alloc: Global,
    around: &Around,
    span: Span,
    of: &NormalType,
) -> Result<NormalType, Stop>
    ensures value { IfOk result (λ t. conditions.value_of of.now ≡ Some t) }
    ensures refused { IfRefused result (λ r. (conditions.value_of of.now ≡ None) × TellsFault around.now.world.now.datatype_names r (not_of_type around.now.world.now.datatype_names of.now (codes "transaction"))) }
{
    match value_of(of) {
        Some(value) => {
            let copied = copy_type(alloc, value)?;
            Ok(copied)
        }
        None => Err(not_run(alloc, around, span, of)),
    }
}

/// `x <- a; b`.
#[cycle(walk)]
pub fn binding(
    alloc: Global,
    around: &Around,
    sites: &mut Sites,
    x: &Binder,
    a: &Exp,
    b: &Exp,
    wanted: Option<&NormalType>,
) -> Result<Out, Stop>
    requires { StandsSomewhere around.now }
    ensures typed { IfOk result (λ o. Gives around.now sites.old (e.Bind x.now a.now b.now) (mode_of (option_copied wanted.entry)) o sites.new) }
    ensures refused { IfRefused result (Tells around.now sites.old (e.Bind x.now a.now b.now) (mode_of (option_copied wanted.entry))) }
    ensures alone { IfRefused result (λ r. x.now ≡ binder.Ignored → Tells around.now sites.old (e.Seq a.now b.now) (mode_of (option_copied wanted.entry)) r) }
{
    let first = typed(alloc, around, sites, a, None)?;
    let value = run_value(alloc, around, a.span, &first.of)?;
    let local = binder_local(alloc, x, value)?;
    let inner = within(&*around, slice::from_ref(&local));
    let second = typed(alloc, &inner, sites, b, wanted)?;
    let out = bound_out(alloc, around, b.span, first, second)?;
    Ok(out)
}

fn bound_out(
    alloc: Global,
    around: &Around,
    span: Span,
    first: Out,
    second: Out,
) -> Result<Out, Stop>
    ensures value { IfOk result (λ o. (t : GhostType) × (conditions.value_of second.of ≡ Some t)) }
    ensures of { IfOk result (λ o. o.of ≡ second.of) }
    ensures exp { IfOk result (λ o. o.exp ≡ make.bind first.exp second.exp) }
    ensures refused { IfRefused result (λ r. (conditions.value_of second.of ≡ None) × TellsFault around.now.world.now.datatype_names r (not_of_type around.now.world.now.datatype_names second.of (codes "transaction"))) }
{
    match value_of(&second.of) {
        Some(_value) => {
            let exp = bind_of(alloc, first.exp, second.exp)?;
            Ok(Out { of: second.of, exp })
        }
        None => Err(not_run(alloc, around, span, &second.of)),
    }
}

/// What the branches give: the type of their bodies and the resolved branches.
#[derive(Drop)]
struct Cases {
    of: Option<NormalType>,
    list: List<ResolvedBranch>,
}

fn with_case(cases: Cases, pattern: Pattern, out: Out) -> Result<Cases, Memory>
    ensures of { IfOk result (λ c. c.of ≡ Some out.of) }
    ensures list { IfOk result (λ c. c.list ≡ cases.list ++ record { pattern = pattern; body = out.exp } ∷ []) }
{
    let Cases { list, .. } = cases;
    let list = with_branch(list, pattern, out.exp)?;
    Ok(Cases {
        of: Some(out.of),
        list,
    })
}

/// `case e of ..`.
#[cycle(walk)]
pub fn branches(
    alloc: Global,
    around: &Around,
    sites: &mut Sites,
    span: Span,
    a: &Exp,
    list: &[Branch],
    wanted: Option<&NormalType>,
) -> Result<Out, Stop>
    requires { StandsSomewhere around.now }
    ensures typed { IfOk result (λ o. Gives around.now sites.old (e.Case a.now list.now) (mode_of (option_copied wanted.entry)) o sites.new) }
    ensures refused { IfRefused result (Tells around.now sites.old (e.Case a.now list.now) (mode_of (option_copied wanted.entry))) }
{
    let whole = typed(alloc, around, sites, a, None)?;
    let cases = all_branches(alloc, around, sites, &whole.of, list, wanted)?;
    is_covered(alloc, around.world, span, &whole.of, list, &cases)?;
    let out = cases_out(alloc, whole, cases)?;
    Ok(out)
}

/// The branches cover the type; where there is none, they give nothing.
fn is_covered(
    alloc: Global,
    world: &World,
    span: Span,
    of: &NormalType,
    list: &[Branch],
    cases: &Cases,
) -> Result<(), Stop>
    ensures ok { OnOk result (covers (declared_in world.now) of.now (patterns_in cases.now.list) ≡ true) }
    ensures refused { IfRefused result (λ r. (t : GhostType) × (cases.now.of ≡ Some t) × Refuses world.now.datatype_names (BreaksCover (world_in world.now) of.now (patterns_in cases.now.list)) r) }
{
    match &cases.of {
        Some(_of) => covers(alloc, world, span, of, list, cases.list.as_slice()),
        None => Err(Stop::Memory),
    }
}

fn cases_out(alloc: Global, whole: Out, cases: Cases) -> Result<Out, Memory>
    ensures of { IfOk result (λ o. cases.of ≡ Some o.of) }
    ensures exp { IfOk result (λ o. o.exp ≡ make.cases whole.exp (branches_with cases.list).0 (branches_with cases.list).1) }
{
    let Cases { of, list } = cases;
    match of {
        Some(of) => {
            let exp = case_of(alloc, whole.exp, list)?;
            Ok(Out { of, exp })
        }
        None => Err(Memory),
    }
}

/// The branches over a type. Behind the first its type is wanted of the others.
#[cycle(walk)]
fn all_branches(
    alloc: Global,
    around: &Around,
    sites: &mut Sites,
    of: &NormalType,
    list: &[Branch],
    wanted: Option<&NormalType>,
) -> Result<Cases, Stop>
    requires { StandsSomewhere around.now }
    ensures typed { IfOk result (λ c. GivesBranches around.now sites.old of.now list.now (mode_of (option_copied wanted.entry)) c.of c.list sites.new) }
    ensures refused { IfRefused result (TellsBranches around.now sites.old of.now list.now (mode_of (option_copied wanted.entry))) }
{
    let mut cases = Cases {
        of: None,
        list: List::new(alloc),
    };
    for i in 0..list.len() {
        let written = &list[i];
        let asked = asked_of(&cases, wanted);
        let (pattern, out) = branch(alloc, around, sites, of, written, asked)?;
        cases = with_case(cases, pattern, out)?;
    }
    Ok(cases)
}

fn asked_of<'a>(cases: &'a Cases, wanted: Option<&'a NormalType>) -> Option<&'a NormalType>
    ensures { mode_of (option_copied result) ≡ asked cases.now.of (mode_of (option_copied wanted.entry)) }
{
    match &cases.of {
        Some(of) => Some(of),
        None => wanted,
    }
}

#[cycle(walk)]
fn branch(
    alloc: Global,
    around: &Around,
    sites: &mut Sites,
    of: &NormalType,
    written: &Branch,
    wanted: Option<&NormalType>,
) -> Result<(Pattern, Out), Stop>
    requires { StandsSomewhere around.now }
    ensures typed { IfOk result (λ o. GivesBranch around.now sites.old of.now written.now (mode_of (option_copied wanted.entry)) o.0 o.1 sites.new) }
    ensures refused { IfRefused result (TellsBranch around.now sites.old of.now written.now (mode_of (option_copied wanted.entry))) }
{
    let (locals, pattern) = pattern_at(alloc, around.world, &written.pat, of)?;
    let own = locals.as_slice();
    let inner = within(&*around, own);
    let out = typed(alloc, &inner, sites, &written.body, wanted)?;
    Ok((pattern, out))
}

/// `let val .. in e end`: each `val` is in a `let` of its own.
#[cycle(walk)]
pub fn let_in(
    alloc: Global,
    around: &Around,
    sites: &mut Sites,
    span: Span,
    vals: &[LetVal],
    body: &Exp,
    wanted: Option<&NormalType>,
) -> Result<Out, Stop>
    requires { StandsSomewhere around.now }
    ensures typed { IfOk result (λ o. Gives around.now sites.old (e.Let vals.now body.now) (mode_of (option_copied wanted.entry)) o sites.new) }
    ensures refused { IfRefused result (Tells around.now sites.old (e.Let vals.now body.now) (mode_of (option_copied wanted.entry))) }
{
    match vals.split_first() {
        Some((val, rest)) => val_in(alloc, around, sites, span, val, rest, body, wanted),
        None => Err(Stop::Memory),
    }
}

#[cycle(walk)]
fn further(
    alloc: Global,
    around: &Around,
    sites: &mut Sites,
    span: Span,
    vals: &[LetVal],
    body: &Exp,
    wanted: Option<&NormalType>,
) -> Result<Out, Stop>
    requires { StandsSomewhere around.now }
    ensures typed { IfOk result (λ o. GivesFurther around.now sites.old vals.now body.now (mode_of (option_copied wanted.entry)) o sites.new) }
    ensures refused { IfRefused result (TellsFurther around.now sites.old vals.now body.now (mode_of (option_copied wanted.entry))) }
{
    match vals.split_first() {
        Some((val, rest)) => {
            let inner = deeper(around, 1)?;
            let out = val_in(alloc, &inner, sites, span, val, rest, body, wanted)?;
            let made = settled(alloc, around, span, out, wanted)?;
            Ok(made)
        }
        None => typed(alloc, around, sites, body, wanted),
    }
}

/// A type that is none of a value.
fn no_value(alloc: Global, around: &Around, span: Span, of: &NormalType) -> Stop
    ensures { StopIs around.now.world.now.datatype_names (not_so (texts.type_text around.now.world.now.datatype_names of.now) (codes "the type of a value")) result }
{
    let names = around.world.datatype_names.as_slice();
    type_not_so(alloc, names, span, of, b"the type of a value")
}

/// The written type of a `let`, which is that of a value.
fn let_type(alloc: Global, around: &Around, val: &LetVal) -> Result<NormalType, Stop>
    ensures typed { IfOk result (λ t. (w : GhostWorld) (s : GhostScope) → Stands around.now w s → conditions.written_type w s val.now.con ≡ Some t) }
    ensures value { IfOk result (λ t. types.is_value_type t ≡ true) }
    ensures refused { IfRefused result (TellsType around.now val.now) }
{
    let of = type_at(alloc, around, &val.con)?;
    if is_value_type(&of) {
        return Ok(of);
    }
    Err(no_value(alloc, around, val.con.span, &of))
}

fn let_local(alloc: Global, val: &LetVal, of: &NormalType) -> Result<Local, Memory>
    ensures { IfOk result (λ l. (l.name ≡ Some val.now.name) × (l.fixed ≡ false) × (l.of ≡ of.now)) }
{
    let name = copy_text(alloc, &val.name)?;
    let copied = copy_type(alloc, of)?;
    Ok(Local {
        name: Some(name),
        fixed: false,
        of: copied,
    })
}

#[cycle(walk)]
fn val_in(
    alloc: Global,
    around: &Around,
    sites: &mut Sites,
    span: Span,
    val: &LetVal,
    rest: &[LetVal],
    body: &Exp,
    wanted: Option<&NormalType>,
) -> Result<Out, Stop>
    requires { StandsSomewhere around.now }
    ensures typed { IfOk result (λ o. GivesVals around.now sites.old val.now rest.now body.now (mode_of (option_copied wanted.entry)) o sites.new) }
    ensures refused { IfRefused result (TellsVals around.now sites.old val.now rest.now body.now (mode_of (option_copied wanted.entry))) }
{
    let of = let_type(alloc, around, val)?;
    let value = typed(alloc, around, sites, &val.value, Some(&of))?;
    let local = let_local(alloc, val, &of)?;
    let inner = within(&*around, slice::from_ref(&local));
    let out = further(alloc, &inner, sites, span, rest, body, wanted)?;
    let exp = let_of(alloc, of, value.exp, out.exp)?;
    Ok(Out { of: out.of, exp })
}

fn are_once(alloc: Global, span: Span, locals: &[Local]) -> Result<(), Stop>
    ensures ok { OnOk result (are_distinct (map local_in locals.now) ≡ true) }
    ensures refused { IfRefused result (λ r. TwiceTold locals.now r) }
{
    match repeated_name(locals) {
        Some(name) => {
            let text = name.as_slice();
            Err(twice(alloc, span, text))
        }
        None => Ok(()),
    }
}

/// `fn (x : c) .. => e`.
#[cycle(walk)]
pub fn lambda(
    alloc: Global,
    around: &Around,
    sites: &mut Sites,
    span: Span,
    params: &[LambdaParam],
    body: &Exp,
    wanted: Option<&NormalType>,
) -> Result<Out, Stop>
    requires { StandsSomewhere around.now }
    ensures typed { IfOk result (λ o. Gives around.now sites.old (e.Lambda params.now body.now) (mode_of (option_copied wanted.entry)) o sites.new) }
    ensures refused { IfRefused result (Tells around.now sites.old (e.Lambda params.now body.now) (mode_of (option_copied wanted.entry))) }
{
    let locals = params_out(alloc, &around.scope.cons, span, params)?;
    let own = locals.as_slice();
    are_once(alloc, span, own)?;
    are_params(alloc, around, params, own)?;
    let inner = within_lambda(&*around, own);
    let asked = of_result(own, wanted);
    let out = typed(alloc, &inner, sites, body, asked)?;
    let made = lambda_out(alloc, around, body.span, own, out)?;
    Ok(made)
}

/// The type of a function of one parameter.
fn arrow(alloc: Global, param: &Local, of: NormalType) -> Result<NormalType, Memory>
    ensures { IfOk result (λ t. t ≡ arrow_of param.now.of of) }
{
    let copied = copy_type(alloc, &param.of)?;
    let from = boxed(alloc, copied)?;
    let to = boxed(alloc, of)?;
    Ok(NormalType::Arrow(from, to))
}

fn arrows(alloc: Global, locals: &[Local], last_of: NormalType) -> Result<NormalType, Memory>
    ensures { IfOk result (λ t. t ≡ types.arrows_of (map (λ l. l.of) locals.now) last_of) }
{
    let mut of = last_of;
    let mut left = locals;
    while let Some((last, rest)) = left.split_last() {
        let made = arrow(alloc, last, of)?;
        of = made;
        left = rest;
    }
    Ok(of)
}

/// A type with an arrow, which is none of a result.
fn curried(alloc: Global, around: &Around, span: Span, of: &NormalType) -> Stop
    ensures { StopIs around.now.world.now.datatype_names (not_so (texts.type_text around.now.world.now.datatype_names of.now) (codes "a result without an arrow")) result }
{
    let names = around.world.datatype_names.as_slice();
    type_not_so(alloc, names, span, of, b"a result without an arrow")
}

fn lambda_out(
    alloc: Global,
    around: &Around,
    span: Span,
    locals: &[Local],
    out: Out,
) -> Result<Out, Stop>
    ensures arrow { IfOk result (λ o. types.holds_arrow out.of ≡ false) }
    ensures of { IfOk result (λ o. o.of ≡ types.arrows_of (map (λ l. l.of) locals.now) out.of) }
    ensures exp { IfOk result (λ o. o.exp ≡ make.lambda (map param_in locals.now) out.exp) }
    ensures refused { IfRefused result (λ r. (types.holds_arrow out.of ≡ true) × TellsFault around.now.world.now.datatype_names r (not_so (texts.type_text around.now.world.now.datatype_names out.of) (codes "a result without an arrow"))) }
{
    if holds_arrow(&out.of) {
        return Err(curried(alloc, around, span, &out.of));
    }
    let params = tree_params(alloc, locals)?;
    let of = arrows(alloc, locals, out.of)?;
    let exp = lambda_of(alloc, params, out.exp)?;
    Ok(Out { of, exp })
}
