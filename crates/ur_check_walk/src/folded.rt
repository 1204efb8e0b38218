//! Folds.
ghost use Rattle.std.specs.Prelude.{◌≡◌, ◌<◌, IfOk, OnOk, true};
ghost use Rattle.ur_base.specs.Stopping.{IfRefused};
ghost use Rattle.ur_syntax.specs.declared.exp.ExpForm.TheVariants as e;
ghost use Rattle.ur_rows.specs.Nodes.{type_nodes, most_nodes};
ghost use Rattle.ur_rows.specs.Normal.{as_function};
ghost use Rattle.ur_rows.specs.Types.{at_row};
ghost use Rattle.ur_tree.specs.Make as make;
ghost use Rattle.ur_tree.specs.Typing.{step_rest};
ghost use Rattle.ur_typed_rules.specs.Scopes.{Mode as GhostMode};
ghost use Rattle.ur_typed_rules.specs.Tests.{same_type};
ghost use Rattle.ur_typed_rules.specs.Rules.{may_be_param};
ghost use Rattle.ur_check_scopes.specs.Params.{IsWrittenType};
ghost use Rattle.ur_typed_rules.specs.Faults as faults;
ghost use Rattle.ur_check_scopes.specs.Views.{IsLarge, Refuses, StopIs, env_in, param_in};
ghost use Rattle.ur_check_walk.specs.Folding.{GivesStep, TellsStep, BreaksAcc, IsInStep, IsBehindAcc};
ghost use Rattle.ur_check_walk.specs.Promises.{StandsSomewhere, Gives, Tells};

use crate::walk::typed;
use std::alloc::Global;
use std::slice;
use ur_base::{List, Memory, Span, Stop};
use ur_check_cases::{
    Step, StepScope, fold_row, fold_type, no_step, rest_of, row_of_step, step_form, step_scope,
    within_step,
};
use ur_check_rules::{Out, Sites, fold_of};
use ur_check_scopes::{
    Around, Local, Locals, Scope, normal_at, param_out, types_differ, written_is_param,
};
use ur_rows::{Normal, NormalType, Part, as_type, copy_row, copy_type, equal_types, unit};
use ur_syntax::{Con, Exp, ExpForm, LambdaParam};
use ur_tree::Param;

/// `fold [of] step start [row]`.
#[cycle(walk)]
pub fn fold(
    alloc: Global,
    around: &Around,
    sites: &mut Sites,
    of: &Con,
    step: &Exp,
    start: &Exp,
    row: &Con,
) -> Result<Out, Stop>
    requires { StandsSomewhere around.now }
    ensures typed { IfOk result (λ o. (m : GhostMode) → Gives around.now sites.old (e.Fold of.now step.now start.now row.now) m o sites.new) }
    ensures refused { IfRefused result (λ r. (m : GhostMode) → Tells around.now sites.old (e.Fold of.now step.now start.now row.now) m r) }
{
    let function = normal_at(alloc, &around.scope.cons, of)?;
    let parts = fold_row(alloc, around, row)?;
    let (acc, out) = step_at(alloc, around, sites, step, of.span, &function)?;
    let empty = fold_type(alloc, of.span, &function, List::new(alloc))?;
    let first = typed(alloc, around, sites, start, Some(&empty))?;
    let made = folded(alloc, of.span, function, acc, out, first, parts)?;
    Ok(made)
}

/// The type of the fold's function, which is one of rows.
fn body_of(alloc: Global, function: Normal) -> NormalType
    ensures { result ≡ as_function function }
{
    match function {
        Normal::Fn(_, body) => as_type(alloc, body.into_inner()),
        Normal::Type(_) => unit(alloc),
        Normal::Name(_) => unit(alloc),
        Normal::Row(_) => unit(alloc),
    }
}

/// The whole of its parts. That its type is too large is told last.
fn folded(
    alloc: Global,
    span: Span,
    function: Normal,
    acc: Param,
    step: Out,
    start: Out,
    row: List<Part>,
) -> Result<Out, Stop>
    ensures of { IfOk result (λ o. o.of ≡ at_row (as_function function) row) }
    ensures exp { IfOk result (λ o. o.exp ≡ make.folded (as_function function) acc step.exp start.exp row) }
    ensures refused { IfRefused result (λ r. IsLarge r × (most_nodes < type_nodes (at_row (as_function function) row))) }
{
    let copied = copy_row(alloc, &row)?;
    let of = fold_type(alloc, span, &function, copied)?;
    let body = body_of(alloc, function);
    let exp = fold_of(alloc, body, acc, step.exp, start.exp, row)?;
    Ok(Out { of, exp })
}

#[cycle(walk)]
fn step_at(
    alloc: Global,
    around: &Around,
    sites: &mut Sites,
    step: &Exp,
    span: Span,
    function: &Normal,
) -> Result<(Param, Out), Stop>
    requires { StandsSomewhere around.now }
    ensures typed { IfOk result (λ o. GivesStep around.now sites.old step.now.form (as_function function.now) o sites.new) }
    ensures refused { IfRefused result (TellsStep around.now sites.old step.now.form (as_function function.now)) }
{
    match &step.form {
        ExpForm::Lambda(params, body) => {
            step_in(
                alloc,
                around,
                sites,
                step.span,
                params.as_slice(),
                body.get(),
                span,
                function,
            )
        }
        _ => Err(no_step(alloc, step.span)),
    }
}

/// A type of `acc` that is another one than that of the fold of the rest.
fn acc_differs(
    alloc: Global,
    around: &Around,
    span: Span,
    found: &NormalType,
    wanted: &NormalType,
) -> Stop
    ensures { StopIs around.now.world.now.datatype_names (faults.types_differ around.now.world.now.datatype_names found.now wanted.now) result }
{
    let names = around.world.datatype_names.as_slice();
    types_differ(alloc, names, span, found, wanted)
}

/// `acc` has the type of the fold of the rest.
fn accumulates(
    alloc: Global,
    bare: &Around,
    around: &Around,
    at: Span,
    span: Span,
    step: &Step,
    local: &Local,
    function: &Normal,
) -> Result<(), Stop>
    ensures param { OnOk result (IsWrittenType step.now.acc.now local.now.of → may_be_param (env_in bare.now.scope.cons) local.now.of ≡ true) }
    ensures same { OnOk result (same_type local.now.of (at_row (as_function function.now) (step_rest (env_in around.now.scope.cons))) ≡ true) }
    ensures refused { IfRefused result (λ r. bare.now.world ≡ around.now.world → Refuses around.now.world.now.datatype_names (BreaksAcc around.now.world.now.datatype_names (env_in bare.now.scope.cons) step.now.acc.now local.now.of (at_row (as_function function.now) (step_rest (env_in around.now.scope.cons)))) r) }
{
    let rest = rest_of(alloc, &around.scope.cons)?;
    let wanted = fold_type(alloc, span, function, rest)?;
    written_is_param(alloc, bare, step.acc, &local.of)?;
    if equal_types(&local.of, &wanted) {
        return Ok(());
    }
    Err(acc_differs(alloc, around, at, &local.of, &wanted))
}

/// Within the constructors of the step, with these names.
fn in_step<'b>(around: &'b Around<'b>, scope: &'b StepScope, locals: Locals<'b>) -> Around<'b>
    ensures { IsInStep around.now scope.now locals.entry result }
{
    let made = within_step(around, scope, locals);
    Around {
        world: made.world,
        scope: made.scope,
        levels: around.levels,
    }
}

/// Within the constructors of the step, behind its parameter.
fn behind_acc<'b>(around: &'b Around<'b>, scope: &'b StepScope, own: &'b [Local]) -> Around<'b>
    ensures { IsBehindAcc around.now scope.now own.now result }
{
    let made = within_step(around, scope, around.scope.locals);
    Around {
        world: made.world,
        scope: Scope {
            cons: made.scope.cons,
            locals: Locals::Bound(own, &around.scope.locals),
        },
        levels: around.levels,
    }
}

fn acc_param(alloc: Global, local: &Local) -> Result<Param, Memory>
    ensures { IfOk result (λ p. p ≡ param_in local.now) }
{
    let of = copy_type(alloc, &local.of)?;
    Ok(Param {
        fixed: local.fixed,
        of,
    })
}

#[cycle(walk)]
fn step_in(
    alloc: Global,
    around: &Around,
    sites: &mut Sites,
    at: Span,
    params: &[LambdaParam],
    body: &Exp,
    span: Span,
    function: &Normal,
) -> Result<(Param, Out), Stop>
    requires { StandsSomewhere around.now }
    ensures typed { IfOk result (λ o. GivesStep around.now sites.old (e.Lambda params.now body.now) (as_function function.now) o sites.new) }
    ensures refused { IfRefused result (TellsStep around.now sites.old (e.Lambda params.now body.now) (as_function function.now)) }
{
    let step = step_form(alloc, at, params)?;
    let scope = step_scope(alloc, around, &step)?;
    let bare = in_step(&*around, &scope, around.scope.locals);
    let local = param_out(alloc, &bare.scope.cons, step.acc)?;
    accumulates(alloc, &bare, around, at, span, &step, &local, function)?;
    let row = row_of_step(alloc, &around.scope.cons)?;
    let wanted = fold_type(alloc, span, function, row)?;
    let own = slice::from_ref(&local);
    let inner = behind_acc(&*around, &scope, own);
    let out = typed(alloc, &inner, sites, body, Some(&wanted))?;
    let acc = acc_param(alloc, &local)?;
    Ok((acc, out))
}
