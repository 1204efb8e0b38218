//! Parameters with written types.
ghost use Rattle.std.specs.Prelude.{◌≡◌, true, false, [], ◌∷◌, map, IfOk, OnOk, Some};
ghost use Rattle.ur_rows.specs.Nodes.{most_nodes};
ghost use Rattle.ur_base.specs.Stopping.{IfRefused};
ghost use Rattle.ur_syntax.specs.declared.exp.Param.TheVariants as written_param;
ghost use Rattle.ur_rows_normal.specs.Preparing.{Reads};
ghost use Rattle.ur_typed_rules.specs.Names.{Names as GhostNames, bound_name, local_of, param_of};
ghost use Rattle.ur_typed_rules.specs.Tests.{are_params};
ghost use Rattle.ur_typed_rules.specs.Rules.{param_out, params_out, may_be_param};
ghost use Rattle.ur_typed_rules.specs.Arguments.{HasLarge, BreaksForms, BreaksParameter, BreaksWritten, BreaksLambdaParam};
ghost use Rattle.ur_check_scopes.specs.Views.{Refuses, IsLarge, env_in, local_in, param_in};
ghost use Rattle.ur_check_scopes.specs.Params.{IsWrittenType, IsLambdaType, MayBeAt, BreaksAt, BreaksParameters};

use crate::{Around, Cons, Local, is_type, normal_at, not_so};
use std::alloc::Global;
use ur_base::{List, Memory, Span, Stop, Text};
use ur_rows::{NormalType, as_type, copy_text, copy_type, unit};
use ur_rows_normal::{holds_arrow, is_placed};
use ur_syntax::{Binder, Con, LambdaParam, Param as WrittenParam};
use ur_tree::Param;

/// The name that is bound; `_` has none.
fn bound_name(alloc: Global, binder: &Binder) -> Result<Option<Text>, Memory>
    ensures { IfOk result (λ x. x ≡ bound_name binder.now) }
{
    match binder {
        Binder::Ignored => Ok(None),
        Binder::Named(x) => Ok(Some(copy_text(alloc, x)?)),
    }
}

/// A variable for a value.
pub fn binder_local(alloc: Global, binder: &Binder, of: NormalType) -> Result<Local, Memory>
    ensures { IfOk result (λ l. (l.name ≡ bound_name binder.now) × (l.fixed ≡ false) × (l.of ≡ of)) }
{
    let name = bound_name(alloc, binder)?;
    Ok(Local {
        name,
        fixed: false,
        of,
    })
}

/// A parameter, which is static where its type holds an arrow.
pub fn local_of(name: Option<Text>, of: NormalType) -> Local
    ensures local { local_in result ≡ local_of name of }
    ensures param { param_in result ≡ param_of of }
{
    Local {
        name,
        fixed: holds_arrow(&of),
        of,
    }
}

/// A parameter with its written type.
pub fn param_out(alloc: Global, cons: &Cons, param: &WrittenParam) -> Result<Local, Stop>
    ensures param { IfOk result (λ l. (names : GhostNames) → Reads cons.now.names names.cons → param_out most_nodes names param.now ≡ Some (local_in l, param_in l)) }
    ensures refused { IfRefused result (λ r. IsLarge r × ((names : GhostNames) → Reads cons.now.names names.cons → HasLarge most_nodes names param.now)) }
{
    match param {
        WrittenParam::Value(x, con) => value_out(alloc, cons, x, con),
        WrittenParam::Unit => Ok(Local {
            name: None,
            fixed: false,
            of: unit(alloc),
        }),
    }
}

/// A parameter for a value, with its written type.
fn value_out(alloc: Global, cons: &Cons, x: &Binder, con: &Con) -> Result<Local, Stop>
    ensures param { IfOk result (λ l. (names : GhostNames) → Reads cons.now.names names.cons → param_out most_nodes names (written_param.Value x.now con.now) ≡ Some (local_in l, param_in l)) }
    ensures refused { IfRefused result (λ r. IsLarge r × ((names : GhostNames) → Reads cons.now.names names.cons → HasLarge most_nodes names (written_param.Value x.now con.now))) }
{
    let form = normal_at(alloc, cons, con)?;
    let name = bound_name(alloc, x)?;
    Ok(local_of(name, as_type(alloc, form)))
}

/// A parameter of a lambda, which has its type.
fn lambda_param_out(
    alloc: Global,
    cons: &Cons,
    span: Span,
    param: &LambdaParam,
) -> Result<Local, Stop>
    ensures param { IfOk result (λ l. (names : GhostNames) → Reads cons.now.names names.cons → params_out most_nodes names (param.now ∷ []) ≡ Some (local_in l ∷ [], param_in l ∷ [])) }
    ensures refused { IfRefused result (λ r. (names : GhostNames) → Reads cons.now.names names.cons → Refuses [] (BreaksForms most_nodes names (param.now ∷ [])) r) }
{
    match param {
        LambdaParam::Typed(p) => param_out(alloc, cons, p),
        LambdaParam::Con(_) => Err(not_so(alloc, span, b"a parameter", b"its type")),
        LambdaParam::Bare(_) => Err(not_so(alloc, span, b"a parameter", b"its type")),
    }
}

/// The parameters of a lambda, all of which have their types.
pub fn params_out(
    alloc: Global,
    cons: &Cons,
    span: Span,
    params: &[LambdaParam],
) -> Result<List<Local>, Stop>
    ensures params { IfOk result (λ ls. (names : GhostNames) → Reads cons.now.names names.cons → params_out most_nodes names params.now ≡ Some (map local_in ls, map param_in ls)) }
    ensures refused { IfRefused result (λ r. (names : GhostNames) → Reads cons.now.names names.cons → Refuses [] (BreaksForms most_nodes names params.now) r) }
{
    let mut locals = List::new(alloc);
    for i in 0..params.len() {
        let local = lambda_param_out(alloc, cons, span, &params[i])?;
        locals.push(local)?;
    }
    Ok(locals)
}

/// A parameter as the resolved tree has it.
fn param_of(alloc: Global, local: &Local) -> Result<Param, Memory>
    ensures { IfOk result (λ p. p ≡ param_in local.now) }
{
    let of = copy_type(alloc, &local.of)?;
    Ok(Param {
        fixed: local.fixed,
        of,
    })
}

/// The parameters as the resolved tree has them.
pub fn tree_params(alloc: Global, locals: &[Local]) -> Result<List<Param>, Memory>
    ensures { IfOk result (λ ps. ps ≡ map param_in locals.now) }
{
    let mut params = List::new(alloc);
    for i in 0..locals.len() {
        let param = param_of(alloc, &locals[i])?;
        params.push(param)?;
    }
    Ok(params)
}

/// Whether a type, written so, may be that of a parameter.
pub fn is_param(alloc: Global, around: &Around, con: &Con, of: &NormalType) -> Result<(), Stop>
    ensures ok { OnOk result (may_be_param (env_in around.now.scope.cons) of.now ≡ true) }
    ensures refused { IfRefused result (Refuses around.now.world.now.datatype_names (BreaksParameter (env_in around.now.scope.cons) con.now of.now)) }
{
    is_type(alloc, around, con, of)?;
    if is_placed(of) {
        return Ok(());
    }
    Err(not_so(
        alloc,
        con.span,
        b"a parameter",
        b"the type of a value or of a function",
    ))
}

/// The same of a written parameter; `()` always may be one.
pub fn written_is_param(
    alloc: Global,
    around: &Around,
    param: &WrittenParam,
    of: &NormalType,
) -> Result<(), Stop>
    ensures ok { OnOk result (IsWrittenType param.now of.now → may_be_param (env_in around.now.scope.cons) of.now ≡ true) }
    ensures refused { IfRefused result (Refuses around.now.world.now.datatype_names (BreaksWritten (env_in around.now.scope.cons) param.now of.now)) }
{
    match param {
        WrittenParam::Value(_, con) => is_param(alloc, around, con, of),
        WrittenParam::Unit => Ok(()),
    }
}

/// The same of a parameter of a lambda, whose type is the local's.
fn lambda_is_param(
    alloc: Global,
    around: &Around,
    param: &LambdaParam,
    local: &Local,
) -> Result<(), Stop>
    ensures ok { OnOk result (IsLambdaType param.now local.now.of → may_be_param (env_in around.now.scope.cons) local.now.of ≡ true) }
    ensures refused { IfRefused result (Refuses around.now.world.now.datatype_names (BreaksLambdaParam (env_in around.now.scope.cons) param.now local.now.of)) }
{
    match param {
        LambdaParam::Typed(p) => written_is_param(alloc, around, p, &local.of),
        LambdaParam::Con(_) => Ok(()),
        LambdaParam::Bare(_) => Ok(()),
    }
}

/// The same of the type at one place, if there is one.
fn is_param_at(
    alloc: Global,
    around: &Around,
    param: &LambdaParam,
    locals: &[Local],
    at: usize,
) -> Result<(), Stop>
    ensures ok { OnOk result (MayBeAt (env_in around.now.scope.cons) param.now locals.now at) }
    ensures refused { IfRefused result (Refuses around.now.world.now.datatype_names (BreaksAt (env_in around.now.scope.cons) param.now locals.now at)) }
{
    let count = locals.len();
    if at < count {
        return lambda_is_param(alloc, around, param, &locals[at]);
    }
    Ok(())
}

/// Whether the types of a lambda's parameters, which are the locals' ones, may be those of parameters.
pub fn are_params(
    alloc: Global,
    around: &Around,
    params: &[LambdaParam],
    locals: &[Local],
) -> Result<(), Stop>
    ensures ok { OnOk result ((names : GhostNames) → params_out most_nodes names params.now ≡ Some (map local_in locals.now, map param_in locals.now) → are_params (env_in around.now.scope.cons) (map param_in locals.now) ≡ true) }
    ensures refused { IfRefused result (Refuses around.now.world.now.datatype_names (BreaksParameters (env_in around.now.scope.cons) params.now (map param_in locals.now))) }
{
    for i in 0..params.len() {
        is_param_at(alloc, around, &params[i], locals, i)?;
    }
    Ok(())
}
