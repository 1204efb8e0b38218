//! What the body of a function sees.
ghost use Rattle.std.specs.Prelude.{◌≡◌, ◌++◌, ℕ, [], ◌∷◌, map, Some, IfOk, OnOk};
ghost use Rattle.ur_rows.specs.Nodes.{most_nodes};
ghost use Rattle.ur_syntax.specs.declared.con.ConEnv.{ConEnv as GhostEnv};
ghost use Rattle.ur_disjoint.specs.Tests.{pair};
ghost use Rattle.ur_rows_normal.specs.declared.environment.Place.{Place as GhostPlace};
ghost use Rattle.ur_rows_normal.specs.Preparing.{Reads, Covers};
ghost use Rattle.ur_tree.specs.Env.{kinds_of, rows_apart};
ghost use Rattle.ur_typed_rules.specs.Names.{Names as GhostNames, bound_name};
ghost use Rattle.ur_check_scopes.specs.declared.locals.Locals.TheVariants as locals;
ghost use Rattle.ur_check_scopes.specs.Views.{Stands, head_in};
ghost use Rattle.ur_typed.specs.Declaring.{Sofar, Heading, world_behind, body_scope, heading_out};
ghost use Rattle.ur_check_heads.specs.Views.{Sees, IsHeadScope, IsBodyScope, names_after, written_name, written_local, written_locals};

use crate::project::{LEVELS, Project};
use std::alloc::Global;
use ur_base::{List, Memory, Text};
use ur_check_scopes::{Around, Cons, Head, Local, Locals, Scope};
use ur_disjoint::Assumed;
use ur_rows::{copy_row, copy_text, copy_type};
use ur_rows_normal::{Layer, Place};
use ur_syntax::{Binder, ConParam as WrittenCon, FunDef, Kind, Param as Written, copy_kind};
use ur_tree::{ConParam, Param};

/// The variable of a constructor parameter, if it is one, over the names of a place.
pub fn bind_param(alloc: Global, names: &mut Layer, param: &WrittenCon) -> Result<(), Memory>
    ensures { OnOk result ((place : GhostPlace) (known : GhostNames) → Covers names.old place known.cons → Covers names.new place (names_after (param.now ∷ []) known).cons) }
{
    match param {
        WrittenCon::Kinded(name, kind) => {
            names.bind(alloc, name, kind)?;
            Ok(())
        }
        WrittenCon::Disjoint(_, _) => Ok(()),
    }
}

/// The variables of constructor parameters over the names of a place.
fn variables_of(alloc: Global, place: &Place, params: &[WrittenCon]) -> Result<Layer, Memory>
    ensures { IfOk result (λ l. (known : GhostNames) → Reads place.now known.cons → Covers l place.now (names_after params.now known).cons) }
{
    let mut names = Layer::new(alloc, place);
    for i in 0..params.len() {
        bind_param(alloc, &mut names, &params[i])?;
    }
    Ok(names)
}

/// The kinds of the constructor variables of a function, and the rows that are taken to be apart.
#[derive(Drop)]
pub struct HeadScope {
    pub kinds: List<Kind>,
    pub known: List<Assumed>,
}

fn add_con(alloc: Global, scope: &mut HeadScope, con: &ConParam) -> Result<(), Memory>
    ensures kinds { OnOk result (scope.new.kinds ≡ scope.old.kinds ++ kinds_of (con.now ∷ [])) }
    ensures known { OnOk result (map pair scope.new.known ≡ map pair scope.old.known ++ rows_apart (con.now ∷ [])) }
{
    match con {
        ConParam::Kinded(kind) => {
            let kind = copy_kind(alloc, kind)?;
            scope.kinds.push(kind)?;
            Ok(())
        }
        ConParam::Apart(one, other) => {
            let left = copy_row(alloc, one)?;
            let right = copy_row(alloc, other)?;
            scope.known.push(Assumed { left, right })?;
            Ok(())
        }
    }
}

/// The kinds and the rows of constructor parameters.
pub fn head_scope(alloc: Global, cons: &[ConParam]) -> Result<HeadScope, Memory>
    ensures { IfOk result (λ s. IsHeadScope s cons.now) }
{
    let mut scope = HeadScope {
        kinds: List::new(alloc),
        known: List::new(alloc),
    };
    for i in 0..cons.len() {
        add_con(alloc, &mut scope, &cons[i])?;
    }
    Ok(scope)
}

/// What the body of a function sees: its constructor variables, by name, over the names of a place, with their kinds and the
/// rows that are taken to be apart, and its parameters.
#[derive(Drop)]
pub struct BodyScope {
    pub names: Layer,
    pub cons: HeadScope,
    pub locals: List<Local>,
}

fn name_of(alloc: Global, written: &Written) -> Result<Option<Text>, Memory>
    ensures { IfOk result (λ x. x ≡ written_name written.now) }
{
    match written {
        Written::Value(binder, _) => binder_name(alloc, binder),
        Written::Unit => Ok(None),
    }
}

fn binder_name(alloc: Global, binder: &Binder) -> Result<Option<Text>, Memory>
    ensures { IfOk result (λ x. x ≡ bound_name binder.now) }
{
    match binder {
        Binder::Named(x) => Ok(Some(copy_text(alloc, x)?)),
        Binder::Ignored => Ok(None),
    }
}

fn local_of(alloc: Global, written: &Written, param: &Param) -> Result<Local, Memory>
    ensures { IfOk result (λ l. l ≡ written_local written.now param.now) }
{
    let name = name_of(alloc, written)?;
    let of = copy_type(alloc, &param.of)?;
    Ok(Local {
        name,
        fixed: param.fixed,
        of,
    })
}

/// What written parameters bind, which are of these types.
fn locals_of(alloc: Global, written: &[Written], params: &[Param]) -> Result<List<Local>, Memory>
    ensures { IfOk result (λ ls. ls ≡ written_locals written.now params.now) }
{
    let mut locals = List::new(alloc);
    for i in 0..written.len() {
        match params.get(i) {
            Some(param) => {
                let local = local_of(alloc, &written[i], param)?;
                locals.push(local)?;
            }
            None => return Ok(locals),
        }
    }
    Ok(locals)
}

/// The scope of the body of a function with this head, where these names are in scope outside.
pub fn body_scope(
    alloc: Global,
    place: &Place,
    head: &Head,
    function: &FunDef,
) -> Result<BodyScope, Memory>
    ensures { IfOk result (λ s. (env : GhostEnv) (h : Heading) → Reads place.now env → heading_out most_nodes (record { cons = env; locals = [] }) function.now ≡ Some h → h.head ≡ head_in head.now → IsBodyScope s place.now h) }
{
    let names = variables_of(alloc, place, function.con_params.as_slice())?;
    let cons = head_scope(alloc, head.cons.as_slice())?;
    let locals = locals_of(alloc, function.params.as_slice(), head.params.as_slice())?;
    Ok(BodyScope {
        names,
        cons,
        locals,
    })
}

/// Within the body of a function.
pub fn within_body<'a>(
    project: &'a Project,
    place: &'a Place<'a>,
    scope: &'a BodyScope,
    outside: &'a Locals<'a>,
) -> Around<'a>
    ensures { (home : ℕ) (z : Sofar) (h : Heading) → Sees project.now home z → IsBodyScope scope.now place.now h → outside.now ≡ locals.Nothing → Stands result (world_behind most_nodes z) (body_scope h) }
{
    Around {
        world: &project.world,
        scope: Scope {
            cons: Cons {
                names: scope.names.over(place),
                kinds: scope.cons.kinds.as_slice(),
                known: scope.cons.known.as_slice(),
            },
            locals: Locals::Bound(scope.locals.as_slice(), outside),
        },
        levels: LEVELS,
    }
}
