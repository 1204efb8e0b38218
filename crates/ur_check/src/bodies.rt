//! The bodies of functions and `val`s.
ghost use Rattle.std.specs.Prelude.{◌≡◌, ◌+◌, ◌++◌, ℕ, true, Some, [], ◌∷◌, length, slice_get, IfOk, OnOk, IfSome};
ghost use Rattle.ur_rows.specs.Nodes.{most_nodes};
ghost use Rattle.ur_base.specs.Stopping.{IfRefused};
ghost use Rattle.ur_check_scopes.specs.Views.{Stands, head_in};
ghost use Rattle.ur_tree.specs.IsStatic as statics;
ghost use Rattle.ur_check_rules.specs.Views.{sites_in, out_in};
ghost use Rattle.ur_typed_rules.specs.Scopes.{wants};
ghost use Rattle.ur_typed.specs.Project.{names_at};
ghost use Rattle.ur_typed.specs.Walking as walking;
ghost use Rattle.ur_typed.specs.Causes.{HasFault};
ghost use Rattle.ur_typed.specs.Declaring.{Sofar, Heading, world_behind, top_scope, datatype_names, heading_out, headings_out, body_scope, body_out, group_out, val_body_out};
ghost use Rattle.ur_typed.specs.Declaring as declaring;
ghost use Rattle.ur_typed.specs.DeclFaults.{GroupHasFault};
ghost use Rattle.ur_check_heads.specs.Views.{Sees, IsBodyScope};
ghost use Rattle.ur_check_scopes.specs.declared.locals.Locals.TheVariants as locals;
ghost use Rattle.ur_check.specs.Views.{bodies_in, SeesSome, HasHeading, AreHeaded, RightSideTells};

use std::alloc::Global;
use ur_base::{List, Memory, Stop};
use ur_check_heads::{BodyScope, Project, body_scope, top, within_body};
use ur_check_rules::{Out, Sites, is_static};
use ur_check_scopes::{Around, FunctionHead, Head, Locals, not_so};
use ur_check_walk::typed;
use ur_rows::NormalType;
use ur_rows_normal::Place;
use ur_syntax::{Exp as Written, FunDef};
use ur_tree::Exp;

/// The bodies that are resolved so far, of functions and of `val`s, each by its number, and the statements in them.
#[derive(Drop)]
pub struct Bodies {
    pub functions: List<Exp>,
    pub vals: List<Exp>,
    pub sites: Sites,
}

pub fn no_bodies(alloc: Global) -> Bodies
    ensures { bodies_in result ≡ declaring.no_bodies }
{
    let sites = Sites {
        queries: List::new(alloc),
        changes: List::new(alloc),
    };
    Bodies {
        functions: List::new(alloc),
        vals: List::new(alloc),
        sites,
    }
}

/// Within the body of a function.
fn around_body<'a>(
    project: &'a Project,
    place: &'a Place<'a>,
    scope: &'a BodyScope,
    outside: &'a Locals<'a>,
) -> Around<'a>
    ensures stands { (home : ℕ) (z : Sofar) (h : Heading) → Sees project.now home z → IsBodyScope scope.now place.now h → outside.now ≡ locals.Nothing → Stands result (world_behind most_nodes z) (body_scope h) }
    ensures world { result.world.now ≡ project.now.world }
{
    let within = within_body(project, place, scope, outside);
    Around {
        world: &project.world,
        scope: within.scope,
        levels: within.levels,
    }
}

/// The body of a function with this head.
fn body(
    alloc: Global,
    project: &Project,
    sites: &mut Sites,
    head: &Head,
    function: &FunDef,
) -> Result<Out, Stop>
    requires { HasHeading project.now head.now function.now }
    ensures typed { IfOk result (λ o. (home : ℕ) (z : Sofar) (h : Heading) → Sees project.now home z → heading_out most_nodes (names_at z.place) function.now ≡ Some h → h.head ≡ head_in head.now → walking.typed (world_behind most_nodes z) function.now.body.form (body_scope h) (sites_in sites.old) (wants h.head.result) ≡ Some (out_in o sites.new)) }
    ensures refused { IfRefused result (λ r. (home : ℕ) (z : Sofar) (h : Heading) → Sees project.now home z → heading_out most_nodes (names_at z.place) function.now ≡ Some h → h.head ≡ head_in head.now → HasFault (datatype_names z) (world_behind most_nodes z) (body_scope h) (sites_in sites.old) function.now.body.form (wants h.head.result) r) }
{
    let place = project.names.in_scope();
    let scope = body_scope(alloc, &place, head, function)?;
    let outside = Locals::Nothing;
    let around = around_body(project, &place, &scope, &outside);
    let out = typed(alloc, &around, sites, &function.body, Some(&head.result))?;
    Ok(out)
}

fn with_function(bodies: &mut Bodies, out: Out) -> Result<(), Memory>
    ensures functions { OnOk result (bodies.new.functions ≡ bodies.old.functions ++ out.exp ∷ []) }
    ensures vals { OnOk result (bodies.new.vals ≡ bodies.old.vals) }
    ensures sites { OnOk result (bodies.new.sites ≡ bodies.old.sites) }
{
    let Out { of: _, exp } = out;
    let e = exp.into_inner();
    bodies.functions.push(e)?;
    Ok(())
}

/// The body of the next function, which has this head.
fn function_body(
    alloc: Global,
    project: &Project,
    bodies: &mut Bodies,
    head: &Head,
    function: &FunDef,
) -> Result<(), Stop>
    requires { HasHeading project.now head.now function.now }
    ensures ok { OnOk result ((home : ℕ) (z : Sofar) (h : Heading) → Sees project.now home z → heading_out most_nodes (names_at z.place) function.now ≡ Some h → h.head ≡ head_in head.now → body_out most_nodes z function.now (bodies_in bodies.old) h ≡ Some (bodies_in bodies.new)) }
    ensures refused { IfRefused result (λ r. (home : ℕ) (z : Sofar) (h : Heading) → Sees project.now home z → heading_out most_nodes (names_at z.place) function.now ≡ Some h → h.head ≡ head_in head.now → HasFault (datatype_names z) (world_behind most_nodes z) (body_scope h) (sites_in bodies.old.sites) function.now.body.form (wants h.head.result) r) }
{
    let out = body(alloc, project, &mut bodies.sites, head, function)?;
    with_function(bodies, out)?;
    Ok(())
}

/// A function with its head, so many behind the first.
fn function_behind(project: &Project, first: usize, behind: usize) -> Option<&FunctionHead>
    ensures { IfSome result (λ f. slice_get project.now.world.functions (first + behind) ≡ Some f.now) }
{
    match first.checked_add(behind) {
        Some(at) => project.world.functions.get(at),
        None => None,
    }
}

/// The bodies of the functions of a group, of which the first has that number.
pub fn group_bodies(
    alloc: Global,
    project: &Project,
    bodies: &mut Bodies,
    first: usize,
    functions: &[FunDef],
) -> Result<(), Stop>
    requires { AreHeaded project.now first functions.now }
    ensures ok { OnOk result ((home : ℕ) (y z : Sofar) → Sees project.now home z → headings_out most_nodes home functions.now y ≡ Some z → first ≡ length y.functions → group_out most_nodes z functions.now (bodies_in bodies.old) ≡ Some (bodies_in bodies.new)) }
    ensures refused { IfRefused result (λ r. (home : ℕ) (y z : Sofar) → Sees project.now home z → headings_out most_nodes home functions.now y ≡ Some z → first ≡ length y.functions → GroupHasFault most_nodes z r functions.now (bodies_in bodies.old)) }
{
    for i in 0..functions.len() {
        match function_behind(project, first, i) {
            Some(found) => function_body(alloc, project, bodies, &found.head, &functions[i])?,
            None => return Err(Stop::Memory),
        }
    }
    Ok(())
}

/// The right side of a `val` of that type, which is static.
fn right_side(
    alloc: Global,
    project: &Project,
    sites: &mut Sites,
    e: &Written,
    of: &NormalType,
) -> Result<Out, Stop>
    requires { SeesSome project.now }
    ensures typed { IfOk result (λ o. (home : ℕ) (z : Sofar) → Sees project.now home z → walking.typed (world_behind most_nodes z) e.now.form (top_scope z) (sites_in sites.old) (wants of.now) ≡ Some (out_in o sites.new)) }
    ensures fixed { IfOk result (λ o. statics.is_static o.exp ≡ true) }
    ensures refused { IfRefused result (λ r. (home : ℕ) (z : Sofar) → Sees project.now home z → RightSideTells z e.now of.now (sites_in sites.old) r) }
{
    let around = top(project);
    let out = typed(alloc, &around, sites, e, Some(of))?;
    if is_static(out.exp.get()) {
        return Ok(out);
    }
    Err(not_so(
        alloc,
        e.span,
        b"the right side of a val",
        b"a static expression",
    ))
}

fn with_val(bodies: &mut Bodies, out: Out) -> Result<(), Memory>
    ensures functions { OnOk result (bodies.new.functions ≡ bodies.old.functions) }
    ensures vals { OnOk result (bodies.new.vals ≡ bodies.old.vals ++ out.exp ∷ []) }
    ensures sites { OnOk result (bodies.new.sites ≡ bodies.old.sites) }
{
    let Out { of: _, exp } = out;
    let e = exp.into_inner();
    bodies.vals.push(e)?;
    Ok(())
}

/// The body of a `val` of that type.
pub fn val_body(
    alloc: Global,
    project: &Project,
    bodies: &mut Bodies,
    e: &Written,
    of: &NormalType,
) -> Result<(), Stop>
    requires { SeesSome project.now }
    ensures ok { OnOk result ((home : ℕ) (z : Sofar) → Sees project.now home z → val_body_out most_nodes z e.now.form (bodies_in bodies.old) of.now ≡ Some (bodies_in bodies.new)) }
    ensures refused { IfRefused result (λ r. (home : ℕ) (z : Sofar) → Sees project.now home z → RightSideTells z e.now of.now (sites_in bodies.old.sites) r) }
{
    let out = right_side(alloc, project, &mut bodies.sites, e, of)?;
    with_val(bodies, out)?;
    Ok(())
}
