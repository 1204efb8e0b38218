//! The routes.
ghost use Rattle.std.specs.Prelude.{◌≡◌, ◌++◌, ◌||◌, ℕ, false, [], ◌∷◌, map, IfOk, OnOk, slice_get, Some, List as GhostList};
ghost use Rattle.ur_check_heads.specs.Views.{function_in};
ghost use Rattle.ur_typed.specs.Typed.{all_occurrences};
ghost use Rattle.ur_typed.specs.Routing.{IsRouteOf, AreRoutes};
ghost use Rattle.ur_check_heads.specs.declared.aims.Aim.{Aim as GhostAim};
ghost use Rattle.ur_check_heads.specs.Aims.{AreAims, if_routed, targets_of, methods_of, routed_of};
ghost use Rattle.ur_check_heads.specs.Routes.{no_routes, AreAt};

use crate::aims::{Aim, Aims, mark_all, no_aims};
use crate::arguments::arguments_of;
use crate::forms::number;
use crate::occurrences::in_exps;
use std::alloc::Global;
use ur_base::{List, Memory, Text};
use ur_check_forms::is_page;
use ur_check_scopes::FunctionHead;
use ur_rows::copy_text;
use ur_tags::{Handlers, Route};
use ur_tree::Exp;

/// The routes of a project, and the function of each.
#[derive(Drop)]
pub struct Routes {
    pub handlers: Handlers,
    pub targets: List<u32>,
}

fn module_name(alloc: Global, modules: &[Text], number: u32) -> Result<Text, Memory>
    ensures { IfOk result (λ m. slice_get modules.now number ≡ Some m) }
{
    match modules.get(number as usize) {
        Some(name) => {
            let copied = copy_text(alloc, name)?;
            Ok(copied)
        }
        None => Err(Memory),
    }
}

/// The route of a function, which is a page function.
fn route_of(
    alloc: Global,
    modules: &[Text],
    names: &[Text],
    function: &FunctionHead,
    aim: Aim,
) -> Result<Route, Memory>
    ensures is { IfOk result (IsRouteOf modules.now names.now (function_in function.now)) }
    ensures get { IfOk result (λ r. r.get ≡ aim.get) }
    ensures post { IfOk result (λ r. r.post ≡ aim.post) }
{
    if !is_page(&function.head) {
        return Err(Memory);
    }
    let module_name = module_name(alloc, modules, function.module)?;
    let function_name = copy_text(alloc, &function.name)?;
    let given = arguments_of(alloc, names, function.head.params.as_slice())?;
    Ok(Route {
        module_name,
        function_name,
        params: given.params,
        form: given.form,
        get: aim.get,
        post: aim.post,
    })
}

fn no_routes(alloc: Global) -> Routes
    ensures { result ≡ no_routes }
{
    Routes {
        handlers: Handlers {
            routes: List::new(alloc),
        },
        targets: List::new(alloc),
    }
}

fn has_method(aim: Aim) -> bool
    ensures { result ≡ (aim.get || aim.post) }
{
    aim.get || aim.post
}

fn push_route(routes: &mut Routes, route: Route, target: u32) -> Result<(), Memory>
    ensures { OnOk result (routes.new ≡ record { handlers = record { routes = routes.old.handlers.routes ++ route ∷ [] }; targets = routes.old.targets ++ target ∷ [] }) }
{
    routes.handlers.routes.push(route)?;
    routes.targets.push(target)?;
    Ok(())
}

/// A route more, where the function with that number has a method.
fn add_route(
    alloc: Global,
    modules: &[Text],
    names: &[Text],
    functions: &[FunctionHead],
    routes: &mut Routes,
    at: usize,
    aim: Aim,
) -> Result<(), Memory>
    ensures targets { OnOk result ((rest : GhostList ℕ) → routes.new.targets ++ rest ≡ routes.old.targets ++ if_routed aim at rest) }
    ensures methods { OnOk result ((rest : GhostList GhostAim) → map methods_of routes.new.handlers.routes ++ rest ≡ map methods_of routes.old.handlers.routes ++ if_routed aim aim rest) }
    ensures fit { OnOk result (AreAt modules.now names.now functions.now routes.old → AreAt modules.now names.now functions.now routes.new) }
{
    if !has_method(aim) {
        return Ok(());
    }
    match functions.get(at) {
        Some(function) => {
            let route = route_of(alloc, modules, names, function, aim)?;
            let target = number(at)?;
            push_route(routes, route, target)?;
            Ok(())
        }
        None => Err(Memory),
    }
}

/// The routes of the functions with a method.
fn routes_by(
    alloc: Global,
    modules: &[Text],
    names: &[Text],
    functions: &[FunctionHead],
    aims: &[Aim],
) -> Result<Routes, Memory>
    ensures targets { IfOk result (λ r. r.targets ≡ targets_of 0 aims.now) }
    ensures methods { IfOk result (λ r. map methods_of r.handlers.routes ≡ routed_of aims.now) }
    ensures fit { IfOk result (AreAt modules.now names.now functions.now) }
{
    let mut routes = no_routes(alloc);
    for i in 0..aims.len() {
        add_route(alloc, modules, names, functions, &mut routes, i, aims[i])?;
    }
    Ok(routes)
}

/// The methods, where each function that was marked is there.
fn found(aims: Aims) -> Result<List<Aim>, Memory>
    ensures of { IfOk result (λ list. list ≡ aims.of) }
    ensures kept { IfOk result (λ list. aims.lost ≡ false) }
{
    let Aims { of, lost } = aims;
    if lost {
        return Err(Memory);
    }
    Ok(of)
}

/// Which functions have a method, where each that is named is there.
fn aims_of(
    alloc: Global,
    functions: &[FunctionHead],
    entries: &[u32],
    vals: &[Exp],
    bodies: &[Exp],
) -> Result<List<Aim>, Memory>
    ensures { IfOk result (AreAims entries.now (all_occurrences (vals.now ++ bodies.now))) }
{
    let mut aims = no_aims(alloc, functions)?;
    mark_all(&mut aims, entries);
    in_exps(&mut aims, vals);
    in_exps(&mut aims, bodies);
    let of = found(aims)?;
    Ok(of)
}

/// The routes of a project with these modules, names of fields, functions, entries, right sides of `val`s and bodies of functions:
/// those of the functions that have a method, by rising number.
pub fn routes_of(
    alloc: Global,
    modules: &[Text],
    names: &[Text],
    functions: &[FunctionHead],
    entries: &[u32],
    vals: &[Exp],
    bodies: &[Exp],
) -> Result<Routes, Memory>
    ensures { IfOk result (λ r. AreRoutes modules.now names.now (map function_in functions.now) entries.now (all_occurrences (vals.now ++ bodies.now)) r.handlers.routes r.targets) }
{
    let aims = aims_of(alloc, functions, entries, vals, bodies)?;
    let made = routes_by(alloc, modules, names, functions, aims.as_slice())?;
    Ok(made)
}
