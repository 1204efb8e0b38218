//! The source put together of its parts.
ghost use Rattle.std.specs.Prelude.{◌≡◌, ℕ, [], map, Some, IfOk, OnOk};
ghost use Rattle.ur_typed.specs.Declaring.{Sofar};
ghost use Rattle.ur_typed.specs.Made.{function_head, IsMadeOf};
ghost use Rattle.ur_check_heads.specs.Views.{Sees, function_in};
ghost use Rattle.ur_check.specs.Views.{bodies_in, IsSourceOf, Routed};

use crate::bodies::Bodies;
use std::alloc::Global;
use std::mem;
use ur_base::{List, Memory, Text};
use ur_check_heads::{Project, Routes, routes_of};
use ur_check_rules::Sites;
use ur_check_scopes::{FunctionHead, Head, World};
use ur_rows::{NormalType, copy_text};
use ur_sql::{Change, Query};
use ur_syntax::ConEnv;
use ur_tree::{Exp, Function, ModuleVal, Typed};

/// A function of its head and its body.
fn function_of(found: FunctionHead, body: Exp) -> Function
    ensures head { function_head result ≡ function_in found }
    ensures body { result.body ≡ body }
{
    let FunctionHead { module, name, head } = found;
    let Head {
        cons,
        params,
        result,
    } = head;
    Function {
        module,
        name,
        cons,
        params,
        result,
        body,
    }
}

/// Heads with their bodies.
fn functions_of(
    alloc: Global,
    heads: List<FunctionHead>,
    bodies: List<Exp>,
) -> Result<List<Function>, Memory>
    ensures heads { IfOk result (λ fs. map function_head fs ≡ map function_in heads) }
    ensures bodies { IfOk result (λ fs. map (λ f. f.body) fs ≡ bodies) }
{
    let mut left = bodies.into_vec().into_iter();
    let mut list = List::new(alloc);
    for head in heads.into_vec() {
        match left.next() {
            Some(body) => list.push(function_of(head, body))?,
            None => return Err(Memory),
        }
    }
    match left.next() {
        Some(_more) => Err(Memory),
        None => Ok(list),
    }
}

/// Types of `val`s with their right sides.
fn vals_of(
    alloc: Global,
    types: List<NormalType>,
    bodies: List<Exp>,
) -> Result<List<ModuleVal>, Memory>
    ensures types { IfOk result (λ vs. map (λ v. v.of) vs ≡ types) }
    ensures bodies { IfOk result (λ vs. map (λ v. v.body) vs ≡ bodies) }
{
    let mut left = bodies.into_vec().into_iter();
    let mut list = List::new(alloc);
    for of in types.into_vec() {
        match left.next() {
            Some(body) => list.push(ModuleVal { of, body })?,
            None => return Err(Memory),
        }
    }
    match left.next() {
        Some(_more) => Err(Memory),
        None => Ok(list),
    }
}

/// Each query stands in its place.
fn queries_of(alloc: Global, slots: List<Option<Query>>) -> Result<List<Query>, Memory>
    ensures { IfOk result (λ list. map (λ q. Some q) list ≡ slots) }
{
    let mut list = List::new(alloc);
    for slot in slots.into_vec() {
        match slot {
            Some(query) => list.push(query)?,
            None => return Err(Memory),
        }
    }
    Ok(list)
}

/// Each change stands in its place.
fn changes_of(alloc: Global, slots: List<Option<Change>>) -> Result<List<Change>, Memory>
    ensures { IfOk result (λ list. map (λ u. Some u) list ≡ slots) }
{
    let mut list = List::new(alloc);
    for slot in slots.into_vec() {
        match slot {
            Some(change) => list.push(change)?,
            None => return Err(Memory),
        }
    }
    Ok(list)
}

fn copy_texts(alloc: Global, texts: &[Text]) -> Result<List<Text>, Memory>
    ensures { IfOk result (λ list. list ≡ texts.now) }
{
    let mut list = List::new(alloc);
    for i in 0..texts.len() {
        let text = copy_text(alloc, &texts[i])?;
        list.push(text)?;
    }
    Ok(list)
}

/// The types of the `val`s, which are taken out.
fn take_types(alloc: Global, world: &mut World) -> List<NormalType>
    ensures types { result ≡ world.old.vals }
    ensures rest { world.new ≡ record world.old { vals = [] } }
{
    mem::replace(&mut world.vals, List::new(alloc))
}

/// The heads of the functions, which are taken out.
fn take_heads(alloc: Global, world: &mut World) -> List<FunctionHead>
    ensures heads { result ≡ world.old.functions }
    ensures rest { world.new ≡ record world.old { functions = [] } }
{
    mem::replace(&mut world.functions, List::new(alloc))
}

/// The types of `val`s with the right sides of bodies.
fn vals_in(alloc: Global, world: &mut World, vals: List<Exp>) -> Result<List<ModuleVal>, Memory>
    ensures types { IfOk result (λ vs. map (λ v. v.of) vs ≡ world.old.vals) }
    ensures bodies { IfOk result (λ vs. map (λ v. v.body) vs ≡ vals) }
    ensures rest { world.new ≡ record world.old { vals = [] } }
{
    let types = take_types(alloc, world);
    vals_of(alloc, types, vals)
}

/// The heads of functions with their bodies.
fn functions_in(
    alloc: Global,
    world: &mut World,
    bodies: List<Exp>,
) -> Result<List<Function>, Memory>
    ensures heads { IfOk result (λ fs. map function_head fs ≡ map function_in world.old.functions) }
    ensures bodies { IfOk result (λ fs. map (λ f. f.body) fs ≡ bodies) }
    ensures rest { world.new ≡ record world.old { functions = [] } }
{
    let heads = take_heads(alloc, world);
    functions_of(alloc, heads, bodies)
}

/// The statements of bodies.
#[derive(Drop)]
struct Statements {
    queries: List<Query>,
    changes: List<Change>,
}

fn stated_in(alloc: Global, sites: Sites) -> Result<Statements, Memory>
    ensures queries { IfOk result (λ s. map (λ q. Some q) s.queries ≡ sites.queries) }
    ensures changes { IfOk result (λ s. map (λ u. Some u) s.changes ≡ sites.changes) }
{
    let Sites { queries, changes } = sites;
    let queries = queries_of(alloc, queries)?;
    let changes = changes_of(alloc, changes)?;
    Ok(Statements { queries, changes })
}

/// `val`s and functions with their bodies.
#[derive(Drop)]
struct Resolved {
    vals: List<ModuleVal>,
    functions: List<Function>,
}

fn with_bodies(
    alloc: Global,
    world: &mut World,
    vals: List<Exp>,
    functions: List<Exp>,
) -> Result<Resolved, Memory>
    ensures types { IfOk result (λ r. map (λ v. v.of) r.vals ≡ world.old.vals) }
    ensures sides { IfOk result (λ r. map (λ v. v.body) r.vals ≡ vals) }
    ensures heads { IfOk result (λ r. map function_head r.functions ≡ map function_in world.old.functions) }
    ensures bodies { IfOk result (λ r. map (λ f. f.body) r.functions ≡ functions) }
    ensures rest { OnOk result (world.new ≡ record world.old { vals = []; functions = [] }) }
{
    let vals = vals_in(alloc, world, vals)?;
    let functions = functions_in(alloc, world, functions)?;
    Ok(Resolved { vals, functions })
}

/// The source of its parts.
fn put(
    modules: List<Text>,
    world: World,
    bodies: Resolved,
    stated: Statements,
    routes: Routes,
) -> Typed
    ensures { result ≡ record { modules = modules; names = world.env.fields; datatypes = world.datatypes; variants = world.variants; schema = world.schema; cookies = world.cookie_kinds; vals = bodies.vals; functions = bodies.functions; queries = stated.queries; changes = stated.changes; handlers = routes.handlers; targets = routes.targets } }
{
    let World {
        env,
        datatypes,
        variants,
        schema,
        cookie_kinds,
        ..
    } = world;
    let ConEnv { fields, .. } = env;
    let Resolved { vals, functions } = bodies;
    let Statements { queries, changes } = stated;
    let Routes { handlers, targets } = routes;
    Typed {
        modules,
        names: fields,
        datatypes,
        variants,
        schema,
        cookies: cookie_kinds,
        vals,
        functions,
        queries,
        changes,
        handlers,
        targets,
    }
}

/// The source of what is declared, the bodies and the routes.
fn source(
    alloc: Global,
    names: &[Text],
    world: World,
    bodies: Bodies,
    routes: Routes,
) -> Result<Typed, Memory>
    ensures { IfOk result (IsSourceOf names.now world bodies routes) }
{
    let mut world = world;
    let Bodies {
        functions,
        vals,
        sites,
    } = bodies;
    let stated = stated_in(alloc, sites)?;
    let found = with_bodies(alloc, &mut world, vals, functions)?;
    let modules = copy_texts(alloc, names)?;
    Ok(put(modules, world, found, stated, routes))
}

/// The routes of a project with its bodies and these entries.
fn routed(
    alloc: Global,
    names: &[Text],
    entries: &[u32],
    world: &World,
    bodies: &Bodies,
) -> Result<Routes, Memory>
    ensures { IfOk result (Routed names.now world.now entries.now bodies.now) }
{
    let made = routes_of(
        alloc,
        names,
        world.env.fields.as_slice(),
        world.functions.as_slice(),
        entries,
        bodies.vals.as_slice(),
        bodies.functions.as_slice(),
    )?;
    Ok(made)
}

fn world_of(project: Project) -> World
    ensures { result ≡ project.world }
{
    let Project { world, names: _ } = project;
    world
}

/// The source of a project with its bodies and these entries.
pub fn assembled(
    alloc: Global,
    names: &[Text],
    entries: &[u32],
    project: Project,
    bodies: Bodies,
) -> Result<Typed, Memory>
    ensures { IfOk result (λ app. (home : ℕ) (z : Sofar) → Sees project home z → IsMadeOf names.now (z, bodies_in bodies) entries.now app) }
{
    let world = world_of(project);
    let made = routed(alloc, names, entries, &world, &bodies)?;
    let app = source(alloc, names, world, bodies, made)?;
    Ok(app)
}
