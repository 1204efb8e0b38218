//! The functions that routes with GET lead to.
ghost use Rattle.std.specs.Prelude.{◌≡◌, ◌<◌, [], ◌∷◌, ◌++◌, IfOk, All, fold, length, slice_get, slice_set, true, false};
ghost use Rattle.ur_effects.specs.Search.{is_unseen, reached, reached_by, reached_of, IsSearch, HasTargets};

use crate::act::Act;
use std::alloc::Global;
use ur_base::{List, Memory};
use ur_code::Code;
use ur_tags::Route;

/// A function that is led to: its number, and the place of the one that calls it. Without one it is a route's.
#[derive(Clone, Copy, Debug)]
pub struct Found {
    pub function: u32,
    pub caller: Option<usize>,
}

/// Which functions are led to, and these in the order in which they were found.
#[derive(Drop)]
pub struct Search {
    pub seen: List<bool>,
    pub found: List<Found>,
}

/// No function is found yet.
fn nothing_found(alloc: Global, functions: usize) -> Result<Search, Memory>
    ensures length { IfOk result (λ search. length search.seen ≡ functions) }
    ensures unseen { IfOk result (λ search. All (λ seen. seen ≡ false) search.seen) }
    ensures found { IfOk result (λ search. search.found ≡ []) }
{
    let seen = List::from_vec(vec![in alloc; false; functions]?);
    let found = List::new(alloc);
    Ok(Search { seen, found })
}

/// Whether there is a function of this number that is not found yet.
fn is_unseen(seen: &List<bool>, function: u32) -> bool
    ensures { result ≡ is_unseen (slice_get seen.now function) }
{
    match seen.get(function as usize) {
        None => false,
        Some(seen) => !*seen,
    }
}

fn with_found(search: Search, function: u32, caller: Option<usize>) -> Result<Search, Memory>
    requires { function < length search.seen }
    ensures { IfOk result (λ next. next ≡ record { seen = slice_set search.seen function true; found = search.found ++ record { function = function; caller = caller } ∷ [] }) }
{
    let Search {
        mut seen,
        mut found,
    } = search;
    seen.set(function as usize, true);
    found.push(Found { function, caller })?;
    Ok(Search { seen, found })
}

/// The search with a function, if there is one of this number that is not found yet.
fn reached(search: Search, function: u32, caller: Option<usize>) -> Result<Search, Memory>
    ensures { IfOk result (λ next. next ≡ reached search function caller) }
{
    if is_unseen(&search.seen, function) {
        with_found(search, function, caller)
    } else {
        Ok(search)
    }
}

/// The search with the function that is called, if the act is a call.
fn reached_by(search: Search, act: Act, caller: usize) -> Result<Search, Memory>
    ensures { IfOk result (λ next. next ≡ reached_by caller search act) }
{
    match act {
        Act::Calls(function) => reached(search, function, Some(caller)),
        Act::Writes(_) => Ok(search),
    }
}

/// The search with each function that is called in the function at a place.
pub fn reached_from(search: Search, acts: &List<Act>, caller: usize) -> Result<Search, Memory>
    ensures { IfOk result (λ next. next ≡ fold (reached_by caller) search acts.now) }
{
    let mut next = search;
    for act in acts.as_slice() {
        next = reached_by(next, *act, caller)?;
    }
    Ok(next)
}

/// The search with a route's function, if the route answers GET.
fn reached_of(search: Search, route: &Route, target: Option<u32>) -> Result<Search, Memory>
    ensures { IfOk result (λ next. next ≡ reached_of search route.now.get target) }
{
    match target {
        None => Ok(search),
        Some(target) => {
            if route.get {
                reached(search, target, None)
            } else {
                Ok(search)
            }
        }
    }
}

/// The function of the route at a place, if there is one.
fn target_at(targets: &List<u32>, number: usize) -> Option<u32>
    ensures { result ≡ slice_get targets.now number }
{
    match targets.get(number) {
        None => None,
        Some(target) => Some(*target),
    }
}

/// The functions of the routes with GET.
pub fn targets_reached(alloc: Global, code: &Code) -> Result<Search, Memory>
    ensures search { IfOk result (IsSearch code.now) }
    ensures targets { IfOk result (HasTargets code.now) }
{
    let routes = code.handlers.routes.as_slice();
    let mut search = nothing_found(alloc, code.functions.len())?;
    for number in 0..routes.len() {
        let target = target_at(&code.targets, number);
        search = reached_of(search, &routes[number], target)?;
    }
    Ok(search)
}
