//! Routes: how requests reach functions.
ghost use Rattle.std.specs.Prelude.{◌<◌, length, All, AllPairs, IsUtf8};
ghost use Rattle.std.specs.Bool.{Decides};
ghost use Rattle.ur_tags.specs.Routes.{IsNamed, AreApart, AreRoutes};

use crate::paths::is_named;
use crate::segments::is_text;
use ur_base::{List, Name, Text};

/// The type of an argument that stands in a path. A unit has no segment.
#[derive(Copy, Clone, Debug, Drop, PartialEq, Eq)]
pub enum Param {
    Int,
    Str,
    Bool,
    Unit,
}

/// A field of a form: the number of its name, its name, and whether it is a checkbox.
#[derive(Debug, Drop)]
pub struct FormField {
    pub number: Name,
    pub name: Text,
    pub checkbox: bool,
}

/// A route: its module's and its function's name, the types of the arguments in its path, the fields of the record that
/// a form gives as the last argument, and the methods that it answers. Without fields there is no such argument.
#[derive(Debug, Drop)]
pub struct Route {
    pub module_name: Text,
    pub function_name: Text,
    pub params: List<Param>,
    pub form: List<FormField>,
    pub get: bool,
    pub post: bool,
}

/// The routes of a program. A route's number is its place among them, from 0.
#[derive(Debug, Drop)]
pub struct Handlers {
    pub routes: List<Route>,
}

impl Handlers {
    /// Whether these are routes of a program: numbers of 32 bits serve them, their names are text and not empty, and no two
    /// have the same names.
    pub fn are_routes(&self) -> bool
        ensures { Decides result (AreRoutes self.now) }
    {
        let routes = self.routes.as_slice();
        if routes.len() > u32::MAX as usize {
            return false;
        }
        if !are_named(routes) {
            return false;
        }
        are_apart(routes)
    }
}

fn are_named(routes: &[Route]) -> bool
    ensures { Decides result (All IsNamed routes.now) }
{
    for route in routes {
        if !has_names(route) {
            return false;
        }
    }
    true
}

fn has_names(route: &Route) -> bool
    ensures { Decides result (IsNamed route.now) }
{
    if !is_name(route.module_name.as_slice()) {
        return false;
    }
    is_name(route.function_name.as_slice())
}

fn is_name(bytes: &[u8]) -> bool
    ensures { Decides result ((0 < length bytes.now) × IsUtf8 bytes.now) }
{
    if bytes.is_empty() {
        return false;
    }
    is_text(bytes)
}

fn are_apart(routes: &[Route]) -> bool
    ensures { Decides result (AllPairs AreApart routes.now) }
{
    for i in 0..routes.len() {
        if !is_apart(&routes[..i], &routes[i]) {
            return false;
        }
    }
    true
}

/// Whether none of these has the route's names.
fn is_apart(others: &[Route], route: &Route) -> bool
    ensures { Decides result (All (λ other. AreApart other route.now) others.now) }
{
    let module_name = route.module_name.as_slice();
    let function_name = route.function_name.as_slice();
    for other in others {
        if is_named(other, module_name, function_name) {
            return false;
        }
    }
    true
}
