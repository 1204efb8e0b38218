//! Routes that fit.
ghost use Rattle.std.specs.Prelude.{◌≡◌, length};
ghost use Rattle.std.specs.List.{AllZip};
ghost use Rattle.ur_code.specs.Fits.{FitsRoute};
ghost use Rattle.ur_verify_operations.specs.Answering.{Answers, Says};
ghost use Rattle.ur_verify.specs.Misfits.{RouteMisfit, RoutesMisfit};

use std::alloc::Global;
use ur_code::Code;
use ur_tags::Route;
use ur_values::{ValueType, same_type, same_types};
use ur_verify_operations::{Untyped, mismatch, no_type, route_types, unlike_these};

/// The function takes the route's arguments and gives a page, and a route that answers GET has no form.
fn target_fits(alloc: Global, code: &Code, route: &Route, target: u32) -> Result<(), Untyped>
    ensures fits { Answers (λ u. FitsRoute code.now route.now target) result }
    ensures told { Says (RouteMisfit code.now route.now target) result }
{
    let Some(function) = code.functions.get(target as usize) else {
        return Err(Untyped::Misfit(no_type(alloc, b"a function")?));
    };
    let params = route_types(alloc, route)?;
    if !same_types(function.params.as_slice(), params.as_slice()) {
        return Err(Untyped::Misfit(unlike_these(
            alloc,
            code,
            function.params.as_slice(),
            params.as_slice(),
        )?));
    }
    if !same_type(&function.result, &ValueType::Page) {
        return Err(Untyped::Misfit(mismatch(alloc, code, &function.result, &ValueType::Page)?));
    }
    if route.get && !route.form.is_empty() {
        return Err(Untyped::Misfit(no_type(alloc, b"a route that answers GET and has no form")?));
    }
    Ok(())
}

pub fn routes_fit(alloc: Global, code: &Code) -> Result<(), Untyped>
    ensures fits { Answers (λ u. AllZip (FitsRoute code.now) code.now.handlers.routes code.now.targets) result }
    ensures told { Says (RoutesMisfit code.now) result }
{
    let routes = code.handlers.routes.as_slice();
    let targets = code.targets.as_slice();
    if routes.len() != targets.len() {
        return Err(Untyped::Misfit(no_type(alloc, b"a function for each route")?));
    }
    for i in 0..routes.len() {
        target_fits(alloc, code, &routes[i], targets[i])?;
    }
    Ok(())
}
