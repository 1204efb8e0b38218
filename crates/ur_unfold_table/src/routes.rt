//! The routes of functions.
ghost use Rattle.std.specs.Prelude.{◌≡◌, ◌==◌, position};
ghost use Rattle.ur_source.specs.Items.{route_of, has_unit};
ghost use Rattle.ur_unfold_pieces.specs.Keys.{Gives};

use ur_base::List;
use ur_meaning::Halt;
use ur_tags::Handlers;

/// The route of a function.
pub fn route_of(targets: &List<u32>, k: u32) -> Result<Option<u32>, Halt>
    ensures { Gives (λ r. r ≡ route_of targets.now k) result }
{
    match place_of(targets, k) {
        None => Ok(None),
        Some(place) => {
            if place > u32::MAX as usize {
                return Err(Halt::Memory);
            }
            Ok(Some(place as u32))
        }
    }
}

/// The place of a function among those of routes.
fn place_of(targets: &List<u32>, k: u32) -> Option<usize>
    ensures { result ≡ position (λ n. n == k) targets.now }
{
    targets.iter().position(|n| *n == k)
}

/// Whether the call of a route has a unit last, after so many arguments.
pub fn has_unit(handlers: &Handlers, route: u32, count: u32) -> Option<bool>
    ensures { result ≡ has_unit handlers.now route count }
{
    match handlers.routes.get(route as usize) {
        None => None,
        Some(route) => Some((count as usize) < route.params.len()),
    }
}
