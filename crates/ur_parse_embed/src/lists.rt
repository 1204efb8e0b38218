//! Lists.
ghost use Rattle.std.specs.Prelude.{◌≡◌, ◌∷◌, [], IfOk};
ghost use Rattle.ur_parse_rules.specs.Places.{IfRefused};

use std::alloc::Global;
use ur_base::{List, Stop};
use ur_parse_rules::pushed;

/// A list of one element.
pub fn list_of<T: Drop>(alloc: Global, element: T) -> Result<List<T>, Stop>
    ensures found { IfOk result (λ l. l ≡ element ∷ []) }
    ensures refused { IfRefused result (λ r. ⊥) }
{
    let mut list: List<T> = List::new(alloc);
    pushed(&mut list, element)?;
    Ok(list)
}
