//! What refusals say.
ghost use Rattle.std.specs.Prelude.{◌≡◌, [], IfOk};
ghost use Rattle.ur_base.specs.Stopping.{Says};
ghost use Rattle.ur_xmltype.specs.Faults.{IsMisplaced};
ghost use Rattle.ur_xmltype.specs.Views.{place_in};

use crate::places::{Place, place_text};
use std::alloc::Global;
use ur_base::{List, Memory, Refusal, Span, Text};
use ur_tree::apart_from;

/// A name that stands twice.
pub fn twice(alloc: Global, span: Span, name: &Text) -> Result<Refusal, Memory>
    ensures { IfOk result (λ r. Says r 8 name.now []) }
{
    let left = List::from_slice(alloc, name.as_slice())?;
    Ok(Refusal {
        code: 8,
        span,
        left,
        right: List::new(alloc),
    })
}

/// What may not stand at a place.
pub fn misplaced(alloc: Global, span: Span, found: &[u8], place: Place) -> Result<Refusal, Memory>
    ensures { IfOk result (λ r. IsMisplaced r found.now (place_in place)) }
{
    let left = List::from_slice(alloc, found)?;
    let right = apart_from(alloc, found, place_text(place))?;
    Ok(Refusal {
        code: 13,
        span,
        left,
        right,
    })
}
