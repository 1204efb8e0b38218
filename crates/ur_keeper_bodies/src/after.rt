//! The bodies of one table under changes.
ghost use Rattle.std.specs.Prelude.{◌≡◌, T, IfOk};
ghost use Rattle.std.specs.Ordering.{int_cmp};
ghost use Rattle.std.specs.FinMap.{is_sorted};
ghost use Rattle.ur_keeper_bodies.specs.Bodies.{BodyMap, bodies_of, written};

use crate::bodies::BodyChange;
use crate::held::Held;
use crate::memory::change_one;
use std::alloc::Global;
use ur_base::{Bytes, List, Memory};

/// The bodies of a table after these changes, where these are its bodies before.
pub fn bodies_after(
    alloc: Global,
    tab: i64,
    entries: List<(i64, Bytes)>,
    changes: &[BodyChange],
) -> Result<List<(i64, Bytes)>, Memory>
    ensures { IfOk result (λ after. (m : BodyMap) → entries ≡ bodies_of m tab → after ≡ bodies_of (written m changes.now) tab) }
{
    if changes.is_empty() {
        return Ok(entries);
    }
    let mut held = held_of(alloc, tab, entries)?;
    for change in changes {
        change_one(alloc, &mut held, change)?;
    }
    held.read(alloc, tab)
}

/// A map of these bodies alone.
fn held_of(alloc: Global, tab: i64, entries: List<(i64, Bytes)>) -> Result<Held, Memory>
    ensures { IfOk result (λ held. T (is_sorted int_cmp entries) → bodies_of held tab ≡ entries) }
{
    let mut held = Held::new(alloc);
    for (num, body) in entries.into_vec() {
        held.put(tab, num, body)?;
    }
    Ok(held)
}
