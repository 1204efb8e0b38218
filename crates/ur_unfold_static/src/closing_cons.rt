//! The list of closed constructors, each once.
ghost use Rattle.std.specs.Prelude.{◌≡◌, ◌≤◌, ◌<◌, ◌++◌, length, Some, slice_get, IfOk, MatchOption};
ghost use Rattle.ur_meaning.specs.Instances.{Different};
ghost use Rattle.ur_unfold_static.specs.Lists.{IsAbsent, constructors, most_entries};

use crate::con::{Con, same_con};
use crate::entries::push;
use ur_base::{List, Memory};

/// The place of a constructor.
fn place_of(cons: &List<Con>, con: &Con) -> Option<usize>
    ensures { MatchOption result (IsAbsent (constructors cons.now) con.now.of) (λ j. (j < length cons.now) × (slice_get (constructors cons.now) j ≡ Some con.now.of)) }
{
    let known = cons.as_slice();
    for i in 0..known.len() {
        if same_con(&known[i], con) {
            return Some(i);
        }
    }
    None
}

/// The number of a constructor, which is added where it is new.
pub fn add_con(cons: &mut List<Con>, con: Con) -> Result<u32, Memory>
    requires few { length cons.old ≤ most_entries }
    ensures few { length cons.new ≤ most_entries }
    ensures number { IfOk result (λ j. slice_get (constructors cons.new) j ≡ Some con.of) }
    ensures grows { (more : _) × (cons.new ≡ cons.old ++ more) }
    ensures once { Different (constructors cons.old) → Different (constructors cons.new) }
{
    match place_of(cons, &con) {
        Some(place) => Ok(place as u32),
        None => {
            let number = push(cons, con)?;
            Ok(number)
        }
    }
}
