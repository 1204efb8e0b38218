//! The terms of all instances, found by a work list.
ghost use Rattle.std.specs.Prelude.{◌≡◌, ◌<◌, length, List as Items};
ghost use Rattle.ur_meaning.specs.Instances.{Different};
ghost use Rattle.ur_meaning.specs.Opening.{Lasts};
ghost use Rattle.ur_meaning.specs.Working.{AreUnfolded, Steps, Working};

use crate::halt::Halt;
use crate::table::Table;
use crate::terms::term_of;
use std::alloc::Global;
use ur_base::List;
use ur_terms::Term;

/// How many instances there may be.
const INSTANCES: u32 = 4096;

/// How many nodes their bodies may have together.
const NODES: u32 = 1_000_000;

/// How many levels a body may have.
const LEVELS: u32 = 1024;

/// The terms of the bodies of all instances, in order. Those that the table has numbered are the roots.
pub fn all_terms<T: Table>(alloc: Global, table: &mut T) -> Result<List<Term>, Halt>
    ensures made { T.sound table.old → Different (T.instances table.old) → AreUnfolded (T.language table.old) T.large T.named (T.instances table.old) (T.instances table.new) result }
    ensures lasts { Lasts T.language T.instances T.stands T.sound table.old table.new }
{
    let mut room = NODES;
    let mut made = List::new(alloc);
    for number in 0..INSTANCES {
        if !table.has(number) {
            return Ok(made);
        }
        next_term(alloc, table, &mut room, &mut made, number)?;
    }
    match table.name(INSTANCES) {
        Some(name) => Err(Halt::Instances(name)),
        None => Ok(made),
    }
}

/// One term more, of the body of the instance with this number.
fn next_term<T: Table>(
    alloc: Global,
    table: &mut T,
    room: &mut u32,
    made: &mut List<Term>,
    number: u32,
) -> Result<(), Halt>
    ensures made { (roots : Items T.Instance) → T.sound table.old → Working (T.language table.old) roots (T.instances table.old) made.old room.old → length made.old ≡ number → number < length (T.instances table.old) → Steps (T.language table.old) T.large T.named roots (T.instances table.new) made.old made.new room.new result }
    ensures lasts { Lasts T.language T.instances T.stands T.sound table.old table.new }
{
    let body = table.body(alloc, number)?;
    let term = term_of(alloc, table, room, LEVELS, &body)?;
    made.push(term)?;
    Ok(())
}
