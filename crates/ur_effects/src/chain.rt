//! The chain of calls that leads to a write.
ghost use Rattle.std.specs.Prelude.{◌≡◌, ◌<◌, [], ◌∷◌, IfOk, IfSome, IsNone, MatchOption, All, Contains, map, length, slice_get, Some};
ghost use Rattle.ur_effects.specs.declared.act.Act.TheVariants as act;
ghost use Rattle.ur_effects.specs.Acts.{write_deed, IsCall};
ghost use Rattle.ur_effects.specs.Writes.{GetWrites};
ghost use Rattle.ur_effects.specs.Refused.{GetNeverWrites};
ghost use Rattle.ur_effects.specs.Search.{AreLed, MakesWrite};

use crate::act::{Act, Write};
use crate::deeds::acts_of;
use crate::search::{Found, reached_from, targets_reached};
use std::alloc::Global;
use ur_base::{List, Memory};
use ur_code::Code;

/// A chain of calls from a route with GET, and the write in the body of its last function.
#[derive(Drop)]
pub struct Chain {
    pub functions: List<u32>,
    pub write: Write,
}

/// The first write among the acts.
fn first_write(acts: &[Act]) -> Option<Write>
    ensures some { IfSome result (λ write. Contains acts.now (act.Writes write)) }
    ensures none { IsNone result → All IsCall acts.now }
{
    for act in acts {
        match act {
            Act::Calls(_) => {}
            Act::Writes(write) => return Some(*write),
        }
    }
    None
}

fn found_at(found: &[Found], place: usize) -> Found
    requires { place < length found.now }
    ensures { slice_get found.now place ≡ Some result }
{
    found[place]
}

/// The functions from a route's to the one at a place, each called by the one before.
fn chain_to(
    alloc: Global,
    code: &Code,
    found: &[Found],
    place: usize,
    write: Write,
) -> Result<Chain, Memory>
    requires place { place < length found.now }
    requires led { AreLed code.now found.now }
    requires writes { MakesWrite code.now.functions (slice_get found.now place) write }
    ensures { IfOk result (λ chain. GetWrites code.now chain.functions (write_deed chain.write)) }
{
    let mut back = List::new(alloc);
    let mut at = Some(place);
    while let Some(here) = at {
        let step = found_at(found, here);
        back.push(step.function)?;
        at = step.caller;
    }
    let mut functions = back.into_vec();
    functions.reverse();
    let functions = List::from_vec(functions);
    Ok(Chain { functions, write })
}

/// A chain of calls from a route with GET to a write, if there is one.
pub fn writing_chain(alloc: Global, code: &Code) -> Result<Option<Chain>, Memory>
    ensures { IfOk result (λ chain. MatchOption chain (GetNeverWrites code.now) (λ c. GetWrites code.now c.functions (write_deed c.write))) }
{
    let mut search = targets_reached(alloc, code)?;
    let mut place = 0;
    while place < search.found.len() {
        let step = found_at(search.found.as_slice(), place);
        let acts = acts_of(alloc, &code.functions, step.function)?;
        match first_write(acts.as_slice()) {
            Some(write) => {
                let chain = chain_to(alloc, code, search.found.as_slice(), place, write)?;
                return Ok(Some(chain));
            }
            None => {
                search = reached_from(search, &acts, place)?;
                place += 1;
            }
        }
    }
    Ok(None)
}
