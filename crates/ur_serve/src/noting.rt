//! What the turns of a run asked.
ghost use Rattle.std.specs.Prelude.{◌≡◌, ◌∷◌, ◌++◌, List as GhostList, [], Some, IfSome};
ghost use Rattle.ur_values.specs.Event.{Event};
ghost use Rattle.ur_code.specs.declared.code.Code.{Code};
ghost use Rattle.ur_machine.specs.Reached.{HasReached};
ghost use Rattle.ur_serve.specs.Noting.{IsNoted};

use ur_base::List;
use ur_machine::Reached;
use ur_pages::Ask;
use ur_values::Atom;

/// The most queries that a page has asked that is remembered.
const MOST_ASKS: usize = 256;

/// Notes what a turn came to. Nothing is noted any more once it is neither a query nor nothing, or one query too many, or memory
/// is wanting.
pub(crate) fn note(asks: &mut Option<List<Ask>>, reached: Reached)
    ensures { (code : Code) (events : GhostList Event) → HasReached code reached events → IsNoted code asks.old asks.new events }
{
    match asks.take() {
        None => {}
        Some(before) => *asks = with_reached(before, reached),
    }
}

/// The queries with what a turn came to.
fn with_reached(asks: List<Ask>, reached: Reached) -> Option<List<Ask>>
    ensures { (code : Code) (events : GhostList Event) → HasReached code reached events → IsNoted code (Some asks) result events }
{
    match reached {
        Reached::Nothing => Some(asks),
        Reached::Query(site, key) => with_query(asks, site, key),
        _ => None,
    }
}

fn with_query(asks: List<Ask>, site: u32, key: Option<List<Atom>>) -> Option<List<Ask>>
    ensures { (code : Code) (events : GhostList Event) → HasReached code (Reached.Query site key) events → IsNoted code (Some asks) result events }
{
    match key {
        None => None,
        Some(key) => with_ask(asks, Ask { site, key }),
    }
}

/// The queries with one more, where there is room.
fn with_ask(asks: List<Ask>, ask: Ask) -> Option<List<Ask>>
    ensures { IfSome result (λ more. more ≡ asks ++ ask ∷ []) }
{
    if asks.len() >= MOST_ASKS {
        return None;
    }
    let mut more = asks;
    match more.push(ask) {
        Ok(()) => Some(more),
        Err(_memory) => None,
    }
}
