//! Connections, served one after the other.
ghost use Rattle.std.specs.Prelude.{◌≡◌, ◌≤◌, ◌↔◌, ℕ, false, [], length, Some, IsTrue, Any};
ghost use Rattle.ur_base.specs.Counts.{RoseBy};
ghost use Rattle.ur_base.specs.Told.{WhereTold, Tells};
ghost use Rattle.ur_keeper.specs.Tables.{NumbersUpTo, store_of};
ghost use Rattle.ur_serve.specs.Serving.{IsReady};
ghost use Rattle.ur_headline.specs.Counting.{keeper_faults, IsCutOff};
ghost use Rattle.ur_headline.specs.Served.{HasServed};
ghost use Rattle.ur_top.specs.Runs.{IsUncalled};
ghost use Rattle.ur_top.specs.Serving.{HasFewRequests, ServesOn};

use crate::next_connection::{Next, serve_next};
use crate::reporting::RunEnd;
use crate::serving::{EndedServing, unserved};
use std::alloc::Global;
use ur_base::{List, Room};
use ur_http::Splitter;
use ur_io::{SessionEnd, Why, Wire};
use ur_keeper::Keeper;
use ur_serve::Server;

/// The most requests that a run answers.
pub(crate) const MOST_REQUESTS: u32 = 16_777_216;

/// Serves so many connections at most, and as long as requests may be answered. Room for what is kept of them is taken first.
pub(crate) fn serve_connections<W: Wire, K: Keeper>(
    alloc: Global,
    mut server: Server,
    most: u32,
    wire: &mut W,
    keeper: &mut K,
) -> EndedServing
    requires ready { IsReady server (K.kept keeper.old) (K.under_way keeper.old) (K.saved keeper.old) }
    requires numbers { WhereTold (K.saved keeper.old) (NumbersUpTo 4611686018427387904) }
    requires units { server.steps ≤ 4294967295 }
    requires fresh { server.cache.entries ≡ [] }
    ensures served { WhereTold (W.told wire.old) (λ t. WhereTold (K.saved keeper.old) (λ tables. Tells (W.told wire.new) (λ u. Tells (K.saved keeper.new) (λ after.
        HasServed server (store_of tables) (K.reads keeper.old) t result.sessions (store_of after) (K.reads keeper.new) u)))) }
    ensures ends { ServesOn most (W.told wire.old) (W.faults wire.old) (W.faults wire.new) (W.is_current wire.new) result.end result.sessions }
    ensures keeper_faults { RoseBy (keeper_faults result.sessions) (K.faults keeper.old) (K.faults keeper.new) }
    ensures few { length result.sessions ≤ most }
    ensures requests { HasFewRequests result.sessions }
    ensures idle { result.sessions ≡ [] → WhereTold (W.told wire.old) (λ t. W.told wire.new ≡ Some t) × (K.reads keeper.new ≡ K.reads keeper.old) × (K.saved keeper.new ≡ K.saved keeper.old) }
    // Memory was wanting before a connection was asked for.
    ensures wanting { result.sessions ≡ [] → result.end ≡ RunEnd.Memory → IsUncalled W.told W.faults W.is_current wire.old wire.new }
    ensures kept { K.kept keeper.new ≡ K.kept keeper.old }
    ensures at_rest { K.under_way keeper.new ≡ false }
    ensures never_fall { (W.faults wire.old ≤ W.faults wire.new) × (K.faults keeper.old ≤ K.faults keeper.new) }
{
    let Ok(mut splitter) = Splitter::new(alloc) else {
        return unserved(alloc, RunEnd::Memory);
    };
    let Ok(mut sessions) = Room::new(alloc, most as usize) else {
        return unserved(alloc, RunEnd::Memory);
    };
    let mut left = MOST_REQUESTS as usize;
    for _turn in 0..most {
        if left == 0 {
            return served(RunEnd::Done, sessions);
        }
        match serve_next(alloc, &mut server, left, &mut splitter, wire, keeper) {
            Next::Served(session) => {
                left = left.saturating_sub(session.marks.len());
                sessions.push(session);
            }
            Next::Over(end) => return served(end, sessions),
        }
    }
    served(RunEnd::Done, sessions)
}

fn served(end: RunEnd, sessions: Room<SessionEnd>) -> EndedServing
    ensures { result ≡ record { end = end; sessions = sessions.items } }
{
    EndedServing {
        end,
        sessions: sessions.list(),
    }
}

/// Whether the wire cut a session off.
pub(crate) fn was_cut_off(sessions: &List<SessionEnd>) -> bool
    ensures { IsTrue result ↔ Any IsCutOff sessions.now }
{
    for session in sessions.as_slice() {
        if session.why == Why::Wire {
            return true;
        }
    }
    false
}
