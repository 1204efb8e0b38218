//! One connection, served.
ghost use Rattle.std.specs.Prelude.{◌≡◌, ◌≤◌, ◌<◌, ◌+◌, ℕ, false, length};
ghost use Rattle.ur_base.specs.Counts.{RoseBy};
ghost use Rattle.ur_base.specs.Told.{WhereTold, Tells};
ghost use Rattle.ur_io.specs.Calls.{count_after};
ghost use Rattle.ur_serve.specs.Serving.{IsReadyWithin};
ghost use Rattle.ur_serve.specs.Sessions.{most_of_one};
ghost use Rattle.ur_serve.specs.Responding.{served_by, holding_of};
ghost use Rattle.ur_headline.specs.Counting.{keeper_fault, is_wire};
ghost use Rattle.ur_top.specs.Serving.{IfServed, IfOver, HasNext, IsTaken, IsOver};

use crate::reporting::RunEnd;
use std::alloc::Global;
use ur_base::{List, Room};
use ur_http::Splitter;
use ur_io::{SessionEnd, Wire};
use ur_keeper::Keeper;
use ur_serve::{Server, session};

/// The most requests that are answered on one connection.
const MOST_OF_ONE: usize = 1_000;

/// The session of the next connection, or how the run ends without one.
#[derive(Drop)]
pub(crate) enum Next {
    Served(SessionEnd),
    Over(RunEnd),
}

/// Serves the wire's next connection, where it has one, by so many answers at most. Room for the marks is taken first.
pub(crate) fn serve_next<W: Wire, K: Keeper>(
    alloc: Global,
    server: &mut Server,
    left: usize,
    splitter: &mut Splitter,
    wire: &mut W,
    keeper: &mut K,
) -> Next
    requires ready { (bound : ℕ) × IsReadyWithin bound server.old (K.kept keeper.old) (K.under_way keeper.old) (K.saved keeper.old) left }
    requires some { 0 < left }
    ensures session { IfServed result (λ s. HasNext (served_by server.old) left (W.told wire.old) (holding_of server.old (K.saved keeper.old) (K.reads keeper.old)) s
        (W.told wire.new) (holding_of server.new (K.saved keeper.new) (K.reads keeper.new))) }
    ensures taken { IfServed result (λ s. IsTaken (W.told wire.old) (W.told wire.new)) }
    ensures few { IfServed result (λ s. length s.marks ≤ left) }
    ensures short { IfServed result (λ s. length s.marks ≤ most_of_one) }
    ensures keeper_fault { IfServed result (λ s. RoseBy (keeper_fault s) (K.faults keeper.old) (K.faults keeper.new)) }
    ensures wire_counted { IfServed result (λ s. W.faults wire.new ≡ count_after (is_wire s.why) (W.faults wire.old)) }
    ensures shut { IfServed result (λ s. W.is_current wire.new ≡ false) }
    ensures ready { IfServed result (λ s. (bound n : ℕ) → IsReadyWithin bound server.old (K.kept keeper.old) (K.under_way keeper.old) (K.saved keeper.old) (length s.marks + n)
        → IsReadyWithin bound server.new (K.kept keeper.new) (K.under_way keeper.new) (K.saved keeper.new) n) }
    ensures over { IfOver result (IsOver (W.told wire.old) (W.told wire.new) (W.faults wire.old) (W.faults wire.new) (W.is_current wire.old) (W.is_current wire.new)) }
    ensures untouched { IfOver result (λ e. (server.new ≡ server.old) × (keeper.new ≡ keeper.old)) }
    ensures same { served_by server.new ≡ served_by server.old }
    ensures never_fall { (W.faults wire.old ≤ W.faults wire.new) × (K.faults keeper.old ≤ K.faults keeper.new) }
{
    let most = MOST_OF_ONE.min(left);
    let Ok(marks) = Room::new(alloc, most) else {
        return Next::Over(RunEnd::Memory);
    };
    match wire.next() {
        Ok(true) => {}
        Ok(false) => return Next::Over(RunEnd::Done),
        Err(_) => return Next::Over(RunEnd::Wire),
    }
    let end = session(alloc, server, keeper, wire, splitter, marks, most as u32);
    wire.shut();
    Next::Served(trimmed(alloc, end))
}

/// The same without room that its marks do not take, where memory is there for a copy of them.
fn trimmed(alloc: Global, end: SessionEnd) -> SessionEnd
    ensures { result ≡ end }
{
    match List::from_slice(alloc, end.marks.as_slice()) {
        Ok(marks) => SessionEnd {
            marks,
            why: end.why,
        },
        Err(_) => end,
    }
}
