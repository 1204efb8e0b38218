//! The session of one connection.
ghost use Rattle.std.specs.Prelude.{◌≡◌, ◌⊎◌, ◌≤◌, ◌<◌, ◌+◌, ◌*◌, ◌++◌, ℕ, List, true, [], ◌∷◌, length, All, Any};
ghost use Rattle.ur_base.specs.Counts.{Rose};
ghost use Rattle.ur_base.specs.Told.{WhereTold, Tells};
ghost use Rattle.ur_http.specs.Items.{greatest_request};
ghost use Rattle.ur_serve.specs.Arrivals.{HasTaken};
ghost use Rattle.ur_serve.specs.Faults.{count_at_end};
ghost use Rattle.ur_serve.specs.Programs.{IsSessionOn};

use crate::arrivals::{Arrival, next_arrival};
use crate::responder::Responder;
use crate::saying::{reply, say};
use std::alloc::Global;
use ur_base::Room;
use ur_http::Splitter;
use ur_io::{Mark, SessionEnd, Why, Wire};

/// The most bytes of one read.
const READ_SIZE: usize = 4_096;

/// Answers the requests of the current connection, of whose input nothing was taken yet, at most so many.
pub fn session<K, A: Responder<K>, W: Wire>(
    alloc: Global,
    responder: &mut A,
    keeper: &mut K,
    wire: &mut W,
    splitter: &mut Splitter,
    mut marks: Room<Mark>,
    most: u32,
) -> SessionEnd
    requires ready { (bound : A.Bound) × A.is_ready bound responder.old keeper.old most }
    requires current { W.is_current wire.old ≡ true }
    requires room { (marks.items ≡ []) × (most ≤ marks.spare) }
    requires some { 0 < most }
    // The session is the program's on what is left of the connection's input.
    ensures session { WhereTold (W.told wire.old) (λ t. WhereTold (A.state responder.old keeper.old) (λ s.
        Tells (W.told wire.new) (λ u. Tells (A.state responder.new keeper.new) (λ after.
        IsSessionOn (A.answers (A.program responder.old)) (A.reaches (A.program responder.old)) A.kept most s t result after u)))) }
    ensures keeper { Any (λ m. m ≡ Mark.Keeper) result.marks → Rose (A.faults keeper.old) (A.faults keeper.new) }
    ensures wire { result.why ≡ Why.Wire → Rose (W.faults wire.old) (W.faults wire.new) }
    // One call of the wire failed where it ended the session, and none else.
    ensures counted { W.faults wire.new ≡ count_at_end result.why (W.faults wire.old) }
    // The input's end is met only where nothing of it is left.
    ensures ended { (result.why ≡ Why.End) ⊎ (result.why ≡ Why.Truncated) → WhereTold (W.told wire.old) (λ _. Tells (W.told wire.new) (λ u. u.left ≡ [])) }
    ensures current { W.is_current wire.new ≡ true }
    // At most so many marks, and no connection is taken, whatever is told.
    ensures few { length result.marks ≤ most }
    ensures coming { WhereTold (W.told wire.old) (λ t. Tells (W.told wire.new) (λ u. u.coming ≡ t.coming)) }
    // All marks but the last are of answers, whatever is told.
    ensures last { (before : List Mark) (m : Mark) → result.marks ≡ before ++ m ∷ [] → All (λ k. k ≡ Mark.Done) before }
    // No more is taken than a greatest request for each of the most marks.
    ensures taken { WhereTold (W.told wire.old) (λ t. Tells (W.told wire.new) (HasTaken (most * greatest_request) t)) }
    ensures ready { (bound : A.Bound) (n : ℕ) → A.is_ready bound responder.old keeper.old (length result.marks + n) → A.is_ready bound responder.new keeper.new n }
    ensures same { A.program responder.new ≡ A.program responder.old }
    ensures never_fall { (A.faults keeper.old ≤ A.faults keeper.new) × (W.faults wire.old ≤ W.faults wire.new) }
{
    splitter.clear();
    let mut buffer = [0u8; READ_SIZE];
    let limit = most as usize;
    loop {
        let arrival = next_arrival(wire, splitter, &mut buffer);
        if let Arrival::Ended(why) = arrival {
            return ended(marks, why);
        }
        let last = marks.items().len() + 1 == limit;
        let said = reply(alloc, responder, keeper, &arrival, last);
        drop(arrival);
        let over = say(wire, &mut marks, &said, limit);
        drop(said);
        match over {
            Some(why) => return ended(marks, why),
            None => {}
        }
    }
}

/// The end of a session.
fn ended(marks: Room<Mark>, why: Why) -> SessionEnd
    ensures { result ≡ record { marks = marks.items; why = why } }
{
    SessionEnd {
        marks: marks.list(),
        why,
    }
}
