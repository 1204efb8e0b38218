//! What is said to an arrival.
ghost use Rattle.std.specs.Prelude.{◌≡◌, ◌≤◌, ◌<◌, ◌-◌, ◌==◌, ℕ, suc, [], ◌∷◌, ◌++◌, ◌⊎◌, length, true, false, IsTrue, Option, Some, None};
ghost use Rattle.ur_http.specs.Answers as answers;
ghost use Rattle.ur_http.specs.Answers.{is_sent, phrases};
ghost use Rattle.ur_http.specs.Texts.{IsText};
ghost use Rattle.ur_base.specs.Counts.{Rose};
ghost use Rattle.ur_base.specs.Told.{WhereTold};
ghost use Rattle.ur_serve.specs.Arrivals.{IsAnswerable, IsTextArrival};
ghost use Rattle.ur_serve.specs.Saying.{mark_of, closes_of, bytes_of, MayKeep, Says, Writes, over_after, IsOver};
ghost use Rattle.ur_serve.specs.Faults.{count_at_answer};

use crate::arrivals::Arrival;
use crate::finishing::closes;
use crate::responder::{Reply, Responder};
use std::alloc::Global;
use ur_base::{Bytes, Room};
use ur_http::{HttpRequest, fixed, status_answer};
use ur_io::{Mark, Why, Wire, give};

/// An answer and whether it closes; or that the keeper failed; or that memory is wanting.
#[derive(Debug, Drop)]
pub(crate) enum Said {
    Answer(Bytes, bool),
    Keeper,
    Memory,
}

impl Said {
    fn mark(&self) -> Mark
        ensures { result ≡ mark_of self.now }
    {
        match self {
            Said::Answer(_, _) => Mark::Done,
            Said::Keeper => Mark::Keeper,
            Said::Memory => Mark::Memory,
        }
    }

    fn closes(&self) -> bool
        ensures { result ≡ closes_of self.now }
    {
        match self {
            Said::Answer(_, closes) => *closes,
            _ => true,
        }
    }

    fn bytes(&self) -> &[u8]
        ensures { result.now ≡ bytes_of self.now }
    {
        match self {
            Said::Answer(bytes, _) => bytes.as_slice(),
            Said::Keeper => fixed(502),
            Said::Memory => fixed(503),
        }
    }
}

/// What is said to what came; `last` says that no other item is answered on the connection.
pub(crate) fn reply<K, A: Responder<K>>(
    alloc: Global,
    responder: &mut A,
    keeper: &mut K,
    arrival: &Arrival,
    last: bool,
) -> Said
    requires ready { (bound : A.Bound) × ((n : ℕ) × A.is_ready bound responder.old keeper.old (suc n)) }
    requires answerable { (refused : Option ℕ) × IsAnswerable arrival.now refused }
    requires text { IsTextArrival arrival.now }
    ensures says { WhereTold (A.state responder.old keeper.old) (λ s. Says (A.answers (A.program responder.old)) (A.reaches (A.program responder.old)) A.kept s arrival.now last result (A.state responder.new keeper.new)) }
    ensures closing { MayKeep arrival.now (closes_of result) }
    ensures keeper { result ≡ Said.Keeper → Rose (A.faults keeper.old) (A.faults keeper.new) }
    ensures ready { (bound : A.Bound) (n : ℕ) → A.is_ready bound responder.old keeper.old (suc n) → A.is_ready bound responder.new keeper.new n }
    ensures same { A.program responder.new ≡ A.program responder.old }
    ensures later { A.faults keeper.old ≤ A.faults keeper.new }
{
    match arrival {
        Arrival::Request(request) => answered(alloc, responder, keeper, request, last),
        Arrival::Bad(status) => refused(alloc, *status),
        _ => Said::Memory,
    }
}

/// What is said to a whole request.
fn answered<K, A: Responder<K>>(
    alloc: Global,
    responder: &mut A,
    keeper: &mut K,
    request: &HttpRequest,
    last: bool,
) -> Said
    requires ready { (bound : A.Bound) × ((n : ℕ) × A.is_ready bound responder.old keeper.old (suc n)) }
    requires text { IsText request.now }
    ensures says { WhereTold (A.state responder.old keeper.old) (λ s. Says (A.answers (A.program responder.old)) (A.reaches (A.program responder.old)) A.kept s (Arrival.Request request.now) last result (A.state responder.new keeper.new)) }
    ensures keeper { result ≡ Said.Keeper → Rose (A.faults keeper.old) (A.faults keeper.new) }
    ensures ready { (bound : A.Bound) (n : ℕ) → A.is_ready bound responder.old keeper.old (suc n) → A.is_ready bound responder.new keeper.new n }
    ensures same { A.program responder.new ≡ A.program responder.old }
    ensures later { A.faults keeper.old ≤ A.faults keeper.new }
{
    match responder.answer(alloc, keeper, request, last) {
        Reply::Done(bytes) => {
            let closes = closes(request, last);
            Said::Answer(bytes, closes)
        }
        Reply::Keeper => Said::Keeper,
        Reply::Memory => Said::Memory,
    }
}

/// What is said to bytes that are refused.
fn refused(alloc: Global, status: u16) -> Said
    requires { IsTrue (is_sent phrases status) }
    ensures { (result ≡ Said.Memory) ⊎ (result ≡ Said.Answer (answers.status_answer status [] false true) true) }
{
    match status_answer(alloc, status, "", false, true) {
        Ok(bytes) => Said::Answer(bytes, true),
        Err(_memory) => Said::Memory,
    }
}

/// Sets the mark, and then gives the answer. Says why the session is over, where it is.
pub(crate) fn say<W: Wire>(
    wire: &mut W,
    marks: &mut Room<Mark>,
    said: &Said,
    most: usize,
) -> Option<Why>
    requires current { W.is_current wire.old ≡ true }
    requires spare { 0 < marks.old.spare }
    ensures marks { marks.new ≡ record { items = marks.old.items ++ mark_of said.now ∷ []; spare = marks.old.spare - 1 } }
    ensures writes { WhereTold (W.told wire.old) (λ t. Writes t (bytes_of said.now) result (W.told wire.new)) }
    ensures over { IsOver (length marks.new.items == most) (closes_of said.now) result }
    ensures wire { result ≡ Some Why.Wire → Rose (W.faults wire.old) (W.faults wire.new) }
    ensures counted { W.faults wire.new ≡ count_at_answer result (W.faults wire.old) }
    ensures current { W.is_current wire.new ≡ true }
    ensures later { W.faults wire.old ≤ W.faults wire.new }
{
    marks.push(said.mark());
    let full = marks.items().len() == most;
    match give(wire, said.bytes()) {
        Ok(()) => over_after(full, said.closes()),
        Err(_failed) => Some(Why::Wire),
    }
}

/// Whether a session is over after an answer that was given, and why.
fn over_after(full: bool, closes: bool) -> Option<Why>
    ensures { result ≡ over_after full closes }
{
    if full {
        Some(Why::Full)
    } else if closes {
        Some(Why::Closed)
    } else {
        None
    }
}
