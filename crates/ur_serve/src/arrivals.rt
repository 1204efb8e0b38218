//! What comes on a connection.
ghost use Rattle.std.specs.Prelude.{◌≡◌, ◌≢◌, ◌≤◌, ◌<◌, ◌+◌, ◌++◌, true, length, take, [], None, IfOk, OnErr, OnOk, ⊤};
ghost use Rattle.ur_base.specs.Counts.{Rose};
ghost use Rattle.ur_base.specs.Told.{WhereTold, Tells};
ghost use Rattle.ur_io.specs.Calls.{CountsCall};
ghost use Rattle.ur_http.specs.Items.{Begins, more, greatest_request};
ghost use Rattle.ur_serve.specs.Arrivals.{HasTaken, ComesOn, IsFed, IsAnswerable, IsTextArrival};
ghost use Rattle.ur_serve.specs.Faults.{count_at_arrival};

use ur_http::{HttpRequest, Item, Splitter};
use ur_io::{Failed, Why, Wire};

/// A whole request, or bytes that are refused with a status; or that memory is wanting; or why nothing comes any more.
#[derive(Debug, Drop)]
pub(crate) enum Arrival {
    Request(HttpRequest),
    Bad(u16),
    Memory,
    Ended(Why),
}

/// Reads until an item is whole.
pub(crate) fn next_arrival<W: Wire>(
    wire: &mut W,
    splitter: &mut Splitter,
    buffer: &mut [u8],
) -> Arrival
    requires current { W.is_current wire.old ≡ true }
    requires buffer { 0 < length buffer.old }
    requires open { splitter.old.refused ≡ None }
    ensures comes { WhereTold (W.told wire.old) (λ t. ComesOn splitter.old.left splitter.new.left result t (W.told wire.new)) }
    ensures taken { WhereTold (W.told wire.old) (λ t. Tells (W.told wire.new) (HasTaken greatest_request t)) }
    ensures answerable { IsAnswerable result splitter.new.refused }
    ensures text { IsTextArrival result }
    ensures wire { result ≡ Arrival.Ended Why.Wire → Rose (W.faults wire.old) (W.faults wire.new) }
    ensures counted { W.faults wire.new ≡ count_at_arrival result (W.faults wire.old) }
    ensures buffer { length buffer.new ≡ length buffer.old }
    ensures current { W.is_current wire.new ≡ true }
    ensures later { W.faults wire.old ≤ W.faults wire.new }
{
    loop {
        match splitter.next() {
            Ok(Item::Request(request)) => return Arrival::Request(request),
            Ok(Item::Bad(status)) => return Arrival::Bad(status),
            Err(_memory) => return Arrival::Memory,
            Ok(Item::NeedMore) => {}
        }
        match fill(wire, splitter, buffer) {
            Ok(0) => return Arrival::Ended(end_of_input(splitter)),
            Ok(_count) => {}
            Err(_failed) => return Arrival::Ended(Why::Wire),
        }
    }
}

/// How the input ended.
fn end_of_input(splitter: &Splitter) -> Why
    ensures end { splitter.now.left ≡ [] → result ≡ Why.End }
    ensures cut { splitter.now.left ≢ [] → result ≡ Why.Truncated }
{
    if splitter.is_empty() {
        Why::End
    } else {
        Why::Truncated
    }
}

/// Reads once, no more than the splitter has room for, and feeds what came.
fn fill<W: Wire>(wire: &mut W, splitter: &mut Splitter, buffer: &mut [u8]) -> Result<usize, Failed>
    requires current { W.is_current wire.old ≡ true }
    requires buffer { 0 < length buffer.old }
    requires more { Begins splitter.old.left more }
    ensures fed { WhereTold (W.told wire.old) (λ t. IfOk result (λ n. Tells (W.told wire.new) (IsFed t n splitter.old.left splitter.new.left))) }
    ensures taken { WhereTold (W.told wire.old) (λ t. IfOk result (λ n. Tells (W.told wire.new) (HasTaken n t))) }
    ensures err { OnErr result ((W.told wire.new ≡ W.told wire.old) × (splitter.new ≡ splitter.old)) }
    ensures grown { IfOk result (λ n. length splitter.new.left ≡ length splitter.old.left + n) }
    ensures fits { IfOk result (λ _. length splitter.new.left ≤ greatest_request) }
    ensures open { splitter.new.refused ≡ splitter.old.refused }
    ensures buffer { length buffer.new ≡ length buffer.old }
    ensures current { W.is_current wire.new ≡ true }
    ensures counts { CountsCall (W.faults wire.old) (W.faults wire.new) result }
{
    let most = buffer.len().min(splitter.room());
    let count = wire.read(&mut buffer[..most])?;
    splitter.feed(&buffer[..count]);
    Ok(count)
}
