//! Bytes that come in pieces.
ghost use Rattle.std.specs.Prelude.{◌≡◌, ◌+◌, ◌-◌, ◌<◌, ◌≤◌, ◌++◌, length, take, drop, min, vec_capacity, None, IfOk, OnErr, IsTrue, true, false, ◌==◌, ◌*◌, ◌↔◌, []};
ghost use Rattle.ur_http.specs.Reading.{IsBegun};
ghost use Rattle.ur_http.specs.Requests.{greatest_head};
ghost use Rattle.ur_http.specs.Buffers.{IsKnown};
ghost use Rattle.ur_http.specs.Items.{Gives, Begins, more, empty, greatest_request};
ghost use Rattle.ur_http.specs.Texts.{IsTextItem};

use crate::request::Item;
use crate::sought::{Known, known_of, known_still};
use crate::starts::{Begun, start};
use httparse::spans::{EMPTY_HEADER_SPAN, HeaderSpan};
use std::alloc::Global;
use std::marker::Model;
use ur_base::Memory;

/// The number of bytes of one greatest request: of its head and of its body.
const GREATEST_REQUEST: usize = 1_064_960;

/// The number of fields for which there is room: more than the greatest head can hold, since a field line has three
/// bytes or more.
const FIELD_ROOM: usize = 5_462;

/// Cuts bytes that come in pieces into requests. Contracts see the bytes that are not yet given out in a request,
/// and the status with which the bytes were refused. It has room for one greatest request, 1,064,960 bytes.
#[derive(Debug, Drop)]
pub struct Splitter {
    alloc: Global,
    bytes: Vec<u8>,
    from: usize,
    spans: Vec<HeaderSpan>,
    known: Known,
    refused: Option<u16>,
}

impl Model for Splitter {
    ghost use Rattle.std.specs.Prelude.{drop, length, vec_capacity};
    ghost use Rattle.ur_http.specs.Items.{SplitterState};
    ghost use Rattle.ur_http.specs.Buffers.{IsBuffer};

    ghost Value = { SplitterState };

    ghost view = { λ s. record { left = drop s.from s.bytes.items; refused = s.refused } };

    ghost invariant = { λ s. IsBuffer s.bytes.items (vec_capacity s.bytes) s.from (length s.spans.items) s.known };
}

impl Splitter {
    /// No bytes. Takes the room of one greatest request; later calls of `feed` and `clear` take no memory.
    pub fn new(alloc: Global) -> Result<Splitter, Memory>
        ensures { IfOk result (λ s. s ≡ empty) }
    {
        let bytes = Vec::with_capacity(alloc, GREATEST_REQUEST)?;
        let spans = empty_spans(alloc)?;
        Ok(Splitter {
            alloc,
            bytes,
            from: 0,
            spans,
            known: Known::Nothing,
            refused: None,
        })
    }

    /// As new. Takes no memory.
    pub fn clear(&mut self)
        ensures { self.new ≡ empty }
    {
        self.bytes.clear();
        self.from = 0;
        self.known = Known::Nothing;
        self.refused = None;
    }

    /// Takes as many bytes from the front of the piece as there is room for, and gives their number. Where it is less
    /// than the piece's the room is full, and then `next` does not need more. Takes no memory.
    pub fn feed(&mut self, piece: &[u8]) -> usize
        ensures count { result ≡ min (length piece.now) (greatest_request - length self.old.left) }
        ensures taken { self.new ≡ record self.old { left = self.old.left ++ take result piece.now } }
        ensures full { result < length piece.now → self.old.refused ≡ None → ¬ (Begins self.new.left more) }
    {
        let left = self.bytes.len() - self.from;
        let count = piece.len().min(GREATEST_REQUEST - left);
        self.from = make_room(&mut self.bytes, self.from, count);
        let Ok(()) = self.bytes.extend_from_slice(&piece[..count]) else {
            unreachable!()
        };
        count
    }

    /// Whether no byte is left that stands in no request given out.
    pub fn is_empty(&self) -> bool
        ensures { IsTrue result ↔ (self.now.left ≡ []) }
    {
        self.from == self.bytes.len()
    }

    /// How many bytes `feed` takes.
    pub fn room(&self) -> usize
        ensures count { result ≡ greatest_request - length self.now.left }
        ensures some { Begins self.now.left more → 0 < result }
    {
        GREATEST_REQUEST - (self.bytes.len() - self.from)
    }

    /// The next whole request; that more bytes are needed; or the status with which the bytes are refused, which all
    /// later calls give again. Without memory nothing changes.
    #[tactic(auto, using(crate::proofs::Texts::begun_text))]
    pub fn next(&mut self) -> Result<Item, Memory>
        ensures item { IfOk result (λ item. Gives self.old item self.new) }
        ensures text { IfOk result IsTextItem }
        ensures err { OnErr result (self.new ≡ self.old) }
    {
        if let Some(status) = self.refused {
            return Ok(Item::Bad(status));
        }
        let left = &self.bytes[self.from..];
        if let Some(known) = known_still(self.alloc, left, self.known, &mut self.spans)? {
            self.known = known;
            return Ok(Item::NeedMore);
        }
        match found(self.alloc, left, self.known, &mut self.spans)? {
            Begun::Request(request, length) => {
                self.from += length;
                self.known = Known::Nothing;
                Ok(Item::Request(request))
            }
            Begun::Waits(length) => {
                self.known = Known::Waits(length);
                Ok(Item::NeedMore)
            }
            Begun::Seeks => {
                self.known = known_of(self.alloc, left, &mut self.spans)?;
                Ok(Item::NeedMore)
            }
            Begun::Fault(status) => {
                self.refused = Some(status);
                Ok(Item::Bad(status))
            }
        }
    }
}

fn empty_spans(alloc: Global) -> Result<Vec<HeaderSpan>, Memory>
    ensures { IfOk result (λ spans. length spans.items ≡ FIELD_ROOM) }
{
    Ok(vec![in alloc; EMPTY_HEADER_SPAN; FIELD_ROOM]?)
}

/// What the bytes begin with. What is known may show that they need more, without a look at all of them.
fn found(
    alloc: Global,
    left: &[u8],
    known: Known,
    spans: &mut [HeaderSpan],
) -> Result<Begun, Memory>
    requires known { IsKnown left.now known }
    requires room { greatest_head < 3 * length spans.old }
    ensures { IfOk result (IsBegun left.now) }
{
    match known {
        Known::Waits(length) => {
            if left.len() < length {
                return Ok(Begun::Waits(length));
            }
            start(alloc, left, spans)
        }
        _ => start(alloc, left, spans),
    }
}

/// Room behind the bytes from this one on, whose place it gives: they move to the front only where there is none.
fn make_room(bytes: &mut Vec<u8>, from: usize, count: usize) -> usize
    requires begins { from ≤ length bytes.old.items }
    requires within { length bytes.old.items ≤ greatest_request }
    requires fits { length bytes.old.items - from + count ≤ greatest_request }
    ensures begins { result ≤ length bytes.new.items }
    ensures same { drop result bytes.new.items ≡ drop from bytes.old.items }
    ensures room { length bytes.new.items + count ≤ greatest_request }
    ensures capacity { vec_capacity bytes.new ≡ vec_capacity bytes.old }
{
    if count <= GREATEST_REQUEST - bytes.len() {
        return from;
    }
    drop_front(bytes, from);
    0
}

/// Takes the first bytes away.
fn drop_front(bytes: &mut Vec<u8>, count: usize)
    requires { count ≤ length bytes.old.items }
    ensures items { bytes.new.items ≡ drop count bytes.old.items }
    ensures capacity { vec_capacity bytes.new ≡ vec_capacity bytes.old }
{
    let left = bytes.len() - count;
    bytes.copy_within(count.., 0);
    bytes.truncate(left);
}
