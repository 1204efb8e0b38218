//! Requests in pieces: one request byte by byte, and many small ones in large pieces.
ghost use Rattle.std.specs.Prelude.{◌<◌};

use std::alloc::Global;
use std::fmt;
use ur_base::Memory;
use ur_http::{Item, Splitter};

/// The greatest number of each part of a request, and of requests.
pub const MOST: u32 = 2_000_000;

/// The number of bytes of a large piece.
const LARGE: usize = 65_536;

/// The greatest number of requests that are taken out after one piece.
const MOST_AT_ONCE: u64 = 100_000;

/// The parts of a request: how many empty lines stand before it, how many fields of three bytes it has, and how many
/// bytes its long field and its body have.
#[derive(Clone, Copy, Debug)]
pub struct Parts {
    pub empty_lines: u32,
    pub short_fields: u32,
    pub long_field: u32,
    pub body: u32,
}

/// How many bytes were taken, and what the last of them gave: so many requests, and whether they were refused.
#[derive(Clone, Copy, Debug, PartialEq, Eq)]
pub struct Cut {
    taken: usize,
    requests: u64,
    refused: bool,
}

impl fmt::Display for Cut {
    fn fmt<W: fmt::Write>(&self, f: &mut fmt::Formatter<W>) -> fmt::Result {
        write!(
            f,
            "taken {} requests {} refused {}",
            self.taken, self.requests, self.refused
        )
    }
}

/// Cuts one request that comes byte by byte.
pub fn cut_bytes(alloc: Global, parts: Parts) -> Result<Cut, Memory> {
    let mut bytes = Vec::new(alloc);
    push_request(alloc, &mut bytes, parts)?;
    feed_all(alloc, bytes.as_slice(), 1)
}

/// Cuts so many requests without a body that come in large pieces.
pub fn cut_pipelined(alloc: Global, requests: u32) -> Result<Cut, Memory> {
    let mut bytes = Vec::new(alloc);
    push_times(&mut bytes, b"GET /a HTTP/1.1\r\nHost: h\r\n\r\n", requests)?;
    feed_all(alloc, bytes.as_slice(), LARGE)
}

fn push_request(alloc: Global, bytes: &mut Vec<u8>, parts: Parts) -> Result<(), Memory> {
    push_times(bytes, b"\n", parts.empty_lines)?;
    let body = parts.body;
    let lines = format!(in alloc; "POST /a HTTP/1.1\r\nHost: h\r\nContent-Length: {body}\r\n")?;
    bytes.extend_from_slice(lines.as_bytes())?;
    push_times(bytes, b"a:\n", parts.short_fields)?;
    bytes.extend_from_slice(b"X: ")?;
    push_times(bytes, b"x", parts.long_field)?;
    bytes.extend_from_slice(b"\r\n\r\n")?;
    push_times(bytes, b"x", body)
}

fn push_times(bytes: &mut Vec<u8>, part: &[u8], times: u32) -> Result<(), Memory> {
    for _ in 0..times {
        bytes.extend_from_slice(part)?;
    }
    Ok(())
}

/// Feeds the bytes in pieces of this size, and takes out what they give after each piece.
fn feed_all(alloc: Global, bytes: &[u8], size: usize) -> Result<Cut, Memory>
    requires { 0 < size }
{
    let mut splitter = Splitter::new(alloc)?;
    let mut cut = Cut {
        taken: 0,
        requests: 0,
        refused: false,
    };
    for piece in bytes.chunks(size) {
        let taken = splitter.feed(piece);
        cut.taken = cut.taken.saturating_add(taken);
        take_out(&mut splitter, &mut cut)?;
    }
    Ok(cut)
}

/// Takes out the requests that are whole.
fn take_out(splitter: &mut Splitter, cut: &mut Cut) -> Result<(), Memory> {
    for _ in 0..MOST_AT_ONCE {
        match splitter.next()? {
            Item::Request(_) => cut.requests = cut.requests.saturating_add(1),
            Item::NeedMore => return Ok(()),
            Item::Bad(_) => {
                cut.refused = true;
                return Ok(());
            }
        }
    }
    Ok(())
}
