//! What is known of bytes in which a head is still sought, so that each line of them is read only a few times.
ghost use Rattle.std.specs.Prelude.{◌≡◌, ◌++◌, ◌∷◌, [], ℕ, List, ◌<◌, ◌≤◌, length, take, drop, true, false, IfOk, IfSome, ◌==◌};
ghost use Rattle.std.specs.List.{list_any};
ghost use Rattle.httparse.specs.Grammar.{LineEnd, print_end};
ghost use Rattle.ur_http.specs.Buffers.{IsKnown, AreEmptyLines, IsFront, AreFields};
ghost use Rattle.ur_http.specs.Items as items;
ghost use Rattle.ur_http.specs.Items.{Begins, more};
ghost use Rattle.ur_http.specs.Requests.{greatest_head};

use crate::starts::{GREATEST_HEAD, window};
use httparse::Status;
use httparse::spans::{HeaderSpan, parse_headers, parse_request};
use std::alloc::Global;
use ur_base::Memory;

/// What is known of the bytes that are left: nothing; that the whole lines of the first so many of them are empty, or are
/// a head but for the empty line at its end; or that their first request has so many bytes.
#[derive(Copy, Clone, Debug)]
pub(crate) enum Known {
    Nothing,
    EmptyLines(usize),
    Fields(usize),
    Waits(usize),
}

/// What is known of bytes in which a head is sought.
pub(crate) fn known_of(
    alloc: Global,
    bytes: &[u8],
    spans: &mut [HeaderSpan],
) -> Result<Known, Memory>
    ensures { IfOk result (IsKnown bytes.now) }
{
    let lines = window(bytes);
    if are_empty_lines(lines) {
        return Ok(Known::EmptyLines(bytes.len()));
    }
    if is_front(alloc, lines, spans)? {
        return Ok(Known::Fields(bytes.len()));
    }
    Ok(Known::Nothing)
}

/// What is known of the bytes, where the lines behind those of which something is known show that they need more.
pub(crate) fn known_still(
    alloc: Global,
    bytes: &[u8],
    known: Known,
    spans: &mut [HeaderSpan],
) -> Result<Option<Known>, Memory>
    requires { IsKnown bytes.now known }
    ensures { IfOk result (λ found. IfSome found (λ known. IsKnown bytes.now known × Begins bytes.now more)) }
{
    match known {
        Known::EmptyLines(seen) => Ok(still_empty(bytes, seen)),
        Known::Fields(seen) => still_fields(alloc, bytes, seen, spans),
        _ => Ok(None),
    }
}

fn still_empty(bytes: &[u8], seen: usize) -> Option<Known>
    requires { IsKnown bytes.now (Known.EmptyLines seen) }
    ensures { IfSome result (λ known. IsKnown bytes.now known × Begins bytes.now more) }
{
    if bytes.len() >= GREATEST_HEAD {
        return None;
    }
    if are_empty_lines(new_lines(bytes, seen)) {
        return Some(Known::EmptyLines(bytes.len()));
    }
    None
}

fn still_fields(
    alloc: Global,
    bytes: &[u8],
    seen: usize,
    spans: &mut [HeaderSpan],
) -> Result<Option<Known>, Memory>
    requires { IsKnown bytes.now (Known.Fields seen) }
    ensures { IfOk result (λ found. IfSome found (λ known. IsKnown bytes.now known × Begins bytes.now more)) }
{
    if bytes.len() >= GREATEST_HEAD {
        return Ok(None);
    }
    if are_fields(alloc, new_lines(bytes, seen), spans)? {
        return Ok(Some(Known::Fields(bytes.len())));
    }
    Ok(None)
}

/// The whole lines of the window that are not in that of the first so many bytes.
fn new_lines(bytes: &[u8], seen: usize) -> &[u8]
    requires within { seen ≤ length bytes.now }
    requires short { length bytes.now < greatest_head }
    ensures { items.window bytes.now ≡ items.window (take seen bytes.now) ++ result.now }
{
    if has_no_line_end(&bytes[seen..]) {
        return b"";
    }
    let old = lines_seen(bytes, seen);
    &window(bytes)[old..]
}

/// How many bytes the whole lines of the first so many bytes have.
fn lines_seen(bytes: &[u8], seen: usize) -> usize
    requires { seen ≤ length bytes.now }
    ensures is { result ≡ length (items.window (take seen bytes.now)) }
    ensures within { result ≤ length (items.window bytes.now) }
{
    window(&bytes[..seen]).len()
}

fn has_no_line_end(bytes: &[u8]) -> bool
    ensures { result ≡ true → list_any (λ b. b == 10) bytes.now ≡ false }
{
    !bytes.contains(&b'\n')
}

// ---- empty lines

fn are_empty_lines(bytes: &[u8]) -> bool
    ensures { result ≡ true → AreEmptyLines bytes.now }
{
    let mut left = bytes;
    while let Some(rest) = after_empty_line(left) {
        left = rest;
    }
    left.is_empty()
}

/// What follows an empty line at the front.
fn after_empty_line(bytes: &[u8]) -> Option<&[u8]>
    ensures is { IfSome result (λ rest. (end : LineEnd) × (bytes.now ≡ print_end end ++ rest.now)) }
    ensures shorter { IfSome result (λ rest. length rest.now < length bytes.now) }
{
    if let Some(rest) = bytes.strip_prefix(b"\n") {
        return Some(rest);
    }
    match bytes.strip_prefix(b"\r\n") {
        Some(rest) => Some(rest),
        None => None,
    }
}

// ---- lines that an empty line would end

/// Whether the lines are a head but for the empty line at its end.
fn is_front(alloc: Global, lines: &[u8], spans: &mut [HeaderSpan]) -> Result<bool, Memory>
    ensures { IfOk result (λ is. is ≡ true → IsFront lines.now) }
{
    if !ends_line(lines) {
        return Ok(false);
    }
    let closed = closed(alloc, lines)?;
    match parse_request(closed.as_slice(), spans) {
        Ok(Status::Complete(head)) => Ok(head.len == closed.len()),
        _ => Ok(false),
    }
}

/// Whether the lines are fields alone.
fn are_fields(alloc: Global, lines: &[u8], spans: &mut [HeaderSpan]) -> Result<bool, Memory>
    ensures { IfOk result (λ are. are ≡ true → AreFields lines.now) }
{
    if lines.is_empty() {
        return Ok(true);
    }
    if !ends_line(lines) {
        return Ok(false);
    }
    let closed = closed(alloc, lines)?;
    match parse_headers(closed.as_slice(), spans) {
        Ok(Status::Complete((len, _))) => Ok(len == closed.len()),
        _ => Ok(false),
    }
}

fn ends_line(lines: &[u8]) -> bool
    ensures { result ≡ true → (front : List ℕ) × (lines.now ≡ front ++ 10 ∷ []) }
{
    match lines.split_last() {
        Some((last, _)) => *last == b'\n',
        None => false,
    }
}

/// The lines and an empty line.
fn closed(alloc: Global, lines: &[u8]) -> Result<Vec<u8>, Memory>
    ensures { IfOk result (λ closed. closed.items ≡ lines.now ++ 10 ∷ []) }
{
    let mut closed = Vec::new(alloc);
    closed.extend_from_slice(lines)?;
    closed.push(b'\n')?;
    Ok(closed)
}
