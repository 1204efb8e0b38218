//! What bytes begin with: a request, less than a whole one, or what is refused.
ghost use Rattle.std.specs.Prelude.{◌≡◌, ◌+◌, ◌*◌, ◌<◌, ◌≤◌, length, map, IfOk};
ghost use Rattle.httparse.specs.Spans.{IsRequestWithin, IsRequestOf};
ghost use Rattle.ur_http.specs.Items as items;
ghost use Rattle.ur_http.specs.Requests.{greatest_head, greatest_body, request_in};
ghost use Rattle.ur_http.specs.Reading.{field_pair, IsBegun, IsBody};

use crate::fields::{Field, fields_at};
use crate::heads::{checked, request};
use crate::request::HttpRequest;
use httparse::Status;
use httparse::spans::{HeaderSpan, RequestSpans, parse_request};
use std::alloc::Global;
use ur_base::Memory;

/// The greatest number of bytes of a head.
pub(crate) const GREATEST_HEAD: usize = 16_384;

/// The first request of bytes and its length; the length that is waited for; that a head is still sought; or a status.
#[derive(Debug, Drop)]
pub(crate) enum Begun {
    Request(HttpRequest, usize),
    Waits(usize),
    Seeks,
    Fault(u16),
}

/// What the bytes begin with. There is room for the spans of each field of a head.
pub(crate) fn start(alloc: Global, bytes: &[u8], spans: &mut [HeaderSpan]) -> Result<Begun, Memory>
    requires { greatest_head < 3 * length spans.old }
    ensures { IfOk result (IsBegun bytes.now) }
{
    let window = window(bytes);
    match parse_request(window, spans) {
        Ok(Status::Complete(head)) => with_head(alloc, bytes, window, &head, spans),
        Ok(Status::Partial) => Ok(without_head(bytes)),
        Err(_) => Ok(Begun::Fault(400)),
    }
}

/// The bytes in which a head is sought: the whole lines of the first ones.
pub(crate) fn window(bytes: &[u8]) -> &[u8]
    ensures is { result.now ≡ items.window bytes.now }
    ensures within { length result.now ≤ length bytes.now }
    ensures bounded { length result.now ≤ greatest_head }
{
    let end = bytes.len().min(GREATEST_HEAD);
    whole_lines(&bytes[..end])
}

/// The bytes up to the last line end.
fn whole_lines(bytes: &[u8]) -> &[u8]
    ensures { result.now ≡ items.whole_lines bytes.now }
{
    let mut left = bytes;
    while let Some((last, rest)) = left.split_last() {
        if *last == b'\n' {
            break;
        }
        left = rest;
    }
    left
}

fn without_head(bytes: &[u8]) -> Begun
    requires { items.MayBegin bytes.now }
    ensures { IsBegun bytes.now result }
{
    if bytes.len() < GREATEST_HEAD {
        Begun::Seeks
    } else {
        Begun::Fault(431)
    }
}

/// What bytes that begin with this head begin with.
fn with_head(
    alloc: Global,
    bytes: &[u8],
    window: &[u8],
    head: &RequestSpans,
    spans: &[HeaderSpan],
) -> Result<Begun, Memory>
    requires window { window.now ≡ items.window bytes.now }
    requires within { IsRequestWithin window.now spans.now head.now }
    requires is { IsRequestOf window.now spans.now head.now }
    requires fits { head.now.len ≤ length bytes.now }
    ensures { IfOk result (IsBegun bytes.now) }
{
    let fields = fields_at(alloc, window, &spans[..head.headers])?;
    let fields = fields.as_slice();
    let target = head.path.of(window);
    match checked(target, head.version, fields) {
        Err(status) => Ok(Begun::Fault(status)),
        Ok(sound) => {
            let rest = &bytes[head.len..];
            if rest.len() < sound.length {
                return Ok(Begun::Waits(head.len + sound.length));
            }
            let method = head.method.of(window);
            let body = &rest[..sound.length];
            let request = request(alloc, method, sound.path, head.version, fields, body)?;
            Ok(Begun::Request(request, head.len + sound.length))
        }
    }
}
