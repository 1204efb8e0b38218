//! A generator of requests: its state is a number, and each request is made of the next one.
ghost use Rattle.std.specs.Prelude.{◌≡◌, IfOk};
ghost use Rattle.ur_top.specs.Requests as generated;

use std::alloc::Global;
use ur_base::{Bytes, List, Memory};

/// The state before the next request: the minimal standard generator, x times 16,807 modulo 2^31 - 1.
pub fn next_state(x: u32) -> u32
    ensures { result ≡ generated.next_state x }
{
    (u64::from(x) * 16807 % 2147483647) as u32
}

/// The request of a state: of eight, five ask for a list, two add a note, and one drops a note.
pub fn request(alloc: Global, x: u32) -> Result<Bytes, Memory>
    ensures { IfOk result (λ bytes. bytes ≡ generated.request x) }
{
    match x % 8 {
        0..=4 => list_request(alloc, x / 8 % 4),
        5 | 6 => add_request(alloc, x / 8 % 4, x / 32 % 100),
        _ => drop_request(alloc, x / 32 % 50 + 1),
    }
}

fn list_request(alloc: Global, u: u32) -> Result<Bytes, Memory>
    ensures { IfOk result (λ bytes. bytes ≡ generated.list_request u) }
{
    let text = format!(in alloc; "GET /Main/list/u{u} HTTP/1.1\r\nHost: localhost\r\n\r\n")?;
    let mut bytes = List::new(alloc);
    bytes.extend_from_slice(text.as_bytes())?;
    Ok(bytes)
}

fn post_request(alloc: Global, path: &str, body: &str) -> Result<Bytes, Memory>
    ensures { IfOk result (λ bytes. bytes ≡ generated.post_request path.now body.now) }
{
    let length = body.len();
    let digits = format!(in alloc; "{length}")?;
    let mut bytes = List::new(alloc);
    bytes.extend_from_slice(b"POST /Main/")?;
    bytes.extend_from_slice(path.as_bytes())?;
    bytes.extend_from_slice(b" HTTP/1.1\r\nHost: localhost\r\nContent-Length: ")?;
    bytes.extend_from_slice(digits.as_bytes())?;
    bytes.extend_from_slice(b"\r\n\r\n")?;
    bytes.extend_from_slice(body.as_bytes())?;
    Ok(bytes)
}

fn add_request(alloc: Global, u: u32, v: u32) -> Result<Bytes, Memory>
    ensures { IfOk result (λ bytes. bytes ≡ generated.add_request u v) }
{
    let path = format!(in alloc; "add/u{u}")?;
    let body = format!(in alloc; "Body=b{v}")?;
    post_request(alloc, path.as_str(), body.as_str())
}

fn drop_request(alloc: Global, n: u32) -> Result<Bytes, Memory>
    ensures { IfOk result (λ bytes. bytes ≡ generated.drop_request n) }
{
    let path = format!(in alloc; "drop/{n}")?;
    post_request(alloc, path.as_str(), "")
}
