//! What a head says: whether it is refused, how long its body is, and the request that it is with its body.
ghost use Rattle.std.specs.Prelude.{◌≡◌, ◌≤◌, ◌+◌, ℕ, map, min, unwrap_or, Ok, Err, Some, None, IfOk, MatchOption, MatchResult, true, false, ◌==◌, All};
ghost use Rattle.std.specs.List.{list_any, slice_split};
ghost use Rattle.std.specs.Char.{is_ascii_digit};
ghost use Rattle.std.specs.Str.Parse.{digits_value};
ghost use Rattle.ur_http.specs.Fields.{is_number, has_close, is_close};
ghost use Rattle.ur_http.specs.Fields.{target_path as path_of};
ghost use Rattle.ur_http.specs.Requests as requests;
ghost use Rattle.ur_http.specs.Requests.{greatest_body, fault_in, length_in, length_fault, request_in};
ghost use Rattle.ur_http.specs.Reading.{field_pair};

use crate::bytes::{same_name, trim};
use crate::cookies::cookies;
use crate::fields::{Field, Only, value_of};
use crate::forms::form;
use crate::request::{HttpRequest, Method};
use crate::target::target_path;
use http::method::MethodError;
use std::alloc::Global;
use ur_base::{List, Memory, Text};

/// The greatest number of bytes of a body.
const GREATEST_BODY: usize = 1_048_576;

/// The greatest number of fields.
const GREATEST_FIELDS: usize = 64;

/// What a head without a fault says of its path and of the length of its body.
#[derive(Copy, Clone, Debug)]
pub(crate) struct Sound<'b> {
    pub path: &'b [u8],
    pub length: usize,
}

/// The status with which a head of this target, minor version and these fields is refused, or what it says.
pub(crate) fn checked<'b>(
    target: &'b [u8],
    minor: u8,
    fields: &[Field<'_>],
) -> Result<Sound<'b>, u16>
    ensures fault { MatchResult result (λ _. fault_in target.now minor (map field_pair fields.now) ≡ None)
        (λ status. fault_in target.now minor (map field_pair fields.now) ≡ Some status) }
    ensures path { IfOk result (λ sound. path_of target.now ≡ Some sound.path.now) }
    ensures length { IfOk result (λ sound. (length_in (map field_pair fields.now) ≡ Some sound.length) × (sound.length ≤ greatest_body)) }
{
    if fields.len() > GREATEST_FIELDS {
        return Err(431);
    }
    if lacks_host(minor, fields) {
        return Err(400);
    }
    if is_coded(fields) {
        return Err(501);
    }
    let length = body_length(fields)?;
    match target_path(target) {
        Some(path) => Ok(Sound { path, length }),
        None => Err(400),
    }
}

fn lacks_host(minor: u8, fields: &[Field<'_>]) -> bool
    ensures { result ≡ requests.lacks_host minor (map field_pair fields.now) }
{
    match value_of(fields, b"host") {
        Only::Missing => minor == 1,
        Only::One(_) => false,
        Only::Several => true,
    }
}

fn is_coded(fields: &[Field<'_>]) -> bool
    ensures { result ≡ requests.is_coded (map field_pair fields.now) }
{
    match value_of(fields, b"transfer-encoding") {
        Only::Missing => false,
        Only::One(_) => true,
        Only::Several => true,
    }
}

/// The length of the body, or the status with which it is refused.
fn body_length(fields: &[Field<'_>]) -> Result<usize, u16>
    ensures { MatchResult result (λ length. (length_in (map field_pair fields.now) ≡ Some length) × (length ≤ greatest_body))
        (λ status. length_fault (length_in (map field_pair fields.now)) ≡ Some status) }
{
    match value_of(fields, b"content-length") {
        Only::Missing => Ok(0),
        Only::One(digits) => match number(digits) {
            Some(length) if length <= GREATEST_BODY => Ok(length),
            Some(_) => Err(413),
            None => Err(400),
        },
        Only::Several => Err(400),
    }
}

/// The number that the digits write, or one above the greatest length where it is more.
fn number(digits: &[u8]) -> Option<usize>
    ensures { MatchOption result (is_number digits.now ≡ false)
        (λ n. (is_number digits.now ≡ true) × (n ≡ min (digits_value 10 digits.now) (greatest_body + 1))) }
{
    if !are_digits(digits) {
        return None;
    }
    Some(value(digits))
}

fn are_digits(bytes: &[u8]) -> bool
    ensures { result ≡ is_number bytes.now }
{
    !bytes.is_empty() && bytes.iter().all(|byte| byte.is_ascii_digit())
}

fn value(digits: &[u8]) -> usize
    requires { is_number digits.now ≡ true }
    ensures { result ≡ min (digits_value 10 digits.now) (greatest_body + 1) }
{
    let mut value = 0;
    for digit in digits {
        value = (value * 10 + usize::from(*digit - b'0')).min(GREATEST_BODY + 1);
    }
    value
}

/// The request of a sound head with its body.
pub(crate) fn request(
    alloc: Global,
    method: &[u8],
    path: &[u8],
    minor: u8,
    fields: &[Field<'_>],
    body: &[u8],
) -> Result<HttpRequest, Memory>
    ensures { IfOk result (λ r. r ≡ request_in method.now path.now minor (map field_pair fields.now) body.now) }
{
    let method = method_of(alloc, method)?;
    Ok(HttpRequest {
        method,
        path: List::from_slice(alloc, path)?,
        form: form_for(alloc, method, body)?,
        cookies: cookies(alloc, fields)?,
        close: asks_to_close(minor, fields),
    })
}

/// The method that the bytes of a head are, held as a method of HTTP.
fn method_of(alloc: Global, bytes: &[u8]) -> Result<Method, Memory>
    ensures { IfOk result (λ method. method ≡ requests.method_of bytes.now) }
{
    match http::Method::from_bytes(alloc, bytes) {
        Ok(method) => Ok(told_apart(&method)),
        Err(error) => match error {
            MethodError::Invalid => Ok(Method::Other),
            MethodError::OutOfMemory => Err(Memory),
        },
    }
}

fn told_apart(method: &http::Method) -> Method
    ensures { result ≡ requests.method_of method.now }
{
    let name = method.as_str();
    if name == "GET" {
        return Method::Get;
    }
    if name == "HEAD" {
        return Method::Head;
    }
    if name == "POST" {
        return Method::Post;
    }
    Method::Other
}

/// Only a POST's body is read.
fn form_for(alloc: Global, method: Method, body: &[u8]) -> Result<List<(Text, Text)>, Memory>
    ensures { IfOk result (λ pairs. pairs ≡ requests.form_for method body.now) }
{
    match method {
        Method::Post => form(alloc, body),
        _ => Ok(List::new(alloc)),
    }
}

fn asks_to_close(minor: u8, fields: &[Field<'_>]) -> bool
    ensures { result ≡ requests.asks_to_close minor (map field_pair fields.now) }
{
    minor == 0 || any_closes(fields)
}

fn any_closes(fields: &[Field<'_>]) -> bool
    ensures { result ≡ list_any has_close (map field_pair fields.now) }
{
    fields.iter().any(|field| has_close(field))
}

fn has_close(field: &Field<'_>) -> bool
    ensures { result ≡ has_close (field_pair field.now) }
{
    same_name(field.name, b"connection") && has_token(field.value)
}

fn has_token(value: &[u8]) -> bool
    ensures { result ≡ list_any is_close (slice_split (λ b. b == 44) value.now) }
{
    value
        .split(|byte| *byte == b',')
        .any(|piece| is_close(piece))
}

fn is_close(piece: &[u8]) -> bool
    ensures { result ≡ is_close piece.now }
{
    same_name(trim(piece), b"close")
}
