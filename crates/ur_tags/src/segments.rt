//! Values as segments of paths.
ghost use Rattle.std.specs.Prelude.{◌≡◌, [], ◌∷◌, ◌++◌, IfOk, IfSome, MatchOption, OnOk, option_map};
ghost use Rattle.std.specs.Str.{is_utf8};
ghost use Rattle.ur_values.specs.Atom.{IsBasic};
ghost use Rattle.ur_values.specs.Store.{FitsKind};
ghost use Rattle.ur_tags.specs.Segments as segments;
ghost use Rattle.ur_tags.specs.Segments.{SegmentsBack};

use crate::marks::push_run;
use percent_encoding::{percent_decode, percent_encode_byte};
use std::alloc::Global;
use std::str;
use ur_base::{List, Memory, Text};
use ur_values::{ColumnKind, Value};

/// The segment of an int, a string or a bool. An int is in decimal, a bool is `True` or `False`; the empty string is
/// `_`, and a string that begins with `_` or `.` gets one `_` in front. All bytes but the unreserved characters of
/// RFC 3986, section 2.3, are percent-encoded.
pub fn segment(alloc: Global, value: &Value) -> Result<Text, Memory>
    requires { IsBasic value.now }
    ensures { IfOk result (λ text. text ≡ segments.segment value.now) }
{
    let mut text = List::new(alloc);
    push_segment(alloc, &mut text, value)?;
    Ok(text)
}

/// The value of this kind that the segment is read as, if it is one. Other encodings of the same text are read too.
pub fn unsegment(alloc: Global, text: &str, kind: ColumnKind) -> Result<Option<Value>, Memory>
    ensures value { IfOk result (λ value. value ≡ segments.unsegment kind text.now) }
    ensures own { IfOk result (λ value. IfSome value (λ x. FitsKind x kind)) }
{
    read(alloc, text, kind)
}

/// The law that each int, text and bool is read from its segment.
pub fn segments_back()
    ensures { SegmentsBack }
{}

// ---- segments of values

/// Adds the segment of a value, and nothing where the value is no int, string or bool.
pub fn push_segment(alloc: Global, out: &mut Text, value: &Value) -> Result<(), Memory>
    ensures { OnOk result (out.new ≡ out.old ++ segments.segment value.now) }
{
    match value {
        Value::Int(int) => push_int(alloc, out, *int),
        Value::Str(text) => push_string(out, text.as_slice()),
        Value::Bool(holds) => push_encoded(out, bool_text(*holds)),
        _ => Ok(()),
    }
}

fn push_int(alloc: Global, out: &mut Text, int: i64) -> Result<(), Memory>
    ensures { OnOk result (out.new ≡ out.old ++ segments.segment (Value.Int int)) }
{
    let text = format!(in alloc; "{int}")?;
    push_encoded(out, text.as_bytes())
}

fn push_string(out: &mut Text, string: &[u8]) -> Result<(), Memory>
    ensures { OnOk result (out.new ≡ out.old ++ segments.segment (Value.Str string.now)) }
{
    match string {
        [] => out.push(b'_'),
        [b'_' | b'.', ..] => {
            out.push(b'_')?;
            push_encoded(out, string)
        }
        _ => push_encoded(out, string),
    }
}

fn bool_text(holds: bool) -> &'static [u8]
    ensures { result.now ≡ segments.bool_text holds }
{
    if holds { b"True" } else { b"False" }
}

/// Adds the bytes, percent-encoded. Unreserved characters go in runs.
pub fn push_encoded(out: &mut Text, bytes: &[u8]) -> Result<(), Memory>
    ensures { OnOk result (out.new ≡ out.old ++ segments.encode bytes.now) }
{
    let mut from = 0;
    for at in 0..bytes.len() {
        let next = push_run(out, bytes, from, at, encoded(bytes[at]))?;
        from = next;
    }
    out.extend_from_slice(&bytes[from..])?;
    Ok(())
}

/// How a segment has the byte, where it does not stand as it is.
fn encoded(byte: u8) -> Option<&'static [u8]>
    ensures { MatchOption result (segments.encode_byte byte ≡ byte ∷ []) (λ piece. piece.now ≡ segments.encode_byte byte) }
{
    if is_unreserved(byte) {
        None
    } else {
        Some(percent_encode_byte(byte).as_bytes())
    }
}

fn is_unreserved(byte: u8) -> bool
    ensures { result ≡ segments.is_unreserved byte }
{
    byte.is_ascii_alphanumeric() || matches!(byte, b'-' | b'.' | b'_' | b'~')
}

// ---- values of segments

/// The value of this kind that the segment is read as.
fn read(alloc: Global, text: &str, kind: ColumnKind) -> Result<Option<Value>, Memory>
    ensures { IfOk result (λ value. value ≡ segments.unsegment kind text.now) }
{
    match decode(alloc, text.as_bytes())? {
        Some(text) => value_of(alloc, kind, text.as_slice()),
        None => Ok(None),
    }
}

/// The text that a segment decodes to. An empty segment, and one that is not UTF-8, decodes to none.
pub fn decode(alloc: Global, segment: &[u8]) -> Result<Option<Text>, Memory>
    ensures { IfOk result (λ text. text ≡ segments.decode segment.now) }
{
    if segment.is_empty() {
        return Ok(None);
    }
    let mut text = Vec::new(alloc);
    percent_decode(segment).append_to(&mut text)?;
    if is_text(text.as_slice()) {
        Ok(Some(List::from_vec(text)))
    } else {
        Ok(None)
    }
}

/// Whether the bytes are UTF-8.
pub(crate) fn is_text(bytes: &[u8]) -> bool
    ensures { result ≡ is_utf8 bytes.now }
{
    match str::from_utf8(bytes) {
        Ok(_) => true,
        Err(_) => false,
    }
}

/// The value of this kind whose text this is. No text is a value of an optional kind.
pub fn value_of(alloc: Global, kind: ColumnKind, text: &[u8]) -> Result<Option<Value>, Memory>
    ensures { IfOk result (λ value. value ≡ segments.value_of kind text.now) }
{
    match kind {
        ColumnKind::Int => Ok(int_of(alloc, text)?.map(Value::Int)),
        ColumnKind::Bool => Ok(bool_of(text).map(Value::Bool)),
        ColumnKind::Str => match string_of(text) {
            Some(string) => Ok(Some(Value::Str(List::from_slice(alloc, string)?))),
            None => Ok(None),
        },
        ColumnKind::OptInt | ColumnKind::OptStr | ColumnKind::OptBool => Ok(None),
    }
}

/// The int whose text these bytes are.
fn int_of(alloc: Global, text: &[u8]) -> Result<Option<i64>, Memory>
    ensures { IfOk result (λ int. int ≡ segments.int_of text.now) }
{
    let Ok(digits) = str::from_utf8(text) else {
        return Ok(None);
    };
    let Ok(value) = digits.parse::<i64>() else {
        return Ok(None);
    };
    let written = format!(in alloc; "{value}")?;
    if written.as_bytes() == text {
        Ok(Some(value))
    } else {
        Ok(None)
    }
}

fn bool_of(text: &[u8]) -> Option<bool>
    ensures { result ≡ segments.bool_of text.now }
{
    match text {
        b"True" => Some(true),
        b"False" => Some(false),
        _ => None,
    }
}

/// The string whose text these bytes are.
fn string_of(text: &[u8]) -> Option<&[u8]>
    ensures { option_map (λ string. string.now) result ≡ segments.string_of text.now }
{
    match text {
        [] => None,
        [b'_', string @ ..] => after_mark(string),
        _ => Some(text),
    }
}

/// What follows a first `_`.
fn after_mark(string: &[u8]) -> Option<&[u8]>
    ensures { option_map (λ string. string.now) result ≡ segments.after_mark string.now }
{
    match string {
        [] | [b'_' | b'.', ..] => Some(string),
        _ => None,
    }
}
