//! Texts, tags and attributes.
ghost use Rattle.std.specs.Prelude.{◌≡◌, ◌≤◌, ◌<◌, [], ◌∷◌, ◌++◌, length, IfOk, OnOk, MatchOption, option_map, codes};
ghost use Rattle.std.specs.List.{flat_map};
ghost use Rattle.ur_tags.specs.Runs.{LeadsOn};
ghost use Rattle.ur_tags.specs.Show as shown;

use ur_base::{Bytes, List, Memory, Text};
use ur_values::Tag;

/// Adds a text. Bytes that show as they are go in runs.
pub fn push_text(out: &mut Bytes, text: &[u8]) -> Result<(), Memory>
    ensures { OnOk result (out.new ≡ out.old ++ flat_map shown.escape text.now) }
{
    let mut from = 0;
    for at in 0..text.len() {
        let next = push_run(out, text, from, at, escaped(text[at]))?;
        from = next;
    }
    out.extend_from_slice(&text[from..])?;
    Ok(())
}

/// Adds the run that ends before this byte, and the piece that stands for the byte; where there is none, the run goes on. Gives
/// where the run begins that comes next.
pub(crate) fn push_run(
    out: &mut Bytes,
    text: &[u8],
    from: usize,
    at: usize,
    piece: Option<&[u8]>,
) -> Result<usize, Memory>
    requires within { at < length text.now }
    requires run { from ≤ at }
    ensures { IfOk result (λ next. LeadsOn out.old out.new text.now from next at (option_map (λ p. p.now) piece.entry)) }
{
    match piece {
        None => Ok(from),
        Some(piece) => {
            out.extend_from_slice(&text[from..at])?;
            out.extend_from_slice(piece)?;
            Ok(at + 1)
        }
    }
}

/// How text shows the byte, where it does not show as it is.
fn escaped(byte: u8) -> Option<&'static [u8]>
    ensures { MatchOption result (shown.escape byte ≡ byte ∷ []) (λ piece. piece.now ≡ shown.escape byte) }
{
    match byte {
        b'&' => Some(b"&amp;"),
        b'<' => Some(b"&lt;"),
        b'>' => Some(b"&gt;"),
        _ => None,
    }
}

/// Adds what stands between the quotes of an attribute, in runs.
fn push_quoted(out: &mut Bytes, text: &[u8]) -> Result<(), Memory>
    ensures { OnOk result (out.new ≡ out.old ++ flat_map shown.escape_quoted text.now) }
{
    let mut from = 0;
    for at in 0..text.len() {
        let next = push_run(out, text, from, at, escaped_quoted(text[at]))?;
        from = next;
    }
    out.extend_from_slice(&text[from..])?;
    Ok(())
}

/// How an attribute shows the byte, where it does not show as it is.
fn escaped_quoted(byte: u8) -> Option<&'static [u8]>
    ensures { MatchOption result (shown.escape_quoted byte ≡ byte ∷ []) (λ piece. piece.now ≡ shown.escape_quoted byte) }
{
    if byte == b'"' {
        Some(b"&quot;")
    } else {
        escaped(byte)
    }
}

/// Adds ` name="value"`.
pub fn push_attribute(out: &mut Bytes, name: &[u8], value: &[u8]) -> Result<(), Memory>
    ensures { OnOk result (out.new ≡ out.old ++ shown.attribute name.now value.now) }
{
    out.push(b' ')?;
    out.extend_from_slice(name)?;
    out.extend_from_slice(b"=\"")?;
    push_quoted(out, value)?;
    out.push(b'"')
}

/// The same where there is a value.
pub fn push_attribute_if_any(
    out: &mut Bytes,
    name: &[u8],
    value: &Option<Text>,
) -> Result<(), Memory>
    ensures { OnOk result (out.new ≡ out.old ++ shown.attribute_if_any name.now value.now) }
{
    match value {
        Some(value) => push_attribute(out, name, value.as_slice()),
        None => Ok(()),
    }
}

/// Adds the beginning of a tag, up to its attributes.
pub fn push_open(out: &mut Bytes, name: &[u8]) -> Result<(), Memory>
    ensures { OnOk result (out.new ≡ out.old ++ (codes "<" ++ name.now)) }
{
    out.push(b'<')?;
    out.extend_from_slice(name)
}

/// Adds a closing tag.
pub fn push_close(out: &mut Bytes, name: &[u8]) -> Result<(), Memory>
    ensures { OnOk result (out.new ≡ out.old ++ (codes "</" ++ name.now ++ codes ">")) }
{
    out.extend_from_slice(b"</")?;
    out.extend_from_slice(name)?;
    out.push(b'>')
}

/// Adds the attributes of a tag.
pub fn push_tag_attributes(out: &mut Bytes, tag: Tag) -> Result<(), Memory>
    ensures { OnOk result (out.new ≡ out.old ++ shown.tag_attributes tag) }
{
    match tag {
        Tag::Form => push_attribute(out, b"method", b"post"),
        _ => Ok(()),
    }
}

/// Whether elements of the tag hold nothing.
pub fn is_void(tag: Tag) -> bool
    ensures { result ≡ shown.is_void tag }
{
    match tag {
        Tag::Br | Tag::Hr => true,
        _ => false,
    }
}

/// The word of a tag.
pub fn tag_word(tag: Tag) -> &'static [u8]
    ensures { result.now ≡ shown.tag_word tag }
{
    match tag {
        Tag::Head => b"head",
        Tag::Title => b"title",
        Tag::Body => b"body",
        Tag::P => b"p",
        Tag::Div => b"div",
        Tag::Span => b"span",
        Tag::B => b"b",
        Tag::I => b"i",
        Tag::Em => b"em",
        Tag::Strong => b"strong",
        Tag::H1 => b"h1",
        Tag::H2 => b"h2",
        Tag::H3 => b"h3",
        Tag::H4 => b"h4",
        Tag::Ul => b"ul",
        Tag::Ol => b"ol",
        Tag::Li => b"li",
        Tag::Pre => b"pre",
        Tag::Code => b"code",
        Tag::Br => b"br",
        Tag::Hr => b"hr",
        Tag::Table => b"table",
        Tag::Tr => b"tr",
        Tag::Td => b"td",
        Tag::Th => b"th",
        Tag::Form => b"form",
    }
}
