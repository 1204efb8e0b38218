//! What becomes of tags, texts and splices of XML at their places.
use crate::tables::named_type;
use case_files::Printer;
use std::alloc::Global;
use ur_base::{List, Memory, Span, Stop, Text};
use ur_rows::{Label, NormalType, Part, joined};
use ur_syntax::{Attr, AttrValue, Tag, TagField, XmlForm, XmlPart};
use ur_values::FieldKind;
use ur_xmltype::{
    Asked, Node, Place, Sort, field_row, fields_found, framed, inner_place, node_at, place_text,
    row_apart, shown_at, splice_at, text_at,
};

const HERE: Span = Span {
    file: 1,
    from: 0,
    to: 0,
};

fn place_of(word: &str) -> Place {
    match word {
        "page" => Place::Page,
        "head" => Place::Head,
        "title" => Place::Title,
        "body" => Place::Body,
        "table" => Place::Table,
        "row" => Place::Row,
        "form" => Place::Form,
        "fields" => Place::Fields,
        _ => Place::Nothing,
    }
}

fn name(alloc: Global, word: &str) -> Result<Text, Memory> {
    List::from_slice(alloc, word.as_bytes())
}

fn first(line: &str) -> (&str, &str) {
    line.split_once(' ').unwrap_or((line, ""))
}

// ---- tags

/// A word, and behind `#` the name of its field.
fn tag(alloc: Global, text: &str) -> Result<Tag, Memory> {
    let (word, field) = match text.split_once('#') {
        Some((word, field)) => (word, TagField::Literal(name(alloc, field)?)),
        None => (text, TagField::None),
    };
    let word = name(alloc, word)?;
    Ok(Tag { word, field })
}

fn label(alloc: Global, text: &str) -> Result<Option<Label>, Memory> {
    match text.split_once('#') {
        Some((_, field)) => Ok(Some(Label::Literal(name(alloc, field)?))),
        None => Ok(None),
    }
}

/// Attributes of these names.
fn attributes(alloc: Global, names: &str) -> Result<List<Attr>, Memory> {
    let mut attrs = List::new(alloc);
    for word in names.split_ascii_whitespace() {
        let name = name(alloc, word)?;
        let value = AttrValue::Exp(0);
        attrs.push(Attr { name, value })?;
    }
    Ok(attrs)
}

/// What a tag is: an element by the place of its parts.
fn node_word(place: Place, node: &Node) -> &'static [u8] {
    match node {
        Node::Element(_, _) => place_text(inner_place(place, node)),
        Node::Form => b"a form",
        Node::Link(_) => b"a link",
        Node::Input(_, _, _) => b"a field",
        Node::Submit(_, _) => b"a button",
    }
}

fn put_word(p: &mut Printer, word: &[u8]) {
    p.put(b"=");
    p.word(word);
}

fn put_tag(
    alloc: Global,
    place: Place,
    tag: &Tag,
    label: Option<Label>,
    attrs: &[Attr],
    bare: bool,
    p: &mut Printer,
) -> Result<(), Stop> {
    let node = node_at(alloc, HERE, label, place, tag, attrs, bare)?;
    put_word(p, node_word(place, &node));
    Ok(())
}

fn put_node(
    alloc: Global,
    place: Place,
    written: &str,
    attrs: &List<Attr>,
    p: &mut Printer,
) -> Result<(), Stop> {
    let text = written.strip_suffix('/').unwrap_or(written);
    let bare = text.len() < written.len();
    let tag = tag(alloc, text)?;
    let label = label(alloc, text)?;
    put_tag(alloc, place, &tag, label, attrs.as_slice(), bare, p)
}

/// `form textbox#A/ value` is a place, a tag and its attributes. One with `/` has no parts.
pub fn node(alloc: Global, text: &str, p: &mut Printer) -> Result<(), Stop> {
    let (place, rest) = first(text);
    let (written, names) = first(rest);
    let attrs = attributes(alloc, names)?;
    put_node(alloc, place_of(place), written, &attrs, p)
}

// ---- texts and splices

/// `_` is a blank, `/` an end of a line and `^` a tab.
fn blanks(alloc: Global, text: &str) -> Result<Text, Memory> {
    let mut bytes = List::new(alloc);
    for byte in text.as_bytes() {
        let byte = match byte {
            b'_' => b' ',
            b'/' => b'\n',
            b'^' => b'\t',
            other => *other,
        };
        bytes.push(byte)?;
    }
    Ok(bytes)
}

/// A place and a text there.
pub fn text(alloc: Global, line: &str, p: &mut Printer) -> Result<(), Stop> {
    let (place, written) = first(line);
    let bytes = blanks(alloc, written)?;
    let kept = text_at(alloc, HERE, place_of(place), bytes.as_slice())?;
    put_word(p, if kept { b"kept" } else { b"dropped" });
    Ok(())
}

fn asked_word(asked: &Asked) -> &'static [u8] {
    match asked {
        Asked::Decides => b"any",
        Asked::Asks(NormalType::Xbody) => b"xbody",
        Asked::Asks(NormalType::Xtable) => b"xtable",
        Asked::Asks(_) => b"another",
    }
}

/// A place, and whether what is spliced there lacks a type.
pub fn splice(alloc: Global, line: &str, p: &mut Printer) -> Result<(), Stop> {
    let (place, lacks) = first(line);
    let asked = splice_at(alloc, HERE, place_of(place), !lacks.is_empty())?;
    put_word(p, asked_word(&asked));
    Ok(())
}

fn put_shown(alloc: Global, of: &NormalType, p: &mut Printer) -> Result<(), Stop> {
    shown_at(alloc, &[], HERE, Place::Body, of)?;
    put_word(p, b"shown");
    Ok(())
}

/// The type of what is shown in a body.
pub fn shown(alloc: Global, word: &str, p: &mut Printer) -> Result<(), Stop> {
    let of = named_type(word);
    put_shown(alloc, &of, p)
}

// ---- frames of pages

fn element(alloc: Global, word: &str) -> Result<XmlPart, Memory> {
    let tag = tag(alloc, word)?;
    let form = XmlForm::Element(tag, List::new(alloc), List::new(alloc));
    Ok(XmlPart { span: HERE, form })
}

fn elements(alloc: Global, words: &str) -> Result<List<XmlPart>, Memory> {
    let mut parts = List::new(alloc);
    for word in words.split_ascii_whitespace() {
        let part = element(alloc, word)?;
        parts.push(part)?;
    }
    Ok(parts)
}

/// The words of the elements of a page.
pub fn frame(alloc: Global, words: &str, p: &mut Printer) -> Result<(), Stop> {
    let parts = elements(alloc, words)?;
    framed(alloc, HERE, Sort::Page, parts.as_slice())?;
    put_word(p, b"framed");
    Ok(())
}

// ---- fields of forms

fn kind_of(word: &str) -> FieldKind {
    match word {
        "checkbox" => FieldKind::Checkbox,
        _ => FieldKind::Textbox,
    }
}

/// The row of a field with this name.
fn field(alloc: Global, kind: FieldKind, word: &str) -> Result<List<Part>, Memory> {
    let label = Label::Literal(name(alloc, word)?);
    field_row(alloc, kind, label)
}

/// The row of what is spliced: a form with a text field of this name.
fn spliced(alloc: Global, word: &str) -> Result<List<Part>, Stop> {
    let row = field(alloc, FieldKind::Textbox, word)?;
    let form = NormalType::Form(row);
    fields_found(alloc, &[], HERE, Place::Form, &form)
}

fn row_of(alloc: Global, kind: &str, word: &str) -> Result<List<Part>, Stop> {
    if kind == "splice" {
        return spliced(alloc, word);
    }
    Ok(field(alloc, kind_of(kind), word)?)
}

/// The fields of both parts of a line.
fn fields_of(alloc: Global, line: &str) -> Result<List<Part>, Stop> {
    let (one, other) = line.split_once(", ").unwrap_or((line, ""));
    let (kind, name) = first(one);
    let (next, behind) = first(other);
    let before = row_of(alloc, kind, name)?;
    let more = row_of(alloc, next, behind)?;
    Ok(joined(before, more)?)
}

/// `textbox A, checkbox B` are two fields, and `splice A` is what is spliced.
pub fn fields(alloc: Global, line: &str, p: &mut Printer) -> Result<(), Stop> {
    let row = fields_of(alloc, line)?;
    row_apart(alloc, &[], &[], HERE, row.as_slice())?;
    put_word(p, b"apart");
    Ok(())
}
