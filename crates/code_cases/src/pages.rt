//! Pages, as cases write them: words in postfix order. A word is what a node is, behind `:` what it is of, and behind `/` how many of the
//! nodes before it stand in it.
use crate::calls::call;
use crate::codes::{nothing, take_text};
use crate::terms::element;
use crate::words::{number, text};
use case_files::Printer;
use std::alloc::Global;
use ur_base::{List, Memory, Text};
use ur_code::Code;
use ur_tags::{Handlers, show, show_error, show_text};
use ur_values::{FieldKind, Node, Value};

/// The text, or none where nothing is written.
fn some(alloc: Global, word: &str) -> Result<Option<Text>, Memory> {
    if word.is_empty() {
        return Ok(None);
    }
    Ok(Some(text(alloc, word)?))
}

/// A field of the name Body, with its value.
fn field(alloc: Global, kind: FieldKind, of: &str) -> Result<Node, Memory> {
    let name = List::from_slice(alloc, b"Body")?;
    let value = some(alloc, of)?;
    Ok(Node::Field(kind, name, value))
}

/// A button of a call, with its label behind `=`.
fn submit(alloc: Global, of: &str) -> Result<Node, Memory> {
    let (called, label) = of.split_once('=').unwrap_or((of, ""));
    let label = some(alloc, label)?;
    let call = call(alloc, called)?;
    Ok(Node::Submit(call, label))
}

fn leaf(alloc: Global, name: &str, of: &str) -> Result<Option<Node>, Memory> {
    match name {
        "text" => Ok(Some(Node::Text(text(alloc, of)?))),
        "textbox" => Ok(Some(field(alloc, FieldKind::Textbox, of)?)),
        "password" => Ok(Some(field(alloc, FieldKind::Password, of)?)),
        "textarea" => Ok(Some(field(alloc, FieldKind::Textarea, of)?)),
        "checkbox" => Ok(Some(field(alloc, FieldKind::Checkbox, of)?)),
        "submit" => Ok(Some(submit(alloc, of)?)),
        _ => Ok(None),
    }
}

/// The last nodes.
fn inner(stack: &mut Vec<Node>, count: u32) -> Result<List<Node>, Memory> {
    let from = stack.len().saturating_sub(count as usize);
    let nodes = stack.split_off(from)?;
    Ok(List::from_vec(nodes))
}

fn link(alloc: Global, inner: List<Node>, of: &str) -> Result<Node, Memory> {
    let call = call(alloc, of)?;
    Ok(Node::Link(call, inner))
}

/// A link with its call, or an element.
fn around(
    alloc: Global,
    stack: &mut Vec<Node>,
    name: &str,
    of: &str,
    count: u32,
) -> Result<Node, Memory> {
    let inner = inner(stack, count)?;
    if name == "link" {
        return link(alloc, inner, of);
    }
    Ok(Node::Element(element(name), inner))
}

fn step(alloc: Global, stack: &mut Vec<Node>, word: &str) -> Result<(), Memory> {
    let (name, of) = word.split_once(':').unwrap_or((word, ""));
    if let Some(node) = leaf(alloc, name, of)? {
        stack.push(node)?;
        return Ok(());
    }
    let (_, count) = word.rsplit_once('/').unwrap_or((word, ""));
    let (name, _) = name.split_once('/').unwrap_or((name, ""));
    let (of, _) = of.rsplit_once('/').unwrap_or((of, ""));
    let node = around(alloc, stack, name, of, number(count))?;
    stack.push(node)?;
    Ok(())
}

/// The nodes of these words.
fn markup(alloc: Global, words: &str) -> Result<Value, Memory> {
    let mut stack = Vec::new(alloc);
    for word in words.split_ascii_whitespace() {
        step(alloc, &mut stack, word)?;
    }
    Ok(Value::Markup(List::from_vec(stack)))
}

fn put_page(p: &mut Printer, page: &[u8]) {
    p.put(b"= ");
    p.plain(page);
}

fn put_shown(
    alloc: Global,
    handlers: &Handlers,
    words: &str,
    p: &mut Printer,
) -> Result<(), Memory> {
    let nodes = markup(alloc, words)?;
    let page = show(alloc, handlers, &nodes)?;
    put_page(p, page.as_slice());
    Ok(())
}

fn put_error(
    alloc: Global,
    handlers: &Handlers,
    words: &str,
    p: &mut Printer,
) -> Result<(), Memory> {
    let nodes = markup(alloc, words)?;
    let page = show_error(alloc, handlers, &nodes)?;
    put_page(p, page.as_slice());
    Ok(())
}

/// The bytes of a page of the nodes in the last line, with the routes of the lines before it.
pub fn page(alloc: Global, text: &str, p: &mut Printer) -> Result<(), Memory> {
    let mut code = nothing(alloc);
    shown_in(alloc, &mut code, text, p)
}

fn shown_in(alloc: Global, code: &mut Code, text: &str, p: &mut Printer) -> Result<(), Memory> {
    let words = take_text(alloc, code, text)?;
    put_shown(alloc, &code.handlers, words, p)
}

/// Those of the page of an error.
pub fn error_page(alloc: Global, text: &str, p: &mut Printer) -> Result<(), Memory> {
    let mut code = nothing(alloc);
    error_in(alloc, &mut code, text, p)
}

fn error_in(alloc: Global, code: &mut Code, text: &str, p: &mut Printer) -> Result<(), Memory> {
    let words = take_text(alloc, code, text)?;
    put_error(alloc, &code.handlers, words, p)
}

/// Those of a page with a title and a text, with a bar between them.
pub fn text_page(alloc: Global, text: &str, p: &mut Printer) -> Result<(), Memory> {
    let (title, text) = text.split_once('|').unwrap_or((text, text));
    let page = show_text(alloc, title.as_bytes(), text.as_bytes())?;
    put_page(p, page.as_slice());
    Ok(())
}
