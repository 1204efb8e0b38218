//! Nodes of pages as bytes.
ghost use Rattle.std.specs.Prelude.{◌≡◌, ◌++◌, OnOk, codes};
ghost use Rattle.ur_tags.specs.Paths.{path as path_of};
ghost use Rattle.ur_tags.specs.Show as shown;

use crate::Handlers;
use crate::fields::push_field;
use crate::marks::{
    is_void, push_attribute, push_attribute_if_any, push_close, push_open, push_tag_attributes,
    push_text, tag_word,
};
use crate::paths::push_path;
use std::alloc::Global;
use ur_base::{Bytes, List, Memory, Text};
use ur_values::{Call, Node, Tag};

/// Adds the nodes, one after the other.
#[cycle(nodes)]
pub fn push_nodes(
    alloc: Global,
    handlers: &Handlers,
    out: &mut Bytes,
    nodes: &[Node],
) -> Result<(), Memory>
    ensures { OnOk result (out.new ≡ out.old ++ shown.show_nodes handlers.now nodes.now) }
{
    for node in nodes {
        push_node(alloc, handlers, out, node)?;
    }
    Ok(())
}

#[cycle(nodes)]
#[tactic(auto, using(crate::proofs::Equations::shown))]
fn push_node(alloc: Global, handlers: &Handlers, out: &mut Bytes, node: &Node) -> Result<(), Memory>
    ensures { OnOk result (out.new ≡ out.old ++ shown.show_node handlers.now node.now) }
{
    match node {
        Node::Text(text) => push_text(out, text.as_slice()),
        Node::Element(tag, inner) => push_element(alloc, handlers, out, *tag, inner),
        Node::Link(call, inner) => push_link(alloc, handlers, out, inner, call),
        Node::Field(kind, name, value) => push_field(out, *kind, name.as_slice(), value),
        Node::Submit(call, label) => push_submit(alloc, handlers, out, call, label),
    }
}

#[cycle(nodes)]
fn push_element(
    alloc: Global,
    handlers: &Handlers,
    out: &mut Bytes,
    tag: Tag,
    inner: &List<Node>,
) -> Result<(), Memory>
    ensures { OnOk result (out.new ≡ out.old ++ shown.element tag (shown.show_nodes handlers.now inner.now)) }
{
    push_open(out, tag_word(tag))?;
    if is_void(tag) {
        out.extend_from_slice(b"/>")?;
        return Ok(());
    }
    push_tag_attributes(out, tag)?;
    out.push(b'>')?;
    push_nodes(alloc, handlers, out, inner.as_slice())?;
    push_close(out, tag_word(tag))?;
    Ok(())
}

#[cycle(nodes)]
fn push_link(
    alloc: Global,
    handlers: &Handlers,
    out: &mut Bytes,
    inner: &List<Node>,
    call: &Call,
) -> Result<(), Memory>
    ensures { OnOk result (out.new ≡ out.old ++ shown.link (path_of handlers.now call.now) (shown.show_nodes handlers.now inner.now)) }
{
    push_open(out, b"a")?;
    push_path_attribute(alloc, handlers, out, b"href", call)?;
    out.push(b'>')?;
    push_nodes(alloc, handlers, out, inner.as_slice())?;
    push_close(out, b"a")?;
    Ok(())
}

fn push_submit(
    alloc: Global,
    handlers: &Handlers,
    out: &mut Bytes,
    call: &Call,
    label: &Option<Text>,
) -> Result<(), Memory>
    ensures { OnOk result (out.new ≡ out.old ++ shown.submit (path_of handlers.now call.now) label.now) }
{
    push_open(out, b"input")?;
    push_attribute(out, b"type", b"submit")?;
    push_path_attribute(alloc, handlers, out, b"formaction", call)?;
    push_attribute_if_any(out, b"value", label)?;
    out.extend_from_slice(b"/>")?;
    Ok(())
}

/// Adds ` name="path"`. A path shows as it is.
fn push_path_attribute(
    alloc: Global,
    handlers: &Handlers,
    out: &mut Bytes,
    name: &[u8],
    call: &Call,
) -> Result<(), Memory>
    ensures { OnOk result (out.new ≡ out.old ++ shown.attribute name.now (path_of handlers.now call.now)) }
{
    out.push(b' ')?;
    out.extend_from_slice(name)?;
    out.extend_from_slice(b"=\"")?;
    push_path(alloc, out, handlers, call)?;
    out.push(b'"')?;
    Ok(())
}
