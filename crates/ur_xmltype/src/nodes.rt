//! What a tag is at a place.
ghost use Rattle.std.specs.Prelude.{◌≡◌, [], ◌∷◌, Some, None, IfOk, option_map, bytes_eq};
ghost use Rattle.ur_base.specs.Stopping.{IfRefused};
ghost use Rattle.ur_rows.specs.Made.{field};
ghost use Rattle.ur_tree.specs.Places as places;
ghost use Rattle.ur_xmltype.specs.Tags as tags;
ghost use Rattle.ur_xmltype.specs.Faults.{IsBadTag};
ghost use Rattle.ur_xmltype.specs.Views.{place_in, node_in, names_in};

use crate::attributes::{Takes, are_named, expression_at, repeated, value_of};
use crate::places::{Place, holds_fields, inside, is_flow};
use crate::refusals::{misplaced, twice};
use crate::words::{field_of, same, tag_of};
use std::alloc::Global;
use ur_base::{List, Memory, Span, Stop};
use ur_rows::{Label, NormalType, Part, boxed, one};
use ur_syntax::{Attr, AttrValue, Tag as WrittenTag, TagField};
use ur_values::{FieldKind, Tag};

/// What a tag is at its place: an element with what it holds, a form, a link or a button with the number of its target
/// among the expressions of attributes, or a field with its label. Of a button and a field the value is told too.
#[derive(Drop)]
pub enum Node<'a> {
    Element(Tag, Place),
    Form,
    Link(u32),
    Input(FieldKind, Label, Option<&'a AttrValue>),
    Submit(u32, Option<&'a AttrValue>),
}

fn is_bare(field: &TagField) -> bool
    ensures { result ≡ tags.is_bare field.now }
{
    match field {
        TagField::None => true,
        _ => false,
    }
}

fn is_plain(field: &TagField, attrs: &[Attr]) -> bool
    ensures { result ≡ tags.is_plain field.now attrs.now }
{
    is_bare(field) && are_named(Takes::Nothing, attrs)
}

fn element_node<'a>(tag: Tag, place: Place) -> Node<'a>
    ensures { node_in result ≡ tags.element_node tag (place_in place) }
{
    match tag {
        Tag::Form => Node::Form,
        _ => Node::Element(tag, place),
    }
}

fn element_inside<'a>(place: Place, tag: Tag) -> Option<Node<'a>>
    ensures { option_map node_in result ≡ option_map (tags.element_node tag) (places.inside (place_in place) tag) }
{
    match inside(place, tag) {
        Some(inner) => Some(element_node(tag, inner)),
        None => None,
    }
}

fn element_at<'a>(place: Place, field: &TagField, attrs: &'a [Attr], tag: Tag) -> Option<Node<'a>>
    ensures { option_map node_in result ≡ tags.element_at (place_in place) field.now attrs.now tag }
{
    match is_plain(field, attrs) {
        true => element_inside(place, tag),
        false => None,
    }
}

fn may_link(place: Place, field: &TagField, attrs: &[Attr]) -> bool
    ensures { result ≡ tags.may_link (place_in place) field.now attrs.now }
{
    is_flow(place) && (is_bare(field) && are_named(Takes::Link, attrs))
}

fn link_of<'a>(attrs: &'a [Attr]) -> Option<Node<'a>>
    ensures { option_map node_in result ≡ option_map tags.link (tags.expression_at tags.link_word attrs.now) }
{
    match expression_at(b"link", attrs) {
        Some(n) => Some(Node::Link(n)),
        None => None,
    }
}

fn link_at<'a>(place: Place, field: &TagField, attrs: &'a [Attr]) -> Option<Node<'a>>
    ensures { option_map node_in result ≡ tags.link_at (place_in place) field.now attrs.now }
{
    match may_link(place, field, attrs) {
        true => link_of(attrs),
        false => None,
    }
}

fn takes_of(kind: FieldKind) -> Takes
    ensures { names_in result ≡ tags.field_attributes kind }
{
    match kind {
        FieldKind::Textbox => Takes::Value,
        FieldKind::Password => Takes::Value,
        FieldKind::Textarea => Takes::Nothing,
        FieldKind::Checkbox => Takes::Nothing,
    }
}

fn may_input(place: Place, kind: FieldKind, attrs: &[Attr]) -> bool
    ensures { result ≡ tags.may_input (place_in place) kind attrs.now }
{
    holds_fields(place) && are_named(takes_of(kind), attrs)
}

fn input_of<'a>(label: Option<Label>, attrs: &'a [Attr], kind: FieldKind) -> Option<Node<'a>>
    ensures { option_map node_in result ≡ option_map (λ x. tags.input kind x (tags.value_of tags.value_word attrs.now)) label }
{
    match label {
        Some(label) => Some(Node::Input(kind, label, value_of(b"value", attrs))),
        None => None,
    }
}

fn input_at<'a>(
    label: Option<Label>,
    place: Place,
    attrs: &'a [Attr],
    kind: FieldKind,
) -> Option<Node<'a>>
    ensures { option_map node_in result ≡ tags.input_at label (place_in place) attrs.now kind }
{
    match may_input(place, kind, attrs) {
        true => input_of(label, attrs, kind),
        false => None,
    }
}

fn is_in_form(place: Place) -> bool
    ensures { result ≡ tags.is_in_form (place_in place) }
{
    match place {
        Place::Form => true,
        _ => false,
    }
}

fn may_submit(place: Place, field: &TagField, attrs: &[Attr]) -> bool
    ensures { result ≡ tags.may_submit (place_in place) field.now attrs.now }
{
    is_in_form(place) && (is_bare(field) && are_named(Takes::Action, attrs))
}

fn submit_of<'a>(attrs: &'a [Attr]) -> Option<Node<'a>>
    ensures { option_map node_in result ≡ option_map (λ n. tags.submit n (tags.value_of tags.value_word attrs.now)) (tags.expression_at tags.action_word attrs.now) }
{
    match expression_at(b"action", attrs) {
        Some(n) => Some(Node::Submit(n, value_of(b"value", attrs))),
        None => None,
    }
}

fn submit_at<'a>(place: Place, field: &TagField, attrs: &'a [Attr]) -> Option<Node<'a>>
    ensures { option_map node_in result ≡ tags.submit_at (place_in place) field.now attrs.now }
{
    match may_submit(place, field, attrs) {
        true => submit_of(attrs),
        false => None,
    }
}

/// A field or a button.
fn leaf_at<'a>(
    label: Option<Label>,
    place: Place,
    tag: &WrittenTag,
    attrs: &'a [Attr],
) -> Option<Node<'a>>
    ensures { option_map node_in result ≡ tags.leaf_at label (place_in place) tag.now attrs.now (tags.field_of tag.now.word) }
{
    match field_of(tag.word.as_slice()) {
        Some(kind) => input_at(label, place, attrs, kind),
        None => match same(tag.word.as_slice(), b"submit") {
            true => submit_at(place, &tag.field, attrs),
            false => None,
        },
    }
}

/// A link, a field or a button.
fn other_at<'a>(
    label: Option<Label>,
    place: Place,
    tag: &WrittenTag,
    attrs: &'a [Attr],
    bare: bool,
) -> Option<Node<'a>>
    ensures { option_map node_in result ≡ tags.node_by label (place_in place) tag.now attrs.now bare None }
{
    if same(tag.word.as_slice(), b"a") {
        return link_at(place, &tag.field, attrs);
    }
    match bare {
        true => leaf_at(label, place, tag, attrs),
        false => None,
    }
}

/// A tag of whose attributes no two have one name.
fn node_by<'a>(
    label: Option<Label>,
    place: Place,
    tag: &WrittenTag,
    attrs: &'a [Attr],
    bare: bool,
) -> Option<Node<'a>>
    ensures { option_map node_in result ≡ tags.node_by label (place_in place) tag.now attrs.now bare (tags.tag_of tag.now.word) }
{
    match tag_of(tag.word.as_slice()) {
        Some(known) => element_at(place, &tag.field, attrs, known),
        None => other_at(label, place, tag, attrs, bare),
    }
}

/// What a tag is at a place: `label` is the label of its field, where it names one, and `bare` says that it has no
/// parts. A tag with two attributes of one name is E08, and one that may not stand there so is E13.
pub fn node_at<'a>(
    alloc: Global,
    span: Span,
    label: Option<Label>,
    place: Place,
    tag: &WrittenTag,
    attrs: &'a [Attr],
    bare: bool,
) -> Result<Node<'a>, Stop>
    ensures node { IfOk result (λ n. tags.node_with label (place_in place) tag.now attrs.now bare ≡ Some (node_in n)) }
    ensures refused { IfRefused result (IsBadTag label (place_in place) tag.now attrs.now bare) }
{
    match repeated(attrs) {
        Some(name) => Err(Stop::Refused(twice(alloc, span, name)?)),
        None => match node_by(label, place, tag, attrs, bare) {
            Some(node) => Ok(node),
            None => Err(Stop::Refused(misplaced(alloc, span, tag.word.as_slice(), place)?)),
        },
    }
}

/// Where the parts of a tag stand.
pub fn inner_place(place: Place, node: &Node) -> Place
    ensures { place_in result ≡ tags.inner_place (place_in place) (node_in node.now) }
{
    match node {
        Node::Element(_, inner) => *inner,
        Node::Form => Place::Form,
        _ => place,
    }
}

fn field_type(kind: FieldKind) -> NormalType
    ensures { result ≡ places.field_type kind }
{
    match kind {
        FieldKind::Checkbox => NormalType::Bool,
        _ => NormalType::Str,
    }
}

/// The row that a field of a form gives.
pub fn field_row(alloc: Global, kind: FieldKind, label: Label) -> Result<List<Part>, Memory>
    ensures { IfOk result (λ r. r ≡ field label (places.field_type kind) ∷ []) }
{
    let of = boxed(alloc, field_type(kind))?;
    let row = one(alloc, Part::Field(label, of))?;
    Ok(row)
}
