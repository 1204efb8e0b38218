//! Operations that make XML.
ghost use Rattle.std.specs.Prelude.{◌≡◌, ◌≢◌, [], ◌∷◌, ◌++◌, IfOk, MatchResult, Some, None, take, drop};
ghost use Rattle.ur_machine_frames.specs.Plays.{nothing, Joins};
ghost use Rattle.ur_terms.specs.Ops.{does, markup, optional_text, with_unit};
ghost use Rattle.ur_terms.specs.Values.{all_nodes};
ghost use Rattle.ur_machine_operations.specs.Comes.{Comes, CanDo};

use crate::built::built;
use crate::operands::{into_nodes, into_text, one, optional_text};
use crate::texts::shown;
use std::alloc::Global;
use ur_base::{List, Memory, Name, Room, Text};
use ur_machine_frames::Performed;
use ur_terms::Op;
use ur_values::{Call, FieldKind, Node, Tag, Value};

/// XML of these nodes.
fn of_nodes(nodes: Result<List<Node>, Memory>) -> Performed
    ensures { MatchResult nodes (λ ns. Comes (markup ns) result) (λ _. result ≡ Performed.Memory) }
{
    match nodes {
        Ok(nodes) => built(Value::Markup(nodes)),
        Err(_) => Performed::Memory,
    }
}

/// One node.
fn of_node(alloc: Global, node: Node) -> Performed
    ensures { Comes (markup (node ∷ [])) result }
{
    match Room::new(alloc, 1) {
        Ok(room) => {
            let mut nodes = room;
            nodes.push(node);
            built(Value::Markup(nodes.list()))
        }
        Err(_) => Performed::Memory,
    }
}

/// A literal: the nodes of its parts.
pub(crate) fn literal(alloc: Global, parts: List<Value>) -> Performed
    requires { all_nodes parts ≢ None }
    ensures { Joins parts result }
{
    of_nodes(all_nodes(alloc, parts))
}

/// The nodes of all parts, one after the other.
fn all_nodes(alloc: Global, parts: List<Value>) -> Result<List<Node>, Memory>
    requires { all_nodes parts ≢ None }
    ensures { IfOk result (λ nodes. all_nodes parts ≡ Some nodes) }
{
    let mut nodes = List::new(alloc);
    for part in parts.into_vec() {
        nodes = joined(nodes, into_nodes(part))?;
    }
    Ok(nodes)
}

/// The nodes of both, on the list that is there where one is empty.
fn joined(nodes: List<Node>, more: List<Node>) -> Result<List<Node>, Memory>
    ensures { IfOk result (λ all. all ≡ nodes ++ more) }
{
    if nodes.is_empty() {
        return Ok(more);
    }
    let mut nodes = nodes;
    nodes.append(more)?;
    Ok(nodes)
}

pub(crate) fn text(alloc: Global, text: &Text) -> Performed
    ensures { Comes (does nothing (Op.Text text.now) []) result }
{
    match List::from_slice(alloc, text.as_slice()) {
        Ok(text) => of_node(alloc, Node::Text(text)),
        Err(_) => Performed::Memory,
    }
}

pub(crate) fn shown_text(alloc: Global, args: List<Value>) -> Performed
    requires { CanDo (does nothing Op.Shown args) }
    ensures { Comes (does nothing Op.Shown args) result }
{
    match shown(alloc, one(args)) {
        Ok(text) => of_node(alloc, Node::Text(text)),
        Err(_) => Performed::Memory,
    }
}

pub(crate) fn element(alloc: Global, tag: Tag, parts: List<Value>) -> Performed
    requires { CanDo (does nothing (Op.Element tag) parts) }
    ensures { Comes (does nothing (Op.Element tag) parts) result }
{
    match all_nodes(alloc, parts) {
        Ok(inner) => of_node(alloc, Node::Element(tag, inner)),
        Err(_) => Performed::Memory,
    }
}

pub(crate) fn link(alloc: Global, route: u32, count: u32, args: List<Value>) -> Performed
    requires { CanDo (does nothing (Op.Link route count) args) }
    ensures { Comes (does nothing (Op.Link route count) args) result }
{
    match split(alloc, count, args) {
        Ok((args, parts)) => match all_nodes(alloc, parts) {
            Ok(inner) => of_node(alloc, Node::Link(Call { route, args }, inner)),
            Err(_) => Performed::Memory,
        },
        Err(_) => Performed::Memory,
    }
}

pub(crate) fn input(
    alloc: Global,
    kind: FieldKind,
    number: Name,
    name: &Text,
    args: List<Value>,
) -> Performed
    requires { CanDo (does nothing (Op.Input kind number name.now) args) }
    ensures { Comes (does nothing (Op.Input kind number name.now) args) result }
{
    let value = optional_text(args);
    match List::from_slice(alloc, name.as_slice()) {
        Ok(name) => of_node(alloc, Node::Field(kind, name, value)),
        Err(_) => Performed::Memory,
    }
}

pub(crate) fn submit(
    alloc: Global,
    route: u32,
    count: u32,
    unit: bool,
    args: List<Value>,
) -> Performed
    requires { CanDo (does nothing (Op.Submit route count unit) args) }
    ensures { Comes (does nothing (Op.Submit route count unit) args) result }
{
    let (args, label) = with_label(count, args);
    match with_unit(alloc, unit, args) {
        Ok(args) => of_node(alloc, Node::Submit(Call { route, args }, label)),
        Err(_) => Performed::Memory,
    }
}

/// The first `count` values, and the text behind them where there is one.
fn with_label(count: u32, values: List<Value>) -> (List<Value>, Option<Text>)
    requires { optional_text (drop count values) ≢ None }
    ensures front { result.0 ≡ take count values }
    ensures label { optional_text (drop count values) ≡ Some result.1 }
{
    let mut values = values;
    if values.len() <= count as usize {
        return (values, None);
    }
    match values.pop() {
        Some(text) => (values, Some(into_text(text))),
        None => unreachable!(),
    }
}

/// The arguments, and a unit last where `unit` is true.
fn with_unit(alloc: Global, unit: bool, args: List<Value>) -> Result<List<Value>, Memory>
    ensures { IfOk result (λ all. all ≡ with_unit unit args) }
{
    if !unit {
        return Ok(args);
    }
    let mut args = args;
    args.push(Value::Row(List::new(alloc)))?;
    Ok(args)
}

/// The first `count` values, and those after them.
fn split(
    alloc: Global,
    count: u32,
    values: List<Value>,
) -> Result<(List<Value>, List<Value>), Memory>
    ensures front { IfOk result (λ parts. parts.0 ≡ take count values) }
    ensures back { IfOk result (λ parts. parts.1 ≡ drop count values) }
{
    if count == 0 {
        return Ok((List::new(alloc), values));
    }
    let mut values = values.into_vec();
    if values.len() <= count as usize {
        return Ok((List::from_vec(values), List::new(alloc)));
    }
    let back = values.split_off(count as usize)?;
    Ok((List::from_vec(values), List::from_vec(back)))
}
