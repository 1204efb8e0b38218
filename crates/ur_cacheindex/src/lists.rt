//! Nodes come to all of their lists, and go from them.
ghost use Rattle.std.specs.Prelude.{◌≡◌, ◌≤◌, ◌<◌, ◌+◌, ◌*◌, IsSome, Some, None, true, length, nat_lt, IfOk, OnOk, OnErr, option_map};
ghost use Rattle.std.specs.FinMap.{get, remove};
ghost use Rattle.ur_cacheindex.specs.Calls.{Inserts};
ghost use Rattle.ur_cacheindex.specs.Lists.{every, atom_at, slots_of, kept_at, head_at, KeepsHead, SetsHead, SameHeads, KeptBelow, AreFilled, StayFilled, AreFilledBut};
ghost use Rattle.ur_cacheindex.specs.Linked.{look_at, beside, nodes_of, Alike, AreLinked, IsHooked, Unhooks, UnhooksAll, CanHook, CanHookAll, HooksAt, HasNode, FillsAt, StillKept, shorter, longer};

use crate::Counted;
use crate::heads::{Head, Heads};
use crate::linked::{Link, Linked, fresh_links, link_at, set_next, set_prev};
use crate::node::{Node, NodeId};
use ur_base::{List, Memory, Steps};
use ur_values::Atom;

/// The atom of the lists of whole sites.
pub(crate) fn whole_site() -> Atom
    ensures { result ≡ every }
{
    Atom::Bool(false)
}

/// The atom of a node's list by a slot.
fn atom_in<'a>(node: &'a Node, whole: &'a Atom, slot: usize) -> &'a Atom
    requires whole { whole.now ≡ every }
    requires slot { nat_lt slot (slots_of node.now) ≡ true }
    ensures { result.now ≡ atom_at node.now slot }
{
    if slot == 0 {
        return whole;
    }
    &node.key.as_slice()[slot - 1]
}

/// The head of a list once a number with this link goes.
fn shorter(head: Head, link: Link) -> Head
    ensures { result ≡ shorter link head }
{
    let first = match link.prev {
        None => link.next,
        Some(_) => head.first,
    };
    Head {
        first,
        len: head.len.saturating_sub(1),
    }
}

/// A number with this link goes from the head of its list. Takes no memory.
fn shorten(heads: &mut Heads, node: &Node, slot: usize, link: Link)
    requires slot { nat_lt slot (slots_of node.now) ≡ true }
    requires kept { IsSome (kept_at heads.old node.now.site slot (atom_at node.now slot)) }
    ensures sets { SetsHead node.now.site slot (atom_at node.now slot) (shorter link (head_at heads.old node.now.site slot (atom_at node.now slot))) heads.old heads.new }
    ensures filled { StayFilled heads.old heads.new }
{
    let whole = whole_site();
    let atom = atom_in(node, &whole, slot);
    let head = shorter(heads.at(node.site, slot, atom), link);
    heads.set(node.site, slot, atom, head);
    heads.tidy(node.site, slot, atom);
}

/// Takes a node that is held off its list by a slot. Takes no memory.
fn unhook(
    nodes: &mut Counted<Linked>,
    heads: &mut Heads,
    held: &Linked,
    number: usize,
    slot: usize,
    steps: &mut Steps,
)
    requires slots { length held.now.links ≡ slots_of held.now.node }
    requires slot { nat_lt slot (slots_of held.now.node) ≡ true }
    requires hooked { IsHooked heads.old (beside (look_at nodes.old) number held.now) held.now.node.site slot (atom_at held.now.node slot) number true }
    ensures lists { Unhooks held.now.node.site slot (atom_at held.now.node slot) number heads.old (beside (look_at nodes.old) number held.now) heads.new (beside (look_at nodes.new) number held.now) }
    ensures filled { StayFilled heads.old heads.new }
    ensures alike { Alike (look_at nodes.old) (look_at nodes.new) }
    ensures steps { steps.new ≤ steps.old + 2 }
{
    let link = link_at(held, slot);
    set_next(nodes, link.prev, slot, link.next, steps);
    set_prev(nodes, link.next, slot, link.prev, steps);
    shorten(heads, &held.node, slot, link);
}

/// Takes a node that is held off each of its lists. Takes no memory.
fn unhook_each(
    nodes: &mut Counted<Linked>,
    heads: &mut Heads,
    held: &Linked,
    number: usize,
    steps: &mut Steps,
)
    requires linked { AreLinked heads.old (beside (look_at nodes.old) number held.now) }
    requires absent { get nodes.old number ≡ None }
    ensures lists { UnhooksAll number heads.old (beside (look_at nodes.old) number held.now) heads.new (look_at nodes.new) }
    ensures filled { StayFilled heads.old heads.new }
    ensures alike { Alike (look_at nodes.old) (look_at nodes.new) }
    ensures steps { steps.new ≤ steps.old + 2 * slots_of held.now.node }
{
    for slot in 0..held.links.len() {
        unhook(nodes, heads, held, number, slot, steps);
    }
}

/// Takes a node out and off its lists. Takes no memory.
pub(crate) fn unlink_in(
    nodes: &mut Counted<Linked>,
    heads: &mut Heads,
    number: usize,
    steps: &mut Steps,
) -> Node
    requires there { IsSome (get (nodes_of nodes.old) number) }
    requires linked { AreLinked heads.old (look_at nodes.old) }
    ensures node { get (nodes_of nodes.old) number ≡ Some result }
    ensures left { nodes_of nodes.new ≡ remove (nodes_of nodes.old) number }
    ensures linked { AreLinked heads.new (look_at nodes.new) }
    ensures lists { UnhooksAll number heads.old (look_at nodes.old) heads.new (look_at nodes.new) }
    ensures filled { StayFilled heads.old heads.new }
    ensures steps { steps.new ≤ steps.old + 1 + 2 * slots_of result }
{
    let held = nodes.take(number, steps);
    unhook_each(nodes, heads, &held, number, steps);
    held.node
}

/// Puts a number in front of the head of its list, and answers what was the first before. Takes no memory.
fn lengthen(heads: &mut Heads, node: &Node, number: usize, slot: usize) -> Option<usize>
    requires slot { nat_lt slot (slots_of node.now) ≡ true }
    requires kept { IsSome (kept_at heads.old node.now.site slot (atom_at node.now slot)) }
    requires room { (head_at heads.old node.now.site slot (atom_at node.now slot)).len < usize.MAX }
    ensures first { result ≡ (head_at heads.old node.now.site slot (atom_at node.now slot)).first }
    ensures heads { KeepsHead node.now.site slot (atom_at node.now slot) (longer number (head_at heads.old node.now.site slot (atom_at node.now slot))) heads.old heads.new }
{
    let whole = whole_site();
    let atom = atom_in(node, &whole, slot);
    let head = heads.at(node.site, slot, atom);
    heads.set(
        node.site,
        slot,
        atom,
        Head {
            first: Some(number),
            len: head.len + 1,
        },
    );
    head.first
}

/// Puts a node in front of its list by a slot. Takes no memory.
fn hook(nodes: &mut Counted<Linked>, heads: &mut Heads, number: usize, slot: usize)
    requires { CanHook slot heads.old (look_at nodes.old) number }
    ensures lists { HooksAt slot number heads.old (look_at nodes.old) heads.new (look_at nodes.new) }
    ensures alike { Alike (look_at nodes.old) (look_at nodes.new) }
    ensures kept { StillKept heads.old heads.new }
    ensures filled { FillsAt slot number heads.old (look_at nodes.old) heads.new }
{
    let mut steps = Steps::new();
    let _all = nodes.len();
    let first = lengthen(heads, &nodes.at(number, &mut steps).node, number, slot);
    set_next(nodes, Some(number), slot, first, &mut steps);
    set_prev(nodes, Some(number), slot, None, &mut steps);
    set_prev(nodes, first, slot, Some(number), &mut steps);
}

/// How many slots the node with this number has.
fn count_slots(nodes: &Counted<Linked>, number: usize) -> usize
    requires { IsSome (get nodes.now number) }
    ensures { option_map (λ x. length x.links) (get nodes.now number) ≡ Some result }
{
    let mut steps = Steps::new();
    nodes.at(number, &mut steps).links.len()
}

/// Puts a node on each of its lists. Takes no memory.
fn hook_each(nodes: &mut Counted<Linked>, heads: &mut Heads, number: usize)
    requires { CanHookAll heads.old (look_at nodes.old) number }
    ensures linked { AreLinked heads.new (look_at nodes.new) }
    ensures filled { (node : _) → HasNode (look_at nodes.old) number node → AreFilledBut 0 node heads.old → AreFilled heads.new }
    ensures alike { Alike (look_at nodes.old) (look_at nodes.new) }
{
    for slot in 0..count_slots(nodes, number) {
        hook(nodes, heads, number, slot);
    }
}

/// Keeps a head for each list of a node, or for want of memory maybe for some of them.
fn keep_each(heads: &mut Heads, node: &Node) -> Result<(), Memory>
    ensures same { SameHeads heads.old heads.new }
    ensures kept { IfOk result (λ _. KeptBelow (slots_of node.now) node.now heads.new) }
    ensures filled { AreFilled heads.old → AreFilledBut 0 node.now heads.new }
{
    let whole = whole_site();
    for slot in 0..node.key.as_slice().len() + 1 {
        heads.keep(node.site, slot, atom_in(node, &whole, slot))?;
    }
    Ok(())
}

/// Lets those heads of a node's lists go that are empty. Takes no memory.
fn tidy_each(heads: &mut Heads, node: &Node)
    ensures same { SameHeads heads.old heads.new }
    ensures filled { AreFilledBut 0 node.now heads.old → AreFilled heads.new }
{
    let whole = whole_site();
    for slot in 0..node.key.as_slice().len() + 1 {
        heads.tidy(node.site, slot, atom_in(node, &whole, slot));
    }
}

/// Takes the memory that a node's lists want.
fn prepare(heads: &mut Heads, node: &Node) -> Result<List<Link>, Memory>
    ensures same { SameHeads heads.old heads.new }
    ensures ready { IfOk result (λ links. (length links ≡ slots_of node.now) × KeptBelow (slots_of node.now) node.now heads.new) }
    ensures filled { OnOk result (AreFilled heads.old → AreFilledBut 0 node.now heads.new) }
    ensures err { OnErr result (StayFilled heads.old heads.new) }
{
    let links = fresh_links(heads.alloc(), node.key.as_slice().len() + 1)?;
    match keep_each(heads, node) {
        Ok(()) => Ok(links),
        Err(memory) => {
            tidy_each(heads, node);
            Err(memory)
        }
    }
}

/// Puts a node in under a number that no node has, or hands it back for want of memory. Nothing is linked before all memory is taken.
pub(crate) fn insert_in(
    nodes: &mut Counted<Linked>,
    heads: &mut Heads,
    node: Node,
) -> Result<NodeId, Node>
    requires linked { AreLinked heads.old (look_at nodes.old) }
    requires filled { AreFilled heads.old }
    ensures inserts { Inserts node (nodes_of nodes.old) (nodes_of nodes.new) result }
    ensures linked { AreLinked heads.new (look_at nodes.new) }
    ensures filled { AreFilled heads.new }
{
    match prepare(heads, &node) {
        Ok(links) => put_in(nodes, heads, Linked { node, links }),
        Err(_) => Err(node),
    }
}

fn put_in(nodes: &mut Counted<Linked>, heads: &mut Heads, linked: Linked) -> Result<NodeId, Node>
    requires linked { AreLinked heads.old (look_at nodes.old) }
    requires slots { length linked.links ≡ slots_of linked.node }
    requires kept { KeptBelow (slots_of linked.node) linked.node heads.old }
    requires filled { AreFilledBut 0 linked.node heads.old }
    ensures inserts { Inserts linked.node (nodes_of nodes.old) (nodes_of nodes.new) result }
    ensures linked { AreLinked heads.new (look_at nodes.new) }
    ensures filled { AreFilled heads.new }
{
    match nodes.insert(linked) {
        Ok(number) => {
            hook_each(nodes, heads, number);
            Ok(NodeId { number })
        }
        Err(linked) => {
            tidy_each(heads, &linked.node);
            Err(linked.node)
        }
    }
}
