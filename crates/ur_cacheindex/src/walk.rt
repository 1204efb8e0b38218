//! The shortest list on which all that is looked for stands, and what is done along it.
ghost use Rattle.std.specs.Prelude.{◌≡◌, ◌≤◌, ◌<◌, ◌+◌, true, [], length, sum_by};
ghost use Rattle.std.specs.FinMap.{get, len as nodes_len};
ghost use Rattle.ur_cacheindex.specs.Matching.{node_matches};
ghost use Rattle.ur_cacheindex.specs.Calls.{passes, Finds, DropsIn, drop_cost};
ghost use Rattle.ur_cacheindex.specs.Moved.{DropsAt};
ghost use Rattle.ur_cacheindex.specs.Lists.{StayFilled};
ghost use Rattle.ur_cacheindex.specs.Linked.{has_slot, stands, look_at, links_of, nodes_of, AreLinked};
ghost use Rattle.ur_cacheindex.specs.Wanted.{wanted_takes};
ghost use Rattle.ur_cacheindex.specs.declared.wanted.Wanted.TheVariants as wanted_form;
ghost use Rattle.ur_cacheindex.specs.Walk.{IsShortest, IsShorterAt, Leads, DropsLists, Dropping};

use crate::Counted;
use crate::heads::{Head, Heads};
use crate::linked::{Linked, link_at};
use crate::lists::{unlink_in, whole_site};
use crate::matching::matches_node;
use crate::node::{Mask, Node, NodeId};
use crate::wanted::Wanted;
use ur_base::{Room, Steps};

/// A list of a slot, from its head.
#[derive(Clone, Copy)]
pub(crate) struct Listed {
    pub slot: usize,
    pub head: Head,
}

/// The shortest of the lists at the fixed positions and of the site's list. Takes no memory.
fn shortest(heads: &Heads, wanted: &Wanted<'_>) -> Listed
    ensures { IsShortest wanted.now heads.now result }
{
    let site = wanted.site();
    let whole = whole_site();
    let mut best = Listed {
        slot: 0,
        head: heads.at(site, 0, &whole),
    };
    for position in 0..wanted.count() {
        best = shorter_at(heads, wanted, position, best);
    }
    best
}

/// The list at a position, where it is fixed and its list is shorter.
fn shorter_at(heads: &Heads, wanted: &Wanted<'_>, position: usize, best: Listed) -> Listed
    requires { position < usize.MAX }
    ensures { IsShorterAt wanted.now heads.now position best result }
{
    match wanted.fixed(position) {
        None => best,
        Some(atom) => {
            let slot = position + 1;
            let other = heads.at(wanted.site(), slot, atom);
            if other.len < best.head.len {
                Listed { slot, head: other }
            } else {
                best
            }
        }
    }
}

/// A node that is looked for. Takes no memory.
pub(crate) fn find_in(nodes: &Counted<Linked>, heads: &Heads, wanted: &Wanted<'_>) -> Option<NodeId>
    requires { AreLinked heads.now (look_at nodes.now) }
    ensures { Finds (wanted_takes wanted.now) (nodes_of nodes.now) result }
{
    find_along(nodes, heads, shortest(heads, wanted), wanted)
}

/// A node that is looked for, along a list that has them all.
fn find_along(
    nodes: &Counted<Linked>,
    heads: &Heads,
    listed: Listed,
    wanted: &Wanted<'_>,
) -> Option<NodeId>
    requires linked { AreLinked heads.now (look_at nodes.now) }
    requires leads { Leads wanted.now heads.now listed }
    ensures { Finds (wanted_takes wanted.now) (nodes_of nodes.now) result }
{
    let mut steps = Steps::new();
    let mut at = listed.head.first;
    for _turn in 0..listed.head.len {
        match at {
            None => return None,
            Some(number) => {
                let linked = nodes.at(number, &mut steps);
                if wanted.takes(&linked.node) {
                    return Some(NodeId { number });
                }
                at = link_at(linked, listed.slot).next;
            }
        }
    }
    None
}

/// Whether the mask matches the node with this number, and what stands behind it; a step. Takes no memory.
fn look_along(
    nodes: &Counted<Linked>,
    number: usize,
    slot: usize,
    mask: &Mask,
    steps: &mut Steps,
) -> (bool, Option<usize>)
    requires { stands (has_slot slot) (get nodes.now number) ≡ true }
    ensures matches { result.0 ≡ passes (node_matches mask.now) (get (nodes_of nodes.now) number) }
    ensures next { result.1 ≡ (links_of (look_at nodes.now) slot).next number }
    ensures steps { steps.new ≤ steps.old + 1 }
{
    let linked = nodes.at(number, steps);
    (matches_node(mask, &linked.node), link_at(linked, slot).next)
}

/// Moves the node with this number out where the mask matches it, and answers what stood behind it. Takes no memory.
fn drop_at(
    nodes: &mut Counted<Linked>,
    heads: &mut Heads,
    number: usize,
    slot: usize,
    mask: &Mask,
    dropped: &mut Room<(NodeId, Node)>,
    steps: &mut Steps,
) -> Option<usize>
    requires there { stands (has_slot slot) (get nodes.old number) ≡ true }
    requires linked { AreLinked heads.old (look_at nodes.old) }
    requires room { nodes_len (nodes_of nodes.old) ≤ dropped.old.spare }
    ensures next { result ≡ (links_of (look_at nodes.old) slot).next number }
    ensures drops { DropsAt mask.now number (nodes_of nodes.old) dropped.old (nodes_of nodes.new) dropped.new }
    ensures linked { AreLinked heads.new (look_at nodes.new) }
    ensures filled { StayFilled heads.old heads.new }
    ensures lists { DropsLists number heads.old (look_at nodes.old) heads.new (look_at nodes.new) }
    ensures steps { steps.new + sum_by drop_cost dropped.old.items ≤ steps.old + 1 + sum_by drop_cost dropped.new.items }
{
    let (matches, next) = look_along(nodes, number, slot, mask, steps);
    if matches {
        let node = unlink_in(nodes, heads, number, steps);
        dropped.push((NodeId { number }, node));
    }
    next
}

/// Moves the nodes that the mask matches out, along a list that has them all. Takes no memory.
fn drop_along(
    nodes: &mut Counted<Linked>,
    heads: &mut Heads,
    listed: Listed,
    mask: &Mask,
    dropped: &mut Room<(NodeId, Node)>,
    steps: &mut Steps,
)
    requires linked { AreLinked heads.old (look_at nodes.old) }
    requires leads { Leads (wanted_form.Mask mask) heads.old listed }
    requires room { nodes_len (nodes_of nodes.old) ≤ dropped.old.spare }
    ensures drops { Dropping mask.now (nodes_of nodes.old) dropped.old (steps.old + listed.head.len) [] (nodes_of nodes.new) dropped.new steps.new }
    ensures linked { AreLinked heads.new (look_at nodes.new) }
    ensures filled { StayFilled heads.old heads.new }
{
    let mut at = listed.head.first;
    for _turn in 0..listed.head.len {
        match at {
            None => return,
            Some(number) => {
                at = drop_at(nodes, heads, number, listed.slot, mask, dropped, steps);
            }
        }
    }
}

/// Moves out exactly the nodes that the mask matches, along the shortest list. Takes no memory.
pub(crate) fn drop_in(
    nodes: &mut Counted<Linked>,
    heads: &mut Heads,
    mask: &Mask,
    dropped: &mut Room<(NodeId, Node)>,
    steps: &mut Steps,
)
    requires linked { AreLinked heads.old (look_at nodes.old) }
    requires room { nodes_len (nodes_of nodes.old) ≤ dropped.old.spare }
    ensures nodes { DropsIn mask.now (nodes_of nodes.old) (nodes_of nodes.new) dropped.old.items dropped.new.items steps.old steps.new }
    ensures room { dropped.new.spare + length dropped.new.items ≡ dropped.old.spare + length dropped.old.items }
    ensures linked { AreLinked heads.new (look_at nodes.new) }
    ensures filled { StayFilled heads.old heads.new }
{
    let listed = shortest(heads, &Wanted::Mask(mask));
    drop_along(nodes, heads, listed, mask, dropped, steps);
}
