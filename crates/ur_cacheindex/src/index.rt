//! An index whose nodes are listed by site and by the value at each position of their keys.
ghost use Rattle.std.specs.Prelude.{◌≡◌, ◌≤◌, ◌+◌, ◌↔◌, IsTrue, length, IsSome, Some};
ghost use Rattle.std.specs.FinMap.{empty, len as nodes_len, remove, get};
ghost use Rattle.ur_values.specs.Atom.{atom_values};
ghost use Rattle.ur_cacheindex.specs.Matching.{node_matches};
ghost use Rattle.ur_cacheindex.specs.Calls.{Inserts, Finds, node_is_at, DropsIn};

use crate::Counted;
use crate::heads::Heads;
use crate::linked::Linked;
use crate::lists::{insert_in, unlink_in};
use crate::node::{Mask, Node, NodeId};
use crate::walk::{drop_in, find_in};
use crate::wanted::Wanted;
use std::alloc::Global;
use std::marker::Model;
use ur_base::{Room, Steps};
use ur_values::Atom;

/// Nodes by number, listed by site and by the value at each position of their keys. None of its calls but `insert`
/// takes memory.
#[derive(Drop)]
pub struct Index {
    nodes: Counted<Linked>,
    heads: Heads,
}

impl Model for Index {
    ghost use Rattle.ur_cacheindex.specs.Nodes.{Nodes};
    ghost use Rattle.ur_cacheindex.specs.Lists.{AreFilled};
    ghost use Rattle.ur_cacheindex.specs.Linked.{nodes_of, look_at, AreLinked};
    ghost use Rattle.ur_cacheindex.specs.contracts.node.Node as node;
    ghost use Rattle.std.specs.Coded.{coded_ℕ};
    ghost use Rattle.std.specs.FinMap.{code};

    ghost Value = { Nodes };

    ghost coded = { code coded_ℕ node.the_row.coded };

    ghost view = { λ index. nodes_of index.nodes };

    ghost invariant = { λ index. AreLinked index.heads (look_at index.nodes) × AreFilled index.heads };
}

impl Index {
    /// No nodes. Takes no memory.
    pub fn new(alloc: Global) -> Index
        ensures { result ≡ empty }
    {
        Index {
            nodes: Counted::new(alloc),
            heads: Heads::new(alloc),
        }
    }

    /// How many nodes there are.
    pub fn len(&self) -> usize
        ensures { result ≡ nodes_len self.now }
    {
        self.nodes.len()
    }

    /// Whether a node has this number.
    pub fn has(&self, id: NodeId) -> bool
        ensures { IsTrue result ↔ IsSome (get self.now id.number) }
    {
        self.nodes.has(id.number)
    }

    /// Puts a node in under a number that no node has, or hands it back for want of memory.
    pub fn insert(&mut self, node: Node) -> Result<NodeId, Node>
        ensures { Inserts node self.old self.new result }
    {
        insert_in(&mut self.nodes, &mut self.heads, node)
    }

    /// Takes a node out.
    pub fn unlink(&mut self, id: NodeId) -> Node
        requires { IsSome (get self.old id.number) }
        ensures node { get self.old id.number ≡ Some result }
        ensures left { self.new ≡ remove self.old id.number }
    {
        let mut steps = Steps::new();
        unlink_in(&mut self.nodes, &mut self.heads, id.number, &mut steps)
    }

    /// A node that the mask matches.
    pub fn find(&self, mask: &Mask) -> Option<NodeId>
        ensures { Finds (node_matches mask.now) self.now result }
    {
        find_in(&self.nodes, &self.heads, &Wanted::Mask(mask))
    }

    /// A node with this site and key.
    pub fn find_key(&self, site: u32, key: &[Atom]) -> Option<NodeId>
        ensures { Finds (node_is_at site (atom_values key.now)) self.now result }
    {
        find_in(&self.nodes, &self.heads, &Wanted::Key(site, key))
    }

    /// Moves out exactly the nodes that the mask matches, at a step for each look at a node.
    pub fn drop_matching(
        &mut self,
        mask: &Mask,
        dropped: &mut Room<(NodeId, Node)>,
        steps: &mut Steps,
    )
        requires { nodes_len self.old ≤ dropped.old.spare }
        ensures nodes { DropsIn mask.now self.old self.new dropped.old.items dropped.new.items steps.old steps.new }
        ensures room { dropped.new.spare + length dropped.new.items ≡ dropped.old.spare + length dropped.old.items }
    {
        drop_in(&mut self.nodes, &mut self.heads, mask, dropped, steps);
    }
}
