//! The lists of what is closed. They only grow, and each thing is there once.
ghost use Rattle.std.specs.Prelude.{◌≡◌, ◌↔◌, [], ◌∷◌, true, None, option_map, slice_get, IsTrue, IfOk, IfSome, MatchOption};
ghost use Rattle.std.specs.Option.{option_copied};
ghost use Rattle.ur_rows.specs.declared.normal.Normal.TheVariants as normal;
ghost use Rattle.ur_rows.specs.IsNormal.{is_normal};
ghost use Rattle.ur_rows.specs.Made.{unit as made_unit};
ghost use Rattle.ur_meaning.specs.Instances.{Different};
ghost use Rattle.ur_source.specs.Static.{static_record};
ghost use Rattle.ur_unfold_static.specs.Held.{Grows, NodeFits, static_of_node};
ghost use Rattle.ur_unfold_static.specs.declared.node.Node.TheVariants as node;
ghost use Rattle.ur_unfold_static.specs.Lists.{constructors, written};
ghost use Rattle.ur_unfold_static.specs.Scopes.{IsAt};
ghost use Rattle.ur_unfold_static.specs.Closing.{nothing_held};

use crate::closing_cons::add_con;
use crate::con::{Con, sized};
use crate::lambdas::add_lambda;
use crate::node::{Lambda, Node};
use crate::nodes::{number_of, push_node};
use crate::numbers::fits;
use indexmap::IndexSet;
use std::alloc::Global;
use std::marker::Model;
use ur_base::{List, Memory};
use ur_rows::{Normal, unit};
use ur_tree::{Exp, Param};

/// Closed constructors, the lambdas of the source that were closed, and closed static expressions, each by number and
/// each once. The unit type and the empty record are there from the beginning.
#[derive(Drop)]
pub struct Closing<'a> {
    cons: List<Con>,
    lambdas: List<Lambda<'a>>,
    nodes: IndexSet<Node>,
}

impl<'a> Model for Closing<'a> {
    ghost use Rattle.ur_unfold_static.specs.Held.{Held};
    ghost use Rattle.ur_unfold_static.specs.Lists.{constructors, all_written};
    ghost use Rattle.ur_unfold_static.specs.Closing.{held_by, IsSound};
    ghost use Rattle.std.specs.Coded.{codes};
    ghost use Rattle.ur_values.specs.contracts.value.Value as value;
    ghost use Rattle.ur_syntax.specs.contracts.kind.Kind as kind;
    ghost use Rattle.ur_rows.specs.contracts.normal.NormalType as normal_type;
    ghost use Rattle.ur_rows.specs.contracts.normal.Normal as con;
    ghost use Rattle.ur_tree.specs.contracts.exp.Exp as exp;
    ghost use Rattle.ur_tree.specs.contracts.closed.Static as closed;

    ghost Value = { Held };

    ghost coded = { Prim.hlevel (codes, value.the_row.coded, kind.the_row.coded, normal_type.the_row.coded, con.the_row.coded, exp.the_row.coded, closed.the_row.coded) };

    ghost view = { λ c. held_by (constructors c.cons) (all_written c.lambdas) c.nodes.keys };

    ghost invariant = { λ c. IsSound (constructors c.cons) (all_written c.lambdas) c.nodes.keys };
}

fn first_cons(alloc: Global) -> Result<List<Con>, Memory>
    ensures { IfOk result (λ cons. constructors cons ≡ normal.Type made_unit ∷ []) }
{
    let con = sized(Normal::Type(unit(alloc)))?;
    let mut cons = List::new(alloc);
    cons.push(con)?;
    Ok(cons)
}

fn first_nodes(alloc: Global) -> Result<IndexSet<Node>, Memory>
    ensures { IfOk result (λ nodes. nodes.keys ≡ node.Record [] ∷ []) }
{
    let mut nodes = IndexSet::new(alloc);
    push_node(&mut nodes, Node::Record(List::new(alloc)))?;
    Ok(nodes)
}

impl<'a> Closing<'a> {
    /// Nothing but the unit type and the empty record.
    #[tactic(auto, using(crate::proofs::Viewed::first))]
    pub fn new(alloc: Global) -> Result<Closing<'a>, Memory>
        ensures { IfOk result (λ made. made ≡ nothing_held) }
    {
        let cons = first_cons(alloc)?;
        let nodes = first_nodes(alloc)?;
        Ok(Closing {
            cons,
            lambdas: List::new(alloc),
            nodes,
        })
    }

    /// No constructor and no static expression has two numbers. Does nothing.
    pub fn each_once(&self)
        ensures cons { Different self.now.cons }
        ensures statics { Different self.now.statics }
    {
        let _ = &self.cons;
    }

    /// The number of the unit type.
    pub fn unit_number(&self) -> u32
        ensures { IsAt self.now.cons result (normal.Type made_unit) }
    {
        let _ = &self.cons;
        0
    }

    /// The number of the empty record.
    pub fn empty_number(&self) -> u32
        ensures { IsAt self.now.statics result (static_record []) }
    {
        let _ = &self.cons;
        0
    }

    /// The closed constructor with this number.
    pub fn con(&self, number: u32) -> Option<&Normal>
        ensures of { option_copied result ≡ slice_get self.now.cons number }
        ensures in_order { IfSome result (λ con. is_normal con.now ≡ true) }
    {
        match self.cons.get(number as usize) {
            None => None,
            Some(con) => Some(&con.of),
        }
    }

    /// The lambda with this number.
    pub fn lambda(&self, number: u32) -> Option<Lambda<'a>>
        ensures { option_map written result ≡ slice_get self.now.lambdas number }
    {
        match self.lambdas.get(number as usize) {
            None => None,
            Some(lambda) => Some(*lambda),
        }
    }

    /// The closed static expression with this number, one level deep.
    pub fn node(&self, number: u32) -> Option<&Node>
        ensures { MatchOption result (slice_get self.now.statics number ≡ None) (λ n. NodeFits self.now n.now × IsAt self.now.statics number (static_of_node self.now n.now)) }
    {
        match self.nodes.get_index(number as usize) {
            None => None,
            Some(node) => Some(node),
        }
    }

    /// Whether the numbers of a node stand for something.
    pub fn fits(&self, node: &Node) -> bool
        ensures { IsTrue result ↔ NodeFits self.now node.now }
    {
        fits(node, self.cons.len(), self.lambdas.len(), self.nodes.len())
    }

    /// The number of a closed constructor, which is added where it is new.
    pub fn add_con(&mut self, con: Normal) -> Result<u32, Memory>
        requires { is_normal con ≡ true }
        ensures number { IfOk result (λ j. IsAt self.new.cons j con) }
        ensures grows { Grows self.old self.new }
    {
        let con = sized(con)?;
        add_con(&mut self.cons, con)
    }

    /// The number of a lambda of the source, which is added where it is new. Equal lambdas have one number, wherever
    /// they stand.
    pub fn add_lambda(&mut self, params: &'a List<Param>, body: &'a Exp) -> Result<u32, Memory>
        ensures number { IfOk result (λ j. IsAt self.new.lambdas j (params.now, body.now)) }
        ensures grows { Grows self.old self.new }
    {
        add_lambda(&mut self.lambdas, params, body)
    }

    /// The number of a closed static expression, which is added where it is new.
    pub fn add_node(&mut self, node: Node) -> Result<u32, Memory>
        requires { NodeFits self.old node }
        ensures number { IfOk result (λ j. IsAt self.new.statics j (static_of_node self.old node)) }
        ensures grows { Grows self.old self.new }
    {
        match number_of(&self.nodes, &node) {
            Some(number) => Ok(number),
            None => push_node(&mut self.nodes, node),
        }
    }
}
