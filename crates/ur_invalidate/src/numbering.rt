//! The terms of a pair, numbered in a closure.
ghost use Rattle.std.specs.Prelude.{◌≡◌, [], ◌∷◌, Some, None, All, IfOk, OnOk, map};
ghost use Rattle.ur_values.specs.Atom.{IsAtomic};
ghost use Rattle.ur_sql.specs.declared.term.SqlTerm.{SqlTerm as TermOf};
ghost use Rattle.ur_sql.specs.declared.term.SqlTerm.TheVariants as t;
ghost use Rattle.ur_congruence.specs.declared.terms.TermNode.TheVariants as node;
ghost use Rattle.ur_congruence.specs.Derives.{some_symbol};
ghost use Rattle.ur_congruence.specs.Terms.{HasTerm};
ghost use Rattle.ur_conditions.specs.Terms.{constant_of, HasAtoms};
ghost use Rattle.ur_invalidate.specs.Numbers.{leaf_of};
ghost use Rattle.ur_invalidate.specs.Numbering.{AddsTerm, AddsNode, AddsLeaf, PlacesLeaf};
ghost use Rattle.ur_invalidate.specs.Stages.{AddsSides, AddsEquation};

use crate::leaf::Leaf;
use indexmap::IndexSet;
use std::alloc::Global;
use ur_base::{List, Memory};
use ur_congruence::{Closure, Term};
use ur_sql::SqlTerm;
use ur_values::Value;

/// Terms in a closure, and their constants in order, each with its number as often as it stands there.
#[derive(Drop)]
pub struct Numbering {
    pub leaves: IndexSet<Leaf>,
    pub closure: Closure,
    pub constants: List<(Value, u32)>,
}

impl Numbering {
    /// No terms. Takes no memory.
    pub fn new(alloc: Global) -> Numbering
        ensures leaves { result.leaves.keys ≡ [] }
        ensures nodes { result.closure.nodes ≡ [] }
        ensures equations { result.closure.equations ≡ [] }
        ensures constants { result.constants ≡ [] }
    {
        Numbering {
            leaves: IndexSet::new(alloc),
            closure: Closure::new(alloc),
            constants: List::new(alloc),
        }
    }

    /// The number of a term, which is added with its parts where it is new.
    pub fn number(&mut self, alloc: Global, term: &SqlTerm) -> Result<Term, Memory>
        requires atoms { HasAtoms term.now }
        ensures { IfOk result (λ number. AddsTerm self.old self.new term.now number.number) }
    {
        match term {
            SqlTerm::Item(item, column) => self.leaf(Leaf::Item(*item, *column)),
            SqlTerm::Row(column) => self.leaf(Leaf::Row(*column)),
            SqlTerm::Old(column) => self.leaf(Leaf::Old(*column)),
            SqlTerm::Key(number) => self.leaf(Leaf::Key(*number)),
            SqlTerm::Arg(number) => self.leaf(Leaf::Arg(*number)),
            SqlTerm::Constant(value) => self.constant(alloc, value),
            SqlTerm::Add(a, b) => {
                let left = self.number(alloc, a.get())?;
                let right = self.number(alloc, b.get())?;
                self.apply(0, &[left, right])
            }
            SqlTerm::Sub(a, b) => {
                let left = self.number(alloc, a.get())?;
                let right = self.number(alloc, b.get())?;
                self.apply(1, &[left, right])
            }
            SqlTerm::Mul(a, b) => {
                let left = self.number(alloc, a.get())?;
                let right = self.number(alloc, b.get())?;
                self.apply(2, &[left, right])
            }
            SqlTerm::Neg(a) => {
                let part = self.number(alloc, a.get())?;
                self.apply(3, &[part])
            }
            SqlTerm::Present(a) => {
                let part = self.number(alloc, a.get())?;
                self.inject(part)
            }
        }
    }

    /// Adds an equation, with its sides.
    pub fn equate(&mut self, alloc: Global, equation: &(SqlTerm, SqlTerm)) -> Result<(), Memory>
        requires left { HasAtoms equation.now.0 }
        requires right { HasAtoms equation.now.1 }
        ensures { OnOk result (AddsEquation self.old self.new equation.now) }
    {
        let (left, right) = self.sides(alloc, equation)?;
        self.closure
            .equate(Term { number: left }, Term { number: right })
    }

    /// The numbers of two terms.
    pub fn sides(&mut self, alloc: Global, sides: &(SqlTerm, SqlTerm)) -> Result<(u32, u32), Memory>
        requires left { HasAtoms sides.now.0 }
        requires right { HasAtoms sides.now.1 }
        ensures { IfOk result (AddsSides self.old self.new sides.now) }
    {
        let left = self.number(alloc, &sides.0)?;
        let right = self.number(alloc, &sides.1)?;
        Ok((left.number, right.number))
    }

    /// The number of a symbol at terms. More terms than the closure has numbers take memory that is not had.
    fn apply(&mut self, symbol: u32, parts: &[Term]) -> Result<Term, Memory>
        requires { All (λ a. HasTerm self.old.closure a.number) parts.now }
        ensures { IfOk result (λ number. AddsNode self.old self.new (node.Apply symbol (map (λ a. a.number) parts.now)) number.number) }
    {
        if self.closure.is_full() {
            return Err(Memory);
        }
        self.closure.apply(symbol, parts)
    }

    /// The number of SOME of a term. More terms than the closure has numbers take memory that is not had.
    fn inject(&mut self, part: Term) -> Result<Term, Memory>
        requires { HasTerm self.old.closure part.number }
        ensures { IfOk result (λ number. AddsNode self.old self.new (node.Apply some_symbol (part.number ∷ [])) number.number) }
    {
        if self.closure.is_full() {
            return Err(Memory);
        }
        self.closure.inject(part)
    }

    /// The number of a constant.
    fn constant(&mut self, alloc: Global, value: &Value) -> Result<Term, Memory>
        requires atom { IsAtomic value.now }
        ensures { IfOk result (λ number. AddsTerm self.old self.new (t.Constant value.now) number.number) }
    {
        let number = self.place(Leaf::Constant(value.atom(alloc)?))?;
        self.constants.push((value.copy(alloc)?, number.number))?;
        Ok(number)
    }

    /// The number of a column or an antiquote.
    fn leaf(&mut self, leaf: Leaf) -> Result<Term, Memory>
        ensures { IfOk result (λ number. (a : TermOf) → leaf_of a ≡ Some leaf → constant_of a ≡ None → AddsTerm self.old self.new a number.number) }
    {
        self.place(leaf)
    }

    /// The number of a leaf. More terms than the closure has numbers take memory that is not had.
    fn place(&mut self, leaf: Leaf) -> Result<Term, Memory>
        ensures { IfOk result (λ number. AddsLeaf self.old self.new leaf number.number) }
    {
        let place = self.leaf_place(leaf)?;
        if self.closure.is_full() {
            return Err(Memory);
        }
        self.closure.variable(place)
    }

    /// The place of a leaf among the leaves. More leaves than `u32` has numbers take memory that is not had.
    fn leaf_place(&mut self, leaf: Leaf) -> Result<u32, Memory>
        ensures { IfOk result (λ place. PlacesLeaf self.old self.new leaf place) }
    {
        if self.leaves.len() >= u32::MAX as usize {
            return Err(Memory);
        }
        let (place, _) = self.leaves.insert_full(leaf)?;
        Ok(place as u32)
    }
}
