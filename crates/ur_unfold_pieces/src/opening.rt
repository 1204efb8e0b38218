//! A checked source with what is closed and numbered so far.
ghost use Rattle.std.specs.Prelude.{◌≡◌, IfOk};
ghost use Rattle.ur_unfold_pieces.specs.Standing.{AreRoots, IsWhole, instances_in};

use crate::roots::roots;
use crate::vals::closed_vals;
use indexmap::IndexSet;
use std::alloc::Global;
use ur_base::{List, Memory};
use ur_tree::Typed;
use ur_unfold_static::{Closing, Scope, Step};

/// An instance: a function with the numbers of its closed constructors and static arguments.
#[derive(Debug, Drop, PartialEq, Eq, Hash)]
pub struct Key {
    pub function: u32,
    pub cons: List<u32>,
    pub fixed: List<u32>,
}

/// A checked source, what is closed of it, the scopes in which pieces stand, the steps of folds, the last field's step
/// first, what the modules' `val`s are, and the instances that are numbered.
#[derive(Drop)]
pub struct Opening<'a> {
    pub typed: &'a Typed,
    pub closing: Closing<'a>,
    pub scopes: List<Scope>,
    pub folds: List<List<Step>>,
    pub vals: List<u32>,
    pub instances: IndexSet<Key>,
}

impl<'a> Opening<'a> {
    /// Nothing is numbered but the roots: the functions without constructor and static parameters, in order.
    pub fn new(alloc: Global, typed: &'a Typed) -> Result<Opening<'a>, Memory>
        ensures whole { IfOk result IsWhole }
        ensures source { IfOk result (λ s. s.typed.now ≡ typed.now) }
        ensures roots { IfOk result (λ s. AreRoots typed.now (instances_in s)) }
    {
        let mut closing = Closing::new(alloc)?;
        let vals = closed_vals(alloc, typed, &mut closing)?;
        let instances = roots(alloc, &typed.functions)?;
        Ok(Opening {
            typed,
            closing,
            scopes: List::new(alloc),
            folds: List::new(alloc),
            vals,
            instances,
        })
    }
}
