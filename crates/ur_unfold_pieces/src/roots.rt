//! The roots: the functions without constructor and static parameters.
ghost use Rattle.std.specs.Prelude.{◌≡◌, ◌<◌, ◌+◌, ◌↔◌, [], ◌∷◌, false, length, IsTrue, IfOk, OnOk};
ghost use Rattle.ur_tree.specs.Env.{kinds_of};
ghost use Rattle.ur_source.specs.Instances.{AreValues};
ghost use Rattle.ur_unfold_pieces.specs.Rooted.{AreRootKeys, IsPlain, RootsTo, root_key};

use crate::fitting::number_of;
use crate::numbering::add_key;
use crate::opening::Key;
use indexmap::IndexSet;
use std::alloc::Global;
use ur_base::{List, Memory};
use ur_tree::{ConParam, Function, Param};

/// The keys of the roots, in order of functions.
pub fn roots(alloc: Global, functions: &List<Function>) -> Result<IndexSet<Key>, Memory>
    ensures { IfOk result (λ s. AreRootKeys functions.now s.keys) }
{
    let all = functions.as_slice();
    let mut instances = IndexSet::new(alloc);
    for i in 0..all.len() {
        push_root(alloc, all, i, &mut instances)?;
    }
    Ok(instances)
}

/// The key of the function at this place, where it is a root.
fn push_root(
    alloc: Global,
    functions: &[Function],
    place: usize,
    instances: &mut IndexSet<Key>,
) -> Result<(), Memory>
    requires so_far { RootsTo functions.now place instances.old.keys }
    requires there { place < length functions.now }
    ensures { OnOk result (RootsTo functions.now (place + 1) instances.new.keys) }
{
    let function = &functions[place];
    if !is_plain(function) {
        return Ok(());
    }
    let key = root(alloc, place)?;
    add_key(instances, key)?;
    Ok(())
}

/// The instance of a function without constructors and static arguments.
fn root(alloc: Global, place: usize) -> Result<Key, Memory>
    ensures { IfOk result (λ key. key ≡ root_key place) }
{
    let function = number_of(place)?;
    Ok(Key {
        function,
        cons: List::new(alloc),
        fixed: List::new(alloc),
    })
}

/// Whether a function has no constructor and no static parameter. Rows that are to be apart are no parameters.
fn is_plain(function: &Function) -> bool
    ensures { IsTrue result ↔ IsPlain function.now }
{
    if !has_no_kind(&function.cons) {
        return false;
    }
    are_values(&function.params)
}

fn has_no_kind(cons: &List<ConParam>) -> bool
    ensures { IsTrue result ↔ (kinds_of cons.now ≡ []) }
{
    let all = cons.as_slice();
    for i in 0..all.len() {
        if !is_apart(&all[i]) {
            return false;
        }
    }
    true
}

fn is_apart(con: &ConParam) -> bool
    ensures { IsTrue result ↔ (kinds_of (con.now ∷ []) ≡ []) }
{
    match con {
        ConParam::Kinded(_) => false,
        ConParam::Apart(_, _) => true,
    }
}

fn are_values(params: &List<Param>) -> bool
    ensures { IsTrue result ↔ AreValues params.now }
{
    let all = params.as_slice();
    for i in 0..all.len() {
        if !is_value(&all[i]) {
            return false;
        }
    }
    true
}

fn is_value(param: &Param) -> bool
    ensures { IsTrue result ↔ (param.now.fixed ≡ false) }
{
    !param.fixed
}
