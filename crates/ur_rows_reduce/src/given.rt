//! Functions applied to arguments, where either may be too large.
ghost use Rattle.std.specs.Prelude.{◌≡◌, ◌<◌, true, List as GhostList, IfOk, IsTrue};
ghost use Rattle.ur_rows.specs.declared.normal.Normal.{Normal as GhostNormal};
ghost use Rattle.ur_rows.specs.IsNormal.{is_normal};
ghost use Rattle.ur_rows.specs.Nodes.{nodes, most_nodes};
ghost use Rattle.ur_rows.specs.Put.{applied_once, applied};
ghost use Rattle.ur_rows_reduce.specs.Held.{Means, Holds};
ghost use Rattle.ur_rows_reduce.specs.Arguments.{Given, args_of};

use crate::count::{Halt, applied_within};
use crate::held::{Held, Large, shape};
use crate::occurs::{holds, is_used};
use std::alloc::Global;
use ur_base::Memory;
use ur_rows::{Normal, unit};

/// The arguments of a constructor, the first one first.
#[derive(Clone, Copy)]
pub enum Args<'a> {
    Empty,
    More(&'a Held, &'a Args<'a>),
}

/// What is known of a function applied to an argument where that has too many nodes.
fn shape_applied(f: &Normal) -> Large
    ensures { (a : GhostNormal) → most_nodes < nodes (applied_once f.now a) → Means result (applied_once f.now a) }
{
    match f {
        Normal::Fn(_, c) => shape(c.get()),
        Normal::Type(_) => Large::Function,
        Normal::Name(_) => Large::Function,
        Normal::Row(_) => Large::Function,
    }
}

fn given_form(alloc: Global, f: &Normal, a: &Normal) -> Result<Held, Memory>
    ensures { IfOk result (λ h. Holds h (applied_once f.now a.now)) }
{
    match applied_within(alloc, f, a) {
        Ok(n) => Ok(Held::Form(n)),
        Err(Halt::Memory) => Err(Memory),
        Err(Halt::TooLarge) => Ok(Held::Large(shape_applied(f))),
    }
}

/// Whether a function's body holds its variable where nothing takes it away.
fn is_held(f: &Normal, a: &Large) -> bool
    ensures { (n : GhostNormal) → IsTrue result → is_normal n ≡ true → Means a.now n → most_nodes < nodes (applied_once f.now n) }
{
    match f {
        Normal::Fn(_, c) => match a {
            Large::Type => holds(false, c.get()),
            Large::Row(_) => holds(true, c.get()),
            Large::TypeFunction => false,
            Large::Function => false,
        },
        Normal::Type(_) => false,
        Normal::Name(_) => false,
        Normal::Row(_) => false,
    }
}

/// A function applied to an argument that is too large. There is no memory for one that the function neither drops nor
/// keeps.
fn given_large(alloc: Global, f: &Normal, a: &Large) -> Result<Held, Memory>
    ensures { IfOk result (λ h. (n : GhostNormal) → is_normal n ≡ true → Means a.now n → Holds h (applied_once f.now n)) }
{
    if !is_used(f)? {
        return given_form(alloc, f, &Normal::Type(unit(alloc)));
    }
    if is_held(f, a) {
        return Ok(Held::Large(shape_applied(f)));
    }
    Err(Memory)
}

/// A function applied to one argument. There is no memory for a function that is too large.
fn given(alloc: Global, f: &Held, a: &Held) -> Result<Held, Memory>
    ensures { IfOk result (λ h. (m n : GhostNormal) → is_normal n ≡ true → Holds f.now m → Holds a.now n → Holds h (applied_once m n)) }
{
    match f {
        Held::Form(f) => match a {
            Held::Form(a) => given_form(alloc, f, a),
            Held::Large(a) => given_large(alloc, f, a),
        },
        Held::Large(_) => Err(Memory),
    }
}

/// A function applied to arguments in turn.
pub fn applied(alloc: Global, args: &Args, f: Held) -> Result<Held, Memory>
    ensures { IfOk result (λ h. (n : GhostNormal) (ns : GhostList GhostNormal) → Holds f n → Given (args_of args.now) ns → Holds h (applied n ns)) }
{
    match args {
        Args::Empty => Ok(f),
        Args::More(a, rest) => {
            let form = given(alloc, &f, a)?;
            applied(alloc, rest, form)
        }
    }
}
