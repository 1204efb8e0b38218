//! Lambdas with what their free names stand for.
ghost use Rattle.std.specs.Prelude.{◌≡◌, ◌||◌, if◌then◌else◌, IfOk};
ghost use Rattle.ur_source.specs.Names as names;
ghost use Rattle.ur_source.specs.Names.{kept};
ghost use Rattle.ur_source.specs.Reading.{Cons};
ghost use Rattle.ur_source.specs.Static.{closed_lambda};
ghost use Rattle.ur_unfold_static.specs.Sought.{is_among};
ghost use Rattle.ur_unfold_static.specs.Held.{Grows, static_of_node};
ghost use Rattle.ur_unfold_static.specs.Scopes.{IsAt, Stands, Statics};
ghost use Rattle.ur_unfold_pieces.specs.Lambdas.{lambda_names};

use std::alloc::Global;
use ur_base::{List, Memory};
use ur_tree::{Exp, Param};
use ur_unfold_static::{Closing, Node, Scope, Sought, fixed_count, in_exp, in_params};

/// The number of a node. There is no memory for one with a number that stands for nothing.
pub fn added(closing: &mut Closing<'_>, node: Node) -> Result<u32, Memory>
    ensures number { IfOk result (λ j. IsAt closing.new.statics j (static_of_node closing.old node)) }
    ensures grows { Grows closing.old closing.new }
{
    if !closing.fits(&node) {
        return Err(Memory);
    }
    closing.add_node(node)
}

/// A place as a number.
fn number_of(place: usize) -> Result<u32, Memory>
    ensures { IfOk result (λ n. n ≡ place) }
{
    if place > u32::MAX as usize {
        return Err(Memory);
    }
    Ok(place as u32)
}

fn either(a: bool, b: bool) -> bool
    ensures { result ≡ (a || b) }
{
    a || b
}

/// Whether a lambda names the variable, which stands outside.
fn is_named(params: &List<Param>, body: &Exp, of: Sought) -> Result<bool, Memory>
    ensures { IfOk result (λ b. b ≡ is_among of (lambda_names params.now body.now)) }
{
    let bound = fixed_count(params)?;
    let first = in_params(params, of);
    let second = in_exp(body, bound, of)?;
    Ok(either(first, second))
}

/// The number, or that of the blank where the variable is not named.
fn kept_number(is_named: bool, number: u32, blank: u32) -> u32
    ensures { result ≡ (if is_named then number else blank) }
{
    if is_named { number } else { blank }
}

/// The constructors that a lambda names, and blanks.
fn kept_cons(
    alloc: Global,
    params: &List<Param>,
    body: &Exp,
    numbers: &List<u32>,
    blank: u32,
) -> Result<List<u32>, Memory>
    ensures { IfOk result (λ made. made ≡ kept names.is_con (lambda_names params.now body.now) blank 0 numbers.now) }
{
    let all = numbers.as_slice();
    let mut kept = List::new(alloc);
    for i in 0..all.len() {
        let place = number_of(i)?;
        let named = is_named(params, body, Sought::Con(place))?;
        kept.push(kept_number(named, all[i], blank))?;
    }
    Ok(kept)
}

/// The static expressions that a lambda names, and blanks.
fn kept_fixed(
    alloc: Global,
    params: &List<Param>,
    body: &Exp,
    numbers: &List<u32>,
    blank: u32,
) -> Result<List<u32>, Memory>
    ensures { IfOk result (λ made. made ≡ kept names.is_fixed (lambda_names params.now body.now) blank 0 numbers.now) }
{
    let all = numbers.as_slice();
    let mut kept = List::new(alloc);
    for i in 0..all.len() {
        let place = number_of(i)?;
        let named = is_named(params, body, Sought::Fixed(place))?;
        kept.push(kept_number(named, all[i], blank))?;
    }
    Ok(kept)
}

/// The number of a lambda with what its free names stand for.
pub fn closed_lambda<'a>(
    alloc: Global,
    params: &'a List<Param>,
    body: &'a Exp,
    closing: &mut Closing<'a>,
    scope: &Scope,
) -> Result<u32, Memory>
    ensures number { IfOk result (λ j. (cs : Cons) (fs : Statics) → Stands closing.old scope.now cs fs → IsAt closing.new.statics j (closed_lambda cs fs params.now body.now)) }
    ensures grows { Grows closing.old closing.new }
{
    let cons = kept_cons(alloc, params, body, &scope.cons, closing.unit_number())?;
    let fixed = kept_fixed(alloc, params, body, &scope.fixed, closing.empty_number())?;
    let of = closing.add_lambda(params, body)?;
    added(closing, Node::Lambda { of, cons, fixed })
}
