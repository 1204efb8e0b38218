//! Operations on options, lists and datatypes.
ghost use Rattle.std.specs.Prelude.{◌≡◌, ◌≤◌, ◌∷◌, length, insert, IfOk};
ghost use Rattle.ur_machine_frames.specs.Plays.{nothing};
ghost use Rattle.ur_terms.specs.Ops.{does};
ghost use Rattle.ur_machine_operations.specs.Comes.{Comes, CanDo};

use crate::built::built;
use crate::operands::{into_items, one, two};
use std::alloc::Global;
use ur_base::{Boxed, List, Memory};
use ur_machine_frames::Performed;
use ur_terms::Op;
use ur_values::Value;

pub(crate) fn present(alloc: Global, args: List<Value>) -> Performed
    requires { CanDo (does nothing Op.Present args) }
    ensures { Comes (does nothing Op.Present args) result }
{
    match Boxed::new(alloc, one(args)) {
        Ok(value) => built(Value::Present(value)),
        Err(_) => Performed::Memory,
    }
}

pub(crate) fn cons(args: List<Value>) -> Performed
    requires { CanDo (does nothing Op.Cons args) }
    ensures { Comes (does nothing Op.Cons args) result }
{
    let (item, rest) = two(args);
    match with_first(item, into_items(rest)) {
        Ok(items) => built(Value::Many(items)),
        Err(_) => Performed::Memory,
    }
}

/// The items with one more at the front.
fn with_first(item: Value, items: List<Value>) -> Result<List<Value>, Memory>
    ensures { IfOk result (λ more. more ≡ item ∷ items) }
{
    with_item(items, 0, item)
}

/// The items with one more at a place.
pub(crate) fn with_item<T: Drop>(items: List<T>, place: usize, item: T) -> Result<List<T>, Memory>
    requires { place ≤ length items }
    ensures { IfOk result (λ more. more ≡ insert items place item) }
{
    let mut items = items.into_vec();
    items.insert(place, item)?;
    Ok(List::from_vec(items))
}

pub(crate) fn tagged(alloc: Global, constructor: u32, args: List<Value>) -> Performed
    requires { CanDo (does nothing (Op.Tagged constructor) args) }
    ensures { Comes (does nothing (Op.Tagged constructor) args) result }
{
    if args.is_empty() {
        return Performed::Done(Value::Tagged(constructor, None));
    }
    match Boxed::new(alloc, one(args)) {
        Ok(value) => built(Value::Tagged(constructor, Some(value))),
        Err(_) => Performed::Memory,
    }
}
