//! The pattern of a pair, read off the classes of its terms.
ghost use Rattle.std.specs.Prelude.{◌≡◌, ◌++◌, not, IfOk, map};
ghost use Rattle.std.specs.List.{list_any};
ghost use Rattle.ur_sql.specs.declared.pattern.Guard.TheVariants as guard;
ghost use Rattle.ur_conditions.specs.Patterns.{key_by, constant_guard, guards_by};
ghost use Rattle.ur_invalidate.specs.Reading.{clash, have_clash, have_equal_sides, are_consistent, members, constant_in, key_in, guards_at, guards_in, pattern_from};

use crate::Classes;
use std::alloc::Global;
use ur_base::{List, Memory};
use ur_conditions::{push_if, same_values};
use ur_sql::{Guard, KeyAt, Pattern};
use ur_values::Value;

/// The pattern, if the pair is consistent.
pub fn pattern_from(alloc: Global, site: u32, classes: &Classes) -> Result<Option<Pattern>, Memory>
    ensures { IfOk result (λ pattern. pattern ≡ pattern_from site classes.now) }
{
    if !are_consistent(classes) {
        return Ok(None);
    }
    let keys = keys_of(alloc, classes)?;
    let guards = guards_of(alloc, classes)?;
    Ok(Some(Pattern { site, keys, guards }))
}

/// Whether no two different constants share a class, nor a NULL and a SOME, nor the sides of a disequation.
fn are_consistent(classes: &Classes) -> bool
    ensures { result ≡ are_consistent classes.now }
{
    !have_clash(classes.constants.as_slice())
        && !classes.null_meets_some
        && !have_equal_sides(classes.disequations.as_slice())
}

/// Whether two different constants share a class.
fn have_clash(constants: &[(Value, u32)]) -> bool
    ensures { result ≡ have_clash constants.now }
{
    for constant in constants {
        if clashes_with_any(constant, constants) {
            return true;
        }
    }
    false
}

fn clashes_with_any(constant: &(Value, u32), others: &[(Value, u32)]) -> bool
    ensures { result ≡ list_any (clash constant.now) others.now }
{
    for other in others {
        if clash(constant, other) {
            return true;
        }
    }
    false
}

fn clash(constant: &(Value, u32), other: &(Value, u32)) -> bool
    ensures { result ≡ clash constant.now other.now }
{
    if constant.1 == other.1 {
        !same_values(&constant.0, &other.0)
    } else {
        false
    }
}

/// Whether the sides of a disequation share a class.
fn have_equal_sides(disequations: &[(u32, u32)]) -> bool
    ensures { result ≡ have_equal_sides disequations.now }
{
    for sides in disequations {
        if sides.0 == sides.1 {
            return true;
        }
    }
    false
}

fn keys_of(alloc: Global, classes: &Classes) -> Result<List<KeyAt>, Memory>
    ensures { IfOk result (λ keys. keys ≡ map (key_in classes.now) classes.now.keys) }
{
    let of_keys = classes.keys.as_slice();
    let mut keys = List::new(alloc);
    for class in of_keys {
        keys.push(key_in(alloc, classes, *class)?)?;
    }
    Ok(keys)
}

/// What a key position of this class has to be.
fn key_in(alloc: Global, classes: &Classes, class: u32) -> Result<KeyAt, Memory>
    ensures { IfOk result (λ key. key ≡ key_in classes.now class) }
{
    let found = members(alloc, classes.args.as_slice(), class)?;
    let constant = constant_in(alloc, classes.constants.as_slice(), class)?;
    Ok(key_by(found.as_slice(), constant))
}

/// The least argument, or else the constant.
fn key_by(found: &[u32], constant: Option<Value>) -> KeyAt
    ensures { result ≡ key_by found.now constant }
{
    match found {
        [least, ..] => KeyAt::Arg(*least),
        [] => match constant {
            Some(value) => KeyAt::Is(value),
            None => KeyAt::Any,
        },
    }
}

/// The arguments of a class, the least first. More than `u32` has numbers take memory that is not had.
fn members(alloc: Global, args: &[u32], class: u32) -> Result<List<u32>, Memory>
    ensures { IfOk result (λ found. found ≡ members class 0 args.now) }
{
    if args.len() > u32::MAX as usize {
        return Err(Memory);
    }
    let mut found = List::new(alloc);
    for number in 0..args.len() {
        found = push_if(found, class == args[number], number as u32)?;
    }
    Ok(found)
}

/// The first constant of a class, if there is one.
fn constant_in(
    alloc: Global,
    constants: &[(Value, u32)],
    class: u32,
) -> Result<Option<Value>, Memory>
    ensures { IfOk result (λ constant. constant ≡ constant_in class constants.now) }
{
    for constant in constants {
        if class == constant.1 {
            return Ok(Some(constant.0.copy(alloc)?));
        }
    }
    Ok(None)
}

fn guards_of(alloc: Global, classes: &Classes) -> Result<List<Guard>, Memory>
    ensures { IfOk result (λ guards. guards ≡ guards_in classes.now) }
{
    let args = classes.args.as_slice();
    if args.len() > u32::MAX as usize {
        return Err(Memory);
    }
    let mut guards = List::new(alloc);
    for number in 0..args.len() {
        guards.append(guards_at(alloc, classes, number as u32, args[number])?)?;
    }
    Ok(guards)
}

/// The guards of an argument's class, where the argument is the least there.
fn guards_at(
    alloc: Global,
    classes: &Classes,
    number: u32,
    class: u32,
) -> Result<List<Guard>, Memory>
    ensures { IfOk result (λ guards. guards ≡ guards_at classes.now (number, class)) }
{
    let found = members(alloc, classes.args.as_slice(), class)?;
    let constant = constant_in(alloc, classes.constants.as_slice(), class)?;
    guards_by(alloc, number, found.as_slice(), constant)
}

/// That the argument equals each other one of its class, and then the constant, where it is the least.
fn guards_by(
    alloc: Global,
    number: u32,
    found: &[u32],
    constant: Option<Value>,
) -> Result<List<Guard>, Memory>
    ensures { IfOk result (λ guards. guards ≡ guards_by number found.now constant) }
{
    match found {
        [least, others @ ..] => {
            if number == *least {
                all_guards(alloc, number, others, constant)
            } else {
                Ok(List::new(alloc))
            }
        }
        [] => Ok(List::new(alloc)),
    }
}

fn all_guards(
    alloc: Global,
    number: u32,
    others: &[u32],
    constant: Option<Value>,
) -> Result<List<Guard>, Memory>
    ensures { IfOk result (λ guards. guards ≡ map (guard.Args number) others.now ++ constant_guard number constant) }
{
    let mut guards = equal_args(alloc, number, others)?;
    match constant {
        Some(value) => {
            guards.push(Guard::Is(number, value))?;
            Ok(guards)
        }
        None => Ok(guards),
    }
}

/// That the argument equals each of these.
fn equal_args(alloc: Global, number: u32, others: &[u32]) -> Result<List<Guard>, Memory>
    ensures { IfOk result (λ guards. guards ≡ map (guard.Args number) others.now) }
{
    let mut guards = List::new(alloc);
    for other in others {
        guards.push(Guard::Args(number, *other))?;
    }
    Ok(guards)
}
