//! Patterns.
ghost use Rattle.std.specs.Prelude.{◌≡◌, ◌≢◌, [], ◌∷◌, IfOk, MatchResult, Some};
ghost use Rattle.ur_machine_frames.specs.Plays.{IsMatched};
ghost use Rattle.ur_terms.specs.Run.{matched, if_matches, held_by};

use std::alloc::Global;
use ur_base::{Boxed, List, Memory, Text};
use ur_machine_frames::Matched;
use ur_terms::Pattern;
use ur_values::Value;

/// What a pattern binds, where it matches the value; otherwise the value as it was.
pub(crate) fn bind(alloc: Global, pattern: &Pattern, value: Value) -> Matched
    ensures { IsMatched pattern.now value result }
{
    match pattern {
        Pattern::Any => found(one(alloc, value)),
        Pattern::Int(number) => no_binding(alloc, is_int(&value, *number), value),
        Pattern::Str(text) => no_binding(alloc, is_text(&value, text), value),
        Pattern::Bool(truth) => no_binding(alloc, is_bool(&value, *truth), value),
        Pattern::Absent => no_binding(alloc, is_absent(&value), value),
        Pattern::Present => bind_present(alloc, value),
        Pattern::Empty => no_binding(alloc, is_empty(&value), value),
        Pattern::Cons => bind_cons(alloc, value),
        Pattern::Tagged(constructor) => bind_tagged(alloc, *constructor, value),
    }
}

/// What is bound, unless memory was wanting.
fn found(bound: Result<List<Value>, Memory>) -> Matched
    ensures { MatchResult bound (λ values. result ≡ Matched.Yes values) (λ _. result ≡ Matched.Memory) }
{
    match bound {
        Ok(values) => Matched::Yes(values),
        Err(_) => Matched::Memory,
    }
}

/// Nothing is bound where a value matches.
fn no_binding(alloc: Global, matches: bool, value: Value) -> Matched
    ensures { (p : Pattern) → matched p value ≡ if_matches matches [] → IsMatched p value result }
{
    if matches {
        Matched::Yes(List::new(alloc))
    } else {
        Matched::No(value)
    }
}

fn one(alloc: Global, value: Value) -> Result<List<Value>, Memory>
    ensures { IfOk result (λ values. values ≡ value ∷ []) }
{
    let mut values = List::new(alloc);
    values.push(value)?;
    Ok(values)
}

fn is_int(value: &Value, number: i64) -> bool
    ensures { matched (Pattern.Int number) value.now ≡ if_matches result [] }
{
    match value {
        Value::Int(other) => number == *other,
        _ => false,
    }
}

fn is_text(value: &Value, text: &Text) -> bool
    ensures { matched (Pattern.Str text.now) value.now ≡ if_matches result [] }
{
    match value {
        Value::Str(other) => text.as_slice() == other.as_slice(),
        _ => false,
    }
}

fn is_bool(value: &Value, truth: bool) -> bool
    ensures { matched (Pattern.Bool truth) value.now ≡ if_matches result [] }
{
    match value {
        Value::Bool(other) => truth == *other,
        _ => false,
    }
}

fn is_absent(value: &Value) -> bool
    ensures { matched Pattern.Absent value.now ≡ if_matches result [] }
{
    match value {
        Value::Absent => true,
        _ => false,
    }
}

fn is_empty(value: &Value) -> bool
    ensures { matched Pattern.Empty value.now ≡ if_matches result [] }
{
    match value {
        Value::Many(items) => items.is_empty(),
        _ => false,
    }
}

fn bind_present(alloc: Global, value: Value) -> Matched
    ensures { IsMatched Pattern.Present value result }
{
    match value {
        Value::Present(held) => found(one(alloc, held.into_inner())),
        other => Matched::No(other),
    }
}

fn bind_cons(alloc: Global, value: Value) -> Matched
    ensures { IsMatched Pattern.Cons value result }
{
    match value {
        Value::Many(items) => {
            if items.is_empty() {
                Matched::No(Value::Many(items))
            } else {
                found(first_and_rest(alloc, items))
            }
        }
        other => Matched::No(other),
    }
}

/// The first item, and the list of the others.
fn first_and_rest(alloc: Global, items: List<Value>) -> Result<List<Value>, Memory>
    requires { items ≢ [] }
    ensures { IfOk result (λ bound. matched Pattern.Cons (Value.Many items) ≡ Some bound) }
{
    let mut items = items;
    let first = items.remove(0);
    let mut bound = one(alloc, first)?;
    bound.push(Value::Many(items))?;
    Ok(bound)
}

fn bind_tagged(alloc: Global, constructor: u32, value: Value) -> Matched
    ensures { IsMatched (Pattern.Tagged constructor) value result }
{
    match value {
        Value::Tagged(other, held) => {
            if other == constructor {
                found(held_by(alloc, held))
            } else {
                Matched::No(Value::Tagged(other, held))
            }
        }
        other => Matched::No(other),
    }
}

/// The argument of a constructor, where it has one.
fn held_by(alloc: Global, held: Option<Boxed<Value>>) -> Result<List<Value>, Memory>
    ensures { IfOk result (λ values. values ≡ held_by held) }
{
    match held {
        None => Ok(List::new(alloc)),
        Some(held) => one(alloc, held.into_inner()),
    }
}
