//! What patterns bind, where it stands.
ghost use Rattle.std.specs.Prelude.{◌≡◌, [], ◌∷◌, Some, IfOk};
ghost use Rattle.ur_values.specs.declared.value.Value.{Value};
ghost use Rattle.ur_terms.specs.declared.term.Pattern.{Pattern};
ghost use Rattle.ur_values.specs.declared.value.Value.TheVariants as v;
ghost use Rattle.ur_terms.specs.declared.term.Pattern.TheVariants as pattern;
ghost use Rattle.ur_terms.specs.Run.{matched, if_matches, held_by};
ghost use Rattle.ur_emit.specs.Slots.{BindsAt, IsUnbound};

use crate::slots::{Halt, Slot};
use ur_base::{Boxed, Text};
use ur_machine_frames::Stack;
use ur_terms::Pattern;
use ur_values::Value;

/// Puts what a pattern binds on top of the variables and gives its number; nothing where the pattern does not match.
pub(crate) fn bind<'v>(
    pattern: &Pattern,
    value: &'v Value,
    slots: &mut Stack<Slot<'v>>,
) -> Result<Option<usize>, Halt>
    ensures { IfOk result (BindsAt pattern.now value.now slots.old slots.new) }
{
    match pattern {
        Pattern::Any => bind_value(value, slots),
        Pattern::Int(number) => no_binding(is_int(value, *number), slots),
        Pattern::Str(text) => no_binding(is_text(value, text), slots),
        Pattern::Bool(truth) => no_binding(is_bool(value, *truth), slots),
        Pattern::Absent => no_binding(is_absent(value), slots),
        Pattern::Present => bind_present(value, slots),
        Pattern::Empty => no_binding(is_empty(value), slots),
        Pattern::Cons => bind_cons(value, slots),
        Pattern::Tagged(constructor) => bind_tagged(*constructor, value, slots),
    }
}

/// Nothing is bound where a value matches.
fn no_binding<'v>(matches: bool, slots: &mut Stack<Slot<'v>>) -> Result<Option<usize>, Halt>
    ensures { IfOk result (IsUnbound matches slots.old slots.new) }
{
    let _ = &slots;
    if matches { Ok(Some(0)) } else { Ok(None) }
}

/// The value itself is bound.
fn bind_value<'v>(value: &'v Value, slots: &mut Stack<Slot<'v>>) -> Result<Option<usize>, Halt>
    ensures { IfOk result (λ found. (p : Pattern) → (x : Value) → matched p x ≡ Some (value.now ∷ []) → BindsAt p x slots.old slots.new found) }
{
    slots.push(Slot::Value(value))?;
    Ok(Some(1))
}

fn is_int(value: &Value, number: i64) -> bool
    ensures { matched (pattern.Int number) value.now ≡ if_matches result [] }
{
    match value {
        Value::Int(other) => number == *other,
        _ => false,
    }
}

fn is_text(value: &Value, text: &Text) -> bool
    ensures { matched (pattern.Str text.now) value.now ≡ if_matches result [] }
{
    match value {
        Value::Str(other) => text.as_slice() == other.as_slice(),
        _ => false,
    }
}

fn is_bool(value: &Value, truth: bool) -> bool
    ensures { matched (pattern.Bool truth) value.now ≡ if_matches result [] }
{
    match value {
        Value::Bool(other) => truth == *other,
        _ => false,
    }
}

fn is_absent(value: &Value) -> bool
    ensures { matched pattern.Absent value.now ≡ if_matches result [] }
{
    match value {
        Value::Absent => true,
        _ => false,
    }
}

fn is_empty(value: &Value) -> bool
    ensures { matched pattern.Empty value.now ≡ if_matches result [] }
{
    match value {
        Value::Many(items) => items.is_empty(),
        _ => false,
    }
}

fn bind_present<'v>(value: &'v Value, slots: &mut Stack<Slot<'v>>) -> Result<Option<usize>, Halt>
    ensures { IfOk result (BindsAt pattern.Present value.now slots.old slots.new) }
{
    match value {
        Value::Present(held) => bind_value(held.get(), slots),
        _ => Ok(None),
    }
}

fn bind_cons<'v>(value: &'v Value, slots: &mut Stack<Slot<'v>>) -> Result<Option<usize>, Halt>
    ensures { IfOk result (BindsAt pattern.Cons value.now slots.old slots.new) }
{
    match value {
        Value::Many(items) => bind_items(items.as_slice(), slots),
        _ => Ok(None),
    }
}

/// The first item, nearest, and the list of the others.
fn bind_items<'v>(items: &'v [Value], slots: &mut Stack<Slot<'v>>) -> Result<Option<usize>, Halt>
    ensures { IfOk result (BindsAt pattern.Cons (v.Many items.now) slots.old slots.new) }
{
    match items.split_first() {
        Some((first, rest)) => {
            slots.push(Slot::Rows(rest))?;
            slots.push(Slot::Value(first))?;
            Ok(Some(2))
        }
        None => Ok(None),
    }
}

fn bind_tagged<'v>(
    constructor: u32,
    value: &'v Value,
    slots: &mut Stack<Slot<'v>>,
) -> Result<Option<usize>, Halt>
    ensures { IfOk result (BindsAt (pattern.Tagged constructor) value.now slots.old slots.new) }
{
    match value {
        Value::Tagged(other, held) => {
            if *other == constructor {
                bind_held(held, slots)
            } else {
                Ok(None)
            }
        }
        _ => Ok(None),
    }
}

/// The value that a constructor holds, where it holds one.
fn bind_held<'v>(
    held: &'v Option<Boxed<Value>>,
    slots: &mut Stack<Slot<'v>>,
) -> Result<Option<usize>, Halt>
    ensures { IfOk result (λ found. (p : Pattern) → (x : Value) → matched p x ≡ Some (held_by held.now) → BindsAt p x slots.old slots.new found) }
{
    match held {
        Some(inner) => bind_value(inner.get(), slots),
        None => Ok(Some(0)),
    }
}
