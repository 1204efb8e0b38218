//! Values read where they stand.
ghost use Rattle.std.specs.Prelude.{◌≡◌, IfSome, Some, List, option_and_then};
ghost use Rattle.std.specs.Option.{option_copied};
ghost use Rattle.ur_values.specs.declared.value.Value.{Value};
ghost use Rattle.ur_values.specs.declared.value.Value.TheVariants as v;
ghost use Rattle.ur_tags.specs.declared.routes.Handlers.{Handlers};
ghost use Rattle.ur_terms.specs.declared.term.Op.TheVariants as op;
ghost use Rattle.ur_terms.specs.declared.term.Term.TheVariants as term;
ghost use Rattle.ur_terms.specs.Values.{as_fields, field_at};
ghost use Rattle.ur_emit.specs.Slots.{Finds, IsSlot};

use crate::slots::Slot;
use ur_base::Name;
use ur_machine_frames::Stack;
use ur_terms::{Op, Term};
use ur_values::Value;

/// The value that a variable, or a field within one, holds where it stands.
#[cycle(reads)]
pub fn value_at<'v>(term: &Term, slots: &Stack<Slot<'v>>) -> Option<&'v Value>
    ensures { IfSome result (λ x. Finds slots.now term.now x.now) }
{
    match term {
        Term::Variable(number) => match slots.get(*number as usize) {
            Some(slot) => held(slot),
            None => None,
        },
        Term::Make(op, args) => match op {
            Op::Project(name) => projected(args.as_slice(), *name, slots),
            _ => None,
        },
        _ => None,
    }
}

/// The bool that stands there.
pub fn truth_at<'v>(term: &Term, slots: &Stack<Slot<'v>>) -> Option<bool>
    ensures { IfSome result (λ truth. Finds slots.now term.now (v.Bool truth)) }
{
    match value_at(term, slots) {
        Some(value) => match value {
            Value::Bool(truth) => Some(*truth),
            _ => None,
        },
        None => None,
    }
}

/// The items of the list that stands there.
pub fn items_at<'v>(term: &Term, slots: &Stack<Slot<'v>>) -> Option<&'v [Value]>
    ensures { IfSome result (λ items. Finds slots.now term.now (v.Many items.now)) }
{
    match term {
        Term::Variable(number) => match slots.get(*number as usize) {
            Some(slot) => held_items(slot),
            None => None,
        },
        _ => match value_at(term, slots) {
            Some(value) => items_of(value),
            None => None,
        },
    }
}

/// The same of the field with this name of the one argument.
#[cycle(reads)]
fn projected<'v>(args: &[Term], name: Name, slots: &Stack<Slot<'v>>) -> Option<&'v Value>
    ensures { IfSome result (λ x. Finds slots.now (term.Make (op.Project name) args.now) x.now) }
{
    match args {
        [record] => match value_at(record, slots) {
            Some(value) => field_of(value, name),
            None => None,
        },
        _ => None,
    }
}

/// The value of a variable that is one where it stands.
fn held<'v>(slot: &Slot<'v>) -> Option<&'v Value>
    ensures { IfSome result (λ x. (h : Handlers) (y : Value) → IsSlot h slot.now y → x.now ≡ y) }
{
    match slot {
        Slot::Value(value) => Some(*value),
        Slot::Rows(_) => None,
        Slot::Chunk(_) => None,
    }
}

/// The items of a variable that is a list where they stand.
fn held_items<'v>(slot: &Slot<'v>) -> Option<&'v [Value]>
    ensures { IfSome result (λ items. (h : Handlers) (y : Value) → IsSlot h slot.now y → v.Many items.now ≡ y) }
{
    match slot {
        Slot::Rows(items) => Some(*items),
        Slot::Value(value) => items_of(value),
        Slot::Chunk(_) => None,
    }
}

/// The items of a list.
fn items_of(value: &Value) -> Option<&[Value]>
    ensures { IfSome result (λ items. v.Many items.now ≡ value.now) }
{
    match value {
        Value::Many(items) => Some(items.as_slice()),
        _ => None,
    }
}

/// The first field of this name, where the value is a record.
fn field_of(value: &Value, name: Name) -> Option<&Value>
    ensures { IfSome result (λ x. option_and_then (field_at name) (as_fields value.now) ≡ Some x.now) }
{
    match value {
        Value::Row(fields) => field_in(fields.as_slice(), name),
        _ => None,
    }
}

/// The first field of this name.
fn field_in(fields: &[(Name, Value)], name: Name) -> Option<&Value>
    ensures { option_copied result ≡ field_at name fields.now }
{
    match fields.iter().find(|field| field.0.0 == name.0) {
        Some(field) => Some(&field.1),
        None => None,
    }
}
