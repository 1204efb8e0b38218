//! Arguments, and values as what they are.
ghost use Rattle.std.specs.Prelude.{◌≡◌, ◌≢◌, [], ◌∷◌, ℤ, None};
ghost use Rattle.ur_terms.specs.State.{Outcome, Stuck};
ghost use Rattle.ur_terms.specs.Ops.{one_arg, two_args, two_ints, optional_text};
ghost use Rattle.ur_terms.specs.Values.{as_int, as_bool, as_text, as_fields, as_items, as_nodes};

use ur_base::{List, Name, Text};
use ur_values::{Node, Value};

/// The only argument.
pub(crate) fn one(args: List<Value>) -> Value
    requires { (go : Value → Outcome Value) × (one_arg args go ≢ Stuck) }
    ensures { args ≡ result ∷ [] }
{
    let mut args = args;
    match args.pop() {
        Some(value) => value,
        None => unreachable!(),
    }
}

/// The two arguments.
pub(crate) fn two(args: List<Value>) -> (Value, Value)
    requires { (go : Value → Value → Outcome Value) × (two_args args go ≢ Stuck) }
    ensures { args ≡ result.0 ∷ result.1 ∷ [] }
{
    let mut args = args;
    match args.pop() {
        Some(second) => (one(args), second),
        None => unreachable!(),
    }
}

/// The two ints.
pub(crate) fn two_ints(args: List<Value>) -> (i64, i64)
    requires { (go : ℤ → ℤ → Outcome Value) × (two_ints args go ≢ Stuck) }
    ensures { args ≡ Value.Int result.0 ∷ Value.Int result.1 ∷ [] }
{
    let (first, second) = two(args);
    (into_int(first), into_int(second))
}

/// The text of an argument that may be there.
pub(crate) fn optional_text(args: List<Value>) -> Option<Text>
    requires { optional_text args ≢ None }
    ensures { optional_text args ≡ Some result }
{
    let mut args = args;
    match args.pop() {
        Some(value) => Some(into_text(value)),
        None => None,
    }
}

/// An int.
pub(crate) fn into_int(value: Value) -> i64
    requires { as_int value ≢ None }
    ensures { value ≡ Value.Int result }
{
    match value {
        Value::Int(number) => number,
        _ => unreachable!(),
    }
}

/// A bool.
pub(crate) fn into_bool(value: Value) -> bool
    requires { as_bool value ≢ None }
    ensures { value ≡ Value.Bool result }
{
    match value {
        Value::Bool(truth) => truth,
        _ => unreachable!(),
    }
}

/// A text.
pub(crate) fn into_text(value: Value) -> Text
    requires { as_text value ≢ None }
    ensures { value ≡ Value.Str result }
{
    match value {
        Value::Str(text) => text,
        _ => unreachable!(),
    }
}

/// The fields of a record.
pub(crate) fn into_fields(value: Value) -> List<(Name, Value)>
    requires { as_fields value ≢ None }
    ensures { value ≡ Value.Row result }
{
    match value {
        Value::Row(fields) => fields,
        _ => unreachable!(),
    }
}

/// The items of a list.
pub(crate) fn into_items(value: Value) -> List<Value>
    requires { as_items value ≢ None }
    ensures { value ≡ Value.Many result }
{
    match value {
        Value::Many(items) => items,
        _ => unreachable!(),
    }
}

/// The nodes of XML.
pub(crate) fn into_nodes(value: Value) -> List<Node>
    requires { as_nodes value ≢ None }
    ensures { value ≡ Value.Markup result }
{
    match value {
        Value::Markup(nodes) => nodes,
        _ => unreachable!(),
    }
}
