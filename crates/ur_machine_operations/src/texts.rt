//! Operations on texts.
ghost use Rattle.std.specs.Prelude.{◌≡◌, ◌≢◌, IfOk, Some, None};
ghost use Rattle.ur_machine_frames.specs.Plays.{nothing};
ghost use Rattle.ur_terms.specs.Ops.{does};
ghost use Rattle.ur_terms.specs.Values.{shown};
ghost use Rattle.ur_machine_operations.specs.Comes.{Comes, CanDo};

use crate::built::built;
use crate::operands::{into_text, one, two};
use std::alloc::Global;
use ur_base::{List, Memory, Text};
use ur_machine_frames::Performed;
use ur_terms::Op;
use ur_values::Value;

pub(crate) fn append(args: List<Value>) -> Performed
    requires { CanDo (does nothing Op.Append args) }
    ensures { Comes (does nothing Op.Append args) result }
{
    let (a, b) = two(args);
    let mut text = into_text(a);
    match text.append(into_text(b)) {
        Ok(()) => built(Value::Str(text)),
        Err(_) => Performed::Memory,
    }
}

pub(crate) fn show(alloc: Global, args: List<Value>) -> Performed
    requires { CanDo (does nothing Op.Show args) }
    ensures { Comes (does nothing Op.Show args) result }
{
    match shown(alloc, one(args)) {
        Ok(text) => built(Value::Str(text)),
        Err(_) => Performed::Memory,
    }
}

/// An int in decimal, `True` or `False`, or the text itself.
pub(crate) fn shown(alloc: Global, value: Value) -> Result<Text, Memory>
    requires { shown value ≢ None }
    ensures { IfOk result (λ text. shown value ≡ Some text) }
{
    match value {
        Value::Int(number) => decimal(alloc, number),
        Value::Bool(truth) => List::from_slice(alloc, bool_text(truth)),
        Value::Str(text) => Ok(text),
        _ => unreachable!(),
    }
}

fn bool_text(truth: bool) -> &'static [u8]
    ensures { shown (Value.Bool truth) ≡ Some result.now }
{
    if truth { b"True" } else { b"False" }
}

fn decimal(alloc: Global, number: i64) -> Result<Text, Memory>
    ensures { IfOk result (λ text. shown (Value.Int number) ≡ Some text) }
{
    let text = format!(in alloc; "{number}")?;
    Ok(List::from_vec(text.into_bytes()))
}
