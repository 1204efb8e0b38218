//! Operations on ints and bools.
ghost use Rattle.ur_machine_frames.specs.Plays.{nothing};
ghost use Rattle.ur_terms.specs.Ops.{does};
ghost use Rattle.ur_machine_operations.specs.Comes.{Comes, CanDo};

use crate::built::failed;
use crate::operands::{into_bool, into_int, one, two_ints};
use std::alloc::Global;
use ur_base::List;
use ur_machine_frames::Performed;
use ur_terms::Op;
use ur_values::Value;

pub(crate) fn add(args: List<Value>) -> Performed
    requires { CanDo (does nothing Op.Add args) }
    ensures { Comes (does nothing Op.Add args) result }
{
    let (a, b) = two_ints(args);
    Performed::Done(Value::Int(a.wrapping_add(b)))
}

pub(crate) fn subtract(args: List<Value>) -> Performed
    requires { CanDo (does nothing Op.Sub args) }
    ensures { Comes (does nothing Op.Sub args) result }
{
    let (a, b) = two_ints(args);
    Performed::Done(Value::Int(a.wrapping_sub(b)))
}

pub(crate) fn multiply(args: List<Value>) -> Performed
    requires { CanDo (does nothing Op.Mul args) }
    ensures { Comes (does nothing Op.Mul args) result }
{
    let (a, b) = two_ints(args);
    Performed::Done(Value::Int(a.wrapping_mul(b)))
}

pub(crate) fn divide(alloc: Global, args: List<Value>) -> Performed
    requires { CanDo (does nothing Op.Div args) }
    ensures { Comes (does nothing Op.Div args) result }
{
    let (a, b) = two_ints(args);
    if b == 0 {
        failed(alloc, b"division by zero")
    } else {
        Performed::Done(Value::Int(a.wrapping_div(b)))
    }
}

pub(crate) fn remainder(alloc: Global, args: List<Value>) -> Performed
    requires { CanDo (does nothing Op.Rem args) }
    ensures { Comes (does nothing Op.Rem args) result }
{
    let (a, b) = two_ints(args);
    if b == 0 {
        failed(alloc, b"division by zero")
    } else {
        Performed::Done(Value::Int(a.wrapping_rem(b)))
    }
}

pub(crate) fn negate(args: List<Value>) -> Performed
    requires { CanDo (does nothing Op.Neg args) }
    ensures { Comes (does nothing Op.Neg args) result }
{
    let number = into_int(one(args));
    Performed::Done(Value::Int(number.wrapping_neg()))
}

pub(crate) fn negation(args: List<Value>) -> Performed
    requires { CanDo (does nothing Op.Not args) }
    ensures { Comes (does nothing Op.Not args) result }
{
    let truth = into_bool(one(args));
    Performed::Done(Value::Bool(!truth))
}
