//! Comparisons.
ghost use Rattle.std.specs.Prelude.{◌≡◌};
ghost use Rattle.std.specs.Ordering.{is_lt};
ghost use Rattle.ur_values.specs.Order.{value_cmp};
ghost use Rattle.ur_machine_frames.specs.Plays.{nothing};
ghost use Rattle.ur_terms.specs.Ops.{does};
ghost use Rattle.ur_machine_operations.specs.Comes.{Comes, CanDo};

use crate::operands::two;
use ur_base::List;
use ur_machine_frames::Performed;
use ur_terms::Op;
use ur_values::{Value, compare_values};

pub(crate) fn equal(args: List<Value>) -> Performed
    requires { CanDo (does nothing Op.Equal args) }
    ensures { Comes (does nothing Op.Equal args) result }
{
    let (a, b) = two(args);
    Performed::Done(Value::Bool(compare_values(&a, &b).is_eq()))
}

pub(crate) fn unequal(args: List<Value>) -> Performed
    requires { CanDo (does nothing Op.Unequal args) }
    ensures { Comes (does nothing Op.Unequal args) result }
{
    let (a, b) = two(args);
    Performed::Done(Value::Bool(!compare_values(&a, &b).is_eq()))
}

pub(crate) fn less(args: List<Value>) -> Performed
    requires { CanDo (does nothing Op.Less args) }
    ensures { Comes (does nothing Op.Less args) result }
{
    let (a, b) = two(args);
    Performed::Done(Value::Bool(is_less(&a, &b)))
}

fn is_less(a: &Value, b: &Value) -> bool
    ensures { result ≡ is_lt (value_cmp a.now b.now) }
{
    compare_values(a, b).is_lt()
}

pub(crate) fn less_or_equal(args: List<Value>) -> Performed
    requires { CanDo (does nothing Op.LessEqual args) }
    ensures { Comes (does nothing Op.LessEqual args) result }
{
    let (a, b) = two(args);
    Performed::Done(Value::Bool(compare_values(&a, &b).is_le()))
}

pub(crate) fn greater(args: List<Value>) -> Performed
    requires { CanDo (does nothing Op.Greater args) }
    ensures { Comes (does nothing Op.Greater args) result }
{
    let (a, b) = two(args);
    Performed::Done(Value::Bool(compare_values(&a, &b).is_gt()))
}

pub(crate) fn greater_or_equal(args: List<Value>) -> Performed
    requires { CanDo (does nothing Op.GreaterEqual args) }
    ensures { Comes (does nothing Op.GreaterEqual args) result }
{
    let (a, b) = two(args);
    Performed::Done(Value::Bool(compare_values(&a, &b).is_ge()))
}
