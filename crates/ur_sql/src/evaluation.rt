//! The values of scalar expressions.
ghost use Rattle.std.specs.Prelude.{◌≡◌, ℕ, IfOk, slice_index_or};
ghost use Rattle.ur_values.specs.declared.value.Value.TheVariants as v;
ghost use Rattle.ur_values.specs.KeyOrder.{lent_rows};
ghost use Rattle.ur_sql.specs.Operand.{value_in};
ghost use Rattle.ur_sql.specs.Scalar.{column_at, value_of, holds, holds_if_any};

use crate::operand::{
    Operand, add, compare_operands, compares, is_true, multiply, negate, presented, subtract,
};
use crate::scalar::Scalar;
use std::alloc::Global;
use ur_base::Memory;
use ur_values::{Row, Value};

/// The value of an expression with these parameters at these rows, one of each item of FROM; the row that a change
/// touches is the only one.
pub fn value_of(
    alloc: Global,
    params: &[Value],
    rows: &[&Row],
    by: &Scalar,
) -> Result<Value, Memory>
    ensures { IfOk result (λ value. value ≡ value_of params.now (lent_rows rows.now) by.now) }
{
    evaluate(params, rows, by).to_value(alloc)
}

/// Whether a condition holds with these parameters at these rows. Takes no memory.
pub fn holds(params: &[Value], rows: &[&Row], by: &Scalar) -> bool
    ensures { result ≡ holds params.now (lent_rows rows.now) by.now }
{
    is_true(evaluate(params, rows, by))
}

/// Whether a condition holds, if there is one. Takes no memory.
pub fn holds_if_any(params: &[Value], rows: &[&Row], by: &Option<Scalar>) -> bool
    ensures { result ≡ holds_if_any params.now (lent_rows rows.now) by.now }
{
    match by {
        None => true,
        Some(by) => holds(params, rows, by),
    }
}

/// The value of an expression, lent where it stands in a row, a parameter or a constant. Takes no memory.
#[tactic(auto, using(crate::proofs::Equations::values))]
pub fn evaluate<'a>(params: &'a [Value], rows: &[&'a Row], by: &'a Scalar) -> Operand<'a>
    ensures { value_in result ≡ value_of params.now (lent_rows rows.now) by.now }
{
    match by {
        Scalar::Constant(value) => Operand::Held(value),
        Scalar::Column(item, column) => column_at(rows, *item, *column),
        Scalar::Param(number) => value_at(params, *number),
        Scalar::Or(a, b) => {
            let left = is_true(evaluate(params, rows, a.get()));
            Operand::Bool(left || is_true(evaluate(params, rows, b.get())))
        }
        Scalar::And(a, b) => {
            let left = is_true(evaluate(params, rows, a.get()));
            Operand::Bool(left && is_true(evaluate(params, rows, b.get())))
        }
        Scalar::Not(a) => Operand::Bool(!is_true(evaluate(params, rows, a.get()))),
        Scalar::Compare(comparison, a, b) => {
            let left = evaluate(params, rows, a.get());
            let right = evaluate(params, rows, b.get());
            Operand::Bool(compares(*comparison, compare_operands(left, right)))
        }
        Scalar::Add(a, b) => {
            let left = evaluate(params, rows, a.get());
            add(left, evaluate(params, rows, b.get()))
        }
        Scalar::Sub(a, b) => {
            let left = evaluate(params, rows, a.get());
            subtract(left, evaluate(params, rows, b.get()))
        }
        Scalar::Mul(a, b) => {
            let left = evaluate(params, rows, a.get());
            multiply(left, evaluate(params, rows, b.get()))
        }
        Scalar::Neg(a) => negate(evaluate(params, rows, a.get())),
        Scalar::Null(_) => Operand::Absent,
        Scalar::Present(a) => presented(evaluate(params, rows, a.get())),
    }
}

/// A column of the rows, and Absent where there is none.
pub fn column_at<'a>(rows: &[&'a Row], item: u32, column: u32) -> Operand<'a>
    ensures { value_in result ≡ column_at (lent_rows rows.now) item column }
{
    match rows.get(item as usize) {
        None => Operand::Absent,
        Some(row) => match row.get(column as usize) {
            None => Operand::Absent,
            Some(value) => Operand::Held(value),
        },
    }
}

/// The value at this index, from 0, and Absent past the end.
pub fn value_at<'a>(values: &'a [Value], index: u32) -> Operand<'a>
    ensures { value_in result ≡ slice_index_or values.now index v.Absent }
{
    match values.get(index as usize) {
        None => Operand::Absent,
        Some(value) => Operand::Held(value),
    }
}
