//! Operations on arguments whose types are told by the operation alone.
ghost use Rattle.std.specs.Prelude.{◌≡◌, ◌↔◌, [], ◌∷◌, IfOk, IsTrue, MatchOption};
ghost use Rattle.ur_values.specs.declared.types.ValueType.TheVariants as ty;
ghost use Rattle.ur_terms.specs.declared.term.Op.TheVariants as op;
ghost use Rattle.ur_terms.specs.Types.{IsScalar, IsOrdered, OpType};
ghost use Rattle.ur_code.specs.Fits.{signature};
ghost use Rattle.ur_verify_operations.specs.Answering.{Answers, Says};
ghost use Rattle.ur_verify_operations.specs.Misfits.{OperationMisfit};
ghost use Rattle.ur_verify_operations.specs.Saying.{OtherTypes};
ghost use Rattle.ur_verify_operations.specs.Parts.{Shows};

use crate::misfit::{Untyped, mismatch, no_type, unlike, unlike_these};
use std::alloc::Global;
use ur_base::{Boxed, Memory};
use ur_code::Code;
use ur_values::{ValueType, copy_type, same_type, same_types};

/// The only one.
pub fn one(ts: &[ValueType]) -> Option<&ValueType>
    ensures { MatchOption result ((a : ValueType) → ts.now ≡ a ∷ [] → ⊥) (λ a. ts.now ≡ a.now ∷ []) }
{
    if ts.len() == 1 {
        return Some(&ts[0]);
    }
    None
}

/// The only two.
pub fn two(ts: &[ValueType]) -> Option<(&ValueType, &ValueType)>
    ensures { MatchOption result ((a b : ValueType) → ts.now ≡ a ∷ b ∷ [] → ⊥) (λ ab. ts.now ≡ ab.0.now ∷ ab.1.now ∷ []) }
{
    if ts.len() == 2 {
        return Some((&ts[0], &ts[1]));
    }
    None
}

/// The arguments are of these types, and the operation gives this one.
pub fn exactly(
    alloc: Global,
    code: &Code,
    ts: &[ValueType],
    wanted: &[ValueType],
    gives: ValueType,
) -> Result<ValueType, Untyped>
    ensures fits { Answers (λ r. (ts.now ≡ wanted.now) × (r ≡ gives)) result }
    ensures told { Says (OtherTypes code.now.names ts.now wanted.now) result }
{
    if same_types(ts, wanted) {
        return Ok(gives);
    }
    Err(Untyped::Misfit(unlike_these(alloc, code, ts, wanted)?))
}

fn is_scalar(of: &ValueType) -> bool
    ensures { IsTrue result ↔ IsScalar of.now }
{
    match of {
        ValueType::Int => true,
        ValueType::Str => true,
        ValueType::Bool => true,
        ValueType::Record(_) => false,
        ValueType::Opt(_) => false,
        ValueType::Many(_) => false,
        ValueType::Datatype(_) => false,
        ValueType::Page => false,
        ValueType::Xbody => false,
        ValueType::Xtable => false,
        ValueType::Xtr => false,
        ValueType::Form(_) => false,
    }
}

fn is_ordered(of: &ValueType) -> bool
    ensures { IsTrue result ↔ IsOrdered of.now }
{
    match of {
        ValueType::Int => true,
        ValueType::Str => true,
        ValueType::Bool => false,
        ValueType::Record(_) => false,
        ValueType::Opt(_) => false,
        ValueType::Many(_) => false,
        ValueType::Datatype(_) => false,
        ValueType::Page => false,
        ValueType::Xbody => false,
        ValueType::Xtable => false,
        ValueType::Xtr => false,
        ValueType::Form(_) => false,
    }
}

/// `==` and its opposite.
pub fn equality(alloc: Global, code: &Code, ts: &[ValueType]) -> Result<ValueType, Untyped>
    ensures fits { Answers (OpType (signature code.now) op.Equal ts.now) result }
    ensures told { Says (OperationMisfit (signature code.now) op.Equal ts.now) result }
{
    let Some((a, b)) = two(ts) else {
        return Err(Untyped::Misfit(no_type(alloc, b"two arguments")?));
    };
    if !is_scalar(a) {
        return Err(Untyped::Misfit(unlike(alloc, code, a, b"int, string or bool")?));
    }
    if !same_type(a, b) {
        return Err(Untyped::Misfit(mismatch(alloc, code, b, a)?));
    }
    Ok(ValueType::Bool)
}

/// `<` and its like.
pub fn order(alloc: Global, code: &Code, ts: &[ValueType]) -> Result<ValueType, Untyped>
    ensures fits { Answers (OpType (signature code.now) op.Less ts.now) result }
    ensures told { Says (OperationMisfit (signature code.now) op.Less ts.now) result }
{
    let Some((a, b)) = two(ts) else {
        return Err(Untyped::Misfit(no_type(alloc, b"two arguments")?));
    };
    if !is_ordered(a) {
        return Err(Untyped::Misfit(unlike(alloc, code, a, b"int or string")?));
    }
    if !same_type(a, b) {
        return Err(Untyped::Misfit(mismatch(alloc, code, b, a)?));
    }
    Ok(ValueType::Bool)
}

/// What is shown, as a type.
pub fn shows(
    alloc: Global,
    code: &Code,
    ts: &[ValueType],
    gives: ValueType,
) -> Result<ValueType, Untyped>
    ensures fits { Answers (Shows gives ts.now) result }
    ensures told { Says (OperationMisfit (signature code.now) op.Show ts.now) result }
{
    let Some(a) = one(ts) else {
        return Err(Untyped::Misfit(no_type(alloc, b"one argument")?));
    };
    if !is_scalar(a) {
        return Err(Untyped::Misfit(unlike(alloc, code, a, b"int, string or bool")?));
    }
    Ok(gives)
}

// ---- optional values and lists

pub fn optional(alloc: Global, of: &ValueType) -> Result<ValueType, Memory>
    ensures { IfOk result (λ r. r ≡ ty.Opt of.now) }
{
    let of = copy_type(alloc, of)?;
    Ok(ValueType::Opt(Boxed::new(alloc, of)?))
}

/// What is absent, at this type.
pub fn absent(
    alloc: Global,
    code: &Code,
    ts: &[ValueType],
    of: &ValueType,
) -> Result<ValueType, Untyped>
    ensures fits { Answers (OpType (signature code.now) (op.Absent of.now) ts.now) result }
    ensures told { Says (OperationMisfit (signature code.now) (op.Absent of.now) ts.now) result }
{
    if !ts.is_empty() {
        return Err(Untyped::Misfit(no_type(alloc, b"no argument")?));
    }
    match of {
        ValueType::Opt(_) => Ok(copy_type(alloc, of)?),
        _ => Err(Untyped::Misfit(unlike(alloc, code, of, b"an option")?)),
    }
}

/// What is present.
pub fn present(alloc: Global, code: &Code, ts: &[ValueType]) -> Result<ValueType, Untyped>
    ensures fits { Answers (OpType (signature code.now) op.Present ts.now) result }
    ensures told { Says (OperationMisfit (signature code.now) op.Present ts.now) result }
{
    let Some(a) = one(ts) else {
        return Err(Untyped::Misfit(no_type(alloc, b"one argument")?));
    };
    Ok(optional(alloc, a)?)
}

/// The empty list, at this type.
pub fn empty(
    alloc: Global,
    code: &Code,
    ts: &[ValueType],
    of: &ValueType,
) -> Result<ValueType, Untyped>
    ensures fits { Answers (OpType (signature code.now) (op.Empty of.now) ts.now) result }
    ensures told { Says (OperationMisfit (signature code.now) (op.Empty of.now) ts.now) result }
{
    if !ts.is_empty() {
        return Err(Untyped::Misfit(no_type(alloc, b"no argument")?));
    }
    match of {
        ValueType::Many(_) => Ok(copy_type(alloc, of)?),
        _ => Err(Untyped::Misfit(unlike(alloc, code, of, b"a list")?)),
    }
}

/// An item before a list.
pub fn cons(alloc: Global, code: &Code, ts: &[ValueType]) -> Result<ValueType, Untyped>
    ensures fits { Answers (OpType (signature code.now) op.Cons ts.now) result }
    ensures told { Says (OperationMisfit (signature code.now) op.Cons ts.now) result }
{
    let Some((a, list)) = two(ts) else {
        return Err(Untyped::Misfit(no_type(alloc, b"two arguments")?));
    };
    match list {
        ValueType::Many(of) => {
            if !same_type(a, of.get()) {
                return Err(Untyped::Misfit(mismatch(alloc, code, a, of.get())?));
            }
            Ok(copy_type(alloc, list)?)
        }
        _ => Err(Untyped::Misfit(unlike(alloc, code, list, b"a list")?)),
    }
}
