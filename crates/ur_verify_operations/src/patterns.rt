//! Patterns: what they bind, and whether they leave out no value.
ghost use Rattle.std.specs.Prelude.{◌≡◌, ◌≢◌, ◌↔◌, [], ◌∷◌, ℕ, List, Option, Some, None, IfOk, IsTrue, Contains, slice_get};
ghost use Rattle.ur_values.specs.declared.types.ValueType.{ValueType};
ghost use Rattle.ur_values.specs.declared.types.ValueType.TheVariants as ty;
ghost use Rattle.ur_terms.specs.declared.term.Pattern.TheVariants as p;
ghost use Rattle.ur_terms.specs.Types.{Binds, Cover, args_of};
ghost use Rattle.ur_code.specs.Fits.{signature};
ghost use Rattle.ur_verify_operations.specs.Answering.{Answers, Says};
ghost use Rattle.ur_verify_operations.specs.Misfits.{PatternMisfit};
ghost use Rattle.ur_verify_operations.specs.Saying.{two_types};
ghost use Rattle.ur_verify_operations.specs.Wanting.{wanted_pattern, patterns_in, HasEach};

use crate::misfit::{Untyped, mismatch, no_type, unlike};
use std::alloc::Global;
use ur_base::{List, Memory};
use ur_code::Code;
use ur_terms::{Branch, Pattern};
use ur_values::{ValueType, copy_type, same_type};

/// A pattern that is looked for among branches.
#[derive(Clone, Copy)]
pub enum Wanted {
    Any,
    Bool(bool),
    Absent,
    Present,
    Empty,
    Cons,
    Tagged(usize),
}

fn only(alloc: Global, of: &ValueType) -> Result<List<ValueType>, Memory>
    ensures { IfOk result (λ ts. ts ≡ of.now ∷ []) }
{
    let mut types = List::new(alloc);
    types.push(copy_type(alloc, of)?)?;
    Ok(types)
}

/// A pattern that binds nothing, at a type that is to be this one.
fn at(
    alloc: Global,
    code: &Code,
    of: &ValueType,
    wanted: &ValueType,
) -> Result<List<ValueType>, Untyped>
    ensures fits { Answers (λ bound. (of.now ≡ wanted.now) × (bound ≡ [])) result }
    ensures told { Says (λ said. said ≡ two_types code.now.names of.now wanted.now) result }
{
    if !same_type(of, wanted) {
        return Err(Untyped::Misfit(mismatch(alloc, code, of, wanted)?));
    }
    Ok(List::new(alloc))
}

fn absent(alloc: Global, code: &Code, of: &ValueType) -> Result<List<ValueType>, Untyped>
    ensures fits { Answers (Binds (signature code.now) p.Absent of.now) result }
    ensures told { Says (PatternMisfit (signature code.now) p.Absent of.now) result }
{
    match of {
        ValueType::Opt(_) => Ok(List::new(alloc)),
        _ => Err(Untyped::Misfit(unlike(alloc, code, of, b"an option")?)),
    }
}

fn present(alloc: Global, code: &Code, of: &ValueType) -> Result<List<ValueType>, Untyped>
    ensures fits { Answers (Binds (signature code.now) p.Present of.now) result }
    ensures told { Says (PatternMisfit (signature code.now) p.Present of.now) result }
{
    match of {
        ValueType::Opt(held) => Ok(only(alloc, held.get())?),
        _ => Err(Untyped::Misfit(unlike(alloc, code, of, b"an option")?)),
    }
}

fn empty(alloc: Global, code: &Code, of: &ValueType) -> Result<List<ValueType>, Untyped>
    ensures fits { Answers (Binds (signature code.now) p.Empty of.now) result }
    ensures told { Says (PatternMisfit (signature code.now) p.Empty of.now) result }
{
    match of {
        ValueType::Many(_) => Ok(List::new(alloc)),
        _ => Err(Untyped::Misfit(unlike(alloc, code, of, b"a list")?)),
    }
}

fn cons(alloc: Global, code: &Code, of: &ValueType) -> Result<List<ValueType>, Untyped>
    ensures fits { Answers (Binds (signature code.now) p.Cons of.now) result }
    ensures told { Says (PatternMisfit (signature code.now) p.Cons of.now) result }
{
    match of {
        ValueType::Many(item) => {
            let mut types = only(alloc, item.get())?;
            types.push(copy_type(alloc, of)?)?;
            Ok(types)
        }
        _ => Err(Untyped::Misfit(unlike(alloc, code, of, b"a list")?)),
    }
}

fn argument(alloc: Global, held: &Option<ValueType>) -> Result<List<ValueType>, Memory>
    ensures { IfOk result (λ ts. ts ≡ args_of held.now) }
{
    match held {
        None => Ok(List::new(alloc)),
        Some(of) => only(alloc, of),
    }
}

fn tagged(
    alloc: Global,
    code: &Code,
    of: &ValueType,
    number: u32,
) -> Result<List<ValueType>, Untyped>
    ensures fits { Answers (Binds (signature code.now) (p.Tagged number) of.now) result }
    ensures told { Says (PatternMisfit (signature code.now) (p.Tagged number) of.now) result }
{
    let Some(variant) = code.variants.get(number as usize) else {
        return Err(Untyped::Misfit(no_type(alloc, b"a constructor")?));
    };
    let wanted = ValueType::Datatype(variant.0);
    if !same_type(of, &wanted) {
        return Err(Untyped::Misfit(mismatch(alloc, code, of, &wanted)?));
    }
    Ok(argument(alloc, &variant.1)?)
}

/// The types of the variables that a pattern binds at a type; a misfit where the pattern matches no value of the type.
pub fn bound_by(
    alloc: Global,
    code: &Code,
    pattern: &Pattern,
    of: &ValueType,
) -> Result<List<ValueType>, Untyped>
    ensures fits { Answers (Binds (signature code.now) pattern.now of.now) result }
    ensures told { Says (PatternMisfit (signature code.now) pattern.now of.now) result }
{
    match pattern {
        Pattern::Any => Ok(only(alloc, of)?),
        Pattern::Int(_) => at(alloc, code, of, &ValueType::Int),
        Pattern::Str(_) => at(alloc, code, of, &ValueType::Str),
        Pattern::Bool(_) => at(alloc, code, of, &ValueType::Bool),
        Pattern::Absent => absent(alloc, code, of),
        Pattern::Present => present(alloc, code, of),
        Pattern::Empty => empty(alloc, code, of),
        Pattern::Cons => cons(alloc, code, of),
        Pattern::Tagged(number) => tagged(alloc, code, of, *number),
    }
}

// ---- patterns that leave out no value

fn is_wanted(pattern: &Pattern, wanted: Wanted) -> bool
    ensures { IsTrue result ↔ (pattern.now ≡ wanted_pattern wanted) }
{
    match wanted {
        Wanted::Any => match pattern {
            Pattern::Any => true,
            _ => false,
        },
        Wanted::Bool(holds) => match pattern {
            Pattern::Bool(value) => *value == holds,
            _ => false,
        },
        Wanted::Absent => match pattern {
            Pattern::Absent => true,
            _ => false,
        },
        Wanted::Present => match pattern {
            Pattern::Present => true,
            _ => false,
        },
        Wanted::Empty => match pattern {
            Pattern::Empty => true,
            _ => false,
        },
        Wanted::Cons => match pattern {
            Pattern::Cons => true,
            _ => false,
        },
        Wanted::Tagged(number) => match pattern {
            Pattern::Tagged(other) => *other as usize == number,
            _ => false,
        },
    }
}

fn has(branches: &[Branch], wanted: Wanted) -> bool
    ensures { IsTrue result ↔ Contains (patterns_in branches.now) (wanted_pattern wanted) }
{
    for branch in branches {
        if is_wanted(&branch.pattern, wanted) {
            return true;
        }
    }
    false
}

/// Whether there is a branch for each constructor of a datatype.
fn has_each(code: &Code, branches: &[Branch], datatype: u32) -> bool
    ensures { IsTrue result ↔ HasEach code.now.variants (patterns_in branches.now) datatype }
{
    let variants = code.variants.as_slice();
    for i in 0..variants.len() {
        if variants[i].0 == datatype && !has(branches, Wanted::Tagged(i)) {
            return false;
        }
    }
    true
}

/// Whether the branches leave out no value of a type.
pub fn covers(code: &Code, branches: &[Branch], of: &ValueType) -> bool
    ensures { IsTrue result ↔ Cover (signature code.now) (patterns_in branches.now) of.now }
{
    if has(branches, Wanted::Any) {
        return true;
    }
    match of {
        ValueType::Bool => {
            has(branches, Wanted::Bool(true)) && has(branches, Wanted::Bool(false))
        }
        ValueType::Opt(_) => has(branches, Wanted::Absent) && has(branches, Wanted::Present),
        ValueType::Many(_) => has(branches, Wanted::Empty) && has(branches, Wanted::Cons),
        ValueType::Datatype(number) => { !branches.is_empty() && has_each(code, branches, *number) }
        _ => false,
    }
}
