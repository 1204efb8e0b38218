//! The names that patterns bind.
ghost use Rattle.std.specs.Prelude.{◌≡◌, IfOk, Some, None, [], ◌∷◌};
ghost use Rattle.ur_typed_rules.specs.Names.{bound_name};
ghost use Rattle.ur_check_cases.specs.Binding.{argument_names, names_of};

use std::alloc::Global;
use ur_base::{List, Memory, Text};
use ur_rows::copy_text;
use ur_syntax::{Argument, Binder, PatForm};

fn name_of(alloc: Global, binder: &Binder) -> Result<Option<Text>, Memory>
    ensures { IfOk result (λ x. x ≡ bound_name binder.now) }
{
    match binder {
        Binder::Ignored => Ok(None),
        Binder::Named(x) => {
            let name = copy_text(alloc, x)?;
            Ok(Some(name))
        }
    }
}

fn one_name(alloc: Global, binder: &Binder) -> Result<List<Option<Text>>, Memory>
    ensures { IfOk result (λ names. names ≡ bound_name binder.now ∷ []) }
{
    let name = name_of(alloc, binder)?;
    let mut names = List::new(alloc);
    names.push(name)?;
    Ok(names)
}

fn two_names(alloc: Global, x: &Binder, y: &Binder) -> Result<List<Option<Text>>, Memory>
    ensures { IfOk result (λ names. names ≡ bound_name x.now ∷ bound_name y.now ∷ []) }
{
    let first = name_of(alloc, x)?;
    let second = name_of(alloc, y)?;
    let mut names = List::new(alloc);
    names.push(first)?;
    names.push(second)?;
    Ok(names)
}

fn argument_names(alloc: Global, argument: &Argument) -> Result<List<Option<Text>>, Memory>
    ensures { IfOk result (λ names. names ≡ argument_names argument.now) }
{
    match argument {
        Argument::Absent => Ok(List::new(alloc)),
        Argument::Bound(x) => {
            let names = one_name(alloc, x)?;
            Ok(names)
        }
    }
}

fn without_name(alloc: Global) -> Result<List<Option<Text>>, Memory>
    ensures { IfOk result (λ names. names ≡ None ∷ []) }
{
    let mut names = List::new(alloc);
    names.push(None)?;
    Ok(names)
}

fn whole_name(alloc: Global, name: &Text) -> Result<List<Option<Text>>, Memory>
    ensures { IfOk result (λ names. names ≡ Some name.now ∷ []) }
{
    let copied = copy_text(alloc, name)?;
    let mut names = List::new(alloc);
    names.push(Some(copied))?;
    Ok(names)
}

/// The names of what a pattern binds, in written order.
pub fn names_of(alloc: Global, pat: &PatForm) -> Result<List<Option<Text>>, Memory>
    ensures { IfOk result (λ names. names ≡ names_of pat.now) }
{
    match pat {
        PatForm::Wild => {
            let names = without_name(alloc)?;
            Ok(names)
        }
        PatForm::Var(x) => {
            let names = whole_name(alloc, x)?;
            Ok(names)
        }
        PatForm::Some(x) => {
            let names = one_name(alloc, x)?;
            Ok(names)
        }
        PatForm::Cons(x, y) => {
            let names = two_names(alloc, x, y)?;
            Ok(names)
        }
        PatForm::Constructor(_, argument) => {
            let names = argument_names(alloc, argument)?;
            Ok(names)
        }
        PatForm::Member(_, _, argument) => {
            let names = argument_names(alloc, argument)?;
            Ok(names)
        }
        PatForm::Int(_) => Ok(List::new(alloc)),
        PatForm::Negative(_) => Ok(List::new(alloc)),
        PatForm::Str(_) => Ok(List::new(alloc)),
        PatForm::True => Ok(List::new(alloc)),
        PatForm::False => Ok(List::new(alloc)),
        PatForm::None => Ok(List::new(alloc)),
        PatForm::Nil => Ok(List::new(alloc)),
    }
}
