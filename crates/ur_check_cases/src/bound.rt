//! The types of what patterns bind.
ghost use Rattle.std.specs.Prelude.{◌≡◌, IfOk, Some, None, [], ◌∷◌, MatchOption, option_and_then, option_to_list, slice_get, if◌then◌else◌};
ghost use Rattle.ur_rows.specs.Made.{list_of};
ghost use Rattle.ur_tree.specs.Patterns.{bound_by, int_of, string_of, bool_of, absent_of, present_of, empty_of, cons_of, none_of, tagged_of};
ghost use Rattle.ur_check_scopes.specs.Views.{declared_in};
ghost use Rattle.ur_check_cases.specs.Binding.{is_of_datatype, variants_in};

use std::alloc::Global;
use ur_base::{List, Memory};
use ur_check_scopes::World;
use ur_rows::{NormalType, boxed, copy_type};
use ur_terms::Pattern;
use ur_tree::Variant;

/// The types of what a pattern binds where it stands for values of a type; none where it does not.
pub fn bound_by(
    alloc: Global,
    world: &World,
    of: &NormalType,
    pattern: &Pattern,
) -> Result<Option<List<NormalType>>, Memory>
    ensures { IfOk result (λ types. types ≡ bound_by (declared_in world.now) of.now pattern.now) }
{
    match pattern {
        Pattern::Any => {
            let types = one(alloc, of)?;
            Ok(types)
        }
        Pattern::Int(_) => {
            let types = none_if(alloc, is_int(of))?;
            Ok(types)
        }
        Pattern::Str(_) => {
            let types = none_if(alloc, is_string(of))?;
            Ok(types)
        }
        Pattern::Bool(_) => {
            let types = none_if(alloc, is_bool(of))?;
            Ok(types)
        }
        Pattern::Absent => {
            let types = none_if(alloc, is_option(of))?;
            Ok(types)
        }
        Pattern::Present => {
            let types = present(alloc, of)?;
            Ok(types)
        }
        Pattern::Empty => {
            let types = none_if(alloc, is_list(of))?;
            Ok(types)
        }
        Pattern::Cons => {
            let types = first_and_rest(alloc, of)?;
            Ok(types)
        }
        Pattern::Tagged(number) => {
            let types = tagged_at(alloc, of, world.variants.as_slice(), *number)?;
            Ok(types)
        }
    }
}

fn one(alloc: Global, of: &NormalType) -> Result<Option<List<NormalType>>, Memory>
    ensures { IfOk result (λ types. types ≡ Some (of.now ∷ [])) }
{
    let only = copy_type(alloc, of)?;
    let mut types = List::new(alloc);
    types.push(only)?;
    Ok(Some(types))
}

fn none_if(alloc: Global, may_stand: bool) -> Result<Option<List<NormalType>>, Memory>
    ensures { IfOk result (λ types. types ≡ (if may_stand then none_of else None)) }
{
    if may_stand {
        return Ok(Some(List::new(alloc)));
    }
    Ok(None)
}

fn present(alloc: Global, of: &NormalType) -> Result<Option<List<NormalType>>, Memory>
    ensures { IfOk result (λ types. types ≡ present_of of.now) }
{
    match item_of_option(of) {
        Some(item) => {
            let types = one(alloc, item)?;
            Ok(types)
        }
        None => Ok(None),
    }
}

#[tactic(auto, using(crate::proofs::Binders::holding))]
fn item_and_list(alloc: Global, item: &NormalType) -> Result<List<NormalType>, Memory>
    ensures { IfOk result (λ types. types ≡ item.now ∷ list_of item.now ∷ []) }
{
    let first = copy_type(alloc, item)?;
    let again = copy_type(alloc, item)?;
    let inner = boxed(alloc, again)?;
    let mut types = List::new(alloc);
    types.push(first)?;
    types.push(NormalType::Many(inner))?;
    Ok(types)
}

#[tactic(auto, using(crate::proofs::Binders::holding))]
fn first_and_rest(alloc: Global, of: &NormalType) -> Result<Option<List<NormalType>>, Memory>
    ensures { IfOk result (λ types. types ≡ cons_of of.now) }
{
    match item_of_list(of) {
        Some(item) => {
            let types = item_and_list(alloc, item)?;
            Ok(Some(types))
        }
        None => Ok(None),
    }
}

fn argument_type(alloc: Global, variant: &Variant) -> Result<List<NormalType>, Memory>
    ensures { IfOk result (λ types. types ≡ option_to_list variant.now.arg) }
{
    match &variant.arg {
        Some(arg) => {
            let only = copy_type(alloc, arg)?;
            let mut types = List::new(alloc);
            types.push(only)?;
            Ok(types)
        }
        None => Ok(List::new(alloc)),
    }
}

fn tagged_of(
    alloc: Global,
    of: &NormalType,
    variant: &Variant,
) -> Result<Option<List<NormalType>>, Memory>
    ensures { IfOk result (λ types. types ≡ tagged_of of.now (variant.now.datatype, variant.now.arg)) }
{
    if is_datatype(of, variant.datatype) {
        let types = argument_type(alloc, variant)?;
        return Ok(Some(types));
    }
    Ok(None)
}

#[tactic(auto, using(crate::proofs::Binders::variants))]
fn tagged_at(
    alloc: Global,
    of: &NormalType,
    variants: &[Variant],
    number: u32,
) -> Result<Option<List<NormalType>>, Memory>
    ensures { IfOk result (λ types. types ≡ option_and_then (tagged_of of.now) (slice_get (variants_in variants.now) number)) }
{
    match variants.get(number as usize) {
        Some(variant) => {
            let types = tagged_of(alloc, of, variant)?;
            Ok(types)
        }
        None => Ok(None),
    }
}

fn is_datatype(of: &NormalType, number: u32) -> bool
    ensures { result ≡ is_of_datatype of.now number }
{
    match of {
        NormalType::Datatype(d) => *d == number,
        _ => false,
    }
}

fn is_int(of: &NormalType) -> bool
    ensures { (if result then none_of else None) ≡ int_of of.now }
{
    match of {
        NormalType::Int => true,
        _ => false,
    }
}

fn is_string(of: &NormalType) -> bool
    ensures { (if result then none_of else None) ≡ string_of of.now }
{
    match of {
        NormalType::Str => true,
        _ => false,
    }
}

fn is_bool(of: &NormalType) -> bool
    ensures { (if result then none_of else None) ≡ bool_of of.now }
{
    match of {
        NormalType::Bool => true,
        _ => false,
    }
}

#[tactic(auto, using(crate::proofs::Binders::holding))]
fn is_option(of: &NormalType) -> bool
    ensures { (if result then none_of else None) ≡ absent_of of.now }
{
    match of {
        NormalType::Opt(_) => true,
        _ => false,
    }
}

#[tactic(auto, using(crate::proofs::Binders::holding))]
fn is_list(of: &NormalType) -> bool
    ensures { (if result then none_of else None) ≡ empty_of of.now }
{
    match of {
        NormalType::Many(_) => true,
        _ => false,
    }
}

#[tactic(auto, using(crate::proofs::Binders::holding))]
fn item_of_option<'a>(of: &'a NormalType) -> Option<&'a NormalType>
    ensures { MatchOption result (present_of of.now ≡ None) (λ t. present_of of.now ≡ Some (t.now ∷ [])) }
{
    match of {
        NormalType::Opt(inner) => Some(inner.get()),
        _ => None,
    }
}

#[tactic(auto, using(crate::proofs::Binders::holding))]
fn item_of_list<'a>(of: &'a NormalType) -> Option<&'a NormalType>
    ensures { MatchOption result (cons_of of.now ≡ None) (λ t. cons_of of.now ≡ Some (t.now ∷ list_of t.now ∷ [])) }
{
    match of {
        NormalType::Many(inner) => Some(inner.get()),
        _ => None,
    }
}
