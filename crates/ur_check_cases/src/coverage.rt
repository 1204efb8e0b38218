//! Whether the branches of a `case` cover a type.
ghost use Rattle.std.specs.Prelude.{◌≡◌, ◌==◌, ◌+◌, ◌||◌, true, false, [], ◌∷◌, Some, codes, IfOk, OnOk, MatchOption, if◌then◌else◌};
ghost use Rattle.std.specs.List.{list_any};
ghost use Rattle.std.specs.Fmt.{signed_decimal};
ghost use Rattle.ur_base.specs.Stopping.{IfRefused};
ghost use Rattle.ur_rows.specs.declared.normal.NormalType.{NormalType as GhostType};
ghost use Rattle.ur_tree.specs.Patterns.{same_pattern, last_is_any, has_all, constructors_of, tags_from};
ghost use Rattle.ur_typed_rules.specs.Tests.{covers, are_once};
ghost use Rattle.ur_typed_rules.specs.Patterns.{called, constructor_name, BreaksCover, IsRepeated};
ghost use Rattle.ur_check_scopes.specs.Views.{declared_in, world_in, names_in, itself, Refuses};
ghost use Rattle.ur_check_cases.specs.Binding.{variants_in};
ghost use Rattle.ur_check_cases.specs.Covering.{patterns_in, first_missing, or_any, missing_of, tag_is_missing};

use crate::alike::{is_any, same_pattern};
use std::alloc::Global;
use ur_base::{List, Memory, Span, Stop, Text};
use ur_check_scopes::{Named, World, mismatch, twice};
use ur_rows::{NormalType, copy_text};
use ur_syntax::Branch as WrittenBranch;
use ur_terms::Pattern;
use ur_tree::{Branch, Variant};

fn has_number(named: &Named<u32>, number: u32) -> bool
    ensures { result ≡ (number == named.now.of) }
{
    number == named.of
}

/// The name of the latest constructor with that number.
#[tactic(auto, using(crate::proofs::Chosen::naming))]
fn constructor_name(alloc: Global, constructors: &[Named<u32>], number: u32) -> Result<Text, Memory>
    ensures { IfOk result (λ name. name ≡ constructor_name number (names_in itself constructors.now)) }
{
    let mut left = constructors;
    while let Some((last, rest)) = left.split_last() {
        if has_number(last, number) {
            let name = copy_text(alloc, &last.name)?;
            return Ok(name);
        }
        left = rest;
    }
    Ok(List::new(alloc))
}

fn int_text(alloc: Global, number: i64) -> Result<Text, Memory>
    ensures { IfOk result (λ text. text ≡ signed_decimal number) }
{
    let text = format!(in alloc; "{number}")?;
    let bytes = List::from_slice(alloc, text.as_bytes())?;
    Ok(bytes)
}

fn truth_text(alloc: Global, value: bool) -> Result<Text, Memory>
    ensures { IfOk result (λ text. text ≡ (if value then codes "True" else codes "False")) }
{
    if value {
        let text = List::from_slice(alloc, b"True")?;
        return Ok(text);
    }
    let text = List::from_slice(alloc, b"False")?;
    Ok(text)
}

/// How a pattern is called.
#[tactic(auto, using(crate::proofs::Chosen::lasts))]
fn called(alloc: Global, world: &World, pattern: &Pattern) -> Result<Text, Memory>
    ensures { IfOk result (λ text. text ≡ called (world_in world.now) pattern.now) }
{
    match pattern {
        Pattern::Any => {
            let text = List::from_slice(alloc, b"_")?;
            Ok(text)
        }
        Pattern::Int(n) => {
            let text = int_text(alloc, *n)?;
            Ok(text)
        }
        Pattern::Str(s) => {
            let text = copy_text(alloc, s)?;
            Ok(text)
        }
        Pattern::Bool(b) => {
            let text = truth_text(alloc, *b)?;
            Ok(text)
        }
        Pattern::Absent => {
            let text = List::from_slice(alloc, b"None")?;
            Ok(text)
        }
        Pattern::Present => {
            let text = List::from_slice(alloc, b"Some")?;
            Ok(text)
        }
        Pattern::Empty => {
            let text = List::from_slice(alloc, b"[]")?;
            Ok(text)
        }
        Pattern::Cons => {
            let text = List::from_slice(alloc, b"::")?;
            Ok(text)
        }
        Pattern::Tagged(number) => {
            let text = constructor_name(alloc, world.constructors.as_slice(), *number)?;
            Ok(text)
        }
    }
}

/// Whether a branch has the pattern.
fn has(branches: &[Branch], pattern: &Pattern) -> bool
    ensures { result ≡ list_any (same_pattern pattern.now) (patterns_in branches.now) }
{
    for i in 0..branches.len() {
        if same_pattern(pattern, &branches[i].pattern) {
            return true;
        }
    }
    false
}

/// Whether one of the branches has a pattern that is this one.
fn had(branches: &[Branch], pattern: &Pattern) -> bool
    ensures { result ≡ list_any (λ p. same_pattern p pattern.now) (patterns_in branches.now) }
{
    for i in 0..branches.len() {
        if same_pattern(&branches[i].pattern, pattern) {
            return true;
        }
    }
    false
}

/// The first pattern that an earlier branch has, with its branch's place.
#[tactic(auto, using(crate::proofs::Chosen::repeating))]
fn repeated<'a>(branches: &'a [Branch]) -> Option<(usize, &'a Pattern)>
    ensures { MatchOption result (are_once same_pattern (patterns_in branches.now) ≡ true) (λ found. IsRepeated (patterns_in branches.now) found.1.now) }
{
    for i in 0..branches.len() {
        let pattern = &branches[i].pattern;
        if had(&branches[..i], pattern) {
            return Some((i, pattern));
        }
    }
    None
}

#[tactic(auto, using(crate::proofs::Chosen::lasts))]
fn last_is_any(branches: &[Branch]) -> bool
    ensures { result ≡ last_is_any (patterns_in branches.now) }
{
    match branches.split_last() {
        Some((last, _before)) => is_any(&last.pattern),
        None => false,
    }
}

/// What is missing, or any value where there is no branch.
fn or_any(branches: &[Branch], found: Option<Pattern>) -> Option<Pattern>
    ensures { result ≡ or_any (patterns_in branches.now) found }
{
    match found {
        Some(pattern) => Some(pattern),
        None => {
            if branches.is_empty() {
                return Some(Pattern::Any);
            }
            None
        }
    }
}

/// The first of two patterns that no branch has.
#[tactic(auto, using(crate::proofs::Chosen::two_missing))]
fn missing_of_two(branches: &[Branch], first: Pattern, second: Pattern) -> Option<Pattern>
    ensures { result ≡ missing_of (Some (first ∷ second ∷ [])) (patterns_in branches.now) }
{
    if !has(branches, &first) {
        return Some(first);
    }
    if !has(branches, &second) {
        return Some(second);
    }
    None
}

fn next(number: u32) -> Result<u32, Memory>
    ensures { IfOk result (λ n. n ≡ number + 1) }
{
    match number.checked_add(1) {
        Some(more) => Ok(more),
        None => Err(Memory),
    }
}

fn is_missing(branches: &[Branch], variant: &Variant, datatype: u32, number: u32) -> bool
    ensures { result ≡ tag_is_missing datatype number (variant.now.datatype, variant.now.arg) (patterns_in branches.now) }
{
    variant.datatype == datatype && !has(branches, &Pattern::Tagged(number))
}

/// The first constructor of a datatype that no branch has.
#[tactic(auto, using(crate::proofs::Chosen::datatypes))]
fn missing_of_datatype(
    variants: &[Variant],
    branches: &[Branch],
    datatype: u32,
) -> Result<Option<Pattern>, Memory>
    ensures { IfOk result (λ found. found ≡ first_missing (tags_from datatype 0 (variants_in variants.now)) (patterns_in branches.now)) }
{
    let mut number = 0;
    for i in 0..variants.len() {
        if is_missing(branches, &variants[i], datatype, number) {
            return Ok(Some(Pattern::Tagged(number)));
        }
        number = next(number)?;
    }
    Ok(None)
}

/// The first constructor of the type that no branch has, or any value where a `case` cannot have all of them, or has no branch.
#[tactic(auto, using(crate::proofs::Chosen::constructors))]
fn missing(world: &World, of: &NormalType, branches: &[Branch]) -> Result<Option<Pattern>, Memory>
    ensures { IfOk result (λ found. found ≡ missing_of (constructors_of (declared_in world.now) of.now) (patterns_in branches.now)) }
{
    match of {
        NormalType::Bool => Ok(missing_of_two(branches, Pattern::Bool(true), Pattern::Bool(false))),
        NormalType::Opt(_) => Ok(missing_of_two(branches, Pattern::Absent, Pattern::Present)),
        NormalType::Many(_) => Ok(missing_of_two(branches, Pattern::Empty, Pattern::Cons)),
        NormalType::Datatype(d) => {
            let found = missing_of_datatype(world.variants.as_slice(), branches, *d)?;
            Ok(or_any(branches, found))
        }
        NormalType::Int => Ok(Some(Pattern::Any)),
        NormalType::Str => Ok(Some(Pattern::Any)),
        NormalType::Page => Ok(Some(Pattern::Any)),
        NormalType::Xbody => Ok(Some(Pattern::Any)),
        NormalType::Xtable => Ok(Some(Pattern::Any)),
        NormalType::Xtr => Ok(Some(Pattern::Any)),
        NormalType::Variable(_) => Ok(Some(Pattern::Any)),
        NormalType::Transaction(_) => Ok(Some(Pattern::Any)),
        NormalType::Arrow(_, _) => Ok(Some(Pattern::Any)),
        NormalType::Record(_) => Ok(Some(Pattern::Any)),
        NormalType::Form(_) => Ok(Some(Pattern::Any)),
    }
}

fn covered(
    alloc: Global,
    world: &World,
    span: Span,
    of: &NormalType,
    branches: &[Branch],
) -> Result<(), Stop>
    ensures ok { OnOk result ((last_is_any (patterns_in branches.now) || has_all (constructors_of (declared_in world.now) of.now) (patterns_in branches.now)) ≡ true) }
    ensures refused { IfRefused result (Refuses world.now.datatype_names (BreaksCover (world_in world.now) of.now (patterns_in branches.now))) }
{
    if last_is_any(branches) {
        return Ok(());
    }
    let lacked = missing(world, of, branches)?;
    match lacked {
        Some(pattern) => {
            let name = called(alloc, world, &pattern)?;
            let text = name.as_slice();
            Err(mismatch(alloc, span, text, b"a branch"))
        }
        None => Ok(()),
    }
}

/// Where a branch's pattern is written, which stands in the whole.
fn pattern_span(written: &[WrittenBranch], at: usize, whole: Span) -> Span {
    match written.get(at) {
        Some(branch) => branch.pat.span,
        None => whole,
    }
}

fn once(
    alloc: Global,
    world: &World,
    span: Span,
    written: &[WrittenBranch],
    branches: &[Branch],
) -> Result<(), Stop>
    ensures ok { OnOk result (are_once same_pattern (patterns_in branches.now) ≡ true) }
    ensures refused { IfRefused result (λ r. (u : GhostType) → Refuses world.now.datatype_names (BreaksCover (world_in world.now) u (patterns_in branches.now)) r) }
{
    match repeated(branches) {
        Some((at, pattern)) => {
            let name = called(alloc, world, pattern)?;
            let text = name.as_slice();
            Err(twice(alloc, pattern_span(written, at, span), text))
        }
        None => Ok(()),
    }
}

/// No pattern comes twice; each constructor of the type is there, or the last pattern is a variable or `_`.
pub fn covers(
    alloc: Global,
    world: &World,
    span: Span,
    of: &NormalType,
    written: &[WrittenBranch],
    branches: &[Branch],
) -> Result<(), Stop>
    ensures covered { OnOk result (covers (declared_in world.now) of.now (patterns_in branches.now) ≡ true) }
    ensures refused { IfRefused result (Refuses world.now.datatype_names (BreaksCover (world_in world.now) of.now (patterns_in branches.now))) }
{
    once(alloc, world, span, written, branches)?;
    covered(alloc, world, span, of, branches)
}
