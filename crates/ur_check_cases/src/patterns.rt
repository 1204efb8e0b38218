//! Patterns, and the variables that they bind.
ghost use Rattle.std.specs.Prelude.{◌≡◌, ℕ, List as GhostList, map, true, pos, neg_ℤ, IfOk, OnOk, Some, None, [], option_map};
ghost use Rattle.ur_base.specs.Stopping.{IfRefused, Says};
ghost use Rattle.ur_syntax.specs.Names.{name_text, seen};
ghost use Rattle.ur_terms.specs.declared.term.Pattern.TheVariants as shape;
ghost use Rattle.ur_typed_rules.specs.Tests.{are_distinct};
ghost use Rattle.ur_typed_rules.specs.Rules.{pattern_of, bound_in};
ghost use Rattle.ur_typed_rules.specs.Faults.{TellsType};
ghost use Rattle.ur_typed_rules.specs.Repeats.{twice_of};
ghost use Rattle.ur_typed_rules.specs.Patterns.{BreaksPat, of_another};
ghost use Rattle.ur_check_scopes.specs.Views.{declared_in, globals_in, world_in, key_in, local_in, of_variables, StopIs, Refuses};
ghost use Rattle.ur_check_cases.specs.Binding.{plain_pattern, names_of, variable, locals_with, paired, bound_as, IsUnknown};

use crate::bound::bound_by;
use crate::names::names_of;
use std::alloc::Global;
use ur_base::{List, Memory, Span, Stop, Text};
use ur_check_scopes::{Key, Local, World, key_text, mismatch, repeated_name, seen, twice, unknown};
use ur_rows::{NormalType, copy_text, copy_type};
use ur_syntax::{Pat, PatForm};
use ur_terms::Pattern;
use ur_tree::type_text;

fn int(n: u64) -> Result<i64, Memory>
    ensures { IfOk result (λ i. i ≡ pos n) }
{
    if n < 9223372036854775808 {
        return Ok(n as i64);
    }
    Err(Memory)
}

fn minus(n: u64) -> Result<i64, Memory>
    ensures { IfOk result (λ i. i ≡ neg_ℤ (pos n)) }
{
    let i = int(n)?;
    Ok(-i)
}

/// The pattern of the constructor with that name.
fn tagged(alloc: Global, world: &World, span: Span, key: &Key) -> Result<Pattern, Stop>
    ensures tag { IfOk result (λ p. option_map shape.Tagged (seen world.now.env.home (key_in key.now) (globals_in world.now).constructors) ≡ Some p) }
    ensures refused { IfRefused result (λ r. (seen world.now.env.home (key_in key.now) (globals_in world.now).constructors ≡ None) × Says r 7 (name_text (key_in key.now).home (key_in key.now).name) []) }
{
    let home = world.env.home.as_slice();
    match seen(home, world.constructors.as_slice(), key) {
        Some(number) => Ok(Pattern::Tagged(number)),
        None => {
            let name = key_text(alloc, key)?;
            let text = name.as_slice();
            Err(unknown(alloc, span, text))
        }
    }
}

/// A pattern without what it binds.
fn pattern_of(alloc: Global, world: &World, pat: &Pat) -> Result<Pattern, Stop>
    ensures pattern { IfOk result (λ p. plain_pattern (globals_in world.now) pat.now.form ≡ Some p) }
    ensures refused { IfRefused result (IsUnknown (globals_in world.now) pat.now.form) }
{
    match &pat.form {
        PatForm::Wild => Ok(Pattern::Any),
        PatForm::Var(_) => Ok(Pattern::Any),
        PatForm::Int(n) => {
            let i = int(*n)?;
            Ok(Pattern::Int(i))
        }
        PatForm::Negative(n) => {
            let i = minus(*n)?;
            Ok(Pattern::Int(i))
        }
        PatForm::Str(text) => {
            let s = copy_text(alloc, text)?;
            Ok(Pattern::Str(s))
        }
        PatForm::True => Ok(Pattern::Bool(true)),
        PatForm::False => Ok(Pattern::Bool(false)),
        PatForm::None => Ok(Pattern::Absent),
        PatForm::Some(_) => Ok(Pattern::Present),
        PatForm::Nil => Ok(Pattern::Empty),
        PatForm::Cons(_, _) => Ok(Pattern::Cons),
        PatForm::Constructor(x, _) => {
            let own = x.as_slice();
            tagged(alloc, world, pat.span, &Key::Own(own))
        }
        PatForm::Member(m, x, _) => {
            let home = m.as_slice();
            let name = x.as_slice();
            tagged(alloc, world, pat.span, &Key::Member(home, name))
        }
    }
}

fn copy_name(alloc: Global, name: &Option<Text>) -> Result<Option<Text>, Memory>
    ensures { IfOk result (λ x. x ≡ name.now) }
{
    match name {
        Some(x) => {
            let copied = copy_text(alloc, x)?;
            Ok(Some(copied))
        }
        None => Ok(None),
    }
}

fn local_of(alloc: Global, name: &Option<Text>, of: &NormalType) -> Result<Local, Memory>
    ensures { IfOk result (λ l. l ≡ variable name.now of.now) }
{
    let name = copy_name(alloc, name)?;
    let of = copy_type(alloc, of)?;
    Ok(Local {
        name,
        fixed: false,
        of,
    })
}

/// Names with types, which are as many.
#[tactic(auto, using(crate::proofs::Binders::locals))]
fn locals_with(
    alloc: Global,
    names: &[Option<Text>],
    types: &[NormalType],
) -> Result<List<Local>, Memory>
    ensures { IfOk result (λ locals. locals ≡ locals_with names.now types.now) }
{
    let mut locals = List::new(alloc);
    for i in 0..names.len() {
        match types.get(i) {
            Some(of) => {
                let local = local_of(alloc, &names[i], of)?;
                locals.push(local)?;
            }
            None => return Ok(locals),
        }
    }
    Ok(locals)
}

fn other_pattern(alloc: Global, world: &World, span: Span, of: &NormalType) -> Stop
    ensures { StopIs world.now.datatype_names (of_another world.now.datatype_names of.now) result }
{
    match type_text(alloc, world.datatype_names.as_slice(), of) {
        Ok(text) => {
            let name = text.as_slice();
            mismatch(alloc, span, b"a pattern of another type", name)
        }
        Err(_want) => Stop::Memory,
    }
}

/// The variables of these names and types, where there are as many of both.
fn paired(
    alloc: Global,
    names: &[Option<Text>],
    types: &[NormalType],
) -> Result<Option<List<Local>>, Memory>
    ensures { IfOk result (λ locals. locals ≡ paired names.now types.now) }
{
    if names.len() == types.len() {
        let locals = locals_with(alloc, names, types)?;
        return Ok(Some(locals));
    }
    Ok(None)
}

/// What a pattern with these names binds; none where it is one of another type.
fn bound_as(
    alloc: Global,
    world: &World,
    of: &NormalType,
    pattern: &Pattern,
    names: &[Option<Text>],
) -> Result<Option<List<Local>>, Memory>
    ensures { IfOk result (λ locals. locals ≡ bound_as (declared_in world.now) of.now pattern.now names.now) }
{
    let bound = bound_by(alloc, world, of, pattern)?;
    match bound {
        Some(types) => {
            let locals = paired(alloc, names, types.as_slice())?;
            Ok(locals)
        }
        None => Ok(None),
    }
}

/// What a pattern binds, as many as its type has.
fn bound_at(
    alloc: Global,
    world: &World,
    pat: &Pat,
    of: &NormalType,
    pattern: &Pattern,
) -> Result<List<Local>, Stop>
    ensures locals { IfOk result (λ locals. bound_as (declared_in world.now) of.now pattern.now (names_of pat.now.form) ≡ Some locals) }
    ensures refused { IfRefused result (λ r. TellsType world.now.datatype_names r (of_another world.now.datatype_names of.now) × (bound_as (declared_in world.now) of.now pattern.now (names_of pat.now.form) ≡ None)) }
{
    let names = names_of(alloc, &pat.form)?;
    let bound = bound_as(alloc, world, of, pattern, names.as_slice())?;
    match bound {
        Some(locals) => Ok(locals),
        None => Err(other_pattern(alloc, world, pat.span, of)),
    }
}

/// No two of the variables have one name.
fn are_once(alloc: Global, span: Span, locals: &[Local]) -> Result<(), Stop>
    ensures ok { OnOk result (twice_of (map (λ l. l.name) locals.now) ≡ None) }
    ensures refused { IfRefused result (λ r. (x : GhostList ℕ) × (twice_of (map (λ l. l.name) locals.now) ≡ Some x) × Says r 8 x []) }
{
    match repeated_name(locals) {
        Some(name) => {
            let text = name.as_slice();
            Err(twice(alloc, span, text))
        }
        None => Ok(()),
    }
}

/// A pattern for values of a type, with what it binds.
pub fn pattern_at(
    alloc: Global,
    world: &World,
    pat: &Pat,
    of: &NormalType,
) -> Result<(List<Local>, Pattern), Stop>
    ensures pattern { IfOk result (λ o. pattern_of (globals_in world.now) pat.now.form ≡ Some (map local_in o.0, o.1)) }
    ensures bound { IfOk result (λ o. bound_in (world_in world.now) of.now (map local_in o.0, o.1) ≡ Some (of_variables o.0)) }
    ensures distinct { IfOk result (λ o. are_distinct (map local_in o.0) ≡ true) }
    ensures refused { IfRefused result (Refuses world.now.datatype_names (BreaksPat world.now.datatype_names (world_in world.now) of.now pat.now.form)) }
{
    let pattern = pattern_of(alloc, world, pat)?;
    let locals = bound_at(alloc, world, pat, of, &pattern)?;
    are_once(alloc, pat.span, locals.as_slice())?;
    Ok((locals, pattern))
}
