//! The names that expressions bind.
ghost use Rattle.std.specs.Prelude.{◌≡◌, ◌+◌, [], ◌∷◌, true, IfOk, map, List as GhostList, ℕ, Some};
ghost use Rattle.std.specs.List.{list_any};
ghost use Rattle.std.specs.Option.{option_copied};
ghost use Rattle.ur_rows.specs.declared.normal.NormalType.{NormalType as GhostType};
ghost use Rattle.ur_typed_rules.specs.Names.{Local as GhostLocal, is_named};
ghost use Rattle.ur_typed_rules.specs.Repeats.{twice_of};
ghost use Rattle.ur_check_scopes.specs.Given.{again};
ghost use Rattle.ur_check_scopes.specs.Views.{StandsFor, locals_in, values_in, fixed_in};
ghost use Rattle.ur_check_scopes.specs.Searching.{SoughtIn, InOwn, past, visible};

use ur_base::{Memory, Text};
use ur_rows::NormalType;

/// A name that an expression binds, with its type: a static one where `fixed`, and else a variable. `_` has no name.
#[derive(Drop)]
pub struct Local {
    pub name: Option<Text>,
    pub fixed: bool,
    pub of: NormalType,
}

/// The names in scope: those of the nearest binder, in written order, and those around it. A lambda hides the variables
/// around it, and not the static names.
#[derive(Clone, Copy)]
pub enum Locals<'a> {
    Nothing,
    Bound(&'a [Local], &'a Locals<'a>),
    Lambda(&'a [Local], &'a Locals<'a>),
}

/// What a name stands for: a variable or a static name, by its place, with its type, or a variable that a lambda hides.
#[derive(Clone, Copy)]
pub enum Place<'a> {
    Variable(u32, &'a NormalType),
    Fixed(u32, &'a NormalType),
    Hidden,
}

/// How many variables and static names stand before a place.
#[derive(Clone, Copy)]
struct Before {
    variables: u32,
    fixed: u32,
}

fn one_more(count: u32) -> Result<u32, Memory>
    ensures { IfOk result (λ n. n ≡ count + 1) }
{
    match count.checked_add(1) {
        Some(more) => Ok(more),
        None => Err(Memory),
    }
}

fn past(before: Before, local: &Local) -> Result<Before, Memory>
    ensures { IfOk result (λ after. after ≡ past local.now.fixed before) }
{
    if local.fixed {
        let fixed = one_more(before.fixed)?;
        return Ok(Before {
            variables: before.variables,
            fixed,
        });
    }
    let variables = one_more(before.variables)?;
    Ok(Before {
        variables,
        fixed: before.fixed,
    })
}

fn is_named(local: &Local, name: &[u8]) -> bool
    ensures { result ≡ is_named name.now local.now.name }
{
    match &local.name {
        Some(x) => name == x.as_slice(),
        None => false,
    }
}

fn place_of<'a>(local: &'a Local, before: Before, hidden: bool) -> Place<'a>
    ensures { (x : GhostList ℕ) (names : GhostList GhostLocal) (values fixed : GhostList GhostType) → is_named x local.now.name ≡ true → InOwn x before hidden (local.now ∷ []) names values fixed (Some result) }
{
    if local.fixed {
        return Place::Fixed(before.fixed, &local.of);
    }
    if hidden {
        return Place::Hidden;
    }
    Place::Variable(before.variables, &local.of)
}

/// Where the name stands among those of one binder, or how many stand before the next binder.
enum Sought<'a> {
    Here(Place<'a>),
    Behind(Before),
}

fn in_binder<'a>(
    locals: &'a [Local],
    name: &[u8],
    before: Before,
    hidden: bool,
) -> Result<Sought<'a>, Memory>
    ensures { IfOk result (SoughtIn name.now before hidden locals.now) }
{
    let mut counts = before;
    let mut left = locals;
    while let Some((first, rest)) = left.split_first() {
        if is_named(first, name) {
            return Ok(Sought::Here(place_of(first, counts, hidden)));
        }
        counts = past(counts, first)?;
        left = rest;
    }
    Ok(Sought::Behind(counts))
}

fn local_from<'a>(
    locals: &Locals<'a>,
    name: &[u8],
    before: Before,
    hidden: bool,
) -> Result<Option<Place<'a>>, Memory>
    ensures { IfOk result (StandsFor name.now before.variables before.fixed (locals_in locals.now) (visible hidden (values_in locals.now)) (fixed_in locals.now)) }
{
    match locals {
        Locals::Nothing => Ok(None),
        Locals::Bound(own, around) => {
            let sought = in_binder(own, name, before, hidden)?;
            match sought {
                Sought::Here(place) => Ok(Some(place)),
                Sought::Behind(counts) => local_from(around, name, counts, hidden),
            }
        }
        Locals::Lambda(own, around) => {
            let parameter = in_binder(own, name, before, hidden)?;
            match parameter {
                Sought::Here(place) => Ok(Some(place)),
                Sought::Behind(counts) => local_from(around, name, counts, true),
            }
        }
    }
}

/// The nearest local of that name.
pub fn local_at<'a>(locals: &Locals<'a>, name: &[u8]) -> Result<Option<Place<'a>>, Memory>
    ensures { IfOk result (StandsFor name.now 0 0 (locals_in locals.now) (values_in locals.now) (fixed_in locals.now)) }
{
    let before = Before {
        variables: 0,
        fixed: 0,
    };
    local_from(locals, name, before, false)
}

fn any_named(locals: &[Local], name: &Text) -> bool
    ensures { result ≡ list_any (is_named name.now) (map (λ l. l.name) locals.now) }
{
    for i in 0..locals.len() {
        if is_named(&locals[i], name.as_slice()) {
            return true;
        }
    }
    false
}

fn name_of<'a>(local: &'a Local) -> Option<&'a Text>
    ensures { option_copied result ≡ local.now.name }
{
    match &local.name {
        Some(name) => Some(name),
        None => None,
    }
}

/// The name of a local, where one of the others has it too.
fn named_again<'a>(local: &'a Local, others: &[Local]) -> Option<&'a Text>
    ensures { option_copied result ≡ again local.now.name (map (λ l. l.name) others.now) }
{
    match name_of(local) {
        Some(name) => {
            if any_named(others, name) {
                return Some(name);
            }
            None
        }
        None => None,
    }
}

/// The first name that a later local of the binder has too.
#[tactic(auto, using(crate::proofs::Repeating::repeating))]
pub fn repeated_name<'a>(locals: &'a [Local]) -> Option<&'a Text>
    ensures { option_copied result ≡ twice_of (map (λ l. l.name) locals.now) }
{
    let mut left = locals;
    while let Some((first, rest)) = left.split_first() {
        match named_again(first, rest) {
            Some(name) => return Some(name),
            None => left = rest,
        }
    }
    None
}
