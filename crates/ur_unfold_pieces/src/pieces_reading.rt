//! What expressions, rows, labels and types are under the scope with a number.
ghost use Rattle.std.specs.Prelude.{◌≡◌};
ghost use Rattle.ur_rows.specs.declared.normal.Normal.TheVariants as normal;
ghost use Rattle.ur_rows.specs.Put.{as_label, instance};
ghost use Rattle.ur_source.specs.Reading.{closed_type, fold_steps, label_number, result_type};
ghost use Rattle.ur_source.specs.Items.{Scope, static_in, text_of};
ghost use Rattle.ur_source.specs.Source.{source_of};
ghost use Rattle.ur_unfold_static.specs.Scopes.{MayBeAt, StepsMayBe};
ghost use Rattle.ur_unfold_pieces.specs.Keys.{Gives};
ghost use Rattle.ur_unfold_pieces.specs.Moving.{Stays};
ghost use Rattle.ur_unfold_pieces.specs.Standing.{IsWhole, ScopeIs};

use crate::opening::Opening;
use crate::{closed_label, closed_type, fold_steps, name_of, result_type, static_of};
use std::alloc::Global;
use ur_base::{List, Name, Text};
use ur_meaning::Halt;
use ur_rows::{Label, NormalType, Part};
use ur_tree::Exp;
use ur_unfold_static::Step;
use ur_values::ValueType;

/// What an expression is where it is static.
pub fn static_in<'a>(
    alloc: Global,
    table: &mut Opening<'a>,
    scope: u32,
    e: &'a Exp,
) -> Result<Option<u32>, Halt>
    ensures made { (around : Scope) → ScopeIs table.old scope around → IsWhole table.old → Gives (λ j. MayBeAt table.new.closing.statics j (static_in (source_of table.old.typed.now) around e.now)) result }
    ensures stays { Stays table.old table.new }
{
    match table.scopes.get(scope as usize) {
        None => Err(Halt::Memory),
        Some(within) => {
            let names = &table.typed.names;
            let made = static_of(alloc, e, names, &table.vals, &mut table.closing, within)?;
            Ok(made)
        }
    }
}

/// The steps of a row's fields.
pub fn steps_in(
    alloc: Global,
    table: &mut Opening<'_>,
    scope: u32,
    row: &List<Part>,
) -> Result<Option<List<Step>>, Halt>
    ensures steps { (around : Scope) → ScopeIs table.old scope around → Gives (λ ss. StepsMayBe table.new.closing ss (fold_steps around.cons row.now)) result }
    ensures stays { Stays table.old table.new }
{
    match table.scopes.get(scope as usize) {
        None => Err(Halt::Memory),
        Some(within) => {
            let steps = fold_steps(alloc, &mut table.closing, within, row)?;
            Ok(steps)
        }
    }
}

/// The number of the name that a label stands for.
pub fn name_in(table: &Opening<'_>, scope: u32, label: &Label) -> Result<Option<Name>, Halt>
    ensures { (around : Scope) → ScopeIs table.now scope around → Gives (λ n. n ≡ label_number table.now.typed.now.names around.cons label.now) result }
{
    match table.scopes.get(scope as usize) {
        None => Err(Halt::Memory),
        Some(within) => {
            let name = name_of(&table.typed.names, &table.closing, within, label)?;
            Ok(name)
        }
    }
}

/// The name that a label stands for.
pub fn text_in(
    alloc: Global,
    table: &Opening<'_>,
    scope: u32,
    label: &Label,
) -> Result<Option<Text>, Halt>
    ensures { (around : Scope) → ScopeIs table.now scope around → Gives (λ t. t ≡ text_of (as_label (instance around.cons (normal.Name label.now)))) result }
{
    match table.scopes.get(scope as usize) {
        None => Err(Halt::Memory),
        Some(within) => match closed_label(&table.closing, within, label) {
            None => Ok(None),
            Some(text) => {
                let text = List::from_slice(alloc, text)?;
                Ok(Some(text))
            }
        },
    }
}

/// The type of values that a type stands for.
pub fn type_in(
    alloc: Global,
    table: &Opening<'_>,
    scope: u32,
    t: &NormalType,
) -> Result<ValueType, Halt>
    ensures { (around : Scope) → ScopeIs table.now scope around → Gives (λ of. of ≡ closed_type table.now.typed.now.names around.cons t.now) result }
{
    match table.scopes.get(scope as usize) {
        None => Err(Halt::Memory),
        Some(within) => {
            let of = closed_type(alloc, &table.typed.names, &table.closing, within, t)?;
            Ok(of)
        }
    }
}

/// The type of values that a result gives.
pub fn result_in(
    alloc: Global,
    table: &Opening<'_>,
    scope: u32,
    t: &NormalType,
) -> Result<ValueType, Halt>
    ensures { (around : Scope) → ScopeIs table.now scope around → Gives (λ of. of ≡ (result_type table.now.typed.now.names around.cons t.now).1) result }
{
    match table.scopes.get(scope as usize) {
        None => Err(Halt::Memory),
        Some(within) => {
            let of = result_type(alloc, &table.typed.names, &table.closing, within, t)?;
            Ok(of)
        }
    }
}
