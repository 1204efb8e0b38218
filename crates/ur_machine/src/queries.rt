//! Queries over a keeper and a cache.
ghost use Rattle.std.specs.Prelude.{◌≡◌, ◌≤◌, ◌<◌, ◌+◌, ◌-◌, true, length, map, All, IfErr, IfOk, IfSome, OnOk, MatchResult, None};
ghost use Rattle.std.specs.List.{AllZip};
ghost use Rattle.ur_base.specs.Counts.{HasCause};
ghost use Rattle.ur_base.specs.Told.{WhereTold};
ghost use Rattle.ur_values.specs.Atom.{IsAtomic, atom_values};
ghost use Rattle.ur_values.specs.declared.value.Value.TheVariants as v;
ghost use Rattle.ur_keeper.specs.Tables.{Keeps, AreRowsOf, table_at};
ghost use Rattle.ur_keeper.specs.Keeper.{HasTable, OfShape};
ghost use Rattle.ur_cache.specs.Entries.{hit};
ghost use Rattle.ur_terms.specs.declared.term.AnswerForm.TheVariants as form;
ghost use Rattle.ur_terms.specs.declared.term.Op.TheVariants as op;
ghost use Rattle.ur_terms.specs.State.{built, error_text};
ghost use Rattle.ur_terms.specs.Ops as ops;
ghost use Rattle.ur_code.specs.Fits.{Fits};
ghost use Rattle.ur_machine.specs.Answers.{AreSavedAnswers, AreCurrentAnswers, sites_of, scanned};
ghost use Rattle.ur_machine.specs.Caching.{LeavesAnswers};
ghost use Rattle.ur_machine.specs.StoreCalls.{Gives, Answers, OneStep, Takes, StoreCall};
ghost use Rattle.ur_machine.specs.Ready.{AreReady};
ghost use Rattle.ur_machine.specs.Reading.{IsKeyOf, FindsRows};
ghost use Rattle.ur_machine.specs.Stops.{EndsCall};

use crate::given::{Given, are_small};
use crate::stop::TurnStop;
use crate::turns_calls::scan;
use crate::{Reached, atoms_of, held_rows, keep_rows};
use std::alloc::Global;
use ur_base::{Boxed, List, Shared};
use ur_cache::Cache;
use ur_code::Code;
use ur_conditions::Patterns;
use ur_keeper::Keeper;
use ur_machine_operations::{error_body, is_small};
use ur_sql::{Item, answer};
use ur_terms::AnswerForm;
use ur_values::{Atom, Numbered, Value};

/// Answers a query, which costs one unit and one for each row.
pub(crate) fn ask<K: Keeper>(
    alloc: Global,
    code: &Code,
    patterns: &Patterns,
    keeper: &mut K,
    cache: &mut Cache,
    units: &mut u32,
    reached: &mut Reached,
    how: AnswerForm,
    site: u32,
    key: List<Value>,
) -> Result<Given, TurnStop>
    requires fits { Fits code.now }
    requires takes { Takes code.now (op.Ask how site) key }
    requires under_way { K.under_way keeper.old ≡ true }
    requires kept { K.kept keeper.old ≡ Keeps code.now.schema }
    requires ready { WhereTold (K.current keeper.old) (AreReady code.now.schema units.old) }
    requires saved { AreSavedAnswers code.now (K.saved keeper.old) cache.old }
    requires current { AreCurrentAnswers code.now (K.saved keeper.old) (K.current keeper.old) cache.old }
    ensures store_call { StoreCall (OneStep code.now (sites_of code.now patterns.now) cache.old cache.new (K.reads keeper.old) (K.reads keeper.new) reached.new) code.now (op.Ask how site) key units.old units.new (K.saved keeper.old) (K.saved keeper.new) (K.current keeper.old) (K.current keeper.new) (K.kept keeper.new) (K.under_way keeper.new) result }
    ensures answers { LeavesAnswers code.now (K.saved keeper.new) (K.current keeper.new) cache.old cache.new result }
    ensures cause { HasCause TurnStop.Keeper (K.faults keeper.old) (K.faults keeper.new) result }
{
    let values = key.as_slice();
    let rows = rows_at(alloc, code, patterns, keeper, cache, site, values)?;
    *reached = Reached::Query(site, key_if_any(alloc, values));
    let value = answer_to(alloc, how, rows, units)?;
    Ok(value)
}

/// The atoms of a key, where there is memory for them.
fn key_if_any(alloc: Global, key: &[Value]) -> Option<List<Atom>>
    requires { All IsAtomic key.now }
    ensures { IfSome result (λ atoms. atom_values atoms ≡ key.now) }
{
    match atoms_of(alloc, key) {
        Ok(atoms) => Some(atoms),
        Err(_memory) => None,
    }
}

/// The rows of a query's answer: those of its entry in the cache, or else those that the tables give.
fn rows_at<K: Keeper>(
    alloc: Global,
    code: &Code,
    patterns: &Patterns,
    keeper: &mut K,
    cache: &mut Cache,
    site: u32,
    key: &[Value],
) -> Result<Shared<List<Value>>, TurnStop>
    requires fits { Fits code.now }
    requires takes { IsKeyOf code.now site key.now }
    requires under_way { K.under_way keeper.old ≡ true }
    requires kept { K.kept keeper.old ≡ Keeps code.now.schema }
    requires saved { AreSavedAnswers code.now (K.saved keeper.old) cache.old }
    requires current { AreCurrentAnswers code.now (K.saved keeper.old) (K.current keeper.old) cache.old }
    ensures finds { FindsRows code.now patterns.now site key.now (K.saved keeper.old) (K.saved keeper.new) (K.current keeper.old) (K.current keeper.new) (K.kept keeper.old) (K.kept keeper.new) (K.under_way keeper.new) cache.old cache.new (K.reads keeper.old) (K.reads keeper.new) result }
    ensures answers { LeavesAnswers code.now (K.saved keeper.new) (K.current keeper.new) cache.old cache.new result }
    ensures cause { HasCause TurnStop.Keeper (K.faults keeper.old) (K.faults keeper.new) result }
{
    let atoms = atoms_of(alloc, key)?;
    let held = held_rows(cache, site, atoms.as_slice())?;
    match held {
        Some(rows) => Ok(rows),
        None => rows_of_tables(alloc, code, patterns, keeper, cache, site, key, atoms),
    }
}

/// The rows that the tables give, which are kept where they may be. The patterns are there for the contract.
fn rows_of_tables<K: Keeper>(
    alloc: Global,
    code: &Code,
    patterns: &Patterns,
    keeper: &mut K,
    cache: &mut Cache,
    site: u32,
    key: &[Value],
    atoms: List<Atom>,
) -> Result<Shared<List<Value>>, TurnStop>
    requires fits { Fits code.now }
    requires takes { IsKeyOf code.now site key.now }
    requires atoms { atom_values atoms ≡ key.now }
    requires missed { hit cache.old site key.now ≡ None }
    requires under_way { K.under_way keeper.old ≡ true }
    requires kept { K.kept keeper.old ≡ Keeps code.now.schema }
    requires saved { AreSavedAnswers code.now (K.saved keeper.old) cache.old }
    requires current { AreCurrentAnswers code.now (K.saved keeper.old) (K.current keeper.old) cache.old }
    ensures finds { FindsRows code.now patterns.now site key.now (K.saved keeper.old) (K.saved keeper.new) (K.current keeper.old) (K.current keeper.new) (K.kept keeper.old) (K.kept keeper.new) (K.under_way keeper.new) cache.old cache.new (K.reads keeper.old) (K.reads keeper.new) result }
    ensures answers { LeavesAnswers code.now (K.saved keeper.new) (K.current keeper.new) cache.old cache.new result }
    ensures cause { HasCause TurnStop.Keeper (K.faults keeper.old) (K.faults keeper.new) result }
{
    let _ = patterns;
    match code.queries.get(site as usize) {
        None => unreachable!(),
        Some(query) => {
            let tables = scan_all(alloc, keeper, query.from.as_slice())?;
            let rows = Shared::new(alloc, answer(alloc, query, key, tables.as_slice())?)?;
            keep_rows(cache, site, atoms, &rows)?;
            Ok(rows)
        }
    }
}

/// The current rows of the table of each item.
fn scan_all<K: Keeper>(
    alloc: Global,
    keeper: &mut K,
    items: &[Item],
) -> Result<List<List<Numbered>>, TurnStop>
    requires under_way { K.under_way keeper.old ≡ true }
    requires tables { All (λ item. HasTable (K.kept keeper.old) item.table) items.now }
    ensures rows { IfOk result (λ tables. WhereTold (K.current keeper.old) (λ t. tables ≡ map (λ item. table_at t item.table) items.now)) }
    ensures every_form { IfOk result (λ tables. AllZip (λ item rows. OfShape (K.kept keeper.old) item.table (λ shape. AreRowsOf shape rows)) items.now tables) }
    ensures current { OnOk result (K.current keeper.new ≡ K.current keeper.old) }
    ensures reads { OnOk result (K.reads keeper.new ≡ scanned (length items.now) (K.reads keeper.old)) }
    ensures ends { EndsCall result (K.saved keeper.old) (K.saved keeper.new) (K.current keeper.new) (K.kept keeper.old) (K.kept keeper.new) (K.under_way keeper.new) }
    ensures cause { HasCause TurnStop.Keeper (K.faults keeper.old) (K.faults keeper.new) result }
{
    let mut tables: List<List<Numbered>> = List::new(alloc);
    let mut left = items;
    while let Some((item, rest)) = left.split_first() {
        let rows = scan(keeper, item.table)?;
        tables.push(rows)?;
        left = rest;
    }
    Ok(tables)
}

/// What rows are answered as, for which the query is charged.
fn answer_to(
    alloc: Global,
    how: AnswerForm,
    rows: Shared<List<Value>>,
    units: &mut u32,
) -> Result<Given, TurnStop>
    ensures { Answers how rows units.old units.new result }
{
    charge_rows(units, rows.get().as_slice())?;
    let value = answered(alloc, how, rows)?;
    Ok(value)
}

/// Takes a unit and one for each row, where so many are left.
fn charge_rows(units: &mut u32, rows: &[Value]) -> Result<(), TurnStop>
    ensures ok { OnOk result ((1 + length rows.now ≤ units.old) × (units.old ≤ 4294967295) × (units.new ≡ units.old - (1 + length rows.now))) }
    ensures err { IfErr result (λ stop. (stop ≡ TurnStop.Spent) × (units.old < 1 + length rows.now) × (units.new ≡ units.old)) }
{
    let count = (rows.len() as u64).saturating_add(1);
    charge(units, count)?;
    Ok(())
}

/// Takes units, where so many are left.
pub(crate) fn charge(units: &mut u32, count: u64) -> Result<(), TurnStop>
    ensures { MatchResult result (λ _. (count ≤ units.old) × (units.old ≤ 4294967295) × (units.new ≡ units.old - count)) (λ stop. (stop ≡ TurnStop.Spent) × (units.old < count) × (units.new ≡ units.old)) }
{
    if (*units as u64) < count {
        return Err(TurnStop::Spent);
    }
    *units -= count as u32;
    Ok(())
}

/// All rows, the only row, or at most one row.
fn answered(alloc: Global, how: AnswerForm, rows: Shared<List<Value>>) -> Result<Given, TurnStop>
    ensures { Gives (ops.answered how rows) result }
{
    match how {
        AnswerForm::All => all(rows),
        AnswerForm::One => only(alloc, rows.get().as_slice()),
        AnswerForm::OneOrNone => at_most_one(alloc, rows.get().as_slice()),
    }
}

/// A copy of the only row.
fn only(alloc: Global, rows: &[Value]) -> Result<Given, TurnStop>
    ensures { Gives (ops.answered form.One rows.now) result }
{
    match rows {
        [] => Err(failed(alloc, b"expected one row")),
        [row] => {
            let copy = row.copy(alloc)?;
            small(copy)
        }
        _ => Err(failed(alloc, b"expected one row")),
    }
}

/// A copy of the only row, where there is one.
fn at_most_one(alloc: Global, rows: &[Value]) -> Result<Given, TurnStop>
    ensures { Gives (ops.answered form.OneOrNone rows.now) result }
{
    match rows {
        [] => Ok(Given::value(Value::Absent)),
        [row] => {
            let copy = row.copy(alloc)?;
            let present = Boxed::new(alloc, copy)?;
            small(Value::Present(present))
        }
        _ => Err(failed(alloc, b"expected one row")),
    }
}

/// All rows, or a spent budget where their list is too large or too deep.
fn all(rows: Shared<List<Value>>) -> Result<Given, TurnStop>
    ensures { Gives (built (v.Many rows)) result }
{
    if are_small(rows.get().as_slice()) {
        Ok(Given::rows(rows))
    } else {
        Err(TurnStop::Spent)
    }
}

/// The value, or a spent budget where it is too large or too deep.
fn small(value: Value) -> Result<Given, TurnStop>
    ensures { Gives (built value) result }
{
    if is_small(&value) {
        Ok(Given::value(value))
    } else {
        Err(TurnStop::Spent)
    }
}

/// A program error that is shown as this text.
pub(crate) fn failed(alloc: Global, text: &[u8]) -> TurnStop
    ensures { Gives (error_text text.now) (Err result) }
{
    match error_body(alloc, text) {
        Ok(body) => TurnStop::Failed(body),
        Err(_) => TurnStop::Memory,
    }
}
