//! Changes of tables.
ghost use Rattle.std.specs.Prelude.{◌≡◌, ◌++◌, true, ◌↔◌, IsTrue, All, IfOk, Err};
ghost use Rattle.ur_base.specs.Counts.{HasCause, next_count};
ghost use Rattle.ur_base.specs.Told.{WhereTold};
ghost use Rattle.ur_values.specs.Store.{FitKinds, IsStorable};
ghost use Rattle.ur_keeper.specs.Tables.{Keeps};
ghost use Rattle.ur_sql.specs.Plan.{OfNewRow};
ghost use Rattle.ur_sql.specs.Typing.{ChangeFits};
ghost use Rattle.ur_terms.specs.declared.term.Op.TheVariants as op;
ghost use Rattle.ur_terms.specs.State.{error_text};
ghost use Rattle.ur_code.specs.Fits.{Fits};
ghost use Rattle.ur_machine.specs.Answers.{ArePatternsOf, AreSavedAnswers, AreCurrentAnswers, sites_of};
ghost use Rattle.ur_machine.specs.Caching.{LeavesAnswers};
ghost use Rattle.ur_machine.specs.Changing.{Made};
ghost use Rattle.ur_machine.specs.StoreCalls.{Gives, OneStep, Takes, StoreCall};
ghost use Rattle.ur_machine.specs.Ready.{AreReady};

use crate::queries::{charge, failed};
use crate::stop::TurnStop;
use crate::turns_calls::{change_rows, scan};
use crate::{Reached, add_masks};
use std::alloc::Global;
use ur_base::{List, Memory, Text};
use ur_cache::Cache;
use ur_code::Code;
use ur_conditions::Patterns;
use ur_keeper::Keeper;
use ur_sql::{Change, Planned, RowChange, plan_sound};
use ur_values::{GREATEST_SIZE, Schema, TableShape, Value};

/// Makes a change, which costs a unit.
pub(crate) fn write<K: Keeper>(
    alloc: Global,
    code: &Code,
    patterns: &Patterns,
    keeper: &mut K,
    cache: &mut Cache,
    units: &mut u32,
    reached: &mut Reached,
    update: u32,
    args: List<Value>,
) -> Result<Value, TurnStop>
    requires fits { Fits code.now }
    requires patterns { ArePatternsOf code.now patterns.now }
    requires nothing { reached.old ≡ Reached.Nothing }
    requires takes { Takes code.now (op.Write update) args }
    requires under_way { K.under_way keeper.old ≡ true }
    requires kept { K.kept keeper.old ≡ Keeps code.now.schema }
    requires ready { WhereTold (K.current keeper.old) (AreReady code.now.schema units.old) }
    requires saved { AreSavedAnswers code.now (K.saved keeper.old) cache.old }
    requires current { AreCurrentAnswers code.now (K.saved keeper.old) (K.current keeper.old) cache.old }
    ensures store_call { StoreCall (OneStep code.now (sites_of code.now patterns.now) cache.old cache.new (K.reads keeper.old) (K.reads keeper.new) reached.new) code.now (op.Write update) args units.old units.new (K.saved keeper.old) (K.saved keeper.new) (K.current keeper.old) (K.current keeper.new) (K.kept keeper.new) (K.under_way keeper.new) result }
    ensures answers { LeavesAnswers code.now (K.saved keeper.new) (K.current keeper.new) cache.old cache.new result }
    ensures cause { HasCause TurnStop.Keeper (K.faults keeper.old) (K.faults keeper.new) result }
{
    charge(units, 1)?;
    *reached = Reached::Change(update);
    match code.changes.get(update as usize) {
        None => unreachable!(),
        Some(change) => {
            add_masks(alloc, patterns, cache, update, args.as_slice())?;
            make(alloc, &code.schema, keeper, change, args.as_slice())
        }
    }
}

/// Makes a change of a schema's table.
fn make<K: Keeper>(
    alloc: Global,
    schema: &Schema,
    keeper: &mut K,
    change: &Change,
    args: &[Value],
) -> Result<Value, TurnStop>
    requires fits { ChangeFits schema.now change.now }
    requires args { FitKinds args.now change.now.params }
    requires under_way { K.under_way keeper.old ≡ true }
    requires kept { K.kept keeper.old ≡ Keeps schema.now }
    requires ready { WhereTold (K.current keeper.old) (AreReady schema.now 1) }
    ensures reads { K.reads keeper.new ≡ next_count (K.reads keeper.old) }
    ensures made { Made schema.now change.now args.now (K.saved keeper.old) (K.saved keeper.new) (K.current keeper.old) (K.current keeper.new) (K.kept keeper.old) (K.kept keeper.new) (K.under_way keeper.new) result }
    ensures cause { HasCause TurnStop.Keeper (K.faults keeper.old) (K.faults keeper.new) result }
{
    match schema.tables.get(change.table as usize) {
        None => unreachable!(),
        Some(shape) => {
            let rows = scan(keeper, change.table)?;
            let planned = plan_sound(alloc, change, args, &rows, shape)?;
            match planned {
                Planned::Changes(changes) => {
                    if !are_storable(changes.as_slice()) {
                        return Err(TurnStop::Spent);
                    }
                    change_rows(keeper, change.table, changes.as_slice())?;
                    Ok(Value::Row(List::new(alloc)))
                }
                Planned::DuplicateKey(_) => Err(refused(alloc, b"duplicate key in ", shape)),
                Planned::TableFull => Err(refused(alloc, b"table full: ", shape)),
            }
        }
    }
}

/// Whether all values of the new rows may stand in a table.
fn are_storable(changes: &[RowChange]) -> bool
    ensures { IsTrue result ↔ All (OfNewRow (All IsStorable)) changes.now }
{
    for change in changes {
        if !is_storable_change(change) {
            return false;
        }
    }
    true
}

fn is_storable_change(change: &RowChange) -> bool
    ensures { IsTrue result ↔ OfNewRow (All IsStorable) change.now }
{
    match change {
        RowChange::Add(row) => is_storable(row.as_slice()),
        RowChange::Put(_, row) => is_storable(row.as_slice()),
        RowChange::Drop(_) => true,
    }
}

fn is_storable(row: &[Value]) -> bool
    ensures { IsTrue result ↔ All IsStorable row.now }
{
    for value in row {
        if value.size() > GREATEST_SIZE {
            return false;
        }
    }
    true
}

/// A program error that names a table.
fn refused(alloc: Global, before: &[u8], shape: &TableShape) -> TurnStop
    ensures { Gives (error_text (before.now ++ shape.now.name)) (Err result) }
{
    match named(alloc, before, &shape.name) {
        Ok(text) => failed(alloc, text.as_slice()),
        Err(_) => TurnStop::Memory,
    }
}

fn named(alloc: Global, before: &[u8], name: &Text) -> Result<Text, Memory>
    ensures { IfOk result (λ text. text ≡ before.now ++ name.now) }
{
    let mut text = List::from_slice(alloc, before)?;
    text.extend_from_slice(name.as_slice())?;
    Ok(text)
}
