//! A turn.
ghost use Rattle.std.specs.Prelude.{◌≡◌, ◌≤◌, ◌<◌, ◌-◌, true, None, IfOk};
ghost use Rattle.ur_base.specs.Counts.{Rose, HasCause};
ghost use Rattle.ur_base.specs.Told.{WhereTold};
ghost use Rattle.ur_keeper.specs.Keeper.{IsUndone};
ghost use Rattle.ur_keeper.specs.Tables.{Keeps};
ghost use Rattle.ur_tags.specs.Show.{show};
ghost use Rattle.ur_code.specs.Fits.{Fits};
ghost use Rattle.ur_machine.specs.UnderWay.{IsUnderWay};
ghost use Rattle.ur_machine.specs.Answers.{ArePatternsOf, AreSavedAnswers, AreCurrentAnswers, sites_of};
ghost use Rattle.ur_machine.specs.Caching.{LeavesAnswers, HoldsAnswers};
ghost use Rattle.ur_machine.specs.TurnsCookies as words;
ghost use Rattle.ur_machine.specs.StoreCalls.{OneStep};
ghost use Rattle.ur_machine.specs.Ready.{AreReady, RaisedBy};
ghost use Rattle.ur_machine.specs.Turning.{TurnOn, IsKeeperUndone, IfMore, StaysAtEnd, Ran, Turned};

use crate::rest::page_of_rest;
use crate::stop::TurnStop;
use crate::store_calls::store_call;
use crate::turns_cookies::sent_pairs;
use crate::{Machine, Reached};
use std::alloc::Global;
use ur_base::{Bytes, List, Memory, Text};
use ur_cache::Cache;
use ur_code::Code;
use ur_conditions::Patterns;
use ur_keeper::Keeper;
use ur_machine_frames::Pause;
use ur_machine_operations::Operators;
use ur_tags::{show, show_error, show_text};
use ur_values::Value;

/// How a turn ends: it goes on with the next one; with a page and the cookies that were set, each a name and a value;
/// with the page of a program error or of a spent budget; by a fault of the keeper; or for want of memory.
#[derive(Drop)]
pub enum Turn {
    More,
    Page(Bytes, List<(Text, Text)>),
    Failed(Bytes),
    Keeper,
    Memory,
}

impl Machine {
    /// Runs through the next query, change or draw, or to the end, answering queries from the cache where it has their entries,
    /// and tells what it came to. Where the tables are told, the tables, the cookies, the units
    /// and the outcome are those of the code's meaning. Page and Failed leave the tables as they were. Keeper comes only where
    /// the keeper's count rose. After Keeper and Memory no transaction is under way and the current tables are the saved ones;
    /// after the others it goes on.
    pub fn turn<K: Keeper>(
        &mut self,
        alloc: Global,
        code: &Code,
        patterns: &Patterns,
        keeper: &mut K,
        cache: &mut Cache,
        reached: &mut Reached,
    ) -> Turn
        requires fits { Fits code.now }
        requires patterns { ArePatternsOf code.now patterns.now }
        requires machine { IsUnderWay code.now self.old }
        requires under_way { K.under_way keeper.old ≡ true }
        requires kept { K.kept keeper.old ≡ Keeps code.now.schema }
        requires ready { WhereTold (K.current keeper.old) (AreReady code.now.schema self.old.frames.units) }
        requires saved { AreSavedAnswers code.now (K.saved keeper.old) cache.old }
        requires current { AreCurrentAnswers code.now (K.saved keeper.old) (K.current keeper.old) cache.old }
        ensures turn { WhereTold (K.current keeper.old) (λ before. TurnOn (OneStep code.now (sites_of code.now patterns.now) cache.old cache.new (K.reads keeper.old) (K.reads keeper.new) reached.new) code.now self.old self.new before (K.current keeper.new) result) }
        ensures undone { IsKeeperUndone result (K.saved keeper.new) (K.current keeper.new) (K.under_way keeper.new) }
        ensures saved { K.saved keeper.new ≡ K.saved keeper.old }
        ensures kept { K.kept keeper.new ≡ K.kept keeper.old }
        ensures stays { StaysAtEnd result (K.current keeper.old) (K.current keeper.new) }
        ensures machine { IfMore result (IsUnderWay code.now self.new) }
        ensures ready { IfMore result (WhereTold (K.current keeper.new) (AreReady code.now.schema self.new.frames.units)) }
        ensures charged { IfMore result (self.new.frames.units < self.old.frames.units) }
        ensures raised { IfMore result (RaisedBy (self.old.frames.units - self.new.frames.units) (K.current keeper.old) (K.current keeper.new)) }
        ensures untold { IfMore result (K.current keeper.old ≡ None → K.current keeper.new ≡ None) }
        ensures units { self.new.frames.units ≤ self.old.frames.units }
        ensures saved_answers { AreSavedAnswers code.now (K.saved keeper.new) cache.new }
        ensures current_answers { AreCurrentAnswers code.now (K.saved keeper.new) (K.current keeper.new) cache.new }
        ensures capacity { cache.new.capacity ≡ cache.old.capacity }
        ensures later { K.faults keeper.old ≤ K.faults keeper.new }
        ensures cause { result ≡ Turn.Keeper → Rose (K.faults keeper.old) (K.faults keeper.new) }
    {
        turn_or_stop(alloc, code, patterns, self, keeper, cache, reached)
    }
}

/// The turn, or what a stop makes of it.
fn turn_or_stop<K: Keeper>(
    alloc: Global,
    code: &Code,
    patterns: &Patterns,
    machine: &mut Machine,
    keeper: &mut K,
    cache: &mut Cache,
    reached: &mut Reached,
) -> Turn
    requires fits { Fits code.now }
    requires patterns { ArePatternsOf code.now patterns.now }
    requires machine { IsUnderWay code.now machine.old }
    requires under_way { K.under_way keeper.old ≡ true }
    requires kept { K.kept keeper.old ≡ Keeps code.now.schema }
    requires ready { WhereTold (K.current keeper.old) (AreReady code.now.schema machine.old.frames.units) }
    requires saved { AreSavedAnswers code.now (K.saved keeper.old) cache.old }
    requires current { AreCurrentAnswers code.now (K.saved keeper.old) (K.current keeper.old) cache.old }
    ensures turned { Turned (OneStep code.now (sites_of code.now patterns.now) cache.old cache.new (K.reads keeper.old) (K.reads keeper.new) reached.new) code.now machine.old machine.new (K.saved keeper.old) (K.saved keeper.new) (K.current keeper.old) (K.current keeper.new) (K.kept keeper.new) (K.under_way keeper.new) result }
    ensures units { machine.new.frames.units ≤ machine.old.frames.units }
    ensures answers { HoldsAnswers code.now (K.saved keeper.new) (K.current keeper.new) cache.old cache.new }
    ensures later { K.faults keeper.old ≤ K.faults keeper.new }
    ensures cause { result ≡ Turn.Keeper → Rose (K.faults keeper.old) (K.faults keeper.new) }
{
    match to_next_store_call(alloc, code, patterns, machine, keeper, cache, reached) {
        Ok(turn) => turn,
        Err(stop) => match stop {
            TurnStop::Failed(body) => match show_error(alloc, &code.handlers, &body) {
                Ok(bytes) => Turn::Failed(bytes),
                Err(_) => gives_up(keeper),
            },
            TurnStop::Spent => match show_text(alloc, b"Error", b"budget spent") {
                Ok(bytes) => Turn::Failed(bytes),
                Err(_) => gives_up(keeper),
            },
            TurnStop::Keeper => Turn::Keeper,
            TurnStop::Undone => Turn::Memory,
            TurnStop::Memory => gives_up(keeper),
        },
    }
}

/// The transaction is given up for want of memory.
fn gives_up<K: Keeper>(keeper: &mut K) -> Turn
    requires { K.under_way keeper.old ≡ true }
    ensures memory { result ≡ Turn.Memory }
    ensures undone { IsUndone (K.saved keeper.old) (K.saved keeper.new) (K.current keeper.new) (K.kept keeper.old) (K.kept keeper.new) (K.under_way keeper.new) }
    ensures later { K.faults keeper.old ≤ K.faults keeper.new }
{
    keeper.rollback();
    Turn::Memory
}

/// Runs to the next operation on tables and does it; where nothing is left but to write the page, it is written at once.
fn to_next_store_call<K: Keeper>(
    alloc: Global,
    code: &Code,
    patterns: &Patterns,
    machine: &mut Machine,
    keeper: &mut K,
    cache: &mut Cache,
    reached: &mut Reached,
) -> Result<Turn, TurnStop>
    requires fits { Fits code.now }
    requires patterns { ArePatternsOf code.now patterns.now }
    requires machine { IsUnderWay code.now machine.old }
    requires under_way { K.under_way keeper.old ≡ true }
    requires kept { K.kept keeper.old ≡ Keeps code.now.schema }
    requires ready { WhereTold (K.current keeper.old) (AreReady code.now.schema machine.old.frames.units) }
    requires saved { AreSavedAnswers code.now (K.saved keeper.old) cache.old }
    requires current { AreCurrentAnswers code.now (K.saved keeper.old) (K.current keeper.old) cache.old }
    ensures ran { Ran (OneStep code.now (sites_of code.now patterns.now) cache.old cache.new (K.reads keeper.old) (K.reads keeper.new) reached.new) code.now machine.old machine.new (K.saved keeper.old) (K.saved keeper.new) (K.current keeper.old) (K.current keeper.new) (K.kept keeper.new) (K.under_way keeper.new) result }
    ensures units { machine.new.frames.units ≤ machine.old.frames.units }
    ensures answers { LeavesAnswers code.now (K.saved keeper.new) (K.current keeper.new) cache.old cache.new result }
    ensures cause { HasCause TurnStop.Keeper (K.faults keeper.old) (K.faults keeper.new) result }
{
    *reached = Reached::Nothing;
    let rest = page_of_rest(alloc, code, machine)?;
    match rest {
        Some(bytes) => {
            let turn = written_page(alloc, code, machine, bytes)?;
            Ok(turn)
        }
        None => run_to_next(alloc, code, patterns, machine, keeper, cache, reached),
    }
}

/// The same by the machine alone.
fn run_to_next<K: Keeper>(
    alloc: Global,
    code: &Code,
    patterns: &Patterns,
    machine: &mut Machine,
    keeper: &mut K,
    cache: &mut Cache,
    reached: &mut Reached,
) -> Result<Turn, TurnStop>
    requires fits { Fits code.now }
    requires patterns { ArePatternsOf code.now patterns.now }
    requires machine { IsUnderWay code.now machine.old }
    requires under_way { K.under_way keeper.old ≡ true }
    requires kept { K.kept keeper.old ≡ Keeps code.now.schema }
    requires ready { WhereTold (K.current keeper.old) (AreReady code.now.schema machine.old.frames.units) }
    requires saved { AreSavedAnswers code.now (K.saved keeper.old) cache.old }
    requires current { AreCurrentAnswers code.now (K.saved keeper.old) (K.current keeper.old) cache.old }
    ensures ran { Ran (OneStep code.now (sites_of code.now patterns.now) cache.old cache.new (K.reads keeper.old) (K.reads keeper.new) reached.new) code.now machine.old machine.new (K.saved keeper.old) (K.saved keeper.new) (K.current keeper.old) (K.current keeper.new) (K.kept keeper.new) (K.under_way keeper.new) result }
    ensures units { machine.new.frames.units ≤ machine.old.frames.units }
    ensures answers { LeavesAnswers code.now (K.saved keeper.new) (K.current keeper.new) cache.old cache.new result }
    ensures cause { HasCause TurnStop.Keeper (K.faults keeper.old) (K.faults keeper.new) result }
{
    *reached = Reached::Nothing;
    let operations = Operators { alloc };
    match machine.advance(alloc, &operations, code) {
        Pause::Page(page) => {
            let turn = page_of(alloc, code, machine, page)?;
            Ok(turn)
        }
        Pause::Failed(body) => Err(TurnStop::Failed(body)),
        Pause::Spent => Err(TurnStop::Spent),
        Pause::Store(op, args) => {
            let mut units = machine.units();
            let value = store_call(
                alloc, code, patterns, keeper, cache, &mut units, reached, op, args,
            )?;
            machine.answer(value, units);
            Ok(Turn::More)
        }
        Pause::Memory => Err(TurnStop::Memory),
    }
}

/// The page, and the cookies that were set.
fn page_of(alloc: Global, code: &Code, machine: &Machine, page: Value) -> Result<Turn, Memory>
    ensures { IfOk result (λ turn. turn ≡ Turn.Page (show code.now.handlers page) (words.sent_pairs code.now.cookies machine.now.frames.sent)) }
{
    let pairs = sent_pairs(alloc, &code.cookies, machine.frames.sent.as_slice())?;
    let bytes = show(alloc, &code.handlers, &page)?;
    Ok(Turn::Page(bytes, pairs))
}

/// The page of these bytes, and the cookies that were set.
fn written_page(alloc: Global, code: &Code, machine: &Machine, bytes: Bytes) -> Result<Turn, Memory>
    ensures { IfOk result (λ turn. turn ≡ Turn.Page bytes (words.sent_pairs code.now.cookies machine.now.frames.sent)) }
{
    let pairs = sent_pairs(alloc, &code.cookies, machine.frames.sent.as_slice())?;
    Ok(Turn::Page(bytes, pairs))
}
