//! Operations on tables.
ghost use Rattle.std.specs.Prelude.{◌≡◌, true};
ghost use Rattle.ur_base.specs.Counts.{HasCause};
ghost use Rattle.ur_base.specs.Told.{WhereTold};
ghost use Rattle.ur_keeper.specs.Tables.{Keeps};
ghost use Rattle.ur_terms.specs.declared.term.Op.TheVariants as ops;
ghost use Rattle.ur_machine_frames.specs.Plays.{IsLocal};
ghost use Rattle.ur_code.specs.Fits.{Fits};
ghost use Rattle.ur_machine.specs.Answers.{ArePatternsOf, AreSavedAnswers, AreCurrentAnswers, sites_of};
ghost use Rattle.ur_machine.specs.Caching.{LeavesAnswers};
ghost use Rattle.ur_machine.specs.StoreCalls.{OneStep, Takes, StoreCall};
ghost use Rattle.ur_machine.specs.Ready.{AreReady};

use crate::queries::{ask, charge};
use crate::stop::TurnStop;
use crate::turns_calls::draw;
use crate::writes::write;
use crate::{Given, Reached};
use std::alloc::Global;
use ur_base::List;
use ur_cache::Cache;
use ur_code::Code;
use ur_conditions::Patterns;
use ur_keeper::Keeper;
use ur_terms::Op;
use ur_values::Value;

/// Does an operation on tables.
pub(crate) fn store_call<K: Keeper>(
    alloc: Global,
    code: &Code,
    patterns: &Patterns,
    keeper: &mut K,
    cache: &mut Cache,
    units: &mut u32,
    reached: &mut Reached,
    op: &Op,
    args: List<Value>,
) -> Result<Given, TurnStop>
    requires fits { Fits code.now }
    requires patterns { ArePatternsOf code.now patterns.now }
    requires tables { IsLocal op.now → ⊥ }
    requires nothing { reached.old ≡ Reached.Nothing }
    requires takes { Takes code.now op.now args }
    requires under_way { K.under_way keeper.old ≡ true }
    requires kept { K.kept keeper.old ≡ Keeps code.now.schema }
    requires ready { WhereTold (K.current keeper.old) (AreReady code.now.schema units.old) }
    requires saved { AreSavedAnswers code.now (K.saved keeper.old) cache.old }
    requires current { AreCurrentAnswers code.now (K.saved keeper.old) (K.current keeper.old) cache.old }
    ensures store_call { StoreCall (OneStep code.now (sites_of code.now patterns.now) cache.old cache.new (K.reads keeper.old) (K.reads keeper.new) reached.new) code.now op.now args units.old units.new (K.saved keeper.old) (K.saved keeper.new) (K.current keeper.old) (K.current keeper.new) (K.kept keeper.new) (K.under_way keeper.new) result }
    ensures answers { LeavesAnswers code.now (K.saved keeper.new) (K.current keeper.new) cache.old cache.new result }
    ensures cause { HasCause TurnStop.Keeper (K.faults keeper.old) (K.faults keeper.new) result }
{
    match op {
        Op::Ask(how, site) => ask(
            alloc, code, patterns, keeper, cache, units, reached, *how, *site, args,
        ),
        Op::Write(update) => {
            let value = write(
                alloc, code, patterns, keeper, cache, units, reached, *update, args,
            )?;
            Ok(Given::value(value))
        }
        Op::Next(sequence) => next(
            code, patterns, keeper, cache, units, reached, *sequence, args,
        ),
        _ => unreachable!(),
    }
}

/// Draws a sequence's next number, which costs a unit. The code, the patterns, the cache and the arguments are there for
/// the contract.
fn next<K: Keeper>(
    code: &Code,
    patterns: &Patterns,
    keeper: &mut K,
    cache: &mut Cache,
    units: &mut u32,
    reached: &mut Reached,
    sequence: u32,
    args: List<Value>,
) -> Result<Given, TurnStop>
    requires nothing { reached.old ≡ Reached.Nothing }
    requires takes { Takes code.now (ops.Next sequence) args }
    requires under_way { K.under_way keeper.old ≡ true }
    requires kept { K.kept keeper.old ≡ Keeps code.now.schema }
    requires ready { WhereTold (K.current keeper.old) (AreReady code.now.schema units.old) }
    requires saved { AreSavedAnswers code.now (K.saved keeper.old) cache.old }
    requires current { AreCurrentAnswers code.now (K.saved keeper.old) (K.current keeper.old) cache.old }
    ensures store_call { StoreCall (OneStep code.now (sites_of code.now patterns.now) cache.old cache.new (K.reads keeper.old) (K.reads keeper.new) reached.new) code.now (ops.Next sequence) args units.old units.new (K.saved keeper.old) (K.saved keeper.new) (K.current keeper.old) (K.current keeper.new) (K.kept keeper.new) (K.under_way keeper.new) result }
    ensures answers { LeavesAnswers code.now (K.saved keeper.new) (K.current keeper.new) cache.old cache.new result }
    ensures cause { HasCause TurnStop.Keeper (K.faults keeper.old) (K.faults keeper.new) result }
{
    let _ = (code, patterns, &cache, args);
    charge(units, 1)?;
    *reached = Reached::Sequence(sequence);
    let number = draw(keeper, sequence)?;
    Ok(Given::value(Value::Int(number)))
}
