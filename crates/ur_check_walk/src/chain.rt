//! Chains of operators, signs, fields and choices, and what they are made of.
ghost use Rattle.std.specs.Prelude.{◌≡◌, IfOk, IfSome};
ghost use Rattle.std.specs.Option.{option_copied};
ghost use Rattle.ur_base.specs.Stopping.{IfRefused};
ghost use Rattle.ur_check_scopes.specs.Views.{mode_of};
ghost use Rattle.ur_check_walk.specs.Leading.{choice_in, Onward, TellsAsked, TurnsTo, TellsTurn};
ghost use Rattle.ur_check_walk.specs.Promises.{StandsSomewhere, GivesTyped, Tells};

use crate::begun::{Asked, Begun, Choice, TURNS, Way, asked_of, descended, kept};
use crate::closed::{Closed, all_closed};
use crate::walk::{operand, typed};
use std::alloc::Global;
use ur_base::{List, Stop};
use ur_check_rules::{Out, Sites};
use ur_check_scopes::{Around, deeper};
use ur_rows::{NormalType, copy_type};
use ur_syntax::{Exp, ExpForm};

/// The choice that an expression is.
fn choice_of<'a>(e: &'a Exp) -> Option<Choice<'a>>
    ensures { IfSome result (λ c. e.now.form ≡ choice_in c) }
{
    match &e.form {
        ExpForm::If(test, yes, no) => Some(Choice {
            test: test.get(),
            yes: yes.get(),
            no: no.get(),
        }),
        _ => None,
    }
}

/// A condition and the first branch behind it, and what is wanted of the second one.
#[cycle(walk)]
fn chosen<'a>(
    alloc: Global,
    around: &Around,
    sites: &mut Sites,
    begun: &mut List<Begun<'a>>,
    asked: Asked<'a>,
    choice: Choice<'a>,
) -> Result<Asked<'a>, Stop>
    requires { StandsSomewhere around.now }
    ensures typed { IfOk result (λ n. asked.entry.e.now.form ≡ choice_in choice.entry → Onward around.now begun.old begun.new sites.old sites.new asked.entry n) }
    ensures refused { IfRefused result (λ r. asked.entry.e.now.form ≡ choice_in choice.entry → TellsAsked around.now sites.old asked.entry r) }
{
    let inner = deeper(around, 1)?;
    let test = typed(alloc, &inner, sites, choice.test, Some(&NormalType::Bool))?;
    let yes = typed(alloc, &inner, sites, choice.yes, asked.wanted.as_ref())?;
    let of = copy_type(alloc, &yes.of)?;
    kept(begun, asked, Way::Otherwise(test, yes))?;
    Ok(Asked {
        e: choice.no,
        wanted: Some(of),
    })
}

/// What comes behind the expression where the last that is begun stands.
#[cycle(walk)]
fn turn<'a>(
    alloc: Global,
    around: &Around,
    sites: &mut Sites,
    begun: &mut List<Begun<'a>>,
    next: Asked<'a>,
) -> Result<Closed<'a>, Stop>
    requires { StandsSomewhere around.now }
    ensures typed { IfOk result (TurnsTo around.now begun.old begun.new sites.old sites.new next.entry) }
    ensures refused { IfRefused result (TellsTurn around.now begun.old sites.old next.entry) }
{
    match choice_of(next.e) {
        Some(choice) => {
            let last = chosen(alloc, around, sites, begun, next, choice)?;
            Ok(Closed::Part(last))
        }
        None => {
            let out = operand(alloc, around, sites, next.e, next.wanted.as_ref())?;
            let behind = all_closed(alloc, around, begun, out)?;
            Ok(behind)
        }
    }
}

/// An expression with its parts one by one, down to those of other forms.
#[cycle(walk)]
pub fn chain(
    alloc: Global,
    around: &Around,
    sites: &mut Sites,
    e: &Exp,
    wanted: Option<&NormalType>,
) -> Result<Out, Stop>
    requires { StandsSomewhere around.now }
    ensures typed { IfOk result (λ o. GivesTyped around.now sites.old e.now.form (mode_of (option_copied wanted.entry)) o sites.new) }
    ensures refused { IfRefused result (Tells around.now sites.old e.now.form (mode_of (option_copied wanted.entry))) }
{
    let mut begun = List::new(alloc);
    let first = asked_of(alloc, e, wanted)?;
    let mut next = descended(alloc, &mut begun, first)?;
    for _turn in 0..TURNS {
        match turn(alloc, around, sites, &mut begun, next)? {
            Closed::Whole(out) => return Ok(out),
            Closed::Part(part) => next = descended(alloc, &mut begun, part)?,
        }
    }
    Err(Stop::Memory)
}
