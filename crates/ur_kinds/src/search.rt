//! The first constructor that lacks the kind that its place wants.
ghost use Rattle.std.specs.Prelude.{◌≡◌, Some, None, OnOk, IfOk, IsTrue, IsFalse};
ghost use Rattle.std.specs.Option.{option_copied, option_map};
ghost use Rattle.ur_base.specs.Stopping.{IfRefused, Says};
ghost use Rattle.ur_syntax.specs.Kinds.{arrow as arrow_of, is_plain};
ghost use Rattle.ur_syntax.specs.HasKind.{scope_in};
ghost use Rattle.ur_syntax.specs.declared.kind.Kind.TheVariants as kinds;
ghost use Rattle.ur_syntax.specs.declared.con.ConForm.TheVariants as con;
ghost use Rattle.ur_kinds.specs.Texts.{kind_text};
ghost use Rattle.ur_kinds.specs.Acts.{acts, act_of, argument};
ghost use Rattle.ur_kinds.specs.KindedFaults.{AreKinded, FirstFault, IsKinded, Breaks, Fits, Misplaced, kinds_known, behind_first, left_of, wanted_of, start};
ghost use Rattle.ur_kinds.specs.Keys.{key_of, ButNames};

use crate::event::Event;
use crate::log::copy;
use crate::state::{Key, State, seen, step};
use crate::{has_kind, kind_of, kind_text};
use std::alloc::Global;
use ur_base::{Boxed, List, Memory, Refusal, Span, Stop, Text};
use ur_syntax::{Con, ConEnv, ConForm, Exp, ExpForm, Kind};

/// A refusal for an unknown name is none of kinds; any other one is given at this place.
fn but_names(span: Span, stop: Stop) -> Result<(), Stop>
    ensures { ButNames span stop result }
{
    match stop {
        Stop::Memory => Err(Stop::Memory),
        Stop::Refused(refusal) => {
            if refusal.code == 7 {
                return Ok(());
            }
            Err(Stop::Refused(Refusal {
                code: refusal.code,
                span,
                left: refusal.left,
                right: refusal.right,
            }))
        }
    }
}

/// A constructor has this kind.
fn judged(alloc: Global, env: &ConEnv, con: &Con, wanted: &Kind) -> Result<(), Stop>
    ensures kinded { OnOk result (Fits (scope_in env.now) con.now.form (Some wanted.now)) }
    ensures refused { IfRefused result (Misplaced (scope_in env.now) con.now.span con.now.form (Some wanted.now)) }
{
    match has_kind(alloc, env, con, wanted) {
        Ok(_) => Ok(()),
        Err(stop) => but_names(con.span, stop),
    }
}

/// A constructor has a kind.
fn any_kind(alloc: Global, env: &ConEnv, con: &Con) -> Result<(), Stop>
    ensures kinded { OnOk result (Fits (scope_in env.now) con.now.form None) }
    ensures refused { IfRefused result (Misplaced (scope_in env.now) con.now.span con.now.form None) }
{
    match kind_of(alloc, env, con) {
        Ok(_kind) => Ok(()),
        Err(stop) => but_names(con.span, stop),
    }
}

/// The kinds of the constructor parameters that an expression has still to be given, where it is a function's name.
fn left<'a>(state: &'a State, f: &Exp) -> Option<&'a [Kind]>
    ensures { option_copied result ≡ left_of state.now f.now.form }
{
    match &f.form {
        ExpForm::Var(x) => kinds(state, &Key::Own(x)),
        ExpForm::Member(m, x) => kinds(state, &Key::Member(m, x)),
        ExpForm::ConApp(g, _) => behind_first(left(state, g.get())),
        _ => None,
    }
}

fn kinds<'a>(state: &'a State, key: &Key) -> Option<&'a [Kind]>
    ensures { option_copied result ≡ kinds_known (key_of key.now) state.now }
{
    match seen(state, key) {
        Some(kinds) => Some(kinds.as_slice()),
        None => None,
    }
}

fn behind_first<'a>(kinds: Option<&'a [Kind]>) -> Option<&'a [Kind]>
    ensures { option_copied result ≡ option_map behind_first (option_copied kinds.entry) }
{
    match kinds {
        None => None,
        Some(kinds) => match kinds.split_first() {
            Some((_, rest)) => Some(rest),
            None => Some(kinds),
        },
    }
}

/// The kind that is wanted of the next argument of an expression, where one is.
fn wanted<'a>(state: &'a State, f: &Exp) -> Option<&'a Kind>
    ensures { option_copied result ≡ wanted_of state.now f.now.form }
{
    match left(state, f) {
        None => None,
        Some(kinds) => kinds.first(),
    }
}

/// The argument of an expression.
fn argued(alloc: Global, state: &State, f: &Exp, con: &Con) -> Result<(), Stop>
    ensures kinded { OnOk result (IsKinded state.now (argument f.now.form con.now)) }
    ensures refused { IfRefused result (Breaks state.now (argument f.now.form con.now)) }
{
    match wanted(state, f) {
        Some(kind) => judged(alloc, &state.env, con, kind),
        None => any_kind(alloc, &state.env, con),
    }
}

/// A variable that stands as the name of a field.
fn labelled(alloc: Global, env: &ConEnv, span: Span, x: &Text) -> Result<(), Stop>
    ensures kinded { OnOk result (Fits (scope_in env.now) (con.Var x.now) (Some kinds.Name)) }
    ensures refused { IfRefused result (Misplaced (scope_in env.now) span (con.Var x.now) (Some kinds.Name)) }
{
    let name = copy(alloc, x)?;
    let form = ConForm::Var(name);
    judged(alloc, env, &Con { span, form }, &Kind::Name)
}

fn arrow(alloc: Global, k: Kind, j: Kind) -> Result<Kind, Memory>
    ensures { IfOk result (λ a. a ≡ arrow_of k j) }
{
    let k = Boxed::new(alloc, k)?;
    let j = Boxed::new(alloc, j)?;
    Ok(Kind::Arrow(k, j))
}

/// The function of a fold.
fn folded(alloc: Global, env: &ConEnv, con: &Con) -> Result<(), Stop>
    ensures kinded { OnOk result (Fits (scope_in env.now) con.now.form (Some (arrow_of kinds.Row kinds.Star))) }
    ensures refused { IfRefused result (Misplaced (scope_in env.now) con.now.span con.now.form (Some (arrow_of kinds.Row kinds.Star))) }
{
    let wanted = arrow(alloc, Kind::Row, Kind::Star)?;
    judged(alloc, env, con, &wanted)
}

fn is_plain(k: &Kind) -> bool
    ensures { result ≡ is_plain k.now }
{
    match k {
        Kind::Arrow(_, _) => false,
        _ => true,
    }
}

/// A parameter's kind is no arrow.
fn plain(alloc: Global, span: Span, k: &Kind) -> Result<(), Stop>
    ensures kinded { OnOk result (IsTrue (is_plain k.now)) }
    ensures refused { IfRefused result (λ r. IsFalse (is_plain k.now) × Says r 9 (kind_text k.now) (kind_text kinds.Star) × (r.span ≡ span)) }
{
    if is_plain(k) {
        return Ok(());
    }
    let left = kind_text(alloc, k)?;
    let right = kind_text(alloc, &Kind::Star)?;
    Err(Stop::Refused(Refusal {
        code: 9,
        span,
        left,
        right,
    }))
}

/// What is written in an event has its kind, in a scope.
fn check(alloc: Global, state: &State, event: &Event) -> Result<(), Stop>
    ensures kinded { OnOk result (IsKinded state.now (act_of event.now)) }
    ensures refused { IfRefused result (Breaks state.now (act_of event.now)) }
{
    match event {
        Event::Plain(span, kind) => plain(alloc, *span, kind),
        Event::Label(span, x) => labelled(alloc, &state.env, *span, x),
        Event::Type(con) => judged(alloc, &state.env, con, &Kind::Star),
        Event::Row(con) => judged(alloc, &state.env, con, &Kind::Row),
        Event::Fold(con) => folded(alloc, &state.env, con),
        Event::Of(con, kind) => judged(alloc, &state.env, con, kind),
        Event::Argument(f, con) => argued(alloc, state, f, con),
        _ => Ok(()),
    }
}

/// Nothing is in scope.
fn start(alloc: Global) -> State
    ensures { result ≡ start }
{
    let env = ConEnv {
        home: List::new(alloc),
        fields: List::new(alloc),
        entries: List::new(alloc),
    };
    State {
        env,
        values: List::new(alloc),
        frames: List::new(alloc),
    }
}

/// The first event, from nothing in scope, whose constructor lacks its kind.
pub fn find(alloc: Global, events: &[Event]) -> Result<(), Stop>
    ensures kinded { OnOk result (AreKinded start (acts events.now)) }
    ensures refused { IfRefused result (FirstFault start (acts events.now)) }
{
    let mut state = start(alloc);
    for i in 0..events.len() {
        let event = &events[i];
        check(alloc, &state, event)?;
        step(alloc, &mut state, event)?;
    }
    Ok(())
}
