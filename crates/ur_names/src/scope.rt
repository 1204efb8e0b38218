//! The names in scope, and those that were given in it.
ghost use Rattle.std.specs.Prelude.{◌≡◌, [], OnOk, IfOk, IsTrue, Some, None, bytes_eq};
ghost use Rattle.ur_base.specs.Codes.{is_refusal_code};
ghost use Rattle.ur_base.specs.Stopping.{Says};
ghost use Rattle.ur_syntax.specs.Names.{name_text};
ghost use Rattle.std.specs.List.{list_any};
ghost use Rattle.ur_names.specs.declared.event.Event.TheVariants as event;
ghost use Rattle.ur_names.specs.Faults.{is_local, is_member, has_own, knows_own, knows_member, is_given, is_known_word, is_type_word, last_frame, given_before, after, key, form_fault, fault_at, fault_in, Told, start};

use crate::keys::{Key, Keys, cut};
use crate::spots::{local_spot, member_spot};
use crate::{Event, Sort};
use std::alloc::Global;
use ur_base::{List, Memory, Refusal, Span, Stop, Text};

/// How many names were bound and given where a scope begins.
#[derive(Clone, Copy)]
pub struct Frame {
    pub bound: usize,
    pub given: usize,
}

/// The module, the names that stand for something, those that were given in the open scopes, and these scopes.
#[derive(Drop)]
pub struct Scope {
    pub home: Text,
    pub bound: Keys,
    pub given: Keys,
    pub frames: List<Frame>,
}

fn copy(alloc: Global, x: &Text) -> Result<Text, Memory>
    ensures { IfOk result (λ y. y ≡ x.now) }
{
    List::from_slice(alloc, x.as_slice())
}

fn is(x: &[u8], word: &[u8]) -> bool
    ensures { result ≡ bytes_eq x.now word.now }
{
    x == word
}

fn is_type_word(x: &[u8]) -> bool
    ensures { result ≡ is_type_word x.now }
{
    is(x, b"int")
        || is(x, b"string")
        || is(x, b"bool")
        || is(x, b"unit")
        || is(x, b"page")
        || is(x, b"xbody")
        || is(x, b"xtable")
        || is(x, b"xtr")
        || is(x, b"xform")
        || is(x, b"option")
        || is(x, b"list")
        || is(x, b"transaction")
}

fn is_known_word(sort: Sort, x: &[u8]) -> bool
    ensures { result ≡ is_known_word sort x.now }
{
    match sort {
        Sort::Con => is_type_word(x),
        _ => false,
    }
}

fn local(alloc: Global, sort: Sort, x: &[u8]) -> Result<Key, Memory>
    ensures { IfOk result (λ k. k ≡ key sort None x.now) }
{
    let name = List::from_slice(alloc, x)?;
    Ok(Key {
        sort,
        home: None,
        name,
    })
}

fn member(alloc: Global, sort: Sort, m: &[u8], x: &[u8]) -> Result<Key, Memory>
    ensures { IfOk result (λ k. k ≡ key sort (Some m.now) x.now) }
{
    let home = List::from_slice(alloc, m)?;
    let name = List::from_slice(alloc, x)?;
    Ok(Key {
        sort,
        home: Some(home),
        name,
    })
}

/// Whether a local name stands among the keys.
#[tactic(auto, using(crate::proofs::Same::local_among))]
fn has_local(alloc: Global, keys: &Keys, sort: Sort, x: &[u8]) -> Result<bool, Memory>
    ensures { IfOk result (λ b. b ≡ list_any (is_local sort x.now) keys.now) }
{
    let spot = local_spot(alloc, sort, x)?;
    let found = keys.holds(&spot);
    Ok(found)
}

/// Whether a name that a module declared stands among the keys.
#[tactic(auto, using(crate::proofs::Same::member_among))]
fn has_member(alloc: Global, keys: &Keys, sort: Sort, m: &[u8], x: &[u8]) -> Result<bool, Memory>
    ensures { IfOk result (λ b. b ≡ list_any (is_member sort m.now x.now) keys.now) }
{
    let spot = member_spot(alloc, sort, m, x)?;
    let found = keys.holds(&spot);
    Ok(found)
}

fn has_own(alloc: Global, scope: &Scope, sort: Sort, x: &[u8]) -> Result<bool, Memory>
    ensures { IfOk result (λ b. b ≡ has_own scope.now sort x.now) }
{
    if has_local(alloc, &scope.bound, sort, x)? {
        return Ok(true);
    }
    let found = has_member(alloc, &scope.bound, sort, scope.home.as_slice(), x)?;
    Ok(found)
}

fn knows_own(alloc: Global, scope: &Scope, sort: Sort, x: &[u8]) -> Result<bool, Memory>
    ensures { IfOk result (λ b. b ≡ knows_own scope.now sort x.now) }
{
    if has_own(alloc, scope, sort, x)? {
        return Ok(true);
    }
    Ok(is_known_word(sort, x))
}

fn knows_member(
    alloc: Global,
    scope: &Scope,
    sort: Sort,
    m: &[u8],
    x: &[u8],
) -> Result<bool, Memory>
    ensures { IfOk result (λ b. b ≡ knows_member scope.now sort m.now x.now) }
{
    if m == scope.home.as_slice() {
        return Ok(false);
    }
    let found = has_member(alloc, &scope.bound, sort, m, x)?;
    Ok(found)
}

#[tactic(auto, using(crate::proofs::Same::local_among))]
fn is_given(alloc: Global, scope: &Scope, sort: Sort, x: &[u8]) -> Result<bool, Memory>
    ensures { IfOk result (λ b. b ≡ is_given scope.now sort x.now) }
{
    let from = given_before(scope.frames.as_slice());
    let spot = local_spot(alloc, sort, x)?;
    let given = scope.given.holds_behind(&spot, from);
    Ok(given)
}

fn given_before(frames: &[Frame]) -> usize
    ensures { result ≡ given_before (last_frame frames.now) }
{
    match frames.split_last() {
        Some((frame, _)) => frame.given,
        None => 0,
    }
}

fn refusal(alloc: Global, code: u8, span: Span, x: &Text) -> Result<Refusal, Memory>
    requires { IsTrue (is_refusal_code code) }
    ensures { IfOk result (λ r. Says r code x.now [] × (r.span ≡ span)) }
{
    let left = copy(alloc, x)?;
    Ok(Refusal {
        code,
        span,
        left,
        right: List::new(alloc),
    })
}

fn member_text(alloc: Global, m: &Text, x: &Text) -> Result<Text, Memory>
    ensures { IfOk result (λ t. t ≡ name_text (Some m.now) x.now) }
{
    let mut text = copy(alloc, m)?;
    text.extend_from_slice(b".")?;
    text.extend_from_slice(x.as_slice())?;
    Ok(text)
}

/// The fault of `xml form []`.
fn check_form(alloc: Global, span: Span, xml: bool, form: bool) -> Result<(), Stop>
    ensures { Told result (form_fault span xml form) }
{
    if xml {
        if form {
            return Ok(());
        }
        let word = List::from_slice(alloc, b"form")?;
        return Err(Stop::Refused(refusal(alloc, 7, span, &word)?));
    }
    if form {
        let word = List::from_slice(alloc, b"xml")?;
        return Err(Stop::Refused(refusal(alloc, 7, span, &word)?));
    }
    Ok(())
}

/// The fault that an event is, where it is one.
pub fn check(alloc: Global, scope: &Scope, event: &Event) -> Result<(), Stop>
    ensures { Told result (fault_at scope.now event.now) }
{
    match event {
        Event::Own(sort, span, x) => {
            if knows_own(alloc, scope, *sort, x.as_slice())? {
                return Ok(());
            }
            Err(Stop::Refused(refusal(alloc, 7, *span, x)?))
        }
        Event::Member(sort, span, m, x) => {
            if knows_member(alloc, scope, *sort, m.as_slice(), x.as_slice())? {
                return Ok(());
            }
            let text = member_text(alloc, m, x)?;
            Err(Stop::Refused(refusal(alloc, 7, *span, &text)?))
        }
        Event::Form(span) => {
            let xml = has_own(alloc, scope, Sort::Con, b"xml")?;
            let form = has_own(alloc, scope, Sort::Con, b"form")?;
            check_form(alloc, *span, xml, form)
        }
        Event::New(sort, span, x) => {
            if is_given(alloc, scope, *sort, x.as_slice())? {
                return Err(Stop::Refused(refusal(alloc, 8, *span, x)?));
            }
            Ok(())
        }
        _ => Ok(()),
    }
}

fn close(scope: &mut Scope)
    ensures { scope.new ≡ after scope.old event.Close }
{
    match scope.frames.pop() {
        Some(frame) => {
            cut(&mut scope.bound, frame.bound);
            cut(&mut scope.given, frame.given);
        }
        None => {}
    }
}

/// The scope behind an event.
pub fn step(alloc: Global, scope: &mut Scope, event: &Event) -> Result<(), Memory>
    ensures { OnOk result (scope.new ≡ after scope.old event.now) }
{
    match event {
        Event::New(sort, _, x) => {
            let key = local(alloc, *sort, x.as_slice())?;
            scope.given.push(key)?;
            Ok(())
        }
        Event::Bind(sort, x) => {
            let key = local(alloc, *sort, x.as_slice())?;
            scope.bound.push(key)?;
            Ok(())
        }
        Event::Declare(sort, x) => {
            let key = member(alloc, *sort, scope.home.as_slice(), x.as_slice())?;
            scope.bound.push(key)?;
            Ok(())
        }
        Event::Open => {
            let bound = scope.bound.len();
            let given = scope.given.len();
            scope.frames.push(Frame { bound, given })?;
            Ok(())
        }
        Event::Close => {
            close(scope);
            Ok(())
        }
        Event::Enter(m) => {
            scope.home = copy(alloc, m)?;
            scope.given = Keys::new(alloc);
            scope.frames = List::new(alloc);
            Ok(())
        }
        _ => Ok(()),
    }
}

/// The first fault of events, from nothing in scope.
pub fn find(alloc: Global, events: &[Event]) -> Result<(), Stop>
    ensures { Told result (fault_in start events.now) }
{
    let mut scope = Scope {
        home: List::new(alloc),
        bound: Keys::new(alloc),
        given: Keys::new(alloc),
        frames: List::new(alloc),
    };
    for i in 0..events.len() {
        let event = &events[i];
        check(alloc, &scope, event)?;
        step(alloc, &mut scope, event)?;
    }
    Ok(())
}
