//! Single events, each put behind the others.
ghost use Rattle.std.specs.Prelude.{◌≡◌, [], ◌∷◌, ◌++◌, OnOk, IfOk, slice_get};
ghost use Rattle.ur_names.specs.Exps.{if_given};
ghost use Rattle.ur_names.specs.declared.event.Event.TheVariants as event;
ghost use Rattle.ur_names.specs.Skeletons.{in_name};

use crate::event::{Event, Sort};
use std::alloc::Global;
use ur_base::{List, Memory, Span, Text};
use ur_syntax::DeclName;

pub fn copy(alloc: Global, x: &Text) -> Result<Text, Memory>
    ensures { IfOk result (λ y. y ≡ x.now) }
{
    List::from_slice(alloc, x.as_slice())
}

pub fn own(
    alloc: Global,
    out: &mut List<Event>,
    sort: Sort,
    span: Span,
    x: &Text,
) -> Result<(), Memory>
    ensures { OnOk result (out.new ≡ out.old ++ event.Own sort span x.now ∷ []) }
{
    let name = copy(alloc, x)?;
    out.push(Event::Own(sort, span, name))?;
    Ok(())
}

pub fn member(
    alloc: Global,
    out: &mut List<Event>,
    sort: Sort,
    span: Span,
    m: &Text,
    x: &Text,
) -> Result<(), Memory>
    ensures { OnOk result (out.new ≡ out.old ++ event.Member sort span m.now x.now ∷ []) }
{
    let home = copy(alloc, m)?;
    let name = copy(alloc, x)?;
    out.push(Event::Member(sort, span, home, name))?;
    Ok(())
}

/// The use of a sequence or a cookie.
pub fn declared(
    alloc: Global,
    out: &mut List<Event>,
    sort: Sort,
    x: &DeclName,
) -> Result<(), Memory>
    ensures { OnOk result (out.new ≡ out.old ++ in_name sort x.now ∷ []) }
{
    match &x.module {
        None => {
            own(alloc, out, sort, x.span, &x.name)?;
            Ok(())
        }
        Some(m) => {
            member(alloc, out, sort, x.span, m, &x.name)?;
            Ok(())
        }
    }
}

pub fn given(
    alloc: Global,
    out: &mut List<Event>,
    sort: Sort,
    span: Span,
    x: &Text,
) -> Result<(), Memory>
    ensures { OnOk result (out.new ≡ out.old ++ event.New sort span x.now ∷ []) }
{
    let name = copy(alloc, x)?;
    out.push(Event::New(sort, span, name))?;
    Ok(())
}

pub fn bind(alloc: Global, out: &mut List<Event>, sort: Sort, x: &Text) -> Result<(), Memory>
    ensures { OnOk result (out.new ≡ out.old ++ event.Bind sort x.now ∷ []) }
{
    let name = copy(alloc, x)?;
    out.push(Event::Bind(sort, name))?;
    Ok(())
}

pub fn declare(alloc: Global, out: &mut List<Event>, sort: Sort, x: &Text) -> Result<(), Memory>
    ensures { OnOk result (out.new ≡ out.old ++ event.Declare sort x.now ∷ []) }
{
    let name = copy(alloc, x)?;
    out.push(Event::Declare(sort, name))?;
    Ok(())
}

pub fn enter(alloc: Global, out: &mut List<Event>, m: &Text) -> Result<(), Memory>
    ensures { OnOk result (out.new ≡ out.old ++ event.Enter m.now ∷ []) }
{
    let name = copy(alloc, m)?;
    out.push(Event::Enter(name))?;
    Ok(())
}

pub fn open(out: &mut List<Event>) -> Result<(), Memory>
    ensures { OnOk result (out.new ≡ out.old ++ event.Open ∷ []) }
{
    out.push(Event::Open)?;
    Ok(())
}

pub fn close(out: &mut List<Event>) -> Result<(), Memory>
    ensures { OnOk result (out.new ≡ out.old ++ event.Close ∷ []) }
{
    out.push(Event::Close)?;
    Ok(())
}

fn copy_event(alloc: Global, event: &Event) -> Result<Event, Memory>
    ensures { IfOk result (λ e. e ≡ event.now) }
{
    match event {
        Event::Own(sort, span, x) => Ok(Event::Own(*sort, *span, copy(alloc, x)?)),
        Event::Member(sort, span, m, x) => {
            let home = copy(alloc, m)?;
            Ok(Event::Member(*sort, *span, home, copy(alloc, x)?))
        }
        Event::Map(span) => Ok(Event::Map(*span)),
        Event::Form(span) => Ok(Event::Form(*span)),
        Event::New(sort, span, x) => Ok(Event::New(*sort, *span, copy(alloc, x)?)),
        Event::Bind(sort, x) => Ok(Event::Bind(*sort, copy(alloc, x)?)),
        Event::Declare(sort, x) => Ok(Event::Declare(*sort, copy(alloc, x)?)),
        Event::Open => Ok(Event::Open),
        Event::Close => Ok(Event::Close),
        Event::Enter(m) => Ok(Event::Enter(copy(alloc, m)?)),
    }
}

fn copy_all(alloc: Global, out: &mut List<Event>, events: &[Event]) -> Result<(), Memory>
    ensures { OnOk result (out.new ≡ out.old ++ events.now) }
{
    for event in events {
        let event = copy_event(alloc, event)?;
        out.push(event)?;
    }
    Ok(())
}

/// The events with this number, where there are some.
pub fn told(alloc: Global, out: &mut List<Event>, all: &[List<Event>], n: u32) -> Result<(), Memory>
    ensures { OnOk result (out.new ≡ out.old ++ if_given (slice_get all.now n)) }
{
    let n = n as usize;
    if n < all.len() {
        copy_all(alloc, out, all[n].as_slice())?;
    }
    Ok(())
}
