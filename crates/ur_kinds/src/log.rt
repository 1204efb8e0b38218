//! Single events, each put behind the others.
ghost use Rattle.std.specs.Prelude.{◌≡◌, [], ◌∷◌, ◌++◌, map, OnOk, IfOk, slice_get};
ghost use Rattle.ur_syntax.specs.declared.con.ConForm.TheVariants as form;
ghost use Rattle.ur_kinds.specs.Acts.{acts, act_of, open_scope, close_scope, label, type_at, row_at};
ghost use Rattle.ur_kinds.specs.Exps.{in_label, in_con_param, in_use, if_given};

use crate::event::Event;
use std::alloc::Global;
use ur_base::{List, Memory, Span, Text};
use ur_names::Sort;
use ur_syntax::{Con, ConParam, FieldName};

pub fn copy(alloc: Global, x: &Text) -> Result<Text, Memory>
    ensures { IfOk result (λ y. y ≡ x.now) }
{
    List::from_slice(alloc, x.as_slice())
}

pub fn tell<'a>(out: &mut List<Event<'a>>, event: Event<'a>) -> Result<(), Memory>
    ensures { OnOk result (acts out.new ≡ acts out.old ++ act_of event.entry ∷ []) }
{
    out.push(event)?;
    Ok(())
}

pub fn open<'a>(out: &mut List<Event<'a>>) -> Result<(), Memory>
    ensures { OnOk result (acts out.new ≡ acts out.old ++ open_scope ∷ []) }
{
    tell(out, Event::Open)?;
    Ok(())
}

pub fn close<'a>(out: &mut List<Event<'a>>) -> Result<(), Memory>
    ensures { OnOk result (acts out.new ≡ acts out.old ++ close_scope ∷ []) }
{
    tell(out, Event::Close)?;
    Ok(())
}

/// A constructor where a type is wanted.
pub fn typed<'a>(out: &mut List<Event<'a>>, c: &'a Con) -> Result<(), Memory>
    ensures { OnOk result (acts out.new ≡ acts out.old ++ type_at c.now ∷ []) }
{
    tell(out, Event::Type(c))?;
    Ok(())
}

/// A constructor where a row is wanted.
pub fn rowed<'a>(out: &mut List<Event<'a>>, c: &'a Con) -> Result<(), Memory>
    ensures { OnOk result (acts out.new ≡ acts out.old ++ row_at c.now ∷ []) }
{
    tell(out, Event::Row(c))?;
    Ok(())
}

/// A variable that stands as the name of a field.
fn named<'a>(alloc: Global, out: &mut List<Event<'a>>, span: Span, x: &Text) -> Result<(), Memory>
    ensures { OnOk result (acts out.new ≡ acts out.old ++ label span x.now ∷ []) }
{
    let name = copy(alloc, x)?;
    tell(out, Event::Label(span, name))?;
    Ok(())
}

pub fn label<'a>(
    alloc: Global,
    out: &mut List<Event<'a>>,
    span: Span,
    name: &FieldName,
) -> Result<(), Memory>
    ensures { OnOk result (acts out.new ≡ acts out.old ++ in_label span name.now) }
{
    match name {
        FieldName::Literal(_) => Ok(()),
        FieldName::Variable(x) => {
            named(alloc, out, span, x)?;
            Ok(())
        }
    }
}

/// A name that a text uses.
pub fn used<'a>(
    alloc: Global,
    out: &mut List<Event<'a>>,
    sort: Sort,
    span: Span,
    x: &Text,
) -> Result<(), Memory>
    ensures { OnOk result (acts out.new ≡ acts out.old ++ in_use sort span x.now) }
{
    match sort {
        Sort::Con => {
            named(alloc, out, span, x)?;
            Ok(())
        }
        _ => Ok(()),
    }
}

/// A parameter that is a constructor.
pub fn con_param<'a>(
    out: &mut List<Event<'a>>,
    span: Span,
    param: &'a ConParam,
) -> Result<(), Memory>
    ensures { OnOk result (acts out.new ≡ acts out.old ++ in_con_param span param.now) }
{
    match param {
        ConParam::Kinded(x, kind) => {
            tell(out, Event::Plain(span, kind))?;
            tell(out, Event::Variable(x, kind))?;
            Ok(())
        }
        ConParam::Disjoint(c, d) => {
            rowed(out, c)?;
            rowed(out, d)?;
            Ok(())
        }
    }
}

fn copy_event<'a>(alloc: Global, event: &Event<'a>) -> Result<Event<'a>, Memory>
    ensures { IfOk result (λ e. act_of e ≡ act_of event.now) }
{
    match event {
        Event::Open => Ok(Event::Open),
        Event::Close => Ok(Event::Close),
        Event::Enter(m) => Ok(Event::Enter(*m)),
        Event::Variable(x, kind) => Ok(Event::Variable(*x, *kind)),
        Event::Defined(x, kind) => Ok(Event::Defined(*x, *kind)),
        Event::Named(x) => Ok(Event::Named(*x)),
        Event::Local(x) => Ok(Event::Local(*x)),
        Event::Val(x) => Ok(Event::Val(*x)),
        Event::Function(x, params) => Ok(Event::Function(*x, *params)),
        Event::Plain(span, kind) => Ok(Event::Plain(*span, *kind)),
        Event::Label(span, x) => Ok(Event::Label(*span, copy(alloc, x)?)),
        Event::Type(c) => Ok(Event::Type(*c)),
        Event::Row(c) => Ok(Event::Row(*c)),
        Event::Fold(c) => Ok(Event::Fold(*c)),
        Event::Of(c, kind) => Ok(Event::Of(*c, *kind)),
        Event::Argument(f, c) => Ok(Event::Argument(*f, *c)),
    }
}

fn copy_all<'a>(
    alloc: Global,
    out: &mut List<Event<'a>>,
    events: &[Event<'a>],
) -> Result<(), Memory>
    ensures { OnOk result (acts out.new ≡ acts out.old ++ acts events.now) }
{
    for event in events {
        let event = copy_event(alloc, event)?;
        tell(out, event)?;
    }
    Ok(())
}

/// The events with this number, where there are some.
pub fn told<'a>(
    alloc: Global,
    out: &mut List<Event<'a>>,
    all: &[List<Event<'a>>],
    n: u32,
) -> Result<(), Memory>
    ensures { OnOk result (acts out.new ≡ acts out.old ++ if_given (slice_get (map acts all.now) n)) }
{
    let n = n as usize;
    if n < all.len() {
        copy_all(alloc, out, all[n].as_slice())?;
    }
    Ok(())
}
