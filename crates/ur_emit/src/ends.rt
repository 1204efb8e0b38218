//! The end of a run as bytes.
ghost use Rattle.std.specs.Prelude.{◌≡◌, IfOk, OnOk, List, reverse, Some};
ghost use Rattle.ur_tags.specs.declared.routes.Handlers.{Handlers};
ghost use Rattle.ur_machine_frames.specs.declared.frame.Frame.TheVariants as frame;
ghost use Rattle.ur_emit.specs.Ends.{EndsAt, Passes};
ghost use Rattle.ur_emit.specs.Slots.{ComesToEach, Stand};

use crate::room::ROOM;
use crate::slots::{Chunk, Halt, Slot};
use crate::terms::{emit_items, written};
use std::alloc::Global;
use ur_base::{List, Memory};
use ur_machine_frames::{Frame, Stack, standing_at};
use ur_tags::Handlers;
use ur_terms::{Function, Term};
use ur_values::Value;

/// The XML of a term for each of these items, where it may be built.
pub fn written_items<'v>(
    body: &Term,
    items: &'v [Value],
    alloc: Global,
    handlers: &Handlers,
    slots: &mut Stack<Slot<'v>>,
) -> Result<Chunk, Halt>
    ensures slots { OnOk result (slots.new ≡ slots.old) }
    ensures comes { IfOk result (ComesToEach handlers.now slots.old body.now items.now) }
{
    let mut bytes = List::new(alloc);
    let mut room = ROOM;
    let nesting = emit_items(body, items, alloc, handlers, slots, &mut bytes, &mut room)?;
    if nesting > 1023 {
        return Err(Halt::Other);
    }
    Ok(Chunk {
        bytes,
        size: ROOM.saturating_sub(room),
        nesting,
    })
}

/// Variables for values, each where it stands, in place of those that were there.
pub fn stand_for<'v>(values: &'v Stack<Value>, slots: &mut Stack<Slot<'v>>) -> Result<(), Memory>
    ensures { OnOk result ((h : Handlers) → Stand h slots.new values.now) }
{
    slots.clear();
    for value in values.as_slice() {
        slots.push(Slot::Value(value))?;
    }
    Ok(())
}

/// What is left of a run whose frames, the nearest last, wait for a value: the page to which it comes, with nothing changed.
pub fn end_of<'v>(
    frames: &'v [Frame],
    functions: &'v List<Function>,
    given: Slot<'v>,
    slots: Stack<Slot<'v>>,
    alloc: Global,
    handlers: &Handlers,
) -> Result<Slot<'v>, Halt>
    ensures { IfOk result (EndsAt handlers.now functions.now (reverse frames.now) slots.entry given.entry) }
{
    let mut left = frames;
    let mut given = given;
    let mut slots = slots;
    while let Some((frame, under)) = left.split_last() {
        let next = passed(frame, under, functions, given, &mut slots, alloc, handlers)?;
        given = next;
        left = under;
    }
    Ok(given)
}

/// What the nearest frame makes of a value for the frames under it, and their variables.
fn passed<'v>(
    frame: &'v Frame,
    under: &'v [Frame],
    functions: &'v List<Function>,
    given: Slot<'v>,
    slots: &mut Stack<Slot<'v>>,
    alloc: Global,
    handlers: &Handlers,
) -> Result<Slot<'v>, Halt>
    ensures { IfOk result (Passes handlers.now functions.now frame.now (reverse under.now) slots.old slots.new given.entry) }
{
    match frame {
        Frame::Body { caller, .. } => {
            stand_for(caller, slots)?;
            Ok(given)
        }
        Frame::LetBody(bound) => {
            slots.drop_nearest(*bound);
            Ok(given)
        }
        Frame::Side(_) => Ok(given),
        Frame::Branch { bound, .. } => {
            slots.drop_nearest(*bound);
            Ok(given)
        }
        Frame::Rows => rows_written(under, functions, given, slots, alloc, handlers),
        Frame::Args(done) => let_written(under, done, functions, given, slots, alloc, handlers),
        _ => Err(Halt::Other),
    }
}

/// The XML of a body for the rows that are given.
fn rows_written<'v>(
    under: &'v [Frame],
    functions: &'v List<Function>,
    given: Slot<'v>,
    slots: &mut Stack<Slot<'v>>,
    alloc: Global,
    handlers: &Handlers,
) -> Result<Slot<'v>, Halt>
    ensures { IfOk result (Passes handlers.now functions.now frame.Rows (reverse under.now) slots.old slots.new given.entry) }
{
    match standing_at(functions, under) {
        Some(place) => match place {
            Term::Each(_, body) => match given {
                Slot::Value(value) => match value {
                    Value::Many(items) => {
                        let chunk = written_items(
                            body.get(),
                            items.as_slice(),
                            alloc,
                            handlers,
                            slots,
                        )?;
                        Ok(Slot::Chunk(chunk))
                    }
                    _ => Err(Halt::Other),
                },
                Slot::Rows(items) => {
                    let chunk = written_items(body.get(), items, alloc, handlers, slots)?;
                    Ok(Slot::Chunk(chunk))
                }
                Slot::Chunk(_) => Err(Halt::Other),
            },
            _ => Err(Halt::Other),
        },
        None => Err(Halt::Other),
    }
}

/// The XML of the body of a `let` whose last value is given.
fn let_written<'v>(
    under: &'v [Frame],
    done: &'v List<Value>,
    functions: &'v List<Function>,
    given: Slot<'v>,
    slots: &mut Stack<Slot<'v>>,
    alloc: Global,
    handlers: &Handlers,
) -> Result<Slot<'v>, Halt>
    ensures { IfOk result (Passes handlers.now functions.now (frame.Args done.now) (reverse under.now) slots.old slots.new given.entry) }
{
    match standing_at(functions, under) {
        Some(place) => match place {
            Term::Let(args, body) => {
                if done.len() > 0 {
                    return Err(Halt::Other);
                }
                if args.len() != 1 {
                    return Err(Halt::Other);
                }
                slots.push(given)?;
                let chunk = written(body.get(), alloc, handlers, slots)?;
                slots.drop_nearest(1);
                Ok(Slot::Chunk(chunk))
            }
            _ => Err(Halt::Other),
        },
        None => Err(Halt::Other),
    }
}
