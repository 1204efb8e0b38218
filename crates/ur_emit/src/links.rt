//! The calls of links and buttons, and the fields of forms.
ghost use Rattle.std.specs.Prelude.{◌≡◌, ◌+◌, ◌++◌, [], IfOk, IfSome, IsTrue, OnOk};
ghost use Rattle.ur_values.specs.declared.value.Value.TheVariants as v;
ghost use Rattle.ur_values.specs.Size.{optional_text_size};
ghost use Rattle.ur_terms.specs.declared.term.Op.TheVariants as op;
ghost use Rattle.ur_terms.specs.declared.term.Term.TheVariants as term;
ghost use Rattle.ur_tags.specs.Paths.{argument_path};
ghost use Rattle.ur_emit.specs.Slots.{Emits, Finds, ReadsText, WritesArgument, WritesArguments, WritesCall};

use crate::fields::value_at;
use crate::room::take;
use crate::slots::{Halt, Slot};
use std::alloc::Global;
use ur_base::{Bytes, List, Name, Text};
use ur_machine_frames::Stack;
use ur_tags::{
    Handlers, push_argument, push_attribute, push_attribute_if_any, push_field, push_open,
    push_route,
};
use ur_terms::{Op, Term};
use ur_values::{FieldKind, Value};

/// Adds ` name="path"` of the call whose arguments are the first so many of these.
pub(crate) fn push_call<'v>(
    args: &[Term],
    name: &[u8],
    route: u32,
    count: usize,
    alloc: Global,
    handlers: &Handlers,
    slots: &Stack<Slot<'v>>,
    out: &mut Bytes,
) -> Result<(), Halt>
    ensures { OnOk result (WritesCall handlers.now slots.now name.now route count args.now out.old out.new) }
{
    if args.len() < count {
        return Err(Halt::Other);
    }
    out.push(b' ')?;
    out.extend_from_slice(name)?;
    out.extend_from_slice(b"=\"")?;
    push_route(out, handlers, route)?;
    push_arguments(&args[..count], alloc, slots, out)?;
    out.push(b'"')?;
    Ok(())
}

/// Adds arguments of a call.
fn push_arguments<'v>(
    args: &[Term],
    alloc: Global,
    slots: &Stack<Slot<'v>>,
    out: &mut Bytes,
) -> Result<(), Halt>
    ensures { OnOk result (WritesArguments slots.now args.now out.old out.new) }
{
    for arg in args {
        push_one(arg, alloc, slots, out)?;
    }
    Ok(())
}

/// Adds an argument of a call.
fn push_one<'v>(
    arg: &Term,
    alloc: Global,
    slots: &Stack<Slot<'v>>,
    out: &mut Bytes,
) -> Result<(), Halt>
    ensures { OnOk result (WritesArgument slots.now arg.now out.old out.new) }
{
    match arg {
        Term::Int(number) => push_value(alloc, out, Value::Int(*number)),
        Term::Bool(truth) => push_value(alloc, out, Value::Bool(*truth)),
        Term::Str(text) => push_copy(alloc, out, text.as_slice()),
        Term::Make(made, parts) => {
            if is_unit(made, parts) {
                Ok(())
            } else {
                push_found(arg, alloc, slots, out)
            }
        }
        _ => push_found(arg, alloc, slots, out),
    }
}

/// Whether this makes the record without fields.
fn is_unit(made: &Op, parts: &List<Term>) -> bool
    ensures { IsTrue result → (made.now ≡ op.Record []) × (parts.now ≡ []) }
{
    match made {
        Op::Record(names) => {
            if names.is_empty() {
                parts.is_empty()
            } else {
                false
            }
        }
        _ => false,
    }
}

/// Adds an argument that stands in a variable or in a field of one.
fn push_found<'v>(
    arg: &Term,
    alloc: Global,
    slots: &Stack<Slot<'v>>,
    out: &mut Bytes,
) -> Result<(), Halt>
    ensures { OnOk result (WritesArgument slots.now arg.now out.old out.new) }
{
    match value_at(arg, slots) {
        Some(value) => {
            push_argument(alloc, out, value)?;
            Ok(())
        }
        None => Err(Halt::Other),
    }
}

/// Adds a text.
fn push_copy(alloc: Global, out: &mut Bytes, text: &[u8]) -> Result<(), Halt>
    ensures { OnOk result (out.new ≡ out.old ++ argument_path (v.Str text.now)) }
{
    let copy = List::from_slice(alloc, text)?;
    push_value(alloc, out, Value::Str(copy))
}

fn push_value(alloc: Global, out: &mut Bytes, value: Value) -> Result<(), Halt>
    ensures { OnOk result (out.new ≡ out.old ++ argument_path value) }
{
    push_argument(alloc, out, &value)?;
    Ok(())
}

/// Adds a form's field, with the value that stands in its argument.
pub(crate) fn emit_input<'v>(
    args: &[Term],
    kind: FieldKind,
    name: Name,
    text: &Text,
    alloc: Global,
    handlers: &Handlers,
    slots: &Stack<Slot<'v>>,
    out: &mut Bytes,
    room: &mut u64,
) -> Result<u32, Halt>
    ensures { IfOk result (Emits handlers.now slots.now (term.Make (op.Input kind name text.now) args.now) out.old out.new room.old room.new) }
{
    let _ = name;
    let _ = handlers;
    let value = text_of(args, alloc, slots)?;
    take(room, 64)?;
    take(room, text.len() as u64)?;
    take_text(room, &value)?;
    push_field(out, kind, text.as_slice(), &value)?;
    Ok(2)
}

/// Takes the room of a text that may be there.
fn take_text(room: &mut u64, text: &Option<Text>) -> Result<(), Halt>
    ensures { OnOk result (optional_text_size text.now + room.new ≡ room.old) }
{
    match text {
        Some(text) => {
            take(room, 32)?;
            take(room, text.len() as u64)
        }
        None => Ok(()),
    }
}

/// Adds a button that sends its form: its first arguments are those of the call, and its label may follow.
pub(crate) fn emit_submit<'v>(
    args: &[Term],
    route: u32,
    count: usize,
    unit: bool,
    alloc: Global,
    handlers: &Handlers,
    slots: &Stack<Slot<'v>>,
    out: &mut Bytes,
    room: &mut u64,
) -> Result<u32, Halt>
    ensures { IfOk result (Emits handlers.now slots.now (term.Make (op.Submit route count unit) args.now) out.old out.new room.old room.new) }
{
    let _ = unit;
    if args.len() < count {
        return Err(Halt::Other);
    }
    let label = text_of(&args[count..], alloc, slots)?;
    take(room, 32)?;
    take_text(room, &label)?;
    push_open(out, b"input")?;
    push_attribute(out, b"type", b"submit")?;
    push_call(
        args,
        b"formaction",
        route,
        count,
        alloc,
        handlers,
        slots,
        out,
    )?;
    push_attribute_if_any(out, b"value", &label)?;
    out.extend_from_slice(b"/>")?;
    Ok(2)
}

/// The text of the one argument, or none where there is none.
fn text_of<'v>(args: &[Term], alloc: Global, slots: &Stack<Slot<'v>>) -> Result<Option<Text>, Halt>
    ensures { IfOk result (ReadsText slots.now args.now) }
{
    match args {
        [] => Ok(None),
        [arg] => match text_at(arg, slots) {
            Some(text) => {
                let copy = List::from_slice(alloc, text)?;
                Ok(Some(copy))
            }
            None => Err(Halt::Other),
        },
        _ => Err(Halt::Other),
    }
}

/// The text that a term is, or that stands there.
fn text_at<'s, 'v: 's>(arg: &'s Term, slots: &Stack<Slot<'v>>) -> Option<&'s [u8]>
    ensures { IfSome result (λ text. Finds slots.now arg.now (v.Str text.now)) }
{
    match arg {
        Term::Str(text) => Some(text.as_slice()),
        _ => match value_at(arg, slots) {
            Some(value) => match value {
                Value::Str(text) => Some(text.as_slice()),
                _ => None,
            },
            None => None,
        },
    }
}
