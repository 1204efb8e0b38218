//! XML of plain terms as bytes.
ghost use Rattle.std.specs.Prelude.{◌≡◌, ◌≤◌, ◌++◌, ◌∷◌, [], List, drop, IfOk, OnOk, Some, ℕ, true, false};
ghost use Rattle.ur_values.specs.declared.value.Node.{Node};
ghost use Rattle.ur_values.specs.declared.types.ValueType.{ValueType};
ghost use Rattle.ur_values.specs.declared.value.Value.TheVariants as v;
ghost use Rattle.ur_values.specs.declared.value.Node.TheVariants as node;
ghost use Rattle.ur_terms.specs.declared.term.Op.TheVariants as op;
ghost use Rattle.ur_terms.specs.declared.term.Term.TheVariants as term;
ghost use Rattle.ur_terms.specs.Values.{shown};
ghost use Rattle.ur_emit.specs.Slots.{Adds, Binds, ComesTo, ComesToSlot, Emits, EmitAll, EmitEach, EmitsCase, Finds};

use crate::binding::bind;
use crate::fields::{items_at, truth_at, value_at};
use crate::links::{emit_input, emit_submit, push_call};
use crate::room::{ROOM, deeper, take};
use crate::slots::{Chunk, Halt, Slot};
use std::alloc::Global;
use ur_base::{Bytes, List, Memory, Text};
use ur_machine_frames::Stack;
use ur_tags::{
    Handlers, is_void, push_close, push_nodes, push_open, push_tag_attributes, push_text, tag_word,
};
use ur_terms::{Branch, Op, Term};
use ur_values::{Tag, Value};

/// Adds a text.
fn emit_text(handlers: &Handlers, text: &[u8], out: &mut Bytes, room: &mut u64) -> Result<u32, Halt>
    ensures { IfOk result (Adds handlers.now (node.Text text.now ∷ []) out.old out.new room.old room.new) }
{
    let _ = handlers;
    take(room, 64)?;
    take(room, text.len() as u64)?;
    push_text(out, text)?;
    Ok(2)
}

/// Adds what a value is shown as.
fn emit_value(
    alloc: Global,
    handlers: &Handlers,
    value: &Value,
    out: &mut Bytes,
    room: &mut u64,
) -> Result<u32, Halt>
    ensures { IfOk result (λ deep. (text : List ℕ) × (shown value.now ≡ Some text) × Adds handlers.now (node.Text text ∷ []) out.old out.new room.old room.new deep) }
{
    match value {
        Value::Int(number) => {
            let text = decimal(alloc, *number)?;
            let deep = emit_text(handlers, text.as_slice(), out, room)?;
            Ok(deep)
        }
        Value::Bool(truth) => {
            let deep = emit_text(handlers, bool_text(*truth), out, room)?;
            Ok(deep)
        }
        Value::Str(text) => {
            let deep = emit_text(handlers, text.as_slice(), out, room)?;
            Ok(deep)
        }
        _ => Err(Halt::Other),
    }
}

fn bool_text(truth: bool) -> &'static [u8]
    ensures { shown (v.Bool truth) ≡ Some result.now }
{
    if truth { b"True" } else { b"False" }
}

fn decimal(alloc: Global, number: i64) -> Result<Text, Memory>
    ensures { IfOk result (λ text. shown (v.Int number) ≡ Some text) }
{
    let text = format!(in alloc; "{number}")?;
    Ok(List::from_vec(text.into_bytes()))
}

/// Adds the XML of a plain term.
#[cycle(emit)]
pub fn emit<'v>(
    term: &Term,
    alloc: Global,
    handlers: &Handlers,
    slots: &mut Stack<Slot<'v>>,
    out: &mut Bytes,
    room: &mut u64,
) -> Result<u32, Halt>
    ensures slots { OnOk result (slots.new ≡ slots.old) }
    ensures emits { IfOk result (Emits handlers.now slots.old term.now out.old out.new room.old room.new) }
{
    match term {
        Term::Variable(number) => emit_variable(*number, alloc, handlers, slots, out, room),
        Term::Make(op, args) => emit_make(args.as_slice(), op, alloc, handlers, slots, out, room),
        Term::If(condition, yes, no) => match truth_at(condition.get(), slots) {
            Some(truth) => {
                if truth {
                    emit(yes.get(), alloc, handlers, slots, out, room)
                } else {
                    emit(no.get(), alloc, handlers, slots, out, room)
                }
            }
            None => Err(Halt::Other),
        },
        Term::Each(rows, body) => match items_at(rows.get(), slots) {
            Some(items) => emit_items(body.get(), items, alloc, handlers, slots, out, room),
            None => Err(Halt::Other),
        },
        Term::Case(subject, branches) => match value_at(subject.get(), slots) {
            Some(value) => {
                emit_case(
                    branches.as_slice(),
                    value,
                    alloc,
                    handlers,
                    slots,
                    out,
                    room,
                )
            }
            None => Err(Halt::Other),
        },
        Term::Let(args, body) => {
            bind_one(args.as_slice(), alloc, handlers, slots)?;
            let deep = emit(body.get(), alloc, handlers, slots, out, room)?;
            slots.drop_nearest(1);
            Ok(deep)
        }
        _ => Err(Halt::Other),
    }
}

/// Adds the XML of the first branch that matches.
#[cycle(emit)]
fn emit_case<'v>(
    branches: &[Branch],
    value: &'v Value,
    alloc: Global,
    handlers: &Handlers,
    slots: &mut Stack<Slot<'v>>,
    out: &mut Bytes,
    room: &mut u64,
) -> Result<u32, Halt>
    ensures slots { OnOk result (slots.new ≡ slots.old) }
    ensures emits { IfOk result (EmitsCase handlers.now slots.old branches.now value.now out.old out.new room.old room.new) }
{
    for branch in branches {
        let bound = bind(&branch.pattern, value, slots)?;
        if let Some(count) = bound {
            let deep = emit(&branch.body, alloc, handlers, slots, out, room)?;
            slots.drop_nearest(count);
            return Ok(deep);
        }
    }
    Err(Halt::Other)
}

/// Puts what the one value of a `let` comes to on top of the variables: a value where it stands, or XML that is written.
#[cycle(emit)]
fn bind_one<'v>(
    args: &[Term],
    alloc: Global,
    handlers: &Handlers,
    slots: &mut Stack<Slot<'v>>,
) -> Result<(), Halt>
    ensures { OnOk result (Binds handlers.now slots.old args.now slots.new) }
{
    match args {
        [arg] => {
            let slot = slot_of(arg, alloc, handlers, slots)?;
            slots.push(slot)?;
            Ok(())
        }
        _ => Err(Halt::Other),
    }
}

/// What a term comes to: a value where it stands, or XML that is written.
#[cycle(emit)]
fn slot_of<'v>(
    term: &Term,
    alloc: Global,
    handlers: &Handlers,
    slots: &mut Stack<Slot<'v>>,
) -> Result<Slot<'v>, Halt>
    ensures slots { OnOk result (slots.new ≡ slots.old) }
    ensures comes { IfOk result (ComesToSlot handlers.now slots.old term.now) }
{
    match value_at(term, slots) {
        Some(value) => Ok(Slot::Value(value)),
        None => {
            let chunk = written(term, alloc, handlers, slots)?;
            Ok(Slot::Chunk(chunk))
        }
    }
}

/// The XML of a term, where it may be built.
#[cycle(emit)]
pub fn written<'v>(
    term: &Term,
    alloc: Global,
    handlers: &Handlers,
    slots: &mut Stack<Slot<'v>>,
) -> Result<Chunk, Halt>
    ensures slots { OnOk result (slots.new ≡ slots.old) }
    ensures comes { IfOk result (ComesTo handlers.now slots.old term.now) }
{
    let mut bytes = List::new(alloc);
    let mut room = ROOM;
    let nesting = emit(term, alloc, handlers, slots, &mut bytes, &mut room)?;
    if nesting > 1023 {
        return Err(Halt::Other);
    }
    Ok(Chunk {
        bytes,
        size: ROOM.saturating_sub(room),
        nesting,
    })
}

/// Adds the XML that a variable is.
fn emit_variable<'v>(
    number: u32,
    alloc: Global,
    handlers: &Handlers,
    slots: &Stack<Slot<'v>>,
    out: &mut Bytes,
    room: &mut u64,
) -> Result<u32, Halt>
    ensures { IfOk result (Emits handlers.now slots.now (term.Variable number) out.old out.new room.old room.new) }
{
    match slots.get(number as usize) {
        Some(slot) => match slot {
            Slot::Chunk(chunk) => {
                take(room, chunk.size)?;
                out.extend_from_slice(chunk.bytes.as_slice())?;
                Ok(chunk.nesting)
            }
            Slot::Value(value) => emit_built(alloc, handlers, value, out, room),
            Slot::Rows(_) => Err(Halt::Other),
        },
        None => Err(Halt::Other),
    }
}

/// Adds the nodes of XML that is built. A value has at least the size and the nesting of its nodes.
fn emit_built(
    alloc: Global,
    handlers: &Handlers,
    value: &Value,
    out: &mut Bytes,
    room: &mut u64,
) -> Result<u32, Halt>
    ensures { IfOk result (λ deep. (nodes : List Node) × (value.now ≡ v.Markup nodes) × Adds handlers.now nodes out.old out.new room.old room.new deep) }
{
    match value {
        Value::Markup(nodes) => {
            let size = value.size();
            let deep = value.nesting();
            if size > ROOM {
                return Err(Halt::Other);
            }
            if deep > 1024 {
                return Err(Halt::Other);
            }
            take(room, size)?;
            push_nodes(alloc, handlers, out, nodes.as_slice())?;
            Ok(deep)
        }
        _ => Err(Halt::Other),
    }
}

/// The same of an operation and its arguments.
#[cycle(emit)]
fn emit_make<'v>(
    args: &[Term],
    op: &Op,
    alloc: Global,
    handlers: &Handlers,
    slots: &mut Stack<Slot<'v>>,
    out: &mut Bytes,
    room: &mut u64,
) -> Result<u32, Halt>
    ensures slots { OnOk result (slots.new ≡ slots.old) }
    ensures emits { IfOk result (Emits handlers.now slots.old (term.Make op.now args.now) out.old out.new room.old room.new) }
{
    match op {
        Op::Text(text) => emit_constant(args, text, handlers, slots, out, room),
        Op::Shown => emit_shown(args, alloc, handlers, slots, out, room),
        Op::Element(tag) => emit_element(args, *tag, alloc, handlers, slots, out, room),
        Op::Markup(_) => emit_all(args, alloc, handlers, slots, out, room),
        Op::Link { route, args: count } => emit_link(
            args,
            *route,
            *count as usize,
            alloc,
            handlers,
            slots,
            out,
            room,
        ),
        Op::Input { kind, name, text } => emit_input(
            args, *kind, *name, text, alloc, handlers, slots, out, room,
        ),
        Op::Submit {
            route,
            args: count,
            unit,
        } => emit_submit(
            args,
            *route,
            *count as usize,
            *unit,
            alloc,
            handlers,
            slots,
            out,
            room,
        ),
        _ => Err(Halt::Other),
    }
}

fn emit_constant<'v>(
    args: &[Term],
    text: &Text,
    handlers: &Handlers,
    slots: &Stack<Slot<'v>>,
    out: &mut Bytes,
    room: &mut u64,
) -> Result<u32, Halt>
    ensures { IfOk result (Emits handlers.now slots.now (term.Make (op.Text text.now) args.now) out.old out.new room.old room.new) }
{
    let _ = slots;
    match args {
        [] => emit_text(handlers, text.as_slice(), out, room),
        _ => Err(Halt::Other),
    }
}

fn emit_shown<'v>(
    args: &[Term],
    alloc: Global,
    handlers: &Handlers,
    slots: &Stack<Slot<'v>>,
    out: &mut Bytes,
    room: &mut u64,
) -> Result<u32, Halt>
    ensures { IfOk result (Emits handlers.now slots.now (term.Make op.Shown args.now) out.old out.new room.old room.new) }
{
    match args {
        [shown] => match value_at(shown, slots) {
            Some(value) => emit_value(alloc, handlers, value, out, room),
            None => Err(Halt::Other),
        },
        _ => Err(Halt::Other),
    }
}

#[cycle(emit)]
fn emit_element<'v>(
    args: &[Term],
    tag: Tag,
    alloc: Global,
    handlers: &Handlers,
    slots: &mut Stack<Slot<'v>>,
    out: &mut Bytes,
    room: &mut u64,
) -> Result<u32, Halt>
    ensures slots { OnOk result (slots.new ≡ slots.old) }
    ensures emits { IfOk result (Emits handlers.now slots.old (term.Make (op.Element tag) args.now) out.old out.new room.old room.new) }
{
    take(room, 32)?;
    push_open(out, tag_word(tag))?;
    if is_void(tag) {
        match args {
            [] => {
                out.extend_from_slice(b"/>")?;
                return Ok(1);
            }
            _ => return Err(Halt::Other),
        }
    }
    push_tag_attributes(out, tag)?;
    out.push(b'>')?;
    let within = emit_all(args, alloc, handlers, slots, out, room)?;
    push_close(out, tag_word(tag))?;
    let deep = deeper(within)?;
    Ok(deep)
}

/// Adds the XML of a term for each of these items, its nearest variable.
#[cycle(emit)]
pub fn emit_items<'v>(
    body: &Term,
    items: &'v [Value],
    alloc: Global,
    handlers: &Handlers,
    slots: &mut Stack<Slot<'v>>,
    out: &mut Bytes,
    room: &mut u64,
) -> Result<u32, Halt>
    ensures slots { OnOk result (slots.new ≡ slots.old) }
    ensures emits { IfOk result (EmitEach handlers.now slots.old body.now items.now out.old out.new room.old room.new) }
{
    let mut deep = 0;
    for item in items {
        slots.push(Slot::Value(item))?;
        let within = emit(body, alloc, handlers, slots, out, room)?;
        deep = within.max(deep);
        slots.drop_nearest(1);
    }
    Ok(deep)
}

/// Adds the XML of terms, one after the other.
#[cycle(emit)]
fn emit_all<'v>(
    terms: &[Term],
    alloc: Global,
    handlers: &Handlers,
    slots: &mut Stack<Slot<'v>>,
    out: &mut Bytes,
    room: &mut u64,
) -> Result<u32, Halt>
    ensures slots { OnOk result (slots.new ≡ slots.old) }
    ensures emits { IfOk result (EmitAll handlers.now slots.old terms.now out.old out.new room.old room.new) }
{
    let mut deep = 0;
    for term in terms {
        let within = emit(term, alloc, handlers, slots, out, room)?;
        deep = within.max(deep);
    }
    Ok(deep)
}

/// Adds the XML of the terms from this one on.
#[cycle(emit)]
fn emit_from<'v>(
    terms: &[Term],
    from: usize,
    alloc: Global,
    handlers: &Handlers,
    slots: &mut Stack<Slot<'v>>,
    out: &mut Bytes,
    room: &mut u64,
) -> Result<u32, Halt>
    ensures slots { OnOk result (slots.new ≡ slots.old) }
    ensures emits { IfOk result (EmitAll handlers.now slots.old (drop from terms.now) out.old out.new room.old room.new) }
{
    let mut deep = 0;
    for i in from..terms.len() {
        let within = emit(&terms[i], alloc, handlers, slots, out, room)?;
        deep = within.max(deep);
    }
    Ok(deep)
}

/// Adds a link: its first arguments are those of the call.
#[cycle(emit)]
fn emit_link<'v>(
    args: &[Term],
    route: u32,
    count: usize,
    alloc: Global,
    handlers: &Handlers,
    slots: &mut Stack<Slot<'v>>,
    out: &mut Bytes,
    room: &mut u64,
) -> Result<u32, Halt>
    ensures slots { OnOk result (slots.new ≡ slots.old) }
    ensures emits { IfOk result (Emits handlers.now slots.old (term.Make (op.Link route count) args.now) out.old out.new room.old room.new) }
{
    take(room, 32)?;
    push_open(out, b"a")?;
    push_call(args, b"href", route, count, alloc, handlers, slots, out)?;
    out.push(b'>')?;
    let within = emit_from(args, count, alloc, handlers, slots, out, room)?;
    push_close(out, b"a")?;
    let deep = deeper(within)?;
    Ok(deep)
}
