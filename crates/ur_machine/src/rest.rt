//! The end of a run as bytes, where nothing is left to do but to write the page.
ghost use Rattle.std.specs.Prelude.{◌≡◌, IfOk, IfSome, OnOk};
ghost use Rattle.ur_values.specs.declared.value.Value.{Value};
ghost use Rattle.ur_machine_frames.specs.declared.control.Pause.TheVariants as pause;
ghost use Rattle.ur_tags.specs.Show.{show};
ghost use Rattle.ur_machine.specs.Left.{EndsAs};
ghost use Rattle.ur_machine.specs.Rest.{IsBegun, IsEnd};

use crate::Machine;
use std::alloc::Global;
use ur_base::{Bytes, Memory};
use ur_code::Code;
use ur_emit::{Chunk, Halt, Slot, end_of, ends_plain, looks_plain, stand_for, written};
use ur_machine_frames::Stack;
use ur_tags::document;

/// The page to which a run comes of which nothing is left but plain terms; none where the machine has to run it.
pub(crate) fn page_of_rest(
    alloc: Global,
    code: &Code,
    machine: &Machine,
) -> Result<Option<Bytes>, Memory>
    ensures { IfOk result (λ found. IfSome found (λ bytes. (page : Value) × EndsAs code.now machine.now machine.now (pause.Page page) × (bytes ≡ show code.now.handlers page))) }
{
    match rest_written(alloc, code, machine) {
        Ok(slot) => match slot {
            Slot::Chunk(chunk) => {
                let page = document(alloc, chunk.bytes.as_slice())?;
                Ok(Some(page))
            }
            _ => Ok(None),
        },
        Err(halt) => match halt {
            Halt::Memory => Err(Memory),
            Halt::Other => Ok(None),
        },
    }
}

/// What the rest of a run comes to, as it is written.
fn rest_written<'m>(alloc: Global, code: &'m Code, machine: &'m Machine) -> Result<Slot<'m>, Halt>
    ensures { IfOk result (IsEnd code.now machine.now) }
{
    let frames = machine.frames.frames.as_slice();
    let functions = &code.functions;
    if !ends_plain(frames, functions) {
        return Err(Halt::Other);
    }
    let mut slots = Stack::new(alloc);
    stand_for(&machine.frames.values, &mut slots)?;
    match &machine.given {
        Some(held) => {
            let given = held.slot();
            let last = end_of(frames, functions, given, slots, alloc, &code.handlers)?;
            Ok(last)
        }
        None => {
            let chunk = begun(alloc, code, machine, &mut slots)?;
            let given = Slot::Chunk(chunk);
            let last = end_of(frames, functions, given, slots, alloc, &code.handlers)?;
            Ok(last)
        }
    }
}

/// The XML of the term where a run stands.
fn begun<'m>(
    alloc: Global,
    code: &'m Code,
    machine: &'m Machine,
    slots: &mut Stack<Slot<'m>>,
) -> Result<Chunk, Halt>
    ensures slots { OnOk result (slots.new ≡ slots.old) }
    ensures comes { IfOk result (IsBegun code.now machine.now slots.old) }
{
    match machine.frames.here(&code.functions) {
        Some(term) => {
            if !looks_plain(term) {
                return Err(Halt::Other);
            }
            let chunk = written(term, alloc, &code.handlers, slots)?;
            Ok(chunk)
        }
        None => Err(Halt::Other),
    }
}
