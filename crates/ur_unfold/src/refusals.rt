//! Refusals of instances.
ghost use Rattle.std.specs.Prelude.{◌≡◌, codes, IfOk, IsTrue};
ghost use Rattle.ur_base.specs.Codes.{is_refusal_code};
ghost use Rattle.ur_base.specs.declared.refusal.Refusal.{Refusal};
ghost use Rattle.ur_base.specs.declared.refusal.Stop.TheVariants as stops;
ghost use Rattle.ur_base.specs.Stopping.{Says};
ghost use Rattle.ur_unfold.specs.Unfolding.{EndsAs, ExplainsStop, IsNamed, RefusesWith};

use crate::functions::full_name;
use std::alloc::Global;
use ur_base::{List, Memory, Refusal, Span, Stop, Text};
use ur_meaning::Halt;
use ur_tree::Typed;

/// The refusal with this code and these texts, which stands at no place of the source.
fn refusal(alloc: Global, code: u8, left: Text, right: &[u8]) -> Result<Stop, Memory>
    requires { IsTrue (is_refusal_code code) }
    ensures { IfOk result (RefusesWith code left right.now) }
{
    let span = Span {
        file: 0,
        from: 0,
        to: 0,
    };
    let right = List::from_slice(alloc, right)?;
    Ok(Stop::Refused(Refusal {
        code,
        span,
        left,
        right,
    }))
}

fn too_large(alloc: Global, what: &[u8], most: &[u8]) -> Result<Stop, Memory>
    ensures { IfOk result (RefusesWith 18 what.now most.now) }
{
    let left = List::from_slice(alloc, what)?;
    refusal(alloc, 18, left, most)
}

/// The refusal that names the function with this number.
fn too_many(alloc: Global, typed: &Typed, function: u32) -> Result<Stop, Memory>
    ensures { IfOk result (λ stop. (left : _) × IsNamed typed.now function left × RefusesWith 17 left (codes "4096") stop) }
{
    match typed.functions.get(function as usize) {
        None => Err(Memory),
        Some(function) => {
            let left = full_name(alloc, typed, function)?;
            refusal(alloc, 17, left, b"4096")
        }
    }
}

fn told(alloc: Global, typed: &Typed, halt: Halt) -> Result<Stop, Memory>
    ensures { EndsAs typed.now halt → IfOk result (ExplainsStop typed.now) }
{
    match halt {
        Halt::Nodes => too_large(alloc, b"nodes", b"1000000"),
        Halt::Nesting => too_large(alloc, b"nesting", b"1024"),
        Halt::Instances(function) => too_many(alloc, typed, function),
        Halt::Large => too_large(alloc, b"nodes", b"1000000"),
        Halt::Memory => Err(Memory),
    }
}

/// Why nothing is unfolded.
pub fn stop_of(alloc: Global, typed: &Typed, halt: Halt) -> Stop
    ensures { EndsAs typed.now halt → ExplainsStop typed.now result }
{
    match told(alloc, typed, halt) {
        Ok(stop) => stop,
        Err(want) => Stop::from(want),
    }
}
