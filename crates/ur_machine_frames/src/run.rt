//! A call from its beginning.
ghost use Rattle.std.specs.Prelude.{◌≢◌, []};
ghost use Rattle.ur_terms.specs.State.{Stuck};
ghost use Rattle.ur_terms.specs.Run.{outcome_of};
ghost use Rattle.ur_machine_frames.specs.Plays.{until, held, no_store};
ghost use Rattle.ur_machine_frames.specs.Steps.{ComesTo, IsStoreCall};

use crate::control::{Control, Pause};
use crate::frame::{Frame, Frames};
use crate::operations::Operations;
use crate::stack::Stack;
use std::alloc::Global;
use ur_base::List;
use ur_terms::Function;
use ur_values::Value;

/// A machine and why it stopped.
#[derive(Drop)]
pub struct Stopped<'a> {
    pub machine: Frames,
    pub pause: Pause<'a>,
}

/// Runs a call to its end, or to its first operation on tables.
pub fn run_call<'a, O: Operations>(
    alloc: Global,
    operations: &O,
    functions: &'a List<Function>,
    function: u32,
    args: List<Value>,
    carried: List<Value>,
    units: u32,
) -> Stopped<'a>
    requires { outcome_of until functions.now function args (held carried [] no_store [] units) ≢ Stuck }
    ensures comes_to { ComesTo functions.now function args carried units result.machine result.pause }
    ensures store_call { IsStoreCall result.pause }
{
    match functions.get(function as usize) {
        None => unreachable!(),
        Some(called) => {
            let mut machine = Frames {
                frames: Stack::new(alloc),
                values: Stack::new(alloc),
                carried,
                sent: List::new(alloc),
                units,
            };
            let caller = Stack::new(alloc);
            if machine.values.push_all(args).is_err() {
                return Stopped {
                    machine,
                    pause: Pause::Memory,
                };
            }
            if machine
                .frames
                .push(Frame::Body { function, caller })
                .is_err()
            {
                return Stopped {
                    machine,
                    pause: Pause::Memory,
                };
            }
            let pause = machine.advance(alloc, operations, functions, Control::Enter(&called.body));
            Stopped { machine, pause }
        }
    }
}
