//! A request's run.
ghost use Rattle.std.specs.Prelude.{◌≡◌, ◌≢◌, ◌≤◌, All, IfOk, IsUtf8, Some, None, slice_get};
ghost use Rattle.ur_code.specs.Fits.{Fits};
ghost use Rattle.ur_code.specs.RouteTypes.{IsRequestOf};
ghost use Rattle.ur_machine.specs.Left.{Starts, IsControl, EndsAs, given_to};
ghost use Rattle.ur_machine.specs.UnderWay.{IsUnderWay, Pauses};

use crate::cookies::carried;
use crate::given::Given;
use std::alloc::Global;
use ur_base::{List, Memory, Text};
use ur_code::Code;
use ur_machine_frames::{Control, Frame, Operations, Pause, Stack};
use ur_values::Call;

/// A run of one request. `given` is the value that the last query, change or draw gave.
#[derive(Drop)]
pub struct Machine {
    pub frames: ur_machine_frames::Frames,
    pub given: Option<Given>,
}

impl Machine {
    /// A run of a request's call from its beginning, with the pairs of its cookies.
    pub fn start(
        alloc: Global,
        code: &Code,
        call: Call,
        cookies: &[(Text, Text)],
        steps: u32,
    ) -> Result<Machine, Memory>
        requires fits { Fits code.now }
        requires call { IsRequestOf code.now.handlers call }
        requires texts { All (λ pair. IsUtf8 pair.1) cookies.now }
        ensures starts { IfOk result (Starts code.now call cookies.now steps) }
        ensures under_way { IfOk result (IsUnderWay code.now) }
        ensures units { IfOk result (λ machine. machine.frames.units ≡ steps) }
    {
        let Call { route, args } = call;
        let function = target_of(code, route);
        let carried = carried(alloc, &code.cookies, cookies)?;
        let mut frames = Stack::new(alloc);
        let caller = Stack::new(alloc);
        frames.push(Frame::Body { function, caller })?;
        let mut values = Stack::new(alloc);
        values.push_all(args)?;
        let sent = List::new(alloc);
        Ok(Machine {
            frames: ur_machine_frames::Frames {
                frames,
                values,
                carried,
                sent,
                units: steps,
            },
            given: None,
        })
    }

    /// Runs to the end, or to the next operation on tables.
    pub fn advance<'a, O: Operations>(
        &mut self,
        alloc: Global,
        operations: &O,
        code: &'a Code,
    ) -> Pause<'a>
        requires { IsUnderWay code.now self.old }
        ensures ends { EndsAs code.now self.old self.new result }
        ensures pauses { Pauses code.now self.new result }
        ensures units { self.new.frames.units ≤ self.old.frames.units }
    {
        // The clause `bound` of `units` is wanted, and not the number.
        self.units();
        let Ok(control) = self.control(alloc, code) else {
            self.units();
            return Pause::Memory;
        };
        let pause = self
            .frames
            .advance(alloc, operations, &code.functions, control);
        self.units();
        pause
    }

    /// The units that are left.
    pub fn units(&self) -> u32
        ensures value { result ≡ self.now.frames.units }
        ensures bound { result ≤ 4294967295 }
    {
        self.frames.units
    }

    /// The answer of the operation on tables at which the run stands, and the units that it left.
    pub fn answer(&mut self, value: Given, units: u32)
        ensures { self.new ≡ given_to self.old value units }
    {
        self.given = Some(value);
        self.frames.units = units;
    }

    /// Where the run goes on: with the value that was given, or at the term where it stands.
    fn control<'a>(&mut self, alloc: Global, code: &'a Code) -> Result<Control<'a>, Memory>
        requires { IsUnderWay code.now self.old }
        ensures control { IfOk result (IsControl code.now self.old) }
        ensures frames { self.new.frames ≡ self.old.frames }
    {
        match self.given.take() {
            Some(given) => {
                let value = given.into_value(alloc)?;
                Ok(Control::Give(value))
            }
            None => match self.frames.here(&code.functions) {
                Some(term) => Ok(Control::Enter(term)),
                None => unreachable!(),
            },
        }
    }
}

/// The function of a route.
fn target_of(code: &Code, route: u32) -> u32
    requires { slice_get code.now.targets route ≢ None }
    ensures { slice_get code.now.targets route ≡ Some result }
{
    match code.targets.get(route as usize) {
        Some(target) => *target,
        None => unreachable!(),
    }
}
