//! Steps of the machine.
ghost use Rattle.std.specs.Prelude.{◌≡◌, ◌≤◌, List, Some};
ghost use Rattle.ur_terms.specs.declared.term.Op.{Op};
ghost use Rattle.ur_terms.specs.declared.term.Term.{Term};
ghost use Rattle.ur_terms.specs.declared.term.Term.TheVariants as term;
ghost use Rattle.ur_machine_frames.specs.declared.frame.Frame.TheVariants as frame;
ghost use Rattle.ur_machine_frames.specs.declared.control.Control.TheVariants as control;
ghost use Rattle.std.specs.Option.{option_copied};
ghost use Rattle.ur_machine_frames.specs.Rest.{standing};
ghost use Rattle.ur_machine_frames.specs.Steps.{Leads, Steps, Ends, IsStoreCall, Stands, IsSafe, Descends, entering, entering_cost, with_args, with_args_cost, applying, applying_cost, performing, no_cost, calling, calling_cost, binding, binding_cost, going, going_costs, with_items, with_items_cost, resuming, resuming_cost, giving, beginning, below};
ghost use Rattle.ur_machine_frames.specs.Places.{AreLed, IfOn};

use crate::control::{Control, Found, Next, Pause, Performed};
use crate::fields::atom_at;
use crate::frame::{Frame, Frames};
use crate::operations::Operations;
use crate::over::{is_over, weight};
use crate::places::Places;
use crate::stack::Stack;
use crate::walk::{argument, find_branch, standing_at};
use std::alloc::Global;
use std::mem;
use ur_base::List;
use ur_terms::{Function, Op, Term};
use ur_values::Value;

impl Frames {
    /// Enters a part of a term under a new frame.
    fn descend<'a>(&mut self, frame: Frame, part: &'a Term) -> Next<'a>
        ensures descends { Descends frame part.now self.old self.new result }
        ensures units { self.new.units ≤ self.old.units }
    {
        if self.frames.push(frame).is_err() {
            return Next::Off(Pause::Memory);
        }
        Next::On(Control::Enter(part))
    }

    /// Does an operation.
    fn perform<'a, O: Operations>(
        &mut self,
        operations: &O,
        functions: &'a List<Function>,
        op: &'a Op,
        args: List<Value>,
    ) -> Next<'a>
        requires { IsSafe functions.now self.old (performing op.now args) }
        ensures leads { Leads functions.now self.old (performing op.now args) no_cost self.new result }
        ensures units { self.new.units ≤ self.old.units }
    {
        match operations.perform(op, args, &self.carried, &mut self.sent) {
            Performed::Done(value) => Next::On(Control::Give(value)),
            Performed::Failed(body) => Next::Off(Pause::Failed(body)),
            Performed::Spent => Next::Off(Pause::Spent),
            Performed::Store(args) => Next::Off(Pause::Store(op, args)),
            Performed::Memory => Next::Off(Pause::Memory),
        }
    }

    /// Calls a function, which costs a unit.
    fn call<'a>(
        &mut self,
        alloc: Global,
        functions: &'a List<Function>,
        function: u32,
        args: List<Value>,
    ) -> Next<'a>
        requires { IsSafe functions.now self.old (calling functions.now function args) }
        ensures leads { Leads functions.now self.old (calling functions.now function args) (calling_cost functions.now function args) self.new result }
        ensures units { self.new.units ≤ self.old.units }
    {
        if self.units == 0 {
            return Next::Off(Pause::Spent);
        }
        self.units -= 1;
        match functions.get(function as usize) {
            None => unreachable!(),
            Some(called) => {
                let mut values = Stack::new(alloc);
                if values.push_all(args).is_err() {
                    return Next::Off(Pause::Memory);
                }
                let caller = mem::replace(&mut self.values, values);
                self.descend(Frame::Body { function, caller }, &called.body)
            }
        }
    }

    /// Enters the body of a `let` whose variables have these values.
    fn bind<'a>(
        &mut self,
        functions: &'a List<Function>,
        place: &'a Term,
        body: &'a Term,
        args: List<Value>,
    ) -> Next<'a>
        requires stands { standing functions.now self.old.frames ≡ Some place.now }
        requires body { (xs : List Term) × (place.now ≡ term.Let xs body.now) }
        ensures leads { Leads functions.now self.old (binding functions.now body.now args) (binding_cost functions.now body.now args) self.new result }
        ensures units { self.new.units ≤ self.old.units }
    {
        let bound = args.len();
        if self.values.push_all(args).is_err() {
            return Next::Off(Pause::Memory);
        }
        self.descend(Frame::LetBody(bound), body)
    }

    /// Does with all its arguments what a term does.
    fn apply<'a, O: Operations>(
        &mut self,
        alloc: Global,
        operations: &O,
        functions: &'a List<Function>,
        place: &'a Term,
        args: List<Value>,
    ) -> Next<'a>
        requires stands { standing functions.now self.old.frames ≡ Some place.now }
        requires safe { IsSafe functions.now self.old (applying functions.now place.now args) }
        ensures leads { Leads functions.now self.old (applying functions.now place.now args) (applying_cost functions.now place.now args) self.new result }
        ensures units { self.new.units ≤ self.old.units }
    {
        match place {
            Term::Make(op, _) => self.perform(operations, functions, op, args),
            Term::Call(function, _) => self.call(alloc, functions, *function, args),
            Term::Let(_, body) => self.bind(functions, place, body.get(), args),
            _ => unreachable!(),
        }
    }

    /// Goes on with the arguments of a term after these.
    fn next_argument<'a, O: Operations>(
        &mut self,
        alloc: Global,
        operations: &O,
        functions: &'a List<Function>,
        place: &'a Term,
        done: List<Value>,
    ) -> Next<'a>
        requires stands { standing functions.now self.old.frames ≡ Some place.now }
        requires safe { IsSafe functions.now self.old (with_args functions.now place.now done) }
        ensures leads { Leads functions.now self.old (with_args functions.now place.now done) (with_args_cost functions.now place.now done) self.new result }
        ensures units { self.new.units ≤ self.old.units }
    {
        match argument(place, done.len()) {
            Some(next) => self.descend(Frame::Args(done), next),
            None => self.apply(alloc, operations, functions, place, done),
        }
    }

    /// Goes on with the items of a list after these results.
    fn next_item<'a, O: Operations>(
        &mut self,
        operations: &O,
        functions: &'a List<Function>,
        place: &'a Term,
        body: &'a Term,
        done: List<Value>,
        rest: Stack<Value>,
    ) -> Next<'a>
        requires stands { standing functions.now self.old.frames ≡ Some place.now }
        requires body { (rows : Term) × (place.now ≡ term.Each rows body.now) }
        requires safe { IsSafe functions.now self.old (with_items functions.now body.now done rest) }
        ensures leads { Leads functions.now self.old (with_items functions.now body.now done rest) (with_items_cost functions.now body.now rest) self.new result }
        ensures units { self.new.units ≤ self.old.units }
    {
        let mut rest = rest;
        match rest.pop() {
            None => match operations.join(done) {
                Performed::Done(value) => Next::On(Control::Give(value)),
                Performed::Failed(body) => Next::Off(Pause::Failed(body)),
                Performed::Spent => Next::Off(Pause::Spent),
                Performed::Store(_) => unreachable!(),
                Performed::Memory => Next::Off(Pause::Memory),
            },
            Some(item) => {
                if self.values.push(item).is_err() {
                    return Next::Off(Pause::Memory);
                }
                self.descend(Frame::Item { done, rest }, body)
            }
        }
    }

    /// Takes the side of a choice.
    fn choose<'a>(
        &mut self,
        functions: &'a List<Function>,
        place: &'a Term,
        value: Value,
    ) -> Next<'a>
        requires stands { standing functions.now self.old.frames ≡ Some place.now }
        requires safe { IsSafe functions.now self.old (going functions.now frame.Condition place.now value) }
        ensures leads { Leads functions.now self.old (going functions.now frame.Condition place.now value) (going_costs functions.now frame.Condition place.now value) self.new result }
        ensures units { self.new.units ≤ self.old.units }
    {
        let truth = match value {
            Value::Bool(truth) => truth,
            _ => unreachable!(),
        };
        match place {
            Term::If(_, yes, no) => {
                if truth {
                    self.descend(Frame::Side(true), yes.get())
                } else {
                    self.descend(Frame::Side(false), no.get())
                }
            }
            _ => unreachable!(),
        }
    }

    /// Enters the first branch that matches.
    fn pick<'a, O: Operations>(
        &mut self,
        operations: &O,
        functions: &'a List<Function>,
        place: &'a Term,
        value: Value,
    ) -> Next<'a>
        requires stands { standing functions.now self.old.frames ≡ Some place.now }
        requires safe { IsSafe functions.now self.old (going functions.now frame.Subject place.now value) }
        ensures leads { Leads functions.now self.old (going functions.now frame.Subject place.now value) (going_costs functions.now frame.Subject place.now value) self.new result }
        ensures units { self.new.units ≤ self.old.units }
    {
        match place {
            Term::Case(_, branches) => match find_branch(operations, branches, value) {
                Found::Branch(number, branch, values) => {
                    let bound = values.len();
                    if self.values.push_all(values).is_err() {
                        return Next::Off(Pause::Memory);
                    }
                    self.descend(Frame::Branch { number, bound }, &branch.body)
                }
                Found::None => unreachable!(),
                Found::Memory => Next::Off(Pause::Memory),
            },
            _ => unreachable!(),
        }
    }

    /// Begins with the items of a list.
    fn each<'a, O: Operations>(
        &mut self,
        alloc: Global,
        operations: &O,
        functions: &'a List<Function>,
        place: &'a Term,
        value: Value,
    ) -> Next<'a>
        requires stands { standing functions.now self.old.frames ≡ Some place.now }
        requires safe { IsSafe functions.now self.old (going functions.now frame.Rows place.now value) }
        ensures leads { Leads functions.now self.old (going functions.now frame.Rows place.now value) (going_costs functions.now frame.Rows place.now value) self.new result }
        ensures units { self.new.units ≤ self.old.units }
    {
        let items = match value {
            Value::Many(items) => items,
            _ => unreachable!(),
        };
        match place {
            Term::Each(_, body) => {
                let mut rest = Stack::new(alloc);
                if rest.push_all(items).is_err() {
                    return Next::Off(Pause::Memory);
                }
                self.next_item(
                    operations,
                    functions,
                    place,
                    body.get(),
                    List::new(alloc),
                    rest,
                )
            }
            _ => unreachable!(),
        }
    }

    /// Gives the value of a variable: the value itself where nothing reads it any more, and otherwise a copy.
    fn read<'a, O: Operations>(
        &mut self,
        operations: &O,
        functions: &'a List<Function>,
        places: &Places<'a>,
        place: &'a Term,
        number: usize,
    ) -> Next<'a>
        requires variable { place.now ≡ term.Variable number }
        requires led { AreLed functions.now self.old.frames places.now.known }
        requires safe { IsSafe functions.now self.old (entering functions.now place.now) }
        ensures leads { Leads functions.now self.old (entering functions.now place.now) (entering_cost functions.now place.now) self.new result }
        ensures units { self.new.units ≤ self.old.units }
    {
        match self.values.get(number) {
            None => unreachable!(),
            Some(value) => {
                let mut looks = weight(value);
                if is_over(
                    self.frames.as_slice(),
                    places.known.as_slice(),
                    number,
                    &mut looks,
                ) {
                    return Next::On(Control::Give(self.values.replace(number, Value::Absent)));
                }
                match operations.copy(value) {
                    Ok(copy) => Next::On(Control::Give(copy)),
                    Err(_) => Next::Off(Pause::Memory),
                }
            }
        }
    }

    /// Enters an operation. An int, a bool or a text in a field of a variable is copied from where it stands, so that no
    /// record is copied for one of its fields.
    fn enter_make<'a, O: Operations>(
        &mut self,
        alloc: Global,
        operations: &O,
        functions: &'a List<Function>,
        place: &'a Term,
    ) -> Next<'a>
        requires stands { standing functions.now self.old.frames ≡ Some place.now }
        requires make { (op : Op) × (args : List Term) × (place.now ≡ term.Make op args) }
        requires safe { IsSafe functions.now self.old (entering functions.now place.now) }
        ensures leads { Leads functions.now self.old (entering functions.now place.now) (entering_cost functions.now place.now) self.new result }
        ensures units { self.new.units ≤ self.old.units }
    {
        match atom_at(place, &self.values) {
            Some(value) => match operations.copy(value) {
                Ok(copy) => Next::On(Control::Give(copy)),
                Err(_) => Next::Off(Pause::Memory),
            },
            None => self.next_argument(alloc, operations, functions, place, List::new(alloc)),
        }
    }

    /// Enters a term to which the frames lead.
    fn enter<'a, O: Operations>(
        &mut self,
        alloc: Global,
        operations: &O,
        functions: &'a List<Function>,
        places: &Places<'a>,
        place: &'a Term,
    ) -> Next<'a>
        requires stands { standing functions.now self.old.frames ≡ Some place.now }
        requires led { AreLed functions.now self.old.frames places.now.known }
        requires safe { IsSafe functions.now self.old (entering functions.now place.now) }
        ensures leads { Leads functions.now self.old (entering functions.now place.now) (entering_cost functions.now place.now) self.new result }
        ensures units { self.new.units ≤ self.old.units }
    {
        match place {
            Term::Variable(number) => {
                self.read(operations, functions, places, place, *number as usize)
            }
            Term::Int(number) => Next::On(Control::Give(Value::Int(*number))),
            Term::Str(text) => match operations.copy_text(text) {
                Ok(copy) => Next::On(Control::Give(Value::Str(copy))),
                Err(_) => Next::Off(Pause::Memory),
            },
            Term::Bool(truth) => Next::On(Control::Give(Value::Bool(*truth))),
            Term::Make(_, _) => self.enter_make(alloc, operations, functions, place),
            Term::Call(_, _) => self.next_argument(
                alloc,
                operations,
                functions,
                place,
                List::new(alloc),
            ),
            Term::Let(_, _) => self.next_argument(
                alloc,
                operations,
                functions,
                place,
                List::new(alloc),
            ),
            Term::If(condition, _, _) => self.descend(Frame::Condition, condition.get()),
            Term::Case(subject, _) => self.descend(Frame::Subject, subject.get()),
            Term::Each(rows, _) => self.descend(Frame::Rows, rows.get()),
        }
    }

    /// The term to which the frames lead.
    pub fn here<'a>(&self, functions: &'a List<Function>) -> Option<&'a Term>
        ensures { option_copied result ≡ standing functions.now self.now.frames }
    {
        standing_at(functions, self.frames.as_slice())
    }

    /// Goes on with an argument.
    fn go_on_args<'a, O: Operations>(
        &mut self,
        alloc: Global,
        operations: &O,
        functions: &'a List<Function>,
        place: Option<&'a Term>,
        done: List<Value>,
        value: Value,
    ) -> Next<'a>
        requires stands { option_copied place ≡ standing functions.now self.old.frames }
        requires safe { IsSafe functions.now self.old (resuming functions.now self.old.frames (frame.Args done) value) }
        ensures leads { Leads functions.now self.old (resuming functions.now self.old.frames (frame.Args done) value) (resuming_cost functions.now self.old.frames (frame.Args done) value) self.new result }
        ensures units { self.new.units ≤ self.old.units }
    {
        match place {
            None => unreachable!(),
            Some(place) => {
                let mut done = done;
                if done.push(value).is_err() {
                    return Next::Off(Pause::Memory);
                }
                self.next_argument(alloc, operations, functions, place, done)
            }
        }
    }

    /// Goes on with a condition.
    fn go_on_choice<'a>(
        &mut self,
        functions: &'a List<Function>,
        place: Option<&'a Term>,
        value: Value,
    ) -> Next<'a>
        requires stands { option_copied place ≡ standing functions.now self.old.frames }
        requires safe { IsSafe functions.now self.old (resuming functions.now self.old.frames frame.Condition value) }
        ensures leads { Leads functions.now self.old (resuming functions.now self.old.frames frame.Condition value) (resuming_cost functions.now self.old.frames frame.Condition value) self.new result }
        ensures units { self.new.units ≤ self.old.units }
    {
        match place {
            None => unreachable!(),
            Some(place) => self.choose(functions, place, value),
        }
    }

    /// Goes on with the subject of a case.
    fn go_on_case<'a, O: Operations>(
        &mut self,
        operations: &O,
        functions: &'a List<Function>,
        place: Option<&'a Term>,
        value: Value,
    ) -> Next<'a>
        requires stands { option_copied place ≡ standing functions.now self.old.frames }
        requires safe { IsSafe functions.now self.old (resuming functions.now self.old.frames frame.Subject value) }
        ensures leads { Leads functions.now self.old (resuming functions.now self.old.frames frame.Subject value) (resuming_cost functions.now self.old.frames frame.Subject value) self.new result }
        ensures units { self.new.units ≤ self.old.units }
    {
        match place {
            None => unreachable!(),
            Some(place) => self.pick(operations, functions, place, value),
        }
    }

    /// Goes on with the list of items.
    fn go_on_rows<'a, O: Operations>(
        &mut self,
        alloc: Global,
        operations: &O,
        functions: &'a List<Function>,
        place: Option<&'a Term>,
        value: Value,
    ) -> Next<'a>
        requires stands { option_copied place ≡ standing functions.now self.old.frames }
        requires safe { IsSafe functions.now self.old (resuming functions.now self.old.frames frame.Rows value) }
        ensures leads { Leads functions.now self.old (resuming functions.now self.old.frames frame.Rows value) (resuming_cost functions.now self.old.frames frame.Rows value) self.new result }
        ensures units { self.new.units ≤ self.old.units }
    {
        match place {
            None => unreachable!(),
            Some(place) => self.each(alloc, operations, functions, place, value),
        }
    }

    /// Goes on with the result of an item.
    fn go_on_item<'a, O: Operations>(
        &mut self,
        operations: &O,
        functions: &'a List<Function>,
        place: Option<&'a Term>,
        done: List<Value>,
        rest: Stack<Value>,
        value: Value,
    ) -> Next<'a>
        requires stands { option_copied place ≡ standing functions.now self.old.frames }
        requires safe { IsSafe functions.now self.old (resuming functions.now self.old.frames (frame.Item done rest) value) }
        ensures leads { Leads functions.now self.old (resuming functions.now self.old.frames (frame.Item done rest) value) (resuming_cost functions.now self.old.frames (frame.Item done rest) value) self.new result }
        ensures units { self.new.units ≤ self.old.units }
    {
        match place {
            None => unreachable!(),
            Some(place) => match place {
                Term::Each(_, body) => {
                    let mut done = done;
                    if done.push(value).is_err() {
                        return Next::Off(Pause::Memory);
                    }
                    self.next_item(operations, functions, place, body.get(), done, rest)
                }
                _ => unreachable!(),
            },
        }
    }

    /// Gives a value to the nearest frame. The frames below it lead to `place`.
    fn give<'a, O: Operations>(
        &mut self,
        alloc: Global,
        operations: &O,
        functions: &'a List<Function>,
        place: Option<&'a Term>,
        value: Value,
    ) -> Next<'a>
        requires stands { option_copied place ≡ standing functions.now (below self.old.frames) }
        requires safe { IsSafe functions.now self.old (giving value) }
        ensures steps { Steps functions.now self.old (control.Give value) self.new result }
        ensures units { self.new.units ≤ self.old.units }
    {
        match self.frames.pop() {
            None => Next::Off(Pause::Page(value)),
            Some(Frame::Body { caller, .. }) => {
                self.values = caller;
                Next::On(Control::Give(value))
            }
            Some(Frame::LetBody(bound)) => {
                self.values.drop_nearest(bound);
                Next::On(Control::Give(value))
            }
            Some(Frame::Side(_)) => Next::On(Control::Give(value)),
            Some(Frame::Branch { bound, .. }) => {
                self.values.drop_nearest(bound);
                Next::On(Control::Give(value))
            }
            Some(Frame::Args(done)) => {
                self.go_on_args(alloc, operations, functions, place, done, value)
            },
            Some(Frame::Condition) => self.go_on_choice(functions, place, value),
            Some(Frame::Subject) => self.go_on_case(operations, functions, place, value),
            Some(Frame::Rows) => { self.go_on_rows(alloc, operations, functions, place, value) },
            Some(Frame::Item { done, rest }) => {
                self.values.drop_nearest(1);
                self.go_on_item(operations, functions, place, done, rest, value)
            }
        }
    }

    /// One step.
    fn step<'a, O: Operations>(
        &mut self,
        alloc: Global,
        operations: &O,
        functions: &'a List<Function>,
        places: &mut Places<'a>,
        control: Control<'a>,
    ) -> Next<'a>
        requires stands { Stands functions.now self.old control }
        requires safe { IsSafe functions.now self.old (beginning functions.now control) }
        requires led { AreLed functions.now self.old.frames places.old.known }
        ensures steps { Steps functions.now self.old control.entry self.new result }
        ensures units { self.new.units ≤ self.old.units }
        ensures led { IfOn result (AreLed functions.now self.new.frames places.new.known) }
    {
        match control {
            Control::Enter(term) => {
                let next = self.enter(alloc, operations, functions, places, term);
                places.follow(&next);
                next
            }
            Control::Give(value) => {
                let place = places.leave(functions, &self.frames);
                let next = self.give(alloc, operations, functions, place, value);
                places.follow(&next);
                next
            }
        }
    }

    /// Runs to the end, or to the next operation on tables.
    pub fn advance<'a, O: Operations>(
        &mut self,
        alloc: Global,
        operations: &O,
        functions: &'a List<Function>,
        control: Control<'a>,
    ) -> Pause<'a>
        requires stands { Stands functions.now self.old control }
        requires safe { IsSafe functions.now self.old (beginning functions.now control) }
        ensures ends { Ends functions.now self.old control.entry self.new result }
        ensures store_call { IsStoreCall result }
        ensures units { self.new.units ≤ self.old.units }
    {
        let mut places = Places::new(alloc);
        let mut control = control;
        loop {
            match self.step(alloc, operations, functions, &mut places, control) {
                Next::On(next) => control = next,
                Next::Off(pause) => return pause,
            }
        }
    }
}
