//! All operations.
ghost use Rattle.std.specs.Prelude.{◌≡◌, IfOk};
ghost use Rattle.ur_machine_frames.specs.Plays.{nothing};
ghost use Rattle.ur_terms.specs.Ops.{does};
ghost use Rattle.ur_machine_operations.specs.Comes.{Comes, CanDo};

use crate::comparing::{equal, greater, greater_or_equal, less, less_or_equal, unequal};
use crate::cookies::set_cookie;
use crate::ints::{add, divide, multiply, negate, negation, remainder, subtract};
use crate::lists::{cons, present, tagged};
use crate::markup::{element, input, link, literal, shown_text, submit, text};
use crate::matching::bind;
use crate::operands::one;
use crate::records::{cut, join, project, record};
use crate::texts::{append, show};
use std::alloc::Global;
use ur_base::{List, Memory, Text};
use ur_machine_frames::{Matched, Operations, Performed};
use ur_terms::{Op, Pattern};
use ur_values::Value;

/// The operations on values that a machine does itself.
#[derive(Drop)]
pub struct Operators {
    pub alloc: Global,
}

impl Operations for Operators {
    fn perform(
        &self,
        op: &Op,
        args: List<Value>,
        carried: &List<Value>,
        sent: &mut List<(u32, Value)>,
    ) -> Performed {
        match op {
            Op::Add => add(args),
            Op::Sub => subtract(args),
            Op::Mul => multiply(args),
            Op::Div => divide(self.alloc, args),
            Op::Rem => remainder(self.alloc, args),
            Op::Neg => negate(args),
            Op::Append => append(args),
            Op::Not => negation(args),
            Op::Equal => equal(args),
            Op::Unequal => unequal(args),
            Op::Less => less(args),
            Op::LessEqual => less_or_equal(args),
            Op::Greater => greater(args),
            Op::GreaterEqual => greater_or_equal(args),
            Op::Show => show(self.alloc, args),
            Op::Record(names) => record(self.alloc, names, args),
            Op::Project(name) => project(*name, args),
            Op::Join => join(args),
            Op::Cut(name) => cut(*name, args),
            Op::Absent(_) => Performed::Done(Value::Absent),
            Op::Present => present(self.alloc, args),
            Op::Empty(_) => Performed::Done(Value::Many(List::new(self.alloc))),
            Op::Cons => cons(args),
            Op::Tagged(constructor) => tagged(self.alloc, *constructor, args),
            Op::Fail(_) => Performed::Failed(one(args)),
            Op::Markup(_) => literal(self.alloc, args),
            Op::Text(bytes) => text(self.alloc, bytes),
            Op::Shown => shown_text(self.alloc, args),
            Op::Element(tag) => element(self.alloc, *tag, args),
            Op::Link { route, args: count } => link(self.alloc, *route, *count, args),
            Op::Input { kind, name, text } => input(self.alloc, *kind, *name, text, args),
            Op::Submit {
                route,
                args: count,
                unit,
            } => submit(self.alloc, *route, *count, *unit, args),
            Op::Ask(_, _) => Performed::Store(args),
            Op::Write(_) => Performed::Store(args),
            Op::Next(_) => Performed::Store(args),
            Op::GetCookie(cookie) => match carried.get(*cookie as usize) {
                Some(value) => match value.copy(self.alloc) {
                    Ok(copy) => Performed::Done(copy),
                    Err(_) => Performed::Memory,
                },
                None => unreachable!(),
            },
            Op::SetCookie(cookie) => match set_cookie(sent, *cookie, one(args)) {
                Ok(()) => Performed::Done(Value::Row(List::new(self.alloc))),
                Err(_) => Performed::Memory,
            },
        }
    }

    fn join(&self, parts: List<Value>) -> Performed {
        literal(self.alloc, parts)
    }

    fn bind(&self, pattern: &Pattern, value: Value) -> Matched {
        bind(self.alloc, pattern, value)
    }

    fn copy(&self, value: &Value) -> Result<Value, Memory> {
        value.copy(self.alloc)
    }

    fn copy_text(&self, text: &Text) -> Result<Text, Memory> {
        List::from_slice(self.alloc, text.as_slice())
    }
}
