//! The table of operations.
ghost use Rattle.ur_terms.specs.declared.term.Op.TheVariants as op;
ghost use Rattle.ur_terms.specs.Types.{OpType};
ghost use Rattle.ur_code.specs.Fits.{signature};
ghost use Rattle.ur_verify_operations.specs.Answering.{Answers, Says};
ghost use Rattle.ur_verify_operations.specs.Misfits.{OperationMisfit};

use crate::arguments::{absent, cons, empty, equality, exactly, order, present, shows};
use crate::deeds::{
    ask, fail, get_cookie, input, link, next, set_cookie, submit, tagged, text, write,
};
use crate::fields::{cut, join, projection, record};
use crate::markup::{element, makes_up};
use crate::misfit::Untyped;
use std::alloc::Global;
use ur_code::Code;
use ur_terms::Op;
use ur_values::{ValueType, copy_type};

/// Two ints.
fn ints(alloc: Global, code: &Code, ts: &[ValueType]) -> Result<ValueType, Untyped>
    ensures fits { Answers (OpType (signature code.now) op.Add ts.now) result }
    ensures told { Says (OperationMisfit (signature code.now) op.Add ts.now) result }
{
    exactly(
        alloc,
        code,
        ts,
        &[ValueType::Int, ValueType::Int],
        ValueType::Int,
    )
}

/// XML of this type.
fn literal(
    alloc: Global,
    code: &Code,
    ts: &[ValueType],
    of: &ValueType,
) -> Result<ValueType, Untyped>
    ensures fits { Answers (OpType (signature code.now) (op.Markup of.now) ts.now) result }
    ensures told { Says (OperationMisfit (signature code.now) (op.Markup of.now) ts.now) result }
{
    makes_up(alloc, code, ts, of)?;
    Ok(copy_type(alloc, of)?)
}

/// The type of what an operation gives for arguments of these types; a misfit where it gives nothing for them.
pub fn operation_type(
    alloc: Global,
    code: &Code,
    operation: &Op,
    ts: &[ValueType],
) -> Result<ValueType, Untyped>
    ensures fits { Answers (OpType (signature code.now) operation.now ts.now) result }
    ensures told { Says (OperationMisfit (signature code.now) operation.now ts.now) result }
{
    match operation {
        Op::Add => ints(alloc, code, ts),
        Op::Sub => ints(alloc, code, ts),
        Op::Mul => ints(alloc, code, ts),
        Op::Div => ints(alloc, code, ts),
        Op::Rem => ints(alloc, code, ts),
        Op::Neg => exactly(alloc, code, ts, &[ValueType::Int], ValueType::Int),
        Op::Append => exactly(
            alloc,
            code,
            ts,
            &[ValueType::Str, ValueType::Str],
            ValueType::Str,
        ),
        Op::Not => exactly(alloc, code, ts, &[ValueType::Bool], ValueType::Bool),
        Op::Equal => equality(alloc, code, ts),
        Op::Unequal => equality(alloc, code, ts),
        Op::Less => order(alloc, code, ts),
        Op::LessEqual => order(alloc, code, ts),
        Op::Greater => order(alloc, code, ts),
        Op::GreaterEqual => order(alloc, code, ts),
        Op::Show => shows(alloc, code, ts, ValueType::Str),
        Op::Record(names) => record(alloc, code, ts, names),
        Op::Project(name) => projection(alloc, code, ts, *name),
        Op::Join => join(alloc, code, ts),
        Op::Cut(name) => cut(alloc, code, ts, *name),
        Op::Absent(of) => absent(alloc, code, ts, of),
        Op::Present => present(alloc, code, ts),
        Op::Empty(of) => empty(alloc, code, ts, of),
        Op::Cons => cons(alloc, code, ts),
        Op::Tagged(number) => tagged(alloc, code, ts, *number),
        Op::Fail(of) => fail(alloc, code, ts, of),
        Op::Markup(of) => literal(alloc, code, ts, of),
        Op::Text(words) => text(alloc, code, ts, words),
        Op::Shown => shows(alloc, code, ts, ValueType::Xbody),
        Op::Element(tag) => element(alloc, code, ts, *tag),
        Op::Link { route, args } => link(alloc, code, ts, *route, *args),
        Op::Input { kind, name, text } => input(alloc, code, ts, *kind, *name, text),
        Op::Submit { route, args, unit } => submit(alloc, code, ts, *route, *args, *unit),
        Op::Ask(how, site) => ask(alloc, code, ts, *how, *site),
        Op::Write(update) => write(alloc, code, ts, *update),
        Op::Next(sequence) => next(alloc, code, ts, *sequence),
        Op::GetCookie(cookie) => get_cookie(alloc, code, ts, *cookie),
        Op::SetCookie(cookie) => set_cookie(alloc, code, ts, *cookie),
    }
}
