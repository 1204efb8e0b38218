//! What comes behind a part of an expression that is typed.
ghost use Rattle.std.specs.Prelude.{◌≡◌, true, IfOk, OnOk, codes};
ghost use Rattle.ur_base.specs.Stopping.{IfRefused};
ghost use Rattle.ur_tree.specs.Make as make;
ghost use Rattle.ur_typed_rules.specs.Faults.{not_of_type};
ghost use Rattle.ur_typed.specs.Rules as rules;
ghost use Rattle.ur_check_scopes.specs.Views.{StopIs};
ghost use Rattle.ur_check_walk.specs.declared.begun.Way.TheVariants as ways;
ghost use Rattle.ur_check_walk.specs.Leading.{asks_of, Accepts, TellsWhole, TellsLeft, ClosesOne, TellsOne, Closes, TellsBegun};

use crate::begun::{Asked, Begun, Sides, Way, Whole, right_wanted};
use std::alloc::Global;
use ur_base::{List, Memory, Span, Stop};
use ur_check_rules::{
    Out, cut_out, if_of, left_may, operation_of, operator_of, project_out, settled, sides_out,
    unary_out,
};
use ur_check_scopes::{Around, label_at, not_of_type};
use ur_rows::NormalType;
use ur_syntax::{FieldName, Removed};
use ur_tree::Unary;

/// What comes behind a part of an expression: the whole, or a further part while the expression is under way.
#[derive(Drop)]
pub enum Behind<'a> {
    Whole(Out),
    Part(Begun<'a>, Asked<'a>),
}

/// What comes behind a part of all that is begun: the whole, or the part that is typed next.
#[derive(Drop)]
pub enum Closed<'a> {
    Whole(Out),
    Part(Asked<'a>),
}

/// What is found of an expression, where it is accepted.
fn accepted(alloc: Global, around: &Around, whole: &Whole, out: Out) -> Result<Out, Stop>
    ensures accepted { IfOk result (Accepts around.now whole.now out) }
    ensures refused { IfRefused result (TellsWhole around.now whole.now out) }
{
    settled(alloc, around, whole.span, out, whole.wanted.as_ref())
}

fn not_compared(alloc: Global, around: &Around, span: Span, of: &NormalType) -> Stop
    ensures { StopIs around.now.world.now.datatype_names (not_of_type around.now.world.now.datatype_names of.now (codes "int, string or bool")) result }
{
    let names = around.world.datatype_names.as_slice();
    not_of_type(alloc, names, span, of, b"int, string or bool")
}

/// The left side of an operator may have its type.
fn may_stand(alloc: Global, around: &Around, sides: Sides, left: &Out) -> Result<(), Stop>
    ensures ok { OnOk result (rules.left_may (asks_of sides.entry) left.now.of ≡ true) }
    ensures refused { IfRefused result (TellsLeft around.now sides.entry left.now) }
{
    let asked = operation_of(operator_of(sides.op));
    if left_may(&asked, &left.of) {
        return Ok(());
    }
    Err(not_compared(alloc, around, sides.left, &left.of))
}

/// Behind the left side of an operator its right side.
fn left_closed<'a>(
    alloc: Global,
    around: &Around,
    whole: Whole,
    sides: Sides<'a>,
    left: Out,
) -> Result<Behind<'a>, Stop>
    ensures comes { IfOk result (λ b. ClosesOne around.now (record { whole = whole; way = ways.Left sides.entry }) left b) }
    ensures refused { IfRefused result (λ r. TellsOne around.now (record { whole = whole; way = ways.Left sides.entry }) left r) }
{
    may_stand(alloc, around, sides, &left)?;
    let wanted = right_wanted(alloc, sides.op, &left.of)?;
    let next = Asked {
        e: sides.right,
        wanted,
    };
    let way = Way::Right(sides, left);
    Ok(Behind::Part(Begun { whole, way }, next))
}

/// Behind the right side of an operator the whole.
fn right_closed<'a>(
    alloc: Global,
    around: &Around,
    whole: Whole,
    sides: Sides<'a>,
    left: Out,
    right: Out,
) -> Result<Behind<'a>, Stop>
    ensures comes { IfOk result (λ b. ClosesOne around.now (record { whole = whole; way = ways.Right sides.entry left }) right b) }
    ensures refused { IfRefused result (λ r. TellsOne around.now (record { whole = whole; way = ways.Right sides.entry left }) right r) }
{
    let op = operator_of(sides.op);
    let asked = operation_of(op);
    let spans = (whole.span, sides.left, sides.right.span);
    let made = sides_out(alloc, around, spans, op, &asked, left, right)?;
    let whole = accepted(alloc, around, &whole, made)?;
    Ok(Behind::Whole(whole))
}

/// Behind what stands at a sign the whole.
fn negated<'a>(alloc: Global, around: &Around, whole: Whole, out: Out) -> Result<Behind<'a>, Stop>
    ensures comes { IfOk result (λ b. ClosesOne around.now (record { whole = whole; way = ways.Negated }) out b) }
    ensures refused { IfRefused result (λ r. TellsOne around.now (record { whole = whole; way = ways.Negated }) out r) }
{
    let made = unary_out(alloc, Unary::Neg, NormalType::Int, out)?;
    let whole = accepted(alloc, around, &whole, made)?;
    Ok(Behind::Whole(whole))
}

/// Behind a record its field.
fn projected<'a>(
    alloc: Global,
    around: &Around,
    whole: Whole,
    name: &'a FieldName,
    out: Out,
) -> Result<Behind<'a>, Stop>
    ensures comes { IfOk result (λ b. ClosesOne around.now (record { whole = whole; way = ways.Projected name.entry }) out b) }
    ensures refused { IfRefused result (λ r. TellsOne around.now (record { whole = whole; way = ways.Projected name.entry }) out r) }
{
    let label = label_at(alloc, &around.scope.cons, name)?;
    let made = project_out(alloc, around, whole.span, label, out)?;
    let whole = accepted(alloc, around, &whole, made)?;
    Ok(Behind::Whole(whole))
}

/// Behind a record what `--` leaves of it.
fn cut<'a>(
    alloc: Global,
    around: &Around,
    whole: Whole,
    removed: &'a Removed,
    out: Out,
) -> Result<Behind<'a>, Stop>
    ensures comes { IfOk result (λ b. ClosesOne around.now (record { whole = whole; way = ways.Cut removed.entry }) out b) }
    ensures refused { IfRefused result (λ r. TellsOne around.now (record { whole = whole; way = ways.Cut removed.entry }) out r) }
{
    let label = label_at(alloc, &around.scope.cons, &removed.name)?;
    let made = cut_out(alloc, around, whole.span, label, out)?;
    let whole = accepted(alloc, around, &whole, made)?;
    Ok(Behind::Whole(whole))
}

/// A condition with its two branches.
fn choice_out(alloc: Global, test: Out, yes: Out, no: Out) -> Result<Out, Memory>
    ensures of { IfOk result (λ o. o.of ≡ yes.of) }
    ensures exp { IfOk result (λ o. o.exp ≡ make.choice test.exp yes.exp no.exp) }
{
    let exp = if_of(alloc, test.exp, yes.exp, no.exp)?;
    Ok(Out { of: yes.of, exp })
}

/// Behind the second branch the whole.
fn otherwise<'a>(
    alloc: Global,
    around: &Around,
    whole: Whole,
    test: Out,
    yes: Out,
    no: Out,
) -> Result<Behind<'a>, Stop>
    ensures comes { IfOk result (λ b. ClosesOne around.now (record { whole = whole; way = ways.Otherwise test yes }) no b) }
    ensures refused { IfRefused result (λ r. TellsOne around.now (record { whole = whole; way = ways.Otherwise test yes }) no r) }
{
    let made = choice_out(alloc, test, yes, no)?;
    let whole = accepted(alloc, around, &whole, made)?;
    Ok(Behind::Whole(whole))
}

/// What comes behind a part of an expression.
fn one_closed<'a>(
    alloc: Global,
    around: &Around,
    begun: Begun<'a>,
    out: Out,
) -> Result<Behind<'a>, Stop>
    ensures comes { IfOk result (ClosesOne around.now begun.entry out) }
    ensures refused { IfRefused result (TellsOne around.now begun.entry out) }
{
    let Begun { whole, way } = begun;
    match way {
        Way::Left(sides) => left_closed(alloc, around, whole, sides, out),
        Way::Right(sides, left) => right_closed(alloc, around, whole, sides, left, out),
        Way::Negated => negated(alloc, around, whole, out),
        Way::Projected(name) => projected(alloc, around, whole, name, out),
        Way::Cut(removed) => cut(alloc, around, whole, removed, out),
        Way::Otherwise(test, yes) => otherwise(alloc, around, whole, test, yes, out),
    }
}

/// What comes behind a part of the last expression that is begun, or of one before it.
pub fn all_closed<'a>(
    alloc: Global,
    around: &Around,
    begun: &mut List<Begun<'a>>,
    out: Out,
) -> Result<Closed<'a>, Stop>
    ensures comes { IfOk result (Closes around.now begun.old begun.new out) }
    ensures refused { IfRefused result (TellsBegun around.now begun.old out) }
{
    let mut out = out;
    while let Some(last) = begun.pop() {
        match one_closed(alloc, around, last, out)? {
            Behind::Whole(made) => out = made,
            Behind::Part(again, next) => {
                begun.push(again)?;
                return Ok(Closed::Part(next));
            }
        }
    }
    Ok(Closed::Whole(out))
}
