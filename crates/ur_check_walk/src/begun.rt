//! What of an expression is under way. Operators, signs, names of fields and choices go on within one another as far as a
//! source likes, so a list has what is begun and no call stands for it: the stack is memory.
ghost use Rattle.std.specs.Prelude.{◌≡◌, ◌++◌, ◌∷◌, [], IfOk, OnOk};
ghost use Rattle.std.specs.Option.{option_copied};
ghost use Rattle.ur_base.specs.declared.refusal.Span.{Span as GhostSpan};
ghost use Rattle.ur_tree.specs.Typing.{operation};
ghost use Rattle.ur_rows.specs.Types as types;
ghost use Rattle.ur_typed.specs.Rules as rules;
ghost use Rattle.ur_check_scopes.specs.Views.{mode_of};
ghost use Rattle.ur_check_walk.specs.Leading.{FirstLeads, GoesDown};

use std::alloc::Global;
use ur_base::{List, Memory, Span};
use ur_check_rules::{Out, left_mode, operation_of, operator_of, right_mode};
use ur_rows::{NormalType, boxed, copy_type};
use ur_syntax::{Binary, Exp, ExpForm, FieldName, Removed};

/// More than there are tokens in a source, so that no chain is as long.
pub const TURNS: usize = 4_194_304;

/// An expression that comes next, and what is wanted of it.
#[derive(Drop)]
pub struct Asked<'a> {
    pub e: &'a Exp,
    pub wanted: Option<NormalType>,
}

/// An expression of which a part is under way: where it stands, and what is wanted of it.
#[derive(Drop)]
pub struct Whole {
    pub span: Span,
    pub wanted: Option<NormalType>,
}

/// An operator, where its left side stands, and its right side.
#[derive(Clone, Copy)]
pub struct Sides<'a> {
    pub op: Binary,
    pub left: Span,
    pub right: &'a Exp,
}

/// A condition and two branches.
#[derive(Clone, Copy)]
pub struct Choice<'a> {
    pub test: &'a Exp,
    pub yes: &'a Exp,
    pub no: &'a Exp,
}

/// The part of an expression that is under way: the left side of an operator, the right one behind the left one; what
/// stands at a sign, a field or `--`; the second branch, behind the condition and the first one.
#[derive(Drop)]
pub enum Way<'a> {
    Left(Sides<'a>),
    Right(Sides<'a>, Out),
    Negated,
    Projected(&'a FieldName),
    Cut(&'a Removed),
    Otherwise(Out, Out),
}

/// An expression of which a part is under way.
#[derive(Drop)]
pub struct Begun<'a> {
    pub whole: Whole,
    pub way: Way<'a>,
}

/// Whether parts of an expression of this form are walked in a loop.
pub fn is_chain(form: &ExpForm) -> bool {
    match form {
        ExpForm::Binary(_, _, _) => true,
        ExpForm::Negative(_) => true,
        ExpForm::Project(_, _) => true,
        ExpForm::Remove(_, _) => true,
        ExpForm::If(_, _, _) => true,
        _ => false,
    }
}

/// A copy of what is wanted.
fn copied(alloc: Global, wanted: Option<&NormalType>) -> Result<Option<NormalType>, Memory>
    ensures { IfOk result (λ t. mode_of t ≡ mode_of (option_copied wanted.entry)) }
{
    match wanted {
        Some(of) => {
            let copy = copy_type(alloc, of)?;
            Ok(Some(copy))
        }
        None => Ok(None),
    }
}

/// The expression, of which this is wanted.
pub fn asked_of<'a>(
    alloc: Global,
    e: &'a Exp,
    wanted: Option<&NormalType>,
) -> Result<Asked<'a>, Memory>
    ensures e { IfOk result (λ n. n.e ≡ e.entry) }
    ensures wanted { IfOk result (λ n. mode_of n.wanted ≡ mode_of (option_copied wanted.entry)) }
{
    let wanted = copied(alloc, wanted)?;
    Ok(Asked { e, wanted })
}

#[tactic(auto, using(crate::proofs::Operators::types))]
fn list_of(alloc: Global, of: &NormalType) -> Result<NormalType, Memory>
    ensures { IfOk result (λ t. t ≡ types.list_of of.now) }
{
    let copy = copy_type(alloc, of)?;
    let item = boxed(alloc, copy)?;
    Ok(NormalType::Many(item))
}

/// What is wanted of the left side of an operator.
fn left_wanted(
    alloc: Global,
    op: Binary,
    wanted: Option<&NormalType>,
) -> Result<Option<NormalType>, Memory>
    ensures { IfOk result (λ t. mode_of t ≡ rules.left_mode (operation (rules.operator_of op)) (mode_of (option_copied wanted.entry))) }
{
    let asked = operation_of(operator_of(op));
    let inside = copied(alloc, left_mode(&asked, wanted))?;
    Ok(inside)
}

/// What is wanted of the right side of an operator behind a left one of this type.
pub fn right_wanted(
    alloc: Global,
    op: Binary,
    left: &NormalType,
) -> Result<Option<NormalType>, Memory>
    ensures { IfOk result (λ t. mode_of t ≡ rules.right_mode (operation (rules.operator_of op)) left.now) }
{
    let asked = operation_of(operator_of(op));
    let list = list_of(alloc, left)?;
    let inside = copied(alloc, right_mode(&asked, left, &list))?;
    Ok(inside)
}

/// The part of an expression with which a chain goes on, and what is wanted of it.
fn first_part<'a>(
    alloc: Global,
    e: &'a Exp,
    wanted: Option<&NormalType>,
) -> Result<Option<(Way<'a>, Asked<'a>)>, Memory>
    ensures { IfOk result (FirstLeads e.now.form (mode_of (option_copied wanted.entry))) }
{
    match &e.form {
        ExpForm::Binary(op, a, b) => {
            let wanted = left_wanted(alloc, *op, wanted)?;
            let e = a.get();
            let sides = Sides {
                op: *op,
                left: e.span,
                right: b.get(),
            };
            Ok(Some((Way::Left(sides), Asked { e, wanted })))
        }
        ExpForm::Negative(a) => {
            let e = a.get();
            let wanted = Some(NormalType::Int);
            Ok(Some((Way::Negated, Asked { e, wanted })))
        }
        ExpForm::Project(a, name) => {
            let e = a.get();
            let wanted = None;
            Ok(Some((Way::Projected(name), Asked { e, wanted })))
        }
        ExpForm::Remove(a, removed) => {
            let e = a.get();
            let wanted = None;
            Ok(Some((Way::Cut(removed), Asked { e, wanted })))
        }
        _ => Ok(None),
    }
}

/// One expression more is begun.
pub fn kept<'a>(begun: &mut List<Begun<'a>>, asked: Asked<'a>, way: Way<'a>) -> Result<(), Memory>
    ensures { OnOk result ((span : GhostSpan) × (begun.new ≡ begun.old ++ record { whole = record { span = span; wanted = asked.entry.wanted }; way = way.entry } ∷ [])) }
{
    let Asked { e, wanted } = asked;
    let whole = Whole {
        span: e.span,
        wanted,
    };
    begun.push(Begun { whole, way })?;
    Ok(())
}

/// Down the first parts of an expression, each of which is begun then.
pub fn descended<'a>(
    alloc: Global,
    begun: &mut List<Begun<'a>>,
    from: Asked<'a>,
) -> Result<Asked<'a>, Memory>
    ensures { IfOk result (GoesDown begun.old begun.new from.entry) }
{
    let mut next = from;
    for _turn in 0..TURNS {
        let part = first_part(alloc, next.e, next.wanted.as_ref())?;
        match part {
            Some((way, first)) => {
                kept(begun, next, way)?;
                next = first;
            }
            None => return Ok(next),
        }
    }
    Err(Memory)
}
