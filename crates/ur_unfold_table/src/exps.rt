//! The forms of expressions.
ghost use Rattle.ur_unfold_pieces.specs.Forming.{OpensExp};
ghost use Rattle.ur_unfold_pieces.specs.Moving.{Moves};

use crate::cases::cases_form;
use crate::computed::{cut_form, operator_form, project_form, static_form};
use crate::folds::fold_form;
use crate::named::{apply_form, name_form};
use crate::operators::unary_form;
use crate::parts::{all, boxed_one, boxed_two, held, leaf, nothing};
use crate::records::record_form;
use crate::shapes::{choice_form, each_form, text_form};
use crate::typed::{absent_form, empty_form, fail_form, xml_form};
use std::alloc::Global;
use ur_base::List;
use ur_meaning::{Halt, Head, Opened};
use ur_terms::Op;
use ur_tree::Exp;
use ur_unfold_pieces::{Opening, Piece};

/// The form of an expression.
pub fn exp_form<'a>(
    alloc: Global,
    table: &mut Opening<'a>,
    scope: u32,
    e: &'a Exp,
) -> Result<Opened<Piece<'a>>, Halt>
    ensures form { OpensExp table.old table.new scope e.now result }
    ensures moves { Moves table.old table.new }
{
    match e {
        Exp::Int(n) => leaf(alloc, Head::Int(*n)),
        Exp::Str(text) => text_form(alloc, text),
        Exp::Bool(b) => leaf(alloc, Head::Bool(*b)),
        Exp::Unit => leaf(alloc, Head::Strict(Op::Record(List::new(alloc)))),
        Exp::Variable(n) => leaf(alloc, Head::Variable(*n)),
        Exp::Fixed(_) => static_form(alloc, table, scope, e),
        Exp::Val(_) => static_form(alloc, table, scope, e),
        Exp::Function(k, cons) => name_form(alloc, table, scope, e, *k, cons),
        Exp::Apply(g, args) => apply_form(alloc, table, scope, g, args),
        Exp::Lambda(_, _) => nothing(alloc),
        Exp::Record(fields) => record_form(alloc, table, scope, fields),
        Exp::Project(a, label) => project_form(alloc, table, scope, e, a, label),
        Exp::Cut(a, label) => cut_form(alloc, table, scope, e, a, label),
        Exp::Unary(op, a) => unary_form(alloc, scope, *op, a),
        Exp::Binary(op, a, b) => operator_form(alloc, table, scope, e, *op, a, b),
        Exp::Absent(t) => absent_form(alloc, table, scope, t),
        Exp::Empty(t) => empty_form(alloc, table, scope, t),
        Exp::Fail(t, a) => fail_form(alloc, table, scope, t, a),
        Exp::Tagged(k, a) => held(alloc, Head::Strict(Op::Tagged(*k)), scope, a),
        Exp::If(c, a, b) => choice_form(alloc, scope, c, a, b),
        Exp::Case(a, branches) => cases_form(alloc, scope, a, branches),
        Exp::Let(_, a, body) => boxed_two(alloc, Head::Let, scope, a, body),
        Exp::Bind(a, body) => boxed_two(alloc, Head::Let, scope, a, body),
        Exp::Next(q) => leaf(alloc, Head::Strict(Op::Next(*q))),
        Exp::GetCookie(k) => leaf(alloc, Head::Strict(Op::GetCookie(*k))),
        Exp::SetCookie(k, a) => boxed_one(alloc, Head::Strict(Op::SetCookie(*k)), scope, a),
        Exp::Write(u, args) => all(alloc, Head::Strict(Op::Write(*u)), scope, args),
        Exp::Ask(how, q, args) => all(alloc, Head::Strict(Op::Ask(*how, *q)), scope, args),
        Exp::Each(q, args, body) => each_form(alloc, scope, *q, args, body),
        Exp::Fold {
            of: _,
            acc: _,
            step,
            start,
            row,
        } => fold_form(alloc, table, scope, e, step, start, row),
        Exp::Xml(t, parts) => xml_form(alloc, table, scope, t, parts),
    }
}
