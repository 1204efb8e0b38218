//! The targets of links and actions that stand in expressions.
ghost use Rattle.std.specs.Prelude.{◌≡◌};
ghost use Rattle.ur_check_heads.specs.Words.{exp_aims, exps_aim, field_aims, fields_aim, branch_aims, branches_aim, held_aims, part_aims, parts_aim};

use crate::aims::{Aims, mark_get, mark_post};
use ur_base::Boxed;
use ur_tree::{Branch, Exp, FieldExp, Markup};

/// Marks the targets in an expression.
#[cycle(occurring)]
#[tactic(auto, using(crate::proofs::Words::in_forms))]
pub fn in_exp(aims: &mut Aims, e: &Exp)
    ensures { aims.new ≡ exp_aims e.now aims.old }
{
    match e {
        Exp::Int(_) => {}
        Exp::Str(_) => {}
        Exp::Bool(_) => {}
        Exp::Unit => {}
        Exp::Variable(_) => {}
        Exp::Fixed(_) => {}
        Exp::Val(_) => {}
        Exp::Function(_, _) => {}
        Exp::Apply(f, args) => {
            in_exp(aims, f.get());
            in_exps(aims, args.as_slice());
        }
        Exp::Lambda(_, body) => in_exp(aims, body.get()),
        Exp::Record(fields) => in_fields(aims, fields.as_slice()),
        Exp::Project(a, _) => in_exp(aims, a.get()),
        Exp::Cut(a, _) => in_exp(aims, a.get()),
        Exp::Unary(_, a) => in_exp(aims, a.get()),
        Exp::Binary(_, a, b) => {
            in_exp(aims, a.get());
            in_exp(aims, b.get());
        }
        Exp::Absent(_) => {}
        Exp::Empty(_) => {}
        Exp::Fail(_, a) => in_exp(aims, a.get()),
        Exp::Tagged(_, held) => in_held(aims, held),
        Exp::If(c, a, b) => {
            in_exp(aims, c.get());
            in_exp(aims, a.get());
            in_exp(aims, b.get());
        }
        Exp::Case(a, branches) => {
            in_exp(aims, a.get());
            in_branches(aims, branches.as_slice());
        }
        Exp::Let(_, a, b) => {
            in_exp(aims, a.get());
            in_exp(aims, b.get());
        }
        Exp::Bind(a, b) => {
            in_exp(aims, a.get());
            in_exp(aims, b.get());
        }
        Exp::Next(_) => {}
        Exp::GetCookie(_) => {}
        Exp::SetCookie(_, a) => in_exp(aims, a.get()),
        Exp::Write(_, args) => in_exps(aims, args.as_slice()),
        Exp::Ask(_, _, args) => in_exps(aims, args.as_slice()),
        Exp::Each(_, args, body) => {
            in_exps(aims, args.as_slice());
            in_exp(aims, body.get());
        }
        Exp::Fold { step, start, .. } => {
            in_exp(aims, step.get());
            in_exp(aims, start.get());
        }
        Exp::Xml(_, parts) => in_parts(aims, parts.as_slice()),
    }
}

#[cycle(occurring)]
#[tactic(auto, using(crate::proofs::Words::in_lists))]
pub fn in_exps(aims: &mut Aims, list: &[Exp])
    ensures { aims.new ≡ exps_aim list.now aims.old }
{
    for i in 0..list.len() {
        in_exp(aims, &list[i]);
    }
}

#[cycle(occurring)]
#[tactic(auto, using(crate::proofs::Words::in_lists))]
fn in_held(aims: &mut Aims, held: &Option<Boxed<Exp>>)
    ensures { aims.new ≡ held_aims held.now aims.old }
{
    match held {
        None => {}
        Some(e) => in_exp(aims, e.get()),
    }
}

#[cycle(occurring)]
#[tactic(auto, using(crate::proofs::Words::in_lists))]
fn in_fields(aims: &mut Aims, list: &[FieldExp])
    ensures { aims.new ≡ fields_aim list.now aims.old }
{
    for i in 0..list.len() {
        in_field(aims, &list[i]);
    }
}

#[cycle(occurring)]
#[tactic(auto, using(crate::proofs::Words::in_lists))]
fn in_field(aims: &mut Aims, field: &FieldExp)
    ensures { aims.new ≡ field_aims field.now aims.old }
{
    in_exp(aims, &field.of)
}

#[cycle(occurring)]
#[tactic(auto, using(crate::proofs::Words::in_lists))]
fn in_branches(aims: &mut Aims, list: &[Branch])
    ensures { aims.new ≡ branches_aim list.now aims.old }
{
    for i in 0..list.len() {
        in_branch(aims, &list[i]);
    }
}

#[cycle(occurring)]
#[tactic(auto, using(crate::proofs::Words::in_lists))]
fn in_branch(aims: &mut Aims, branch: &Branch)
    ensures { aims.new ≡ branch_aims branch.now aims.old }
{
    in_exp(aims, &branch.body)
}

#[cycle(occurring)]
#[tactic(auto, using(crate::proofs::Words::in_lists))]
fn in_parts(aims: &mut Aims, list: &[Markup])
    ensures { aims.new ≡ parts_aim list.now aims.old }
{
    for i in 0..list.len() {
        in_part(aims, &list[i]);
    }
}

#[cycle(occurring)]
#[tactic(auto, using(crate::proofs::Words::in_markup))]
fn in_part(aims: &mut Aims, part: &Markup)
    ensures { aims.new ≡ part_aims part.now aims.old }
{
    match part {
        Markup::Text(_) => {}
        Markup::Shown(e) => in_exp(aims, e),
        Markup::Splice(e) => in_exp(aims, e),
        Markup::Element(_, parts) => in_parts(aims, parts.as_slice()),
        Markup::Link(number, args, parts) => {
            mark_get(aims, *number);
            in_exps(aims, args.as_slice());
            in_parts(aims, parts.as_slice());
        }
        Markup::Input(_, _, held) => in_held(aims, held),
        Markup::Submit(number, args, held) => {
            mark_post(aims, *number);
            in_exps(aims, args.as_slice());
            in_held(aims, held);
        }
    }
}
