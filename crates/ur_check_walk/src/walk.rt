//! An expression by its form.
ghost use Rattle.std.specs.Prelude.{◌≡◌, ◌≤◌, IfOk};
ghost use Rattle.std.specs.Option.{option_copied};
ghost use Rattle.ur_base.specs.Stopping.{IfRefused};
ghost use Rattle.ur_syntax.specs.declared.exp.ExpForm.TheVariants as form;
ghost use Rattle.ur_tree.specs.Make as make;
ghost use Rattle.ur_typed_rules.specs.Scopes.{Mode as GhostMode};
ghost use Rattle.ur_check_scopes.specs.Views.{mode_of};
ghost use Rattle.ur_check_walk.specs.Promises.{StandsSomewhere, Gives, GivesTyped, Tells};

use crate::applied::application;
use crate::begun::is_chain;
use crate::bound::{binding, branches, lambda, let_in};
use crate::chain::chain;
use crate::embedded::{change, each, query, set_cookie};
use crate::fields::record;
use crate::folded::fold;
use crate::leaves::leaf;
use crate::markup::literal;
use std::alloc::Global;
use ur_base::{Memory, Span, Stop};
use ur_check_rules::{Out, Sites, fail_of, return_out, settled, show_out, some_out, unary_out};
use ur_check_scopes::{Around, deeper, mismatch, of_option, of_transaction};
use ur_rows::{NormalType, copy_type};
use ur_syntax::{Binder, Exp, ExpForm};
use ur_tree::Unary;

/// How many levels an expression of this form takes, by what its functions need of the stack: four KiB each.
fn levels_of(form: &ExpForm) -> u32
    ensures { 1 ≤ result }
{
    match form {
        ExpForm::Xml(_, _, _) => 3,
        ExpForm::Fold(_, _, _, _) => 3,
        _ => 2,
    }
}

/// An expression with its type, which is accepted, and is the wanted one where one is wanted.
#[cycle(walk)]
pub fn typed(
    alloc: Global,
    around: &Around,
    sites: &mut Sites,
    e: &Exp,
    wanted: Option<&NormalType>,
) -> Result<Out, Stop>
    requires { StandsSomewhere around.now }
    ensures typed { IfOk result (λ o. GivesTyped around.now sites.old e.now.form (mode_of (option_copied wanted.entry)) o sites.new) }
    ensures refused { IfRefused result (Tells around.now sites.old e.now.form (mode_of (option_copied wanted.entry))) }
{
    if is_chain(&e.form) {
        chain(alloc, around, sites, e, wanted)
    } else {
        operand(alloc, around, sites, e, wanted)
    }
}

/// The same of an expression that is no chain. A chain is want of memory.
#[cycle(walk)]
pub fn operand(
    alloc: Global,
    around: &Around,
    sites: &mut Sites,
    e: &Exp,
    wanted: Option<&NormalType>,
) -> Result<Out, Stop>
    requires { StandsSomewhere around.now }
    ensures typed { IfOk result (λ o. GivesTyped around.now sites.old e.now.form (mode_of (option_copied wanted.entry)) o sites.new) }
    ensures refused { IfRefused result (Tells around.now sites.old e.now.form (mode_of (option_copied wanted.entry))) }
{
    let inner = deeper(around, levels_of(&e.form))?;
    let out = walk(alloc, &inner, sites, e, wanted)?;
    settled(alloc, around, e.span, out, wanted)
}

/// What an expression stands for, before its type is accepted and compared: applications and statements, or else a further
/// form.
#[cycle(walk)]
fn walk(
    alloc: Global,
    around: &Around,
    sites: &mut Sites,
    e: &Exp,
    wanted: Option<&NormalType>,
) -> Result<Out, Stop>
    requires { StandsSomewhere around.now }
    ensures typed { IfOk result (λ o. Gives around.now sites.old e.now.form (mode_of (option_copied wanted.entry)) o sites.new) }
    ensures refused { IfRefused result (Tells around.now sites.old e.now.form (mode_of (option_copied wanted.entry))) }
{
    match &e.form {
        ExpForm::App(f, a) => application(alloc, around, sites, e.span, f.get(), a.get()),
        ExpForm::Not(a) => denied(alloc, around, sites, a.get()),
        ExpForm::Bind(x, a, b) => binding(alloc, around, sites, x, a.get(), b.get(), wanted),
        ExpForm::Seq(a, b) => sequence(alloc, around, sites, a.get(), b.get(), wanted),
        _ => walk_further(alloc, around, sites, e, wanted),
    }
}

/// Branches, binders, records and XML, or else a further form.
#[cycle(walk)]
fn walk_further(
    alloc: Global,
    around: &Around,
    sites: &mut Sites,
    e: &Exp,
    wanted: Option<&NormalType>,
) -> Result<Out, Stop>
    requires { StandsSomewhere around.now }
    ensures typed { IfOk result (λ o. Gives around.now sites.old e.now.form (mode_of (option_copied wanted.entry)) o sites.new) }
    ensures refused { IfRefused result (Tells around.now sites.old e.now.form (mode_of (option_copied wanted.entry))) }
{
    match &e.form {
        ExpForm::Lambda(params, body) => {
            lambda(
                alloc,
                around,
                sites,
                e.span,
                params.as_slice(),
                body.get(),
                wanted,
            )
        }
        ExpForm::Case(a, list) => {
            branches(
                alloc,
                around,
                sites,
                e.span,
                a.get(),
                list.as_slice(),
                wanted,
            )
        }
        ExpForm::Let(vals, body) => {
            let_in(
                alloc,
                around,
                sites,
                e.span,
                vals.as_slice(),
                body.get(),
                wanted,
            )
        }
        ExpForm::Record(list) => record(alloc, around, sites, e.span, list.as_slice(), wanted),
        ExpForm::Return(a) => returned(alloc, around, sites, a.get(), wanted),
        ExpForm::Some(a) => present(alloc, around, sites, a.get(), wanted),
        ExpForm::Xml(xml, splices, attributes) => {
            literal(
                alloc, around, sites, e.span, xml, splices, attributes, wanted,
            )
        }
        _ => walk_statement(alloc, around, sites, e, wanted),
    }
}

/// Statements, folds and what is shown or fails, or else an expression without parts.
#[cycle(walk)]
fn walk_statement(
    alloc: Global,
    around: &Around,
    sites: &mut Sites,
    e: &Exp,
    wanted: Option<&NormalType>,
) -> Result<Out, Stop>
    requires { StandsSomewhere around.now }
    ensures typed { IfOk result (λ o. Gives around.now sites.old e.now.form (mode_of (option_copied wanted.entry)) o sites.new) }
    ensures refused { IfRefused result (Tells around.now sites.old e.now.form (mode_of (option_copied wanted.entry))) }
{
    match &e.form {
        ExpForm::Show(a) => shown(alloc, around, sites, a.get()),
        ExpForm::Error(a) => failed(alloc, around, sites, e.span, a.get(), wanted),
        ExpForm::SetCookie(name, a) => set_cookie(alloc, around, sites, name, a.get()),
        ExpForm::Fold(of, step, start, row) => {
            fold(alloc, around, sites, of, step.get(), start.get(), row)
        }
        ExpForm::Dml(written, args) => change(alloc, around, sites, written, args.as_slice()),
        ExpForm::Query(how, written, args) => {
            query(alloc, around, sites, *how, written, args.as_slice())
        }
        ExpForm::QueryX(written, args, f) => {
            each(
                alloc,
                around,
                sites,
                written,
                args.as_slice(),
                f.get(),
                wanted,
            )
        }
        _ => {
            let made = leaf(alloc, around, e, wanted)?;
            Ok(made)
        }
    }
}

/// `a; b`.
#[cycle(walk)]
fn sequence(
    alloc: Global,
    around: &Around,
    sites: &mut Sites,
    a: &Exp,
    b: &Exp,
    wanted: Option<&NormalType>,
) -> Result<Out, Stop>
    requires { StandsSomewhere around.now }
    ensures typed { IfOk result (λ o. Gives around.now sites.old (form.Seq a.now b.now) (mode_of (option_copied wanted.entry)) o sites.new) }
    ensures refused { IfRefused result (Tells around.now sites.old (form.Seq a.now b.now) (mode_of (option_copied wanted.entry))) }
{
    binding(alloc, around, sites, &Binder::Ignored, a, b, wanted)
}

#[cycle(walk)]
fn denied(alloc: Global, around: &Around, sites: &mut Sites, a: &Exp) -> Result<Out, Stop>
    requires { StandsSomewhere around.now }
    ensures typed { IfOk result (λ o. (m : GhostMode) → Gives around.now sites.old (form.Not a.now) m o sites.new) }
    ensures refused { IfRefused result (λ r. (m : GhostMode) → Tells around.now sites.old (form.Not a.now) m r) }
{
    let out = typed(alloc, around, sites, a, Some(&NormalType::Bool))?;
    let made = unary_out(alloc, Unary::Not, NormalType::Bool, out)?;
    Ok(made)
}

#[cycle(walk)]
fn shown(alloc: Global, around: &Around, sites: &mut Sites, a: &Exp) -> Result<Out, Stop>
    requires { StandsSomewhere around.now }
    ensures typed { IfOk result (λ o. (m : GhostMode) → Gives around.now sites.old (form.Show a.now) m o sites.new) }
    ensures refused { IfRefused result (λ r. (m : GhostMode) → Tells around.now sites.old (form.Show a.now) m r) }
{
    let out = typed(alloc, around, sites, a, None)?;
    let made = show_out(alloc, around, a.span, out)?;
    Ok(made)
}

#[cycle(walk)]
fn present(
    alloc: Global,
    around: &Around,
    sites: &mut Sites,
    a: &Exp,
    wanted: Option<&NormalType>,
) -> Result<Out, Stop>
    requires { StandsSomewhere around.now }
    ensures typed { IfOk result (λ o. Gives around.now sites.old (form.Some a.now) (mode_of (option_copied wanted.entry)) o sites.new) }
    ensures refused { IfRefused result (Tells around.now sites.old (form.Some a.now) (mode_of (option_copied wanted.entry))) }
{
    let inside = of_option(wanted);
    let out = typed(alloc, around, sites, a, inside)?;
    let made = some_out(alloc, out)?;
    Ok(made)
}

#[cycle(walk)]
fn returned(
    alloc: Global,
    around: &Around,
    sites: &mut Sites,
    a: &Exp,
    wanted: Option<&NormalType>,
) -> Result<Out, Stop>
    requires { StandsSomewhere around.now }
    ensures typed { IfOk result (λ o. Gives around.now sites.old (form.Return a.now) (mode_of (option_copied wanted.entry)) o sites.new) }
    ensures refused { IfRefused result (Tells around.now sites.old (form.Return a.now) (mode_of (option_copied wanted.entry))) }
{
    let inside = of_transaction(wanted);
    let out = typed(alloc, around, sites, a, inside)?;
    let made = return_out(alloc, out)?;
    Ok(made)
}

#[cycle(walk)]
fn failed(
    alloc: Global,
    around: &Around,
    sites: &mut Sites,
    span: Span,
    a: &Exp,
    wanted: Option<&NormalType>,
) -> Result<Out, Stop>
    requires { StandsSomewhere around.now }
    ensures typed { IfOk result (λ o. Gives around.now sites.old (form.Error a.now) (mode_of (option_copied wanted.entry)) o sites.new) }
    ensures refused { IfRefused result (Tells around.now sites.old (form.Error a.now) (mode_of (option_copied wanted.entry))) }
{
    match wanted {
        None => Err(mismatch(alloc, span, b"error", b"annotation")),
        Some(t) => {
            let out = typed(alloc, around, sites, a, Some(&NormalType::Xbody))?;
            let made = failing(alloc, t, out)?;
            Ok(made)
        }
    }
}

fn failing(alloc: Global, t: &NormalType, out: Out) -> Result<Out, Memory>
    ensures of { IfOk result (λ o. o.of ≡ t.now) }
    ensures exp { IfOk result (λ o. o.exp ≡ make.fail t.now out.exp) }
{
    let of = copy_type(alloc, t)?;
    let at = copy_type(alloc, t)?;
    let exp = fail_of(alloc, at, out.exp)?;
    Ok(Out { of, exp })
}
