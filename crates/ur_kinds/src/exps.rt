//! The events of expressions.
ghost use Rattle.std.specs.Prelude.{◌≡◌, [], ◌∷◌, ◌++◌, OnOk, IfOk, flat_map, map, slice_get};
ghost use Rattle.ur_names.specs.Skeletons.{in_xml_part, in_query, in_change};
ghost use Rattle.ur_kinds.specs.Acts.{acts};
ghost use Rattle.ur_kinds.specs.Exps.{in_binder, in_param, in_lambda_param, in_argument, in_pat, at_mark, at_marks, in_exp, in_written_exp, in_field, in_branch, in_let, each_of, if_given};

use crate::event::Event;
use crate::log::{close, con_param, label, open, rowed, tell, told, typed, used};
use std::alloc::Global;
use ur_base::{List, Memory, Span};
use ur_names::{Mark, change, parts, query};
use ur_syntax::{
    Argument, Binder, Branch, Exp, ExpForm, Field, LambdaParam, LetVal, Param, PatForm, SqlChange,
    SqlQuery, XmlPart,
};

fn binder<'a>(out: &mut List<Event<'a>>, x: &'a Binder) -> Result<(), Memory>
    ensures { OnOk result (acts out.new ≡ acts out.old ++ in_binder x.now) }
{
    match x {
        Binder::Ignored => Ok(()),
        Binder::Named(x) => {
            tell(out, Event::Local(x))?;
            Ok(())
        }
    }
}

/// The events of a value parameter.
pub fn param<'a>(out: &mut List<Event<'a>>, p: &'a Param) -> Result<(), Memory>
    ensures { OnOk result (acts out.new ≡ acts out.old ++ in_param p.now) }
{
    match p {
        Param::Value(x, c) => {
            binder(out, x)?;
            typed(out, c)?;
            Ok(())
        }
        Param::Unit => Ok(()),
    }
}

fn lambda_param<'a>(out: &mut List<Event<'a>>, span: Span, p: &'a LambdaParam) -> Result<(), Memory>
    ensures { OnOk result (acts out.new ≡ acts out.old ++ in_lambda_param span p.now) }
{
    match p {
        LambdaParam::Typed(q) => {
            param(out, q)?;
            Ok(())
        }
        LambdaParam::Con(q) => {
            con_param(out, span, q)?;
            Ok(())
        }
        LambdaParam::Bare(x) => {
            binder(out, x)?;
            Ok(())
        }
    }
}

fn lambda_params<'a>(
    out: &mut List<Event<'a>>,
    span: Span,
    params: &'a [LambdaParam],
) -> Result<(), Memory>
    ensures { OnOk result (acts out.new ≡ acts out.old ++ flat_map (in_lambda_param span) params.now) }
{
    for p in params {
        lambda_param(out, span, p)?;
    }
    Ok(())
}

fn argument<'a>(out: &mut List<Event<'a>>, a: &'a Argument) -> Result<(), Memory>
    ensures { OnOk result (acts out.new ≡ acts out.old ++ in_argument a.now) }
{
    match a {
        Argument::Absent => Ok(()),
        Argument::Bound(x) => {
            binder(out, x)?;
            Ok(())
        }
    }
}

fn pat<'a>(out: &mut List<Event<'a>>, p: &'a PatForm) -> Result<(), Memory>
    ensures { OnOk result (acts out.new ≡ acts out.old ++ in_pat p.now) }
{
    match p {
        PatForm::Var(x) => {
            tell(out, Event::Local(x))?;
            Ok(())
        }
        PatForm::Some(x) => {
            binder(out, x)?;
            Ok(())
        }
        PatForm::Cons(x, y) => {
            binder(out, x)?;
            binder(out, y)?;
            Ok(())
        }
        PatForm::Constructor(_, y) => {
            argument(out, y)?;
            Ok(())
        }
        PatForm::Member(_, _, y) => {
            argument(out, y)?;
            Ok(())
        }
        _ => Ok(()),
    }
}

/// The events of an expression.
#[cycle(exp)]
pub fn exp<'a>(alloc: Global, out: &mut List<Event<'a>>, e: &'a Exp) -> Result<(), Memory>
    ensures { OnOk result (acts out.new ≡ acts out.old ++ in_exp e.now.span e.now.form) }
{
    match &e.form {
        ExpForm::Bind(x, a, b) => {
            exp(alloc, out, a.get())?;
            open(out)?;
            binder(out, x)?;
            exp(alloc, out, b.get())?;
            close(out)?;
            Ok(())
        }
        ExpForm::Seq(a, b) => {
            exp(alloc, out, a.get())?;
            exp(alloc, out, b.get())?;
            Ok(())
        }
        ExpForm::If(a, b, c) => {
            exp(alloc, out, a.get())?;
            exp(alloc, out, b.get())?;
            exp(alloc, out, c.get())?;
            Ok(())
        }
        ExpForm::Lambda(params, a) => {
            open(out)?;
            lambda_params(out, e.span, params.as_slice())?;
            exp(alloc, out, a.get())?;
            close(out)?;
            Ok(())
        }
        ExpForm::Case(a, branches) => {
            exp(alloc, out, a.get())?;
            all_branches(alloc, out, branches.as_slice())?;
            Ok(())
        }
        ExpForm::Binary(_, a, b) => {
            exp(alloc, out, a.get())?;
            exp(alloc, out, b.get())?;
            Ok(())
        }
        ExpForm::Remove(a, gone) => {
            exp(alloc, out, a.get())?;
            label(alloc, out, gone.span, &gone.name)?;
            Ok(())
        }
        ExpForm::Negative(a) => {
            exp(alloc, out, a.get())?;
            Ok(())
        }
        ExpForm::App(a, b) => {
            exp(alloc, out, a.get())?;
            exp(alloc, out, b.get())?;
            Ok(())
        }
        ExpForm::ConApp(a, c) => {
            exp(alloc, out, a.get())?;
            tell(out, Event::Argument(a.get(), c))?;
            Ok(())
        }
        ExpForm::Project(a, x) => {
            exp(alloc, out, a.get())?;
            label(alloc, out, e.span, x)?;
            Ok(())
        }
        ExpForm::Int(_) => Ok(()),
        ExpForm::Str(_) => Ok(()),
        ExpForm::Var(_) => Ok(()),
        ExpForm::Constructor(_) => Ok(()),
        ExpForm::Member(_, _) => Ok(()),
        ExpForm::MemberConstructor(_, _) => Ok(()),
        ExpForm::Unit => Ok(()),
        ExpForm::Record(fields) => {
            record(alloc, out, e.span, fields.as_slice())?;
            Ok(())
        }
        ExpForm::Nil => Ok(()),
        ExpForm::Xml(x, splices, attributes) => {
            let told = each_of(alloc, attributes.as_slice())?;
            xml(alloc, out, splices.as_slice(), told, x.parts.as_slice())?;
            Ok(())
        }
        ExpForm::Let(vals, a) => {
            open(out)?;
            all_vals(alloc, out, vals.as_slice())?;
            exp(alloc, out, a.get())?;
            close(out)?;
            Ok(())
        }
        ExpForm::Return(a) => {
            exp(alloc, out, a.get())?;
            Ok(())
        }
        ExpForm::Show(a) => {
            exp(alloc, out, a.get())?;
            Ok(())
        }
        ExpForm::Not(a) => {
            exp(alloc, out, a.get())?;
            Ok(())
        }
        ExpForm::Error(a) => {
            exp(alloc, out, a.get())?;
            Ok(())
        }
        ExpForm::Some(a) => {
            exp(alloc, out, a.get())?;
            Ok(())
        }
        ExpForm::Nextval(_) => Ok(()),
        ExpForm::GetCookie(_) => Ok(()),
        ExpForm::SetCookie(_, a) => {
            exp(alloc, out, a.get())?;
            Ok(())
        }
        ExpForm::Dml(c, antiquotes) => {
            dml(alloc, out, c, antiquotes.as_slice())?;
            Ok(())
        }
        ExpForm::Query(_, q, antiquotes) => {
            asked(alloc, out, q, antiquotes.as_slice())?;
            Ok(())
        }
        ExpForm::QueryX(q, antiquotes, f) => {
            asked(alloc, out, q, antiquotes.as_slice())?;
            exp(alloc, out, f.get())?;
            Ok(())
        }
        ExpForm::Fold(c, a, b, d) => {
            tell(out, Event::Fold(c))?;
            exp(alloc, out, a.get())?;
            exp(alloc, out, b.get())?;
            rowed(out, d)?;
            Ok(())
        }
    }
}

#[cycle(exp)]
fn record<'a>(
    alloc: Global,
    out: &mut List<Event<'a>>,
    span: Span,
    fields: &'a [Field],
) -> Result<(), Memory>
    ensures { OnOk result (acts out.new ≡ acts out.old ++ flat_map (in_field span) fields.now) }
{
    for f in fields {
        field(alloc, out, span, f)?;
    }
    Ok(())
}

#[cycle(exp)]
fn field<'a>(
    alloc: Global,
    out: &mut List<Event<'a>>,
    span: Span,
    f: &'a Field,
) -> Result<(), Memory>
    ensures { OnOk result (acts out.new ≡ acts out.old ++ in_field span f.now) }
{
    label(alloc, out, span, &f.name)?;
    exp(alloc, out, &f.value)?;
    Ok(())
}

#[cycle(exp)]
fn all_branches<'a>(
    alloc: Global,
    out: &mut List<Event<'a>>,
    branches: &'a [Branch],
) -> Result<(), Memory>
    ensures { OnOk result (acts out.new ≡ acts out.old ++ flat_map in_branch branches.now) }
{
    for b in branches {
        branch(alloc, out, b)?;
    }
    Ok(())
}

#[cycle(exp)]
fn branch<'a>(alloc: Global, out: &mut List<Event<'a>>, b: &'a Branch) -> Result<(), Memory>
    ensures { OnOk result (acts out.new ≡ acts out.old ++ in_branch b.now) }
{
    open(out)?;
    pat(out, &b.pat.form)?;
    exp(alloc, out, &b.body)?;
    close(out)?;
    Ok(())
}

#[cycle(exp)]
fn all_vals<'a>(alloc: Global, out: &mut List<Event<'a>>, vals: &'a [LetVal]) -> Result<(), Memory>
    ensures { OnOk result (acts out.new ≡ acts out.old ++ flat_map in_let vals.now) }
{
    for v in vals {
        let_val(alloc, out, v)?;
    }
    Ok(())
}

#[cycle(exp)]
fn let_val<'a>(alloc: Global, out: &mut List<Event<'a>>, v: &'a LetVal) -> Result<(), Memory>
    ensures { OnOk result (acts out.new ≡ acts out.old ++ in_let v.now) }
{
    typed(out, &v.con)?;
    exp(alloc, out, &v.value)?;
    tell(out, Event::Local(&v.name))?;
    Ok(())
}

/// What stands at the marks of a text.
#[cycle(exp)]
fn marked<'a>(
    alloc: Global,
    out: &mut List<Event<'a>>,
    splices: &'a [Exp],
    attributes: &[List<Event<'a>>],
    marks: &[Mark],
) -> Result<(), Memory>
    ensures { OnOk result (acts out.new ≡ acts out.old ++ at_marks (each_of splices.now) (map acts attributes.now) marks.now) }
{
    for mark in marks {
        at_mark(alloc, out, splices, attributes, mark)?;
    }
    Ok(())
}

#[cycle(exp)]
fn at_mark<'a>(
    alloc: Global,
    out: &mut List<Event<'a>>,
    splices: &'a [Exp],
    attributes: &[List<Event<'a>>],
    mark: &Mark,
) -> Result<(), Memory>
    ensures { OnOk result (acts out.new ≡ acts out.old ++ at_mark (each_of splices.now) (map acts attributes.now) mark.now) }
{
    match mark {
        Mark::Own(sort, span, x) => {
            used(alloc, out, *sort, *span, x)?;
            Ok(())
        }
        Mark::Member(_, _, _, _) => Ok(()),
        Mark::Splice(n) => {
            numbered(alloc, out, splices, *n)?;
            Ok(())
        }
        Mark::Attribute(n) => {
            told(alloc, out, attributes, *n)?;
            Ok(())
        }
    }
}

#[cycle(exp)]
fn numbered<'a>(
    alloc: Global,
    out: &mut List<Event<'a>>,
    es: &'a [Exp],
    n: u32,
) -> Result<(), Memory>
    ensures { OnOk result (acts out.new ≡ acts out.old ++ if_given (slice_get (each_of es.now) n)) }
{
    let n = n as usize;
    if n < es.len() {
        exp(alloc, out, &es[n])?;
    }
    Ok(())
}

/// The events of each of some expressions.
#[cycle(exp)]
fn each_of<'a>(alloc: Global, es: &'a [Exp]) -> Result<List<List<Event<'a>>>, Memory>
    ensures { IfOk result (λ all. map acts all ≡ each_of es.now) }
{
    let mut all = List::new(alloc);
    for e in es {
        let mut events = List::new(alloc);
        exp(alloc, &mut events, e)?;
        all.push(events)?;
    }
    Ok(all)
}

#[cycle(exp)]
fn xml<'a>(
    alloc: Global,
    out: &mut List<Event<'a>>,
    splices: &'a [Exp],
    attributes: List<List<Event<'a>>>,
    xs: &[XmlPart],
) -> Result<(), Memory>
    ensures { OnOk result (acts out.new ≡ acts out.old ++ at_marks (each_of splices.now) (map acts attributes.entry) (flat_map in_xml_part xs.now)) }
{
    let mut marks = List::new(alloc);
    parts(alloc, &mut marks, xs)?;
    marked(alloc, out, splices, attributes.as_slice(), marks.as_slice())?;
    Ok(())
}

#[cycle(exp)]
fn asked<'a>(
    alloc: Global,
    out: &mut List<Event<'a>>,
    q: &SqlQuery,
    antiquotes: &'a [Exp],
) -> Result<(), Memory>
    ensures { OnOk result (acts out.new ≡ acts out.old ++ at_marks (each_of antiquotes.now) [] (in_query q.now)) }
{
    let none: List<List<Event<'a>>> = List::new(alloc);
    let mut marks = List::new(alloc);
    query(alloc, &mut marks, q)?;
    marked(alloc, out, antiquotes, none.as_slice(), marks.as_slice())?;
    Ok(())
}

#[cycle(exp)]
fn dml<'a>(
    alloc: Global,
    out: &mut List<Event<'a>>,
    c: &SqlChange,
    antiquotes: &'a [Exp],
) -> Result<(), Memory>
    ensures { OnOk result (acts out.new ≡ acts out.old ++ at_marks (each_of antiquotes.now) [] (in_change c.now)) }
{
    let none: List<List<Event<'a>>> = List::new(alloc);
    let mut marks = List::new(alloc);
    change(alloc, &mut marks, c)?;
    marked(alloc, out, antiquotes, none.as_slice(), marks.as_slice())?;
    Ok(())
}
