//! The events of expressions.
ghost use Rattle.std.specs.Prelude.{◌≡◌, [], ◌∷◌, ◌++◌, OnOk, IfOk, flat_map, slice_get};
ghost use Rattle.ur_names.specs.Skeletons.{in_xml_part, in_query, in_change};
ghost use Rattle.ur_names.specs.Exps.{in_binder, in_new, in_param, in_lambda_param, in_argument, in_pat_form, in_constructor, at_mark, at_marks, in_exp, in_written_exp, in_field, in_branch, in_let, each_of, is_constant, if_given};

use crate::cons::{con, con_param, label};
use crate::event::{Event, Mark, Sort};
use crate::log::{bind, close, declared, given, member, open, own, told};
use crate::texts::{change, parts, query};
use std::alloc::Global;
use ur_base::{List, Memory, Span, Text};
use ur_syntax::{
    Argument, Binder, Branch, Exp, ExpForm, Field, LambdaParam, LetVal, Param, Pat, PatForm,
    SqlChange, SqlQuery, XmlPart,
};

fn binder(alloc: Global, out: &mut List<Event>, x: &Binder) -> Result<(), Memory>
    ensures { OnOk result (out.new ≡ out.old ++ in_binder x.now) }
{
    match x {
        Binder::Ignored => Ok(()),
        Binder::Named(x) => {
            bind(alloc, out, Sort::Value, x)?;
            Ok(())
        }
    }
}

fn new_binder(alloc: Global, out: &mut List<Event>, span: Span, x: &Binder) -> Result<(), Memory>
    ensures { OnOk result (out.new ≡ out.old ++ in_new span x.now) }
{
    match x {
        Binder::Ignored => Ok(()),
        Binder::Named(x) => {
            given(alloc, out, Sort::Value, span, x)?;
            bind(alloc, out, Sort::Value, x)?;
            Ok(())
        }
    }
}

/// The events of a value parameter.
pub fn param(alloc: Global, out: &mut List<Event>, span: Span, p: &Param) -> Result<(), Memory>
    ensures { OnOk result (out.new ≡ out.old ++ in_param span p.now) }
{
    match p {
        Param::Value(x, c) => {
            new_binder(alloc, out, span, x)?;
            con(alloc, out, c)?;
            Ok(())
        }
        Param::Unit => Ok(()),
    }
}

fn lambda_param(
    alloc: Global,
    out: &mut List<Event>,
    span: Span,
    p: &LambdaParam,
) -> Result<(), Memory>
    ensures { OnOk result (out.new ≡ out.old ++ in_lambda_param span p.now) }
{
    match p {
        LambdaParam::Typed(q) => {
            param(alloc, out, span, q)?;
            Ok(())
        }
        LambdaParam::Con(q) => {
            con_param(alloc, out, span, q)?;
            Ok(())
        }
        LambdaParam::Bare(x) => {
            new_binder(alloc, out, span, x)?;
            Ok(())
        }
    }
}

fn lambda_params(
    alloc: Global,
    out: &mut List<Event>,
    span: Span,
    params: &[LambdaParam],
) -> Result<(), Memory>
    ensures { OnOk result (out.new ≡ out.old ++ flat_map (in_lambda_param span) params.now) }
{
    for p in params {
        lambda_param(alloc, out, span, p)?;
    }
    Ok(())
}

fn argument(alloc: Global, out: &mut List<Event>, span: Span, a: &Argument) -> Result<(), Memory>
    ensures { OnOk result (out.new ≡ out.old ++ in_argument span a.now) }
{
    match a {
        Argument::Absent => Ok(()),
        Argument::Bound(x) => {
            new_binder(alloc, out, span, x)?;
            Ok(())
        }
    }
}

fn pat(alloc: Global, out: &mut List<Event>, p: &Pat) -> Result<(), Memory>
    ensures { OnOk result (out.new ≡ out.old ++ in_pat_form p.now.span p.now.form) }
{
    match &p.form {
        PatForm::Var(x) => {
            given(alloc, out, Sort::Value, p.span, x)?;
            bind(alloc, out, Sort::Value, x)?;
            Ok(())
        }
        PatForm::Some(x) => {
            new_binder(alloc, out, p.span, x)?;
            Ok(())
        }
        PatForm::Cons(x, y) => {
            new_binder(alloc, out, p.span, x)?;
            new_binder(alloc, out, p.span, y)?;
            Ok(())
        }
        PatForm::Constructor(x, y) => {
            own(alloc, out, Sort::Constructor, p.span, x)?;
            argument(alloc, out, p.span, y)?;
            Ok(())
        }
        PatForm::Member(m, x, y) => {
            member(alloc, out, Sort::Constructor, p.span, m, x)?;
            argument(alloc, out, p.span, y)?;
            Ok(())
        }
        _ => Ok(()),
    }
}

/// Whether a word is a constant, and no constructor of a datatype.
fn is_constant(x: &[u8]) -> bool
    ensures { result ≡ is_constant x.now }
{
    x == b"True".as_slice() || x == b"False".as_slice() || x == b"None".as_slice()
}

fn constructor(alloc: Global, out: &mut List<Event>, span: Span, x: &Text) -> Result<(), Memory>
    ensures { OnOk result (out.new ≡ out.old ++ in_constructor span x.now) }
{
    if is_constant(x.as_slice()) {
        return Ok(());
    }
    own(alloc, out, Sort::Constructor, span, x)?;
    Ok(())
}

/// The events of an expression.
#[cycle(exp)]
pub fn exp(alloc: Global, out: &mut List<Event>, e: &Exp) -> Result<(), Memory>
    ensures { OnOk result (out.new ≡ out.old ++ in_exp e.now.span e.now.form) }
{
    match &e.form {
        ExpForm::Bind(x, a, b) => {
            exp(alloc, out, a.get())?;
            open(out)?;
            binder(alloc, out, x)?;
            exp(alloc, out, b.get())?;
            close(out)?;
            Ok(())
        }
        ExpForm::Seq(a, b) => {
            exp(alloc, out, a.get())?;
            exp(alloc, out, b.get())?;
            Ok(())
        }
        ExpForm::If(a, b, c) => {
            exp(alloc, out, a.get())?;
            exp(alloc, out, b.get())?;
            exp(alloc, out, c.get())?;
            Ok(())
        }
        ExpForm::Lambda(params, a) => {
            open(out)?;
            lambda_params(alloc, out, e.span, params.as_slice())?;
            exp(alloc, out, a.get())?;
            close(out)?;
            Ok(())
        }
        ExpForm::Case(a, branches) => {
            exp(alloc, out, a.get())?;
            all_branches(alloc, out, branches.as_slice())?;
            Ok(())
        }
        ExpForm::Binary(_, a, b) => {
            exp(alloc, out, a.get())?;
            exp(alloc, out, b.get())?;
            Ok(())
        }
        ExpForm::Remove(a, gone) => {
            exp(alloc, out, a.get())?;
            label(alloc, out, gone.span, &gone.name)?;
            Ok(())
        }
        ExpForm::Negative(a) => {
            exp(alloc, out, a.get())?;
            Ok(())
        }
        ExpForm::App(a, b) => {
            exp(alloc, out, a.get())?;
            exp(alloc, out, b.get())?;
            Ok(())
        }
        ExpForm::ConApp(a, c) => {
            exp(alloc, out, a.get())?;
            con(alloc, out, c)?;
            Ok(())
        }
        ExpForm::Project(a, x) => {
            exp(alloc, out, a.get())?;
            label(alloc, out, e.span, x)?;
            Ok(())
        }
        ExpForm::Int(_) => Ok(()),
        ExpForm::Str(_) => Ok(()),
        ExpForm::Var(x) => {
            own(alloc, out, Sort::Value, e.span, x)?;
            Ok(())
        }
        ExpForm::Constructor(x) => {
            constructor(alloc, out, e.span, x)?;
            Ok(())
        }
        ExpForm::Member(m, x) => {
            member(alloc, out, Sort::Value, e.span, m, x)?;
            Ok(())
        }
        ExpForm::MemberConstructor(m, x) => {
            member(alloc, out, Sort::Constructor, e.span, m, x)?;
            Ok(())
        }
        ExpForm::Unit => Ok(()),
        ExpForm::Record(fields) => {
            record(alloc, out, e.span, fields.as_slice())?;
            Ok(())
        }
        ExpForm::Nil => Ok(()),
        ExpForm::Xml(x, splices, attributes) => {
            let told = each_of(alloc, attributes.as_slice())?;
            xml(alloc, out, splices.as_slice(), told, x.parts.as_slice())?;
            Ok(())
        }
        ExpForm::Let(vals, a) => {
            open(out)?;
            all_vals(alloc, out, vals.as_slice())?;
            exp(alloc, out, a.get())?;
            close(out)?;
            Ok(())
        }
        ExpForm::Return(a) => {
            exp(alloc, out, a.get())?;
            Ok(())
        }
        ExpForm::Show(a) => {
            exp(alloc, out, a.get())?;
            Ok(())
        }
        ExpForm::Not(a) => {
            exp(alloc, out, a.get())?;
            Ok(())
        }
        ExpForm::Error(a) => {
            exp(alloc, out, a.get())?;
            Ok(())
        }
        ExpForm::Some(a) => {
            exp(alloc, out, a.get())?;
            Ok(())
        }
        ExpForm::Nextval(x) => {
            declared(alloc, out, Sort::Sequence, x)?;
            Ok(())
        }
        ExpForm::GetCookie(x) => {
            declared(alloc, out, Sort::Cookie, x)?;
            Ok(())
        }
        ExpForm::SetCookie(x, a) => {
            declared(alloc, out, Sort::Cookie, x)?;
            exp(alloc, out, a.get())?;
            Ok(())
        }
        ExpForm::Dml(c, antiquotes) => {
            dml(alloc, out, c, antiquotes.as_slice())?;
            Ok(())
        }
        ExpForm::Query(_, q, antiquotes) => {
            asked(alloc, out, q, antiquotes.as_slice())?;
            Ok(())
        }
        ExpForm::QueryX(q, antiquotes, f) => {
            asked(alloc, out, q, antiquotes.as_slice())?;
            exp(alloc, out, f.get())?;
            Ok(())
        }
        ExpForm::Fold(c, a, b, d) => {
            con(alloc, out, c)?;
            exp(alloc, out, a.get())?;
            exp(alloc, out, b.get())?;
            con(alloc, out, d)?;
            Ok(())
        }
    }
}

#[cycle(exp)]
fn record(alloc: Global, out: &mut List<Event>, span: Span, fields: &[Field]) -> Result<(), Memory>
    ensures { OnOk result (out.new ≡ out.old ++ flat_map (in_field span) fields.now) }
{
    for f in fields {
        field(alloc, out, span, f)?;
    }
    Ok(())
}

#[cycle(exp)]
fn field(alloc: Global, out: &mut List<Event>, span: Span, f: &Field) -> Result<(), Memory>
    ensures { OnOk result (out.new ≡ out.old ++ in_field span f.now) }
{
    label(alloc, out, span, &f.name)?;
    exp(alloc, out, &f.value)?;
    Ok(())
}

#[cycle(exp)]
fn all_branches(alloc: Global, out: &mut List<Event>, branches: &[Branch]) -> Result<(), Memory>
    ensures { OnOk result (out.new ≡ out.old ++ flat_map in_branch branches.now) }
{
    for b in branches {
        branch(alloc, out, b)?;
    }
    Ok(())
}

#[cycle(exp)]
fn branch(alloc: Global, out: &mut List<Event>, b: &Branch) -> Result<(), Memory>
    ensures { OnOk result (out.new ≡ out.old ++ in_branch b.now) }
{
    open(out)?;
    pat(alloc, out, &b.pat)?;
    exp(alloc, out, &b.body)?;
    close(out)?;
    Ok(())
}

#[cycle(exp)]
fn all_vals(alloc: Global, out: &mut List<Event>, vals: &[LetVal]) -> Result<(), Memory>
    ensures { OnOk result (out.new ≡ out.old ++ flat_map in_let vals.now) }
{
    for v in vals {
        let_val(alloc, out, v)?;
    }
    Ok(())
}

#[cycle(exp)]
fn let_val(alloc: Global, out: &mut List<Event>, v: &LetVal) -> Result<(), Memory>
    ensures { OnOk result (out.new ≡ out.old ++ in_let v.now) }
{
    con(alloc, out, &v.con)?;
    exp(alloc, out, &v.value)?;
    bind(alloc, out, Sort::Value, &v.name)?;
    Ok(())
}

/// What stands at the marks of a text.
#[cycle(exp)]
fn marked(
    alloc: Global,
    out: &mut List<Event>,
    splices: &[Exp],
    attributes: &[List<Event>],
    marks: &[Mark],
) -> Result<(), Memory>
    ensures { OnOk result (out.new ≡ out.old ++ at_marks (each_of splices.now) attributes.now marks.now) }
{
    for mark in marks {
        at_mark(alloc, out, splices, attributes, mark)?;
    }
    Ok(())
}

#[cycle(exp)]
fn at_mark(
    alloc: Global,
    out: &mut List<Event>,
    splices: &[Exp],
    attributes: &[List<Event>],
    mark: &Mark,
) -> Result<(), Memory>
    ensures { OnOk result (out.new ≡ out.old ++ at_mark (each_of splices.now) attributes.now mark.now) }
{
    match mark {
        Mark::Own(sort, span, x) => {
            own(alloc, out, *sort, *span, x)?;
            Ok(())
        }
        Mark::Member(sort, span, m, x) => {
            member(alloc, out, *sort, *span, m, x)?;
            Ok(())
        }
        Mark::Splice(n) => {
            numbered(alloc, out, splices, *n)?;
            Ok(())
        }
        Mark::Attribute(n) => {
            told(alloc, out, attributes, *n)?;
            Ok(())
        }
    }
}

#[cycle(exp)]
fn numbered(alloc: Global, out: &mut List<Event>, es: &[Exp], n: u32) -> Result<(), Memory>
    ensures { OnOk result (out.new ≡ out.old ++ if_given (slice_get (each_of es.now) n)) }
{
    let n = n as usize;
    if n < es.len() {
        exp(alloc, out, &es[n])?;
    }
    Ok(())
}

/// The events of each of some expressions.
#[cycle(exp)]
fn each_of(alloc: Global, es: &[Exp]) -> Result<List<List<Event>>, Memory>
    ensures { IfOk result (λ all. all ≡ each_of es.now) }
{
    let mut all = List::new(alloc);
    for e in es {
        let mut events = List::new(alloc);
        exp(alloc, &mut events, e)?;
        all.push(events)?;
    }
    Ok(all)
}

#[cycle(exp)]
fn xml(
    alloc: Global,
    out: &mut List<Event>,
    splices: &[Exp],
    attributes: List<List<Event>>,
    xs: &[XmlPart],
) -> Result<(), Memory>
    ensures { OnOk result (out.new ≡ out.old ++ at_marks (each_of splices.now) attributes (flat_map in_xml_part xs.now)) }
{
    let mut marks = List::new(alloc);
    parts(alloc, &mut marks, xs)?;
    marked(alloc, out, splices, attributes.as_slice(), marks.as_slice())?;
    Ok(())
}

#[cycle(exp)]
fn asked(
    alloc: Global,
    out: &mut List<Event>,
    q: &SqlQuery,
    antiquotes: &[Exp],
) -> Result<(), Memory>
    ensures { OnOk result (out.new ≡ out.old ++ at_marks (each_of antiquotes.now) [] (in_query q.now)) }
{
    let none: List<List<Event>> = List::new(alloc);
    let mut marks = List::new(alloc);
    query(alloc, &mut marks, q)?;
    marked(alloc, out, antiquotes, none.as_slice(), marks.as_slice())?;
    Ok(())
}

#[cycle(exp)]
fn dml(
    alloc: Global,
    out: &mut List<Event>,
    c: &SqlChange,
    antiquotes: &[Exp],
) -> Result<(), Memory>
    ensures { OnOk result (out.new ≡ out.old ++ at_marks (each_of antiquotes.now) [] (in_change c.now)) }
{
    let none: List<List<Event>> = List::new(alloc);
    let mut marks = List::new(alloc);
    change(alloc, &mut marks, c)?;
    marked(alloc, out, antiquotes, none.as_slice(), marks.as_slice())?;
    Ok(())
}
