//! Expressions that are the same.
ghost use Rattle.std.specs.Prelude.{◌≡◌, ◌↔◌, IsTrue};

use crate::markups::same_markups;
use crate::parts::{same_param, same_params, same_patterns};
use crate::variants::{
    is_absent, is_empty, is_fixed, is_function, is_get_cookie, is_int, is_next, is_text, is_truth,
    is_unit, is_val, is_variable,
};
use ur_base::{Boxed, List};
use ur_rows::{equal_labels, equal_rows, equal_types};
use ur_tree::{Branch, Exp, FieldExp};

/// Whether two expressions are the same. Takes no memory.
#[cycle(same)]
pub fn same_exp(a: &Exp, b: &Exp) -> bool
    ensures { IsTrue result ↔ (a.now ≡ b.now) }
{
    match a {
        Exp::Int(n) => is_int(*n, b),
        Exp::Str(s) => is_text(s, b),
        Exp::Bool(x) => is_truth(*x, b),
        Exp::Unit => is_unit(b),
        Exp::Variable(n) => is_variable(*n, b),
        Exp::Fixed(n) => is_fixed(*n, b),
        Exp::Val(n) => is_val(*n, b),
        Exp::Function(k, cons) => is_function(*k, cons, b),
        Exp::Absent(t) => is_absent(t, b),
        Exp::Empty(t) => is_empty(t, b),
        Exp::Next(q) => is_next(*q, b),
        Exp::GetCookie(k) => is_get_cookie(*k, b),
        Exp::Apply(f, args) => match b {
            Exp::Apply(g, others) => { same_exp(f.get(), g.get()) && same_exps(args, others) }
            _ => false,
        },
        Exp::Lambda(params, e) => match b {
            Exp::Lambda(others, f) => { same_params(params, others) && same_exp(e.get(), f.get()) }
            _ => false,
        },
        Exp::Record(fields) => match b {
            Exp::Record(others) => { same_fields(fields, others) }
            _ => false,
        },
        Exp::Project(e, l) => match b {
            Exp::Project(f, m) => { equal_labels(l, m) && same_exp(e.get(), f.get()) }
            _ => false,
        },
        Exp::Cut(e, l) => match b {
            Exp::Cut(f, m) => { equal_labels(l, m) && same_exp(e.get(), f.get()) }
            _ => false,
        },
        Exp::Unary(op, e) => match b {
            Exp::Unary(other, f) => { *op == *other && same_exp(e.get(), f.get()) }
            _ => false,
        },
        Exp::Binary(op, e, f) => match b {
            Exp::Binary(other, g, h) => {
                *op == *other && same_exp(e.get(), g.get()) && same_exp(f.get(), h.get())
            }
            _ => false,
        },
        Exp::Fail(t, e) => match b {
            Exp::Fail(u, f) => { equal_types(t, u) && same_exp(e.get(), f.get()) }
            _ => false,
        },
        Exp::Tagged(k, e) => match b {
            Exp::Tagged(j, f) => { *k == *j && same_held(e, f) }
            _ => false,
        },
        Exp::If(c, e, f) => match b {
            Exp::If(d, g, h) => {
                same_exp(c.get(), d.get())
                    && same_exp(e.get(), g.get())
                    && same_exp(f.get(), h.get())
            }
            _ => false,
        },
        Exp::Case(e, branches) => match b {
            Exp::Case(f, others) => {
                same_exp(e.get(), f.get()) && same_branches(branches, others)
            }
            _ => false,
        },
        Exp::Let(t, e, f) => match b {
            Exp::Let(u, g, h) => {
                equal_types(t, u) && same_exp(e.get(), g.get()) && same_exp(f.get(), h.get())
            }
            _ => false,
        },
        Exp::Bind(e, f) => match b {
            Exp::Bind(g, h) => { same_exp(e.get(), g.get()) && same_exp(f.get(), h.get()) }
            _ => false,
        },
        Exp::SetCookie(k, e) => match b {
            Exp::SetCookie(j, f) => { *k == *j && same_exp(e.get(), f.get()) }
            _ => false,
        },
        Exp::Write(u, args) => match b {
            Exp::Write(v, others) => { *u == *v && same_exps(args, others) }
            _ => false,
        },
        Exp::Ask(how, q, args) => match b {
            Exp::Ask(other, r, others) => { *how == *other && *q == *r && same_exps(args, others) }
            _ => false,
        },
        Exp::Each(q, args, e) => match b {
            Exp::Each(r, others, f) => {
                *q == *r && same_exps(args, others) && same_exp(e.get(), f.get())
            }
            _ => false,
        },
        Exp::Fold {
            of,
            acc,
            step,
            start,
            row,
        } => match b {
            Exp::Fold {
                of: of2,
                acc: acc2,
                step: step2,
                start: start2,
                row: row2,
            } => {
                equal_types(of, of2)
                    && same_param(acc, acc2)
                    && equal_rows(row, row2)
                    && same_exp(step.get(), step2.get())
                    && same_exp(start.get(), start2.get())
            }
            _ => false,
        },
        Exp::Xml(t, parts) => match b {
            Exp::Xml(u, others) => { equal_types(t, u) && same_markups(parts, others) }
            _ => false,
        },
    }
}

/// Whether two lists of expressions are the same. Takes no memory.
#[cycle(same)]
pub fn same_exps(a: &List<Exp>, b: &List<Exp>) -> bool
    ensures { IsTrue result ↔ (a.now ≡ b.now) }
{
    let xs = a.as_slice();
    let ys = b.as_slice();
    if xs.len() != ys.len() {
        return false;
    }
    for i in 0..xs.len() {
        if !same_exp(&xs[i], &ys[i]) {
            return false;
        }
    }
    true
}

#[cycle(same)]
pub fn same_held(a: &Option<Boxed<Exp>>, b: &Option<Boxed<Exp>>) -> bool
    ensures { IsTrue result ↔ (a.now ≡ b.now) }
{
    match a {
        None => match b {
            None => true,
            Some(_) => false,
        },
        Some(e) => match b {
            None => false,
            Some(f) => same_exp(e.get(), f.get()),
        },
    }
}

/// Whether two lists of fields are the same.
#[cycle(same)]
pub fn same_fields(a: &List<FieldExp>, b: &List<FieldExp>) -> bool
    ensures { IsTrue result ↔ (a.now ≡ b.now) }
{
    let xs = a.as_slice();
    let ys = b.as_slice();
    if xs.len() != ys.len() {
        return false;
    }
    for i in 0..xs.len() {
        if !equal_labels(&xs[i].name, &ys[i].name) || !same_exp(&xs[i].of, &ys[i].of) {
            return false;
        }
    }
    true
}

/// Whether two lists of branches are the same.
#[cycle(same)]
pub fn same_branches(a: &List<Branch>, b: &List<Branch>) -> bool
    ensures { IsTrue result ↔ (a.now ≡ b.now) }
{
    let xs = a.as_slice();
    let ys = b.as_slice();
    if xs.len() != ys.len() {
        return false;
    }
    for i in 0..xs.len() {
        if !same_patterns(&xs[i].pattern, &ys[i].pattern) || !same_exp(&xs[i].body, &ys[i].body) {
            return false;
        }
    }
    true
}
