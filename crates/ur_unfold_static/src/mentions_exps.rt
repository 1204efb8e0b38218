//! Names in expressions.
ghost use Rattle.std.specs.Prelude.{◌≡◌, IfOk};
ghost use Rattle.ur_source.specs.Names as names;
ghost use Rattle.ur_unfold_static.specs.Words.{exp_names, exps_name, optional_names, field_names, fields_name, branches_name};

use crate::cons::{in_cons, in_label, in_params, in_row, in_type};
use crate::mentions_markups::in_markups;
use crate::sought::{Sought, deeper, either, is_outer};
use ur_base::{Boxed, List, Memory};
use ur_tree::{Branch, Exp, FieldExp, Param};

/// Whether it is static, as a number.
fn count_of(fixed: bool) -> u32
    ensures { result ≡ names.acc_count fixed }
{
    if fixed { 1 } else { 0 }
}

/// How many static names the parameters bind. There is no memory for 2^32 of them.
#[tactic(auto, using(crate::proofs::Counts::counted))]
pub fn fixed_count(params: &List<Param>) -> Result<u32, Memory>
    ensures { IfOk result (λ n. n ≡ names.fixed_count params.now) }
{
    let all = params.as_slice();
    let mut count = 0;
    for i in 0..all.len() {
        count = deeper(count, count_of(all[i].fixed))?;
    }
    Ok(count)
}

/// Whether an expression names the variable, so many static names being bound around it within.
#[cycle(exp)]
#[tactic(auto, using(crate::proofs::Words::in_forms))]
pub fn in_exp(e: &Exp, depth: u32, of: Sought) -> Result<bool, Memory>
    ensures { IfOk result (λ b. b ≡ exp_names of depth e.now) }
{
    match e {
        Exp::Int(_) => Ok(false),
        Exp::Str(_) => Ok(false),
        Exp::Bool(_) => Ok(false),
        Exp::Unit => Ok(false),
        Exp::Variable(_) => Ok(false),
        Exp::Fixed(i) => Ok(is_outer(of, depth, *i)),
        Exp::Val(_) => Ok(false),
        Exp::Function(_, cons) => Ok(in_cons(cons, of)),
        Exp::Apply(f, args) => {
            let first = in_exp(f.get(), depth, of)?;
            let second = in_exps(args, depth, of)?;
            Ok(either(first, second))
        }
        Exp::Lambda(params, body) => {
            let bound = fixed_count(params)?;
            let within = deeper(depth, bound)?;
            let first = in_params(params, of);
            let second = in_exp(body.get(), within, of)?;
            Ok(either(first, second))
        }
        Exp::Record(fields) => {
            let named = in_fields(fields, depth, of)?;
            Ok(named)
        }
        Exp::Project(e, l) => {
            let first = in_exp(e.get(), depth, of)?;
            let second = in_label(l, of);
            Ok(either(first, second))
        }
        Exp::Cut(e, l) => {
            let first = in_exp(e.get(), depth, of)?;
            let second = in_label(l, of);
            Ok(either(first, second))
        }
        Exp::Unary(_, e) => {
            let named = in_exp(e.get(), depth, of)?;
            Ok(named)
        }
        Exp::Binary(_, a, b) => {
            let first = in_exp(a.get(), depth, of)?;
            let second = in_exp(b.get(), depth, of)?;
            Ok(either(first, second))
        }
        Exp::Absent(t) => Ok(in_type(t, of)),
        Exp::Empty(t) => Ok(in_type(t, of)),
        Exp::Fail(t, e) => {
            let first = in_type(t, of);
            let second = in_exp(e.get(), depth, of)?;
            Ok(either(first, second))
        }
        Exp::Tagged(_, e) => {
            let named = in_held(e, depth, of)?;
            Ok(named)
        }
        Exp::If(c, a, b) => {
            let first = in_exp(c.get(), depth, of)?;
            let second = in_exp(a.get(), depth, of)?;
            let third = in_exp(b.get(), depth, of)?;
            Ok(either(either(first, second), third))
        }
        Exp::Case(e, branches) => {
            let first = in_exp(e.get(), depth, of)?;
            let second = in_branches(branches, depth, of)?;
            Ok(either(first, second))
        }
        Exp::Let(t, e, body) => {
            let first = in_type(t, of);
            let second = in_exp(e.get(), depth, of)?;
            let third = in_exp(body.get(), depth, of)?;
            Ok(either(either(first, second), third))
        }
        Exp::Bind(e, body) => {
            let first = in_exp(e.get(), depth, of)?;
            let second = in_exp(body.get(), depth, of)?;
            Ok(either(first, second))
        }
        Exp::Next(_) => Ok(false),
        Exp::GetCookie(_) => Ok(false),
        Exp::SetCookie(_, e) => {
            let named = in_exp(e.get(), depth, of)?;
            Ok(named)
        }
        Exp::Write(_, args) => {
            let named = in_exps(args, depth, of)?;
            Ok(named)
        }
        Exp::Ask(_, _, args) => {
            let named = in_exps(args, depth, of)?;
            Ok(named)
        }
        Exp::Each(_, args, body) => {
            let first = in_exps(args, depth, of)?;
            let second = in_exp(body.get(), depth, of)?;
            Ok(either(first, second))
        }
        Exp::Fold {
            of: row_type,
            acc,
            step,
            start,
            row,
        } => {
            let types = either(in_type(row_type, of), in_type(&acc.of, of));
            let within = deeper(depth, count_of(acc.fixed))?;
            let first = in_exp(step.get(), within, of)?;
            let second = in_exp(start.get(), depth, of)?;
            let last = in_row(row, of);
            Ok(either(either(either(types, first), second), last))
        }
        Exp::Xml(t, parts) => {
            let first = in_type(t, of);
            let second = in_markups(parts, depth, of)?;
            Ok(either(first, second))
        }
    }
}

#[cycle(exp)]
#[tactic(auto, using(crate::proofs::Words::in_lists))]
pub fn in_exps(es: &List<Exp>, depth: u32, of: Sought) -> Result<bool, Memory>
    ensures { IfOk result (λ b. b ≡ exps_name of depth es.now) }
{
    let all = es.as_slice();
    for i in 0..all.len() {
        if in_exp(&all[i], depth, of)? {
            return Ok(true);
        }
    }
    Ok(false)
}

#[cycle(exp)]
#[tactic(auto, using(crate::proofs::Words::in_lists))]
pub fn in_held(held: &Option<Boxed<Exp>>, depth: u32, of: Sought) -> Result<bool, Memory>
    ensures { IfOk result (λ b. b ≡ optional_names of depth held.now) }
{
    match held {
        None => Ok(false),
        Some(e) => {
            let named = in_exp(e.get(), depth, of)?;
            Ok(named)
        }
    }
}

#[cycle(exp)]
#[tactic(auto, using(crate::proofs::Words::in_lists))]
fn in_fields(fields: &List<FieldExp>, depth: u32, of: Sought) -> Result<bool, Memory>
    ensures { IfOk result (λ b. b ≡ fields_name of depth fields.now) }
{
    let all = fields.as_slice();
    for i in 0..all.len() {
        if in_field(&all[i], depth, of)? {
            return Ok(true);
        }
    }
    Ok(false)
}

#[cycle(exp)]
#[tactic(auto, using(crate::proofs::Words::in_lists))]
fn in_field(field: &FieldExp, depth: u32, of: Sought) -> Result<bool, Memory>
    ensures { IfOk result (λ b. b ≡ field_names of depth field.now) }
{
    let first = in_label(&field.name, of);
    let second = in_exp(&field.of, depth, of)?;
    Ok(either(first, second))
}

#[cycle(exp)]
#[tactic(auto, using(crate::proofs::Words::in_lists))]
fn in_branches(branches: &List<Branch>, depth: u32, of: Sought) -> Result<bool, Memory>
    ensures { IfOk result (λ b. b ≡ branches_name of depth branches.now) }
{
    let all = branches.as_slice();
    for i in 0..all.len() {
        if in_branch(&all[i], depth, of)? {
            return Ok(true);
        }
    }
    Ok(false)
}

#[cycle(exp)]
fn in_branch(branch: &Branch, depth: u32, of: Sought) -> Result<bool, Memory>
    ensures { IfOk result (λ b. b ≡ exp_names of depth branch.now.body) }
{
    let named = in_exp(&branch.body, depth, of)?;
    Ok(named)
}
