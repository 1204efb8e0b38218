//! The names in expressions.
ghost use Rattle.std.specs.Prelude.{◌≡◌, ◌++◌, OnOk, flat_map};
ghost use Rattle.ur_tree.specs.FieldNames.{of_param, of_lambda_param};
ghost use Rattle.ur_check.specs.Parts.{of_written, of_value, of_branch, of_val};

use crate::cons::{con, con_param, name};
use crate::texts::{query, xml};
use std::alloc::Global;
use ur_base::{List, Memory, Text};
use ur_syntax::{Branch, Exp, ExpForm, Field, LambdaParam, LetVal, Param};

pub fn param(alloc: Global, out: &mut List<Text>, p: &Param) -> Result<(), Memory>
    ensures { OnOk result (out.new ≡ out.old ++ of_param p.now) }
{
    match p {
        Param::Value(_, c) => {
            con(alloc, out, c)?;
            Ok(())
        }
        Param::Unit => Ok(()),
    }
}

fn lambda_param(alloc: Global, out: &mut List<Text>, p: &LambdaParam) -> Result<(), Memory>
    ensures { OnOk result (out.new ≡ out.old ++ of_lambda_param p.now) }
{
    match p {
        LambdaParam::Typed(q) => {
            param(alloc, out, q)?;
            Ok(())
        }
        LambdaParam::Con(q) => {
            con_param(alloc, out, q)?;
            Ok(())
        }
        LambdaParam::Bare(_) => Ok(()),
    }
}

fn lambda_params(alloc: Global, out: &mut List<Text>, ps: &[LambdaParam]) -> Result<(), Memory>
    ensures { OnOk result (out.new ≡ out.old ++ flat_map of_lambda_param ps.now) }
{
    for p in ps {
        lambda_param(alloc, out, p)?;
    }
    Ok(())
}

/// The names in an expression.
#[cycle(exp)]
pub fn exp(alloc: Global, out: &mut List<Text>, a: &Exp) -> Result<(), Memory>
    ensures { OnOk result (out.new ≡ out.old ++ of_written a.now) }
{
    match &a.form {
        ExpForm::Bind(_, x, y) => {
            exp(alloc, out, x.get())?;
            exp(alloc, out, y.get())?;
            Ok(())
        }
        ExpForm::Seq(x, y) => {
            exp(alloc, out, x.get())?;
            exp(alloc, out, y.get())?;
            Ok(())
        }
        ExpForm::If(x, y, z) => {
            exp(alloc, out, x.get())?;
            exp(alloc, out, y.get())?;
            exp(alloc, out, z.get())?;
            Ok(())
        }
        ExpForm::Lambda(ps, x) => {
            lambda_params(alloc, out, ps.as_slice())?;
            exp(alloc, out, x.get())?;
            Ok(())
        }
        ExpForm::Case(x, bs) => {
            exp(alloc, out, x.get())?;
            branches(alloc, out, bs.as_slice())?;
            Ok(())
        }
        ExpForm::Binary(_, x, y) => {
            exp(alloc, out, x.get())?;
            exp(alloc, out, y.get())?;
            Ok(())
        }
        ExpForm::Remove(x, removed) => {
            exp(alloc, out, x.get())?;
            name(alloc, out, &removed.name)?;
            Ok(())
        }
        ExpForm::Negative(x) => {
            exp(alloc, out, x.get())?;
            Ok(())
        }
        ExpForm::App(x, y) => {
            exp(alloc, out, x.get())?;
            exp(alloc, out, y.get())?;
            Ok(())
        }
        ExpForm::ConApp(x, c) => {
            exp(alloc, out, x.get())?;
            con(alloc, out, c)?;
            Ok(())
        }
        ExpForm::Project(x, field) => {
            exp(alloc, out, x.get())?;
            name(alloc, out, field)?;
            Ok(())
        }
        ExpForm::Int(_) => Ok(()),
        ExpForm::Str(_) => Ok(()),
        ExpForm::Var(_) => Ok(()),
        ExpForm::Constructor(_) => Ok(()),
        ExpForm::Member(_, _) => Ok(()),
        ExpForm::MemberConstructor(_, _) => Ok(()),
        ExpForm::Unit => Ok(()),
        ExpForm::Record(fs) => {
            values(alloc, out, fs.as_slice())?;
            Ok(())
        }
        ExpForm::Nil => Ok(()),
        ExpForm::Xml(x, splices, attributes) => {
            xml(alloc, out, x)?;
            exps(alloc, out, splices.as_slice())?;
            exps(alloc, out, attributes.as_slice())?;
            Ok(())
        }
        ExpForm::Let(vs, x) => {
            vals(alloc, out, vs.as_slice())?;
            exp(alloc, out, x.get())?;
            Ok(())
        }
        ExpForm::Return(x) => {
            exp(alloc, out, x.get())?;
            Ok(())
        }
        ExpForm::Show(x) => {
            exp(alloc, out, x.get())?;
            Ok(())
        }
        ExpForm::Not(x) => {
            exp(alloc, out, x.get())?;
            Ok(())
        }
        ExpForm::Error(x) => {
            exp(alloc, out, x.get())?;
            Ok(())
        }
        ExpForm::Some(x) => {
            exp(alloc, out, x.get())?;
            Ok(())
        }
        ExpForm::Nextval(_) => Ok(()),
        ExpForm::GetCookie(_) => Ok(()),
        ExpForm::SetCookie(_, x) => {
            exp(alloc, out, x.get())?;
            Ok(())
        }
        ExpForm::Dml(_, args) => {
            exps(alloc, out, args.as_slice())?;
            Ok(())
        }
        ExpForm::Query(_, q, args) => {
            query(alloc, out, q)?;
            exps(alloc, out, args.as_slice())?;
            Ok(())
        }
        ExpForm::QueryX(q, args, x) => {
            query(alloc, out, q)?;
            exps(alloc, out, args.as_slice())?;
            exp(alloc, out, x.get())?;
            Ok(())
        }
        ExpForm::Fold(c, x, y, d) => {
            con(alloc, out, c)?;
            exp(alloc, out, x.get())?;
            exp(alloc, out, y.get())?;
            con(alloc, out, d)?;
            Ok(())
        }
    }
}

#[cycle(exp)]
fn exps(alloc: Global, out: &mut List<Text>, list: &[Exp]) -> Result<(), Memory>
    ensures { OnOk result (out.new ≡ out.old ++ flat_map of_written list.now) }
{
    for a in list {
        exp(alloc, out, a)?;
    }
    Ok(())
}

#[cycle(exp)]
fn values(alloc: Global, out: &mut List<Text>, fields: &[Field]) -> Result<(), Memory>
    ensures { OnOk result (out.new ≡ out.old ++ flat_map of_value fields.now) }
{
    for f in fields {
        name(alloc, out, &f.name)?;
        exp(alloc, out, &f.value)?;
    }
    Ok(())
}

#[cycle(exp)]
fn branches(alloc: Global, out: &mut List<Text>, all: &[Branch]) -> Result<(), Memory>
    ensures { OnOk result (out.new ≡ out.old ++ flat_map of_branch all.now) }
{
    for b in all {
        exp(alloc, out, &b.body)?;
    }
    Ok(())
}

#[cycle(exp)]
fn vals(alloc: Global, out: &mut List<Text>, all: &[LetVal]) -> Result<(), Memory>
    ensures { OnOk result (out.new ≡ out.old ++ flat_map of_val all.now) }
{
    for v in all {
        con(alloc, out, &v.con)?;
        exp(alloc, out, &v.value)?;
    }
    Ok(())
}
