//! The events of declarations, modules and a signature.
ghost use Rattle.std.specs.Prelude.{◌≡◌, [], ◌∷◌, ◌++◌, OnOk, IfOk, flat_map, length};
ghost use Rattle.std.specs.Option.{option_copied};
ghost use Rattle.ur_names.specs.Decls.{in_of, in_variant, named, in_function, in_form, in_module, in_modules, in_val, in_decl, in_typed, in_signature, in_project};
ghost use Rattle.ur_names.specs.Cons.{in_con_param};
ghost use Rattle.ur_names.specs.Exps.{in_param};

use crate::cons::{con, con_param};
use crate::event::{Event, Sort};
use crate::exps::{exp, param};
use crate::log::{close, declare, enter, given, open, own};
use std::alloc::Global;
use ur_base::{List, Memory, Span, Text};
use ur_syntax::{
    Con, ConParam, Decl, DeclForm, FunDef, Module, Param, Signature, ValDecl, Variant,
};

fn of(alloc: Global, out: &mut List<Event>, c: &Option<Con>) -> Result<(), Memory>
    ensures { OnOk result (out.new ≡ out.old ++ in_of c.now) }
{
    match c {
        None => Ok(()),
        Some(c) => {
            con(alloc, out, c)?;
            Ok(())
        }
    }
}

fn variant(alloc: Global, out: &mut List<Event>, v: &Variant) -> Result<(), Memory>
    ensures { OnOk result (out.new ≡ out.old ++ in_variant v.now) }
{
    given(alloc, out, Sort::Constructor, v.span, &v.name)?;
    of(alloc, out, &v.con)?;
    declare(alloc, out, Sort::Constructor, &v.name)?;
    Ok(())
}

fn variants(alloc: Global, out: &mut List<Event>, vs: &[Variant]) -> Result<(), Memory>
    ensures { OnOk result (out.new ≡ out.old ++ flat_map in_variant vs.now) }
{
    for v in vs {
        variant(alloc, out, v)?;
    }
    Ok(())
}

fn all_named(alloc: Global, out: &mut List<Event>, fs: &[FunDef]) -> Result<(), Memory>
    ensures { OnOk result (out.new ≡ out.old ++ flat_map named fs.now) }
{
    for f in fs {
        declare(alloc, out, Sort::Value, &f.name)?;
    }
    Ok(())
}

fn con_params(
    alloc: Global,
    out: &mut List<Event>,
    span: Span,
    params: &[ConParam],
) -> Result<(), Memory>
    ensures { OnOk result (out.new ≡ out.old ++ flat_map (in_con_param span) params.now) }
{
    for p in params {
        con_param(alloc, out, span, p)?;
    }
    Ok(())
}

fn params(alloc: Global, out: &mut List<Event>, span: Span, ps: &[Param]) -> Result<(), Memory>
    ensures { OnOk result (out.new ≡ out.old ++ flat_map (in_param span) ps.now) }
{
    for p in ps {
        param(alloc, out, span, p)?;
    }
    Ok(())
}

fn function(alloc: Global, out: &mut List<Event>, f: &FunDef) -> Result<(), Memory>
    ensures { OnOk result (out.new ≡ out.old ++ in_function f.now) }
{
    given(alloc, out, Sort::Value, f.span, &f.name)?;
    open(out)?;
    con_params(alloc, out, f.span, f.con_params.as_slice())?;
    params(alloc, out, f.span, f.params.as_slice())?;
    con(alloc, out, &f.result)?;
    exp(alloc, out, &f.body)?;
    close(out)?;
    Ok(())
}

fn functions(alloc: Global, out: &mut List<Event>, fs: &[FunDef]) -> Result<(), Memory>
    ensures { OnOk result (out.new ≡ out.old ++ flat_map in_function fs.now) }
{
    for i in 0..fs.len() {
        function(alloc, out, &fs[i])?;
    }
    Ok(())
}

/// A name that is given, with its constructor.
fn typed(
    alloc: Global,
    out: &mut List<Event>,
    sort: Sort,
    span: Span,
    x: &Text,
    c: &Con,
) -> Result<(), Memory>
    ensures { OnOk result (out.new ≡ out.old ++ in_typed sort span x.now c.now) }
{
    given(alloc, out, sort, span, x)?;
    con(alloc, out, c)?;
    declare(alloc, out, sort, x)?;
    Ok(())
}

fn decl(alloc: Global, out: &mut List<Event>, d: &Decl) -> Result<(), Memory>
    ensures { OnOk result (out.new ≡ out.old ++ in_form d.now.span d.now.form) }
{
    match &d.form {
        DeclForm::Con(x, _, c) => {
            typed(alloc, out, Sort::Con, d.span, x, c)?;
            Ok(())
        }
        DeclForm::Type(x, c) => {
            typed(alloc, out, Sort::Con, d.span, x, c)?;
            Ok(())
        }
        DeclForm::Datatype(x, vs) => {
            given(alloc, out, Sort::Con, d.span, x)?;
            declare(alloc, out, Sort::Con, x)?;
            variants(alloc, out, vs.as_slice())?;
            Ok(())
        }
        DeclForm::Table(x, c, _, _) => {
            typed(alloc, out, Sort::Table, d.span, x, c)?;
            Ok(())
        }
        DeclForm::Sequence(x) => {
            given(alloc, out, Sort::Sequence, d.span, x)?;
            declare(alloc, out, Sort::Sequence, x)?;
            Ok(())
        }
        DeclForm::Cookie(x, c) => {
            typed(alloc, out, Sort::Cookie, d.span, x, c)?;
            Ok(())
        }
        DeclForm::Val(x, c, e) => {
            given(alloc, out, Sort::Value, d.span, x)?;
            con(alloc, out, c)?;
            exp(alloc, out, e)?;
            declare(alloc, out, Sort::Value, x)?;
            Ok(())
        }
        DeclForm::Fun(fs) => {
            all_named(alloc, out, fs.as_slice())?;
            functions(alloc, out, fs.as_slice())?;
            Ok(())
        }
    }
}

fn decls(alloc: Global, out: &mut List<Event>, ds: &[Decl]) -> Result<(), Memory>
    ensures { OnOk result (out.new ≡ out.old ++ flat_map in_decl ds.now) }
{
    for d in ds {
        decl(alloc, out, d)?;
    }
    Ok(())
}

fn module(alloc: Global, out: &mut List<Event>, m: &Text, x: &Module) -> Result<(), Memory>
    ensures { OnOk result (out.new ≡ out.old ++ in_module m.now x.now) }
{
    enter(alloc, out, m)?;
    decls(alloc, out, x.decls.as_slice())?;
    Ok(())
}

fn modules(
    alloc: Global,
    out: &mut List<Event>,
    names: &[Text],
    xs: &[Module],
) -> Result<(), Memory>
    requires { length names.now ≡ length xs.now }
    ensures { OnOk result (out.new ≡ out.old ++ in_modules names.now xs.now) }
{
    for i in 0..names.len() {
        module(alloc, out, &names[i], &xs[i])?;
    }
    Ok(())
}

fn vals(alloc: Global, out: &mut List<Event>, vs: &[ValDecl]) -> Result<(), Memory>
    ensures { OnOk result (out.new ≡ out.old ++ flat_map in_val vs.now) }
{
    for v in vs {
        own(alloc, out, Sort::Value, v.span, &v.name)?;
        given(alloc, out, Sort::Value, v.span, &v.name)?;
        con(alloc, out, &v.con)?;
    }
    Ok(())
}

fn signature(alloc: Global, out: &mut List<Event>, s: Option<&Signature>) -> Result<(), Memory>
    ensures { OnOk result (out.new ≡ out.old ++ in_signature (option_copied s.entry)) }
{
    match s {
        None => Ok(()),
        Some(s) => {
            open(out)?;
            vals(alloc, out, s.vals.as_slice())?;
            Ok(())
        }
    }
}

/// What a project does with names, in order of modules and place.
pub fn events(
    alloc: Global,
    names: &[Text],
    xs: &[Module],
    s: Option<&Signature>,
) -> Result<List<Event>, Memory>
    requires { length names.now ≡ length xs.now }
    ensures { IfOk result (λ out. out ≡ in_project names.now xs.now (option_copied s.entry)) }
{
    let mut out = List::new(alloc);
    modules(alloc, &mut out, names, xs)?;
    signature(alloc, &mut out, s)?;
    Ok(out)
}
