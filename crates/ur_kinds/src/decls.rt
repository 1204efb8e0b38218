//! The events of declarations, modules and a signature.
ghost use Rattle.std.specs.Prelude.{◌≡◌, [], ◌∷◌, ◌++◌, OnOk, IfOk, flat_map, length};
ghost use Rattle.std.specs.Option.{option_copied};
ghost use Rattle.ur_kinds.specs.Acts.{acts};
ghost use Rattle.ur_kinds.specs.Exps.{in_con_param, in_param};
ghost use Rattle.ur_kinds.specs.Decls.{in_of, in_variant, named, in_function, in_form, in_module, in_modules, in_val, in_decl, in_signature, in_project};

use crate::event::Event;
use crate::exps::{exp, param};
use crate::log::{close, con_param, open, tell, typed};
use std::alloc::Global;
use ur_base::{List, Memory, Span, Text};
use ur_syntax::{
    Con, ConParam, Decl, DeclForm, FunDef, Module, Param, Signature, ValDecl, Variant,
};

fn of<'a>(out: &mut List<Event<'a>>, c: &'a Option<Con>) -> Result<(), Memory>
    ensures { OnOk result (acts out.new ≡ acts out.old ++ in_of c.now) }
{
    match c {
        None => Ok(()),
        Some(c) => {
            typed(out, c)?;
            Ok(())
        }
    }
}

fn variants<'a>(out: &mut List<Event<'a>>, vs: &'a [Variant]) -> Result<(), Memory>
    ensures { OnOk result (acts out.new ≡ acts out.old ++ flat_map in_variant vs.now) }
{
    for v in vs {
        of(out, &v.con)?;
    }
    Ok(())
}

fn all_named<'a>(out: &mut List<Event<'a>>, fs: &'a [FunDef]) -> Result<(), Memory>
    ensures { OnOk result (acts out.new ≡ acts out.old ++ flat_map named fs.now) }
{
    for f in fs {
        tell(out, Event::Function(&f.name, &f.con_params))?;
    }
    Ok(())
}

fn con_params<'a>(
    out: &mut List<Event<'a>>,
    span: Span,
    params: &'a [ConParam],
) -> Result<(), Memory>
    ensures { OnOk result (acts out.new ≡ acts out.old ++ flat_map (in_con_param span) params.now) }
{
    for p in params {
        con_param(out, span, p)?;
    }
    Ok(())
}

fn params<'a>(out: &mut List<Event<'a>>, ps: &'a [Param]) -> Result<(), Memory>
    ensures { OnOk result (acts out.new ≡ acts out.old ++ flat_map in_param ps.now) }
{
    for p in ps {
        param(out, p)?;
    }
    Ok(())
}

fn function<'a>(alloc: Global, out: &mut List<Event<'a>>, f: &'a FunDef) -> Result<(), Memory>
    ensures { OnOk result (acts out.new ≡ acts out.old ++ in_function f.now) }
{
    open(out)?;
    con_params(out, f.span, f.con_params.as_slice())?;
    params(out, f.params.as_slice())?;
    typed(out, &f.result)?;
    exp(alloc, out, &f.body)?;
    close(out)?;
    Ok(())
}

fn functions<'a>(alloc: Global, out: &mut List<Event<'a>>, fs: &'a [FunDef]) -> Result<(), Memory>
    ensures { OnOk result (acts out.new ≡ acts out.old ++ flat_map in_function fs.now) }
{
    for i in 0..fs.len() {
        function(alloc, out, &fs[i])?;
    }
    Ok(())
}

fn decl<'a>(alloc: Global, out: &mut List<Event<'a>>, d: &'a DeclForm) -> Result<(), Memory>
    ensures { OnOk result (acts out.new ≡ acts out.old ++ in_form d.now) }
{
    match d {
        DeclForm::Con(x, kind, c) => {
            tell(out, Event::Of(c, kind))?;
            tell(out, Event::Defined(x, kind))?;
            Ok(())
        }
        DeclForm::Type(x, c) => {
            typed(out, c)?;
            tell(out, Event::Named(x))?;
            Ok(())
        }
        DeclForm::Datatype(x, vs) => {
            tell(out, Event::Named(x))?;
            variants(out, vs.as_slice())?;
            Ok(())
        }
        DeclForm::Table(_, c, _, _) => {
            typed(out, c)?;
            Ok(())
        }
        DeclForm::Sequence(_) => Ok(()),
        DeclForm::Cookie(_, c) => {
            typed(out, c)?;
            Ok(())
        }
        DeclForm::Val(x, c, e) => {
            typed(out, c)?;
            exp(alloc, out, e)?;
            tell(out, Event::Val(x))?;
            Ok(())
        }
        DeclForm::Fun(fs) => {
            all_named(out, fs.as_slice())?;
            functions(alloc, out, fs.as_slice())?;
            Ok(())
        }
    }
}

fn decls<'a>(alloc: Global, out: &mut List<Event<'a>>, ds: &'a [Decl]) -> Result<(), Memory>
    ensures { OnOk result (acts out.new ≡ acts out.old ++ flat_map in_decl ds.now) }
{
    for d in ds {
        decl(alloc, out, &d.form)?;
    }
    Ok(())
}

fn module<'a>(
    alloc: Global,
    out: &mut List<Event<'a>>,
    m: &'a Text,
    x: &'a Module,
) -> Result<(), Memory>
    ensures { OnOk result (acts out.new ≡ acts out.old ++ in_module m.now x.now) }
{
    tell(out, Event::Enter(m))?;
    decls(alloc, out, x.decls.as_slice())?;
    Ok(())
}

fn modules<'a>(
    alloc: Global,
    out: &mut List<Event<'a>>,
    names: &'a [Text],
    xs: &'a [Module],
) -> Result<(), Memory>
    requires { length names.now ≡ length xs.now }
    ensures { OnOk result (acts out.new ≡ acts out.old ++ in_modules names.now xs.now) }
{
    for i in 0..names.len() {
        module(alloc, out, &names[i], &xs[i])?;
    }
    Ok(())
}

fn vals<'a>(out: &mut List<Event<'a>>, vs: &'a [ValDecl]) -> Result<(), Memory>
    ensures { OnOk result (acts out.new ≡ acts out.old ++ flat_map in_val vs.now) }
{
    for v in vs {
        typed(out, &v.con)?;
    }
    Ok(())
}

fn signature<'a>(out: &mut List<Event<'a>>, s: Option<&'a Signature>) -> Result<(), Memory>
    ensures { OnOk result (acts out.new ≡ acts out.old ++ in_signature (option_copied s.entry)) }
{
    match s {
        None => Ok(()),
        Some(s) => {
            vals(out, s.vals.as_slice())?;
            Ok(())
        }
    }
}

/// What a project does with constructors, in order of modules and place.
pub fn events<'a>(
    alloc: Global,
    names: &'a [Text],
    xs: &'a [Module],
    s: Option<&'a Signature>,
) -> Result<List<Event<'a>>, Memory>
    requires { length names.now ≡ length xs.now }
    ensures { IfOk result (λ out. acts out ≡ in_project names.now xs.now (option_copied s.entry)) }
{
    let mut out = List::new(alloc);
    modules(alloc, &mut out, names, xs)?;
    signature(&mut out, s)?;
    Ok(out)
}
