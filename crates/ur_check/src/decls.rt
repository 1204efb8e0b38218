//! The names in declarations.
ghost use Rattle.std.specs.Prelude.{◌≡◌, ◌++◌, OnOk, flat_map, option_to_list};
ghost use Rattle.ur_tree.specs.FieldNames.{of_con, of_con_param, of_param, of_variant, of_function, of_modules};
ghost use Rattle.ur_check.specs.Parts.{of_declaration, of_module};

use crate::cons::{con, con_param};
use crate::exps::{exp, param};
use std::alloc::Global;
use ur_base::{List, Memory, Text};
use ur_syntax::{Con, ConParam, Decl, DeclForm, FunDef, Module, Param, Variant};

fn if_con(alloc: Global, out: &mut List<Text>, c: &Option<Con>) -> Result<(), Memory>
    ensures { OnOk result (out.new ≡ out.old ++ flat_map of_con (option_to_list c.now)) }
{
    match c {
        Some(c) => {
            con(alloc, out, c)?;
            Ok(())
        }
        None => Ok(()),
    }
}

fn variants(alloc: Global, out: &mut List<Text>, vs: &[Variant]) -> Result<(), Memory>
    ensures { OnOk result (out.new ≡ out.old ++ flat_map of_variant vs.now) }
{
    for v in vs {
        if_con(alloc, out, &v.con)?;
    }
    Ok(())
}

fn con_params(alloc: Global, out: &mut List<Text>, ps: &[ConParam]) -> Result<(), Memory>
    ensures { OnOk result (out.new ≡ out.old ++ flat_map of_con_param ps.now) }
{
    for p in ps {
        con_param(alloc, out, p)?;
    }
    Ok(())
}

fn params(alloc: Global, out: &mut List<Text>, ps: &[Param]) -> Result<(), Memory>
    ensures { OnOk result (out.new ≡ out.old ++ flat_map of_param ps.now) }
{
    for p in ps {
        param(alloc, out, p)?;
    }
    Ok(())
}

fn function(alloc: Global, out: &mut List<Text>, f: &FunDef) -> Result<(), Memory>
    ensures { OnOk result (out.new ≡ out.old ++ of_function f.now) }
{
    con_params(alloc, out, f.con_params.as_slice())?;
    params(alloc, out, f.params.as_slice())?;
    con(alloc, out, &f.result)?;
    exp(alloc, out, &f.body)?;
    Ok(())
}

fn functions(alloc: Global, out: &mut List<Text>, fs: &[FunDef]) -> Result<(), Memory>
    ensures { OnOk result (out.new ≡ out.old ++ flat_map of_function fs.now) }
{
    for f in fs {
        function(alloc, out, f)?;
    }
    Ok(())
}

fn declaration(alloc: Global, out: &mut List<Text>, d: &Decl) -> Result<(), Memory>
    ensures { OnOk result (out.new ≡ out.old ++ of_declaration d.now) }
{
    match &d.form {
        DeclForm::Con(_, _, c) => {
            con(alloc, out, c)?;
            Ok(())
        }
        DeclForm::Type(_, c) => {
            con(alloc, out, c)?;
            Ok(())
        }
        DeclForm::Datatype(_, vs) => {
            variants(alloc, out, vs.as_slice())?;
            Ok(())
        }
        DeclForm::Table(_, c, _, _) => {
            con(alloc, out, c)?;
            Ok(())
        }
        DeclForm::Sequence(_) => Ok(()),
        DeclForm::Cookie(_, c) => {
            con(alloc, out, c)?;
            Ok(())
        }
        DeclForm::Val(_, c, a) => {
            con(alloc, out, c)?;
            exp(alloc, out, a)?;
            Ok(())
        }
        DeclForm::Fun(fs) => {
            functions(alloc, out, fs.as_slice())?;
            Ok(())
        }
    }
}

fn declarations(alloc: Global, out: &mut List<Text>, ds: &[Decl]) -> Result<(), Memory>
    ensures { OnOk result (out.new ≡ out.old ++ flat_map of_declaration ds.now) }
{
    for d in ds {
        declaration(alloc, out, d)?;
    }
    Ok(())
}

/// The names in modules, in reading order.
pub fn modules(alloc: Global, out: &mut List<Text>, ms: &[Module]) -> Result<(), Memory>
    ensures { OnOk result (out.new ≡ out.old ++ of_modules ms.now) }
{
    for m in ms {
        declarations(alloc, out, m.decls.as_slice())?;
    }
    Ok(())
}
