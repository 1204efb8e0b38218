//! One declaration after another, and one module after another.
ghost use Rattle.std.specs.Prelude.{◌≡◌, length, IfOk, OnOk};
ghost use Rattle.ur_base.specs.Stopping.{IfRefused};
ghost use Rattle.ur_syntax.specs.declared.decl.DeclForm.TheVariants as form;
ghost use Rattle.ur_typed.specs.Typed.{HasNoBody};
ghost use Rattle.ur_check.specs.declared.bodies.Bodies.{Bodies as GhostBodies};
ghost use Rattle.ur_check.specs.Views.{SeesSome, Declares, DeclHasFault, DeclaresAll, DeclsFault, AddsModule, ModuleHasFault, AddsModules, ModulesFault};

use crate::bodies::{Bodies, group_bodies, val_body};
use std::alloc::Global;
use ur_base::{Memory, Stop, Text};
use ur_check_heads::{Project, declare, enter, val_head, val_in};
use ur_syntax::{Con, Decl, DeclForm, Exp, FunDef, Module};

/// A `val`. Its right side does not see it.
fn declare_val(
    alloc: Global,
    project: &mut Project,
    bodies: &mut Bodies,
    name: &Text,
    con: &Con,
    e: &Exp,
) -> Result<(), Stop>
    requires { SeesSome project.old }
    ensures ok { OnOk result (Declares project.old bodies.old (form.Val name.now con.now e.now) project.new bodies.new) }
    ensures refused { IfRefused result (DeclHasFault project.old bodies.old (form.Val name.now con.now e.now)) }
{
    let of = val_head(alloc, project, con)?;
    val_body(alloc, project, bodies, e, &of)?;
    val_in(alloc, project, name, of)?;
    Ok(())
}

/// The functions of a group: all heads, and then their bodies.
fn declare_group(
    alloc: Global,
    project: &mut Project,
    bodies: &mut Bodies,
    decl: &Decl,
    functions: &[FunDef],
) -> Result<(), Stop>
    requires sees { SeesSome project.old }
    requires functions { decl.now.form ≡ form.Fun functions.now }
    ensures ok { OnOk result (Declares project.old bodies.old decl.now.form project.new bodies.new) }
    ensures refused { IfRefused result (DeclHasFault project.old bodies.old decl.now.form) }
{
    let first = project.world.functions.len();
    declare(alloc, project, decl)?;
    group_bodies(alloc, project, bodies, first, functions)?;
    Ok(())
}

/// A declaration without a body.
fn declare_bare(alloc: Global, project: &mut Project, decl: &Decl) -> Result<(), Stop>
    requires { HasNoBody decl.now.form }
    ensures ok { OnOk result ((bodies : GhostBodies) → Declares project.old bodies decl.now.form project.new bodies) }
    ensures refused { IfRefused result (λ r. (bodies : GhostBodies) → DeclHasFault project.old bodies decl.now.form r) }
{
    declare(alloc, project, decl)?;
    Ok(())
}

/// A declaration behind those before it: its head, and the bodies in it.
fn declaration(
    alloc: Global,
    project: &mut Project,
    bodies: &mut Bodies,
    decl: &Decl,
) -> Result<(), Stop>
    requires { SeesSome project.old }
    ensures ok { OnOk result (Declares project.old bodies.old decl.now.form project.new bodies.new) }
    ensures refused { IfRefused result (DeclHasFault project.old bodies.old decl.now.form) }
{
    match &decl.form {
        DeclForm::Con(_, _, _) => declare_bare(alloc, project, decl),
        DeclForm::Type(_, _) => declare_bare(alloc, project, decl),
        DeclForm::Datatype(_, _) => declare_bare(alloc, project, decl),
        DeclForm::Table(_, _, _, _) => declare_bare(alloc, project, decl),
        DeclForm::Sequence(_) => declare_bare(alloc, project, decl),
        DeclForm::Cookie(_, _) => declare_bare(alloc, project, decl),
        DeclForm::Val(name, con, e) => declare_val(alloc, project, bodies, name, con, e),
        DeclForm::Fun(functions) => {
            declare_group(alloc, project, bodies, decl, functions.as_slice())
        }
    }
}

/// The declarations of a module.
fn declarations(
    alloc: Global,
    project: &mut Project,
    bodies: &mut Bodies,
    decls: &[Decl],
) -> Result<(), Stop>
    requires { SeesSome project.old }
    ensures ok { OnOk result (DeclaresAll project.old bodies.old decls.now project.new bodies.new) }
    ensures refused { IfRefused result (DeclsFault project.old bodies.old decls.now) }
{
    for i in 0..decls.len() {
        declaration(alloc, project, bodies, &decls[i])?;
    }
    Ok(())
}

/// A length as a number.
fn number(length: usize) -> Result<u32, Memory>
    ensures { IfOk result (λ n. n ≡ length) }
{
    match u32::try_from(length) {
        Ok(n) => Ok(n),
        Err(_large) => Err(Memory),
    }
}

/// A module with its number and its name.
fn module_in(
    alloc: Global,
    project: &mut Project,
    bodies: &mut Bodies,
    at: usize,
    name: &Text,
    written: &Module,
) -> Result<(), Stop>
    requires { SeesSome project.old }
    ensures ok { OnOk result (AddsModule project.old bodies.old at name.now written.now project.new bodies.new) }
    ensures refused { IfRefused result (ModuleHasFault project.old bodies.old at name.now written.now) }
{
    let home = number(at)?;
    enter(alloc, project, home, name)?;
    declarations(alloc, project, bodies, written.decls.as_slice())?;
    Ok(())
}

/// The modules, each with its name.
pub fn modules_in(
    alloc: Global,
    project: &mut Project,
    bodies: &mut Bodies,
    names: &[Text],
    modules: &[Module],
) -> Result<(), Stop>
    requires { SeesSome project.old }
    ensures ok { OnOk result (length names.now ≡ length modules.now → AddsModules project.old bodies.old names.now modules.now project.new bodies.new) }
    ensures refused { IfRefused result (ModulesFault project.old bodies.old names.now modules.now) }
{
    for i in 0..modules.len() {
        match names.get(i) {
            Some(name) => module_in(alloc, project, bodies, i, name, &modules[i])?,
            None => return Err(Stop::Memory),
        }
    }
    Ok(())
}
