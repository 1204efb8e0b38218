//! Functions of a group, and `val`s.
ghost use Rattle.std.specs.Prelude.{◌≡◌, ℕ, Some, IfOk, OnOk};
ghost use Rattle.ur_rows.specs.Nodes.{most_nodes};
ghost use Rattle.ur_base.specs.Stopping.{IfRefused};
ghost use Rattle.ur_check_scopes.specs.Views.{Refuses, head_in};
ghost use Rattle.ur_syntax.specs.declared.decl.FunDef.{FunDef as GhostFunction};
ghost use Rattle.ur_typed.specs.Declaring.{Sofar, Heading, datatype_names, with_head, headings_out, val_type_out, with_val_of};
ghost use Rattle.ur_typed.specs.DeclFaults.{BreaksHeadings, BreaksVal};
ghost use Rattle.ur_check_heads.specs.Views.{Sees, Comes};

use crate::heads::head_of;
use crate::project::{Project, named, number, top};
use std::alloc::Global;
use ur_base::{Memory, Stop, Text};
use ur_check_scopes::{FunctionHead, Head, Means, is_param, normal_at};
use ur_rows::{NormalType, as_type, copy_text};
use ur_syntax::{Con, FunDef};

/// A function more, with this head.
fn add_function(alloc: Global, project: &mut Project, name: &Text, head: Head) -> Result<(), Memory>
    ensures { OnOk result ((home : ℕ) (z : Sofar) (f : GhostFunction) (w : Heading) → Sees project.old home z → f.name ≡ name.now → w.head ≡ head_in head → Sees project.new home (with_head home f z w)) }
{
    let at = number(project.world.functions.len())?;
    let entry = named(alloc, project, name, Means::Function(at))?;
    let name = copy_text(alloc, name)?;
    project.world.values.push(entry)?;
    project.world.functions.push(FunctionHead {
        module: project.world.module,
        name,
        head,
    })?;
    Ok(())
}

/// The heads of the functions of a group, which see one another.
pub fn functions_in(alloc: Global, project: &mut Project, functions: &[FunDef]) -> Result<(), Stop>
    ensures ok { OnOk result ((home : ℕ) (z : Sofar) → Sees project.old home z → Comes project.new home (headings_out most_nodes home functions.now z)) }
    ensures refused { IfRefused result (λ r. (home : ℕ) (z : Sofar) → Sees project.old home z → Refuses (datatype_names z) (BreaksHeadings most_nodes home functions.now z) r) }
{
    for i in 0..functions.len() {
        let function = &functions[i];
        let head = head_of(alloc, project, function)?;
        add_function(alloc, project, &function.name, head)?;
    }
    Ok(())
}

/// The written type of a `val`.
pub fn val_head(alloc: Global, project: &Project, con: &Con) -> Result<NormalType, Stop>
    ensures of { IfOk result (λ t. (home : ℕ) (z : Sofar) → Sees project.now home z → val_type_out most_nodes con.now z ≡ Some t) }
    ensures refused { IfRefused result (λ r. (home : ℕ) (z : Sofar) → Sees project.now home z → Refuses (datatype_names z) (BreaksVal most_nodes z con.now) r) }
{
    let around = top(project);
    let form = normal_at(alloc, &around.scope.cons, con)?;
    let of = as_type(alloc, form);
    is_param(alloc, &around, con, &of)?;
    Ok(of)
}

/// A `val` more, of this type.
pub fn val_in(
    alloc: Global,
    project: &mut Project,
    name: &Text,
    of: NormalType,
) -> Result<(), Memory>
    ensures { OnOk result ((home : ℕ) (z : Sofar) → Sees project.old home z → Sees project.new home (with_val_of name.now z of)) }
{
    let at = number(project.world.vals.len())?;
    let entry = named(alloc, project, name, Means::Val(at))?;
    project.world.values.push(entry)?;
    project.world.vals.push(of)?;
    Ok(())
}
