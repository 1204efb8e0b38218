//! One declaration after another.
ghost use Rattle.std.specs.Prelude.{ℕ, OnOk, option_map};
ghost use Rattle.ur_rows.specs.Nodes.{most_nodes};
ghost use Rattle.ur_base.specs.Stopping.{IfRefused};
ghost use Rattle.ur_check_scopes.specs.Views.{Refuses};
ghost use Rattle.ur_typed.specs.Declaring.{Sofar, datatype_names, val_type_out, with_val_of, decl_out};
ghost use Rattle.ur_typed.specs.DeclFaults.{BreaksVal, BreaksDecl, names_within};
ghost use Rattle.ur_check_heads.specs.Views.{Sees, Comes};

use crate::datatypes::{con_in, datatype_in};
use crate::functions::{functions_in, val_head, val_in};
use crate::project::Project;
use crate::stores::{cookie_in, sequence_in, table_in};
use std::alloc::Global;
use ur_base::{Stop, Text};
use ur_syntax::{Con, Decl, DeclForm};

/// A `val`, of its written type.
fn declare_val(alloc: Global, project: &mut Project, name: &Text, con: &Con) -> Result<(), Stop>
    ensures ok { OnOk result ((home : ℕ) (z : Sofar) → Sees project.old home z → Comes project.new home (option_map (with_val_of name.now z) (val_type_out most_nodes con.now z))) }
    ensures refused { IfRefused result (λ r. (home : ℕ) (z : Sofar) → Sees project.old home z → Refuses (datatype_names z) (BreaksVal most_nodes z con.now) r) }
{
    let of = val_head(alloc, project, con)?;
    val_in(alloc, project, name, of)?;
    Ok(())
}

/// The written head of a declaration, or those of a group, behind what is declared before it.
pub fn declare(alloc: Global, project: &mut Project, decl: &Decl) -> Result<(), Stop>
    ensures ok { OnOk result ((home : ℕ) (z : Sofar) → Sees project.old home z → Comes project.new home (decl_out most_nodes home decl.now.form z)) }
    ensures refused { IfRefused result (λ r. (home : ℕ) (z : Sofar) → Sees project.old home z → Refuses (names_within home decl.now.form z) (BreaksDecl most_nodes home z decl.now.form) r) }
{
    match &decl.form {
        DeclForm::Con(name, _kind, con) => con_in(alloc, project, name, con),
        DeclForm::Type(name, con) => con_in(alloc, project, name, con),
        DeclForm::Datatype(name, variants) => {
            datatype_in(alloc, project, name, variants.as_slice())
        }
        DeclForm::Table(name, con, primary, constraints) => {
            let list = constraints.as_slice();
            table_in(alloc, project, decl.span, name, con, primary, list)
        }
        DeclForm::Sequence(name) => {
            sequence_in(alloc, project, name)?;
            Ok(())
        }
        DeclForm::Cookie(name, con) => cookie_in(alloc, project, name, con),
        DeclForm::Val(name, con, _value) => declare_val(alloc, project, name, con),
        DeclForm::Fun(functions) => functions_in(alloc, project, functions.as_slice()),
    }
}
