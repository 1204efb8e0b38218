//! Types and datatypes.
ghost use Rattle.std.specs.Prelude.{◌≡◌, ℕ, true, Some, IfOk, OnOk};
ghost use Rattle.ur_rows.specs.Nodes.{most_nodes};
ghost use Rattle.ur_base.specs.Stopping.{IfRefused};
ghost use Rattle.ur_syntax.specs.declared.kind.Kind.{Kind as GhostKind};
ghost use Rattle.ur_syntax.specs.declared.con.Con.{Con as GhostCon};
ghost use Rattle.ur_syntax.specs.declared.kind.Kind.TheVariants as kind;
ghost use Rattle.ur_syntax.specs.declared.con.ConMeaning.TheVariants as meaning;
ghost use Rattle.ur_syntax.specs.Names.{member};
ghost use Rattle.ur_check_scopes.specs.Views.{Refuses};
ghost use Rattle.ur_typed.specs.Declaring.{Sofar, datatype_names, may_be_defined, with_defined, defined_out, argument_out, with_constructor, variant_out, variants_out, with_datatype};
ghost use Rattle.ur_typed.specs.DeclFaults.{BreaksDefined, BreaksArgument, BreaksVariants};
ghost use Rattle.ur_check_heads.specs.Views.{Sees, Comes};

use crate::project::{Project, named, number, top};
use std::alloc::Global;
use ur_base::{Memory, Stop, Text};
use ur_check_scopes::{con_apart, normal_at, type_at, type_not_so};
use ur_rows::{NormalType, copy_text};
use ur_rows_normal::is_value_type;
use ur_syntax::{Con, ConEntry, ConMeaning, ConName, Kind, Variant as Written};
use ur_tree::{Datatype, Variant};

/// What a name is defined as has rows whose parts are apart.
fn may_be_defined(alloc: Global, project: &Project, con: &Con) -> Result<(), Stop>
    ensures ok { OnOk result ((home : ℕ) (z : Sofar) → Sees project.now home z → may_be_defined most_nodes z con.now ≡ true) }
    ensures refused { IfRefused result (λ r. (home : ℕ) (z : Sofar) → Sees project.now home z → Refuses (datatype_names z) (BreaksDefined most_nodes z con.now) r) }
{
    let around = top(project);
    let form = normal_at(alloc, &around.scope.cons, con)?;
    con_apart(alloc, &around, con, &form)
}

fn define(alloc: Global, project: &mut Project, name: &Text, con: &Con) -> Result<(), Memory>
    ensures { OnOk result ((home : ℕ) (z : Sofar) (k : GhostKind) → Sees project.old home z → Sees project.new home (with_defined name.now k con.now z)) }
{
    let home = copy_text(alloc, &project.world.env.home)?;
    project.names.define(alloc, &home, name, con)?;
    Ok(())
}

/// `con` and `type`.
pub fn con_in(alloc: Global, project: &mut Project, name: &Text, con: &Con) -> Result<(), Stop>
    ensures ok { OnOk result ((home : ℕ) (z : Sofar) (k : GhostKind) → Sees project.old home z → Comes project.new home (defined_out most_nodes name.now k con.now z)) }
    ensures refused { IfRefused result (λ r. (home : ℕ) (z : Sofar) → Sees project.old home z → Refuses (datatype_names z) (BreaksDefined most_nodes z con.now) r) }
{
    may_be_defined(alloc, project, con)?;
    define(alloc, project, name, con)?;
    Ok(())
}

fn datatype_entry(
    alloc: Global,
    project: &Project,
    name: &Text,
    number: u32,
) -> Result<ConEntry, Memory>
    ensures { IfOk result (λ e. e ≡ record { name = member project.now.world.env.home name.now; kind = kind.Star; meaning = meaning.Datatype number }) }
{
    let home = copy_text(alloc, &project.world.env.home)?;
    let name = copy_text(alloc, name)?;
    Ok(ConEntry {
        name: ConName {
            home: Some(home),
            name,
        },
        kind: Kind::Star,
        meaning: ConMeaning::Datatype(number),
    })
}

/// A datatype more, and its number.
fn add_datatype(alloc: Global, project: &mut Project, name: &Text) -> Result<u32, Memory>
    ensures number { IfOk result (λ n. (home : ℕ) (z : Sofar) → Sees project.old home z → n ≡ z.place.datatypes) }
    ensures ok { OnOk result ((home : ℕ) (z : Sofar) → Sees project.old home z → Sees project.new home (with_datatype home name.now z)) }
{
    let at = number(project.world.datatypes.len())?;
    let entry = datatype_entry(alloc, project, name, at)?;
    let of_datatype = copy_text(alloc, name)?;
    let of_text = copy_text(alloc, name)?;
    project.names.push(alloc, &entry)?;
    project.world.datatypes.push(Datatype {
        module: project.world.module,
        name: of_datatype,
    })?;
    project.world.datatype_names.push(of_text)?;
    Ok(at)
}

/// The argument of a constructor is a value.
fn argument(alloc: Global, project: &Project, con: &Con) -> Result<NormalType, Stop>
    ensures of { IfOk result (λ t. (home : ℕ) (z : Sofar) → Sees project.now home z → argument_out most_nodes z con.now ≡ Some t) }
    ensures refused { IfRefused result (λ r. (home : ℕ) (z : Sofar) → Sees project.now home z → Refuses (datatype_names z) (BreaksArgument most_nodes z con.now) r) }
{
    let around = top(project);
    let of = type_at(alloc, &around, con)?;
    if is_value_type(&of) {
        return Ok(of);
    }
    let names = project.world.datatype_names.as_slice();
    Err(type_not_so(alloc, names, con.span, &of, b"the type of a value"))
}

fn argument_of(
    alloc: Global,
    project: &Project,
    written: &Written,
) -> Result<Option<NormalType>, Stop>
    ensures of { IfOk result (λ t. (home : ℕ) (z : Sofar) (datatype : ℕ) → Sees project.now home z → variant_out most_nodes datatype written.now.name written.now.con z ≡ Some (with_constructor datatype written.now.name t z)) }
    ensures refused { IfRefused result (λ r. (home : ℕ) (z : Sofar) → Sees project.now home z → Refuses (datatype_names z) (λ f. (c : GhostCon) × (written.now.con ≡ Some c) × BreaksArgument most_nodes z c f) r) }
{
    match &written.con {
        Some(con) => {
            let of = argument(alloc, project, con)?;
            Ok(Some(of))
        }
        None => Ok(None),
    }
}

/// A constructor more, of this datatype.
fn add_variant(
    alloc: Global,
    project: &mut Project,
    datatype: u32,
    name: &Text,
    arg: Option<NormalType>,
) -> Result<(), Memory>
    ensures { OnOk result ((home : ℕ) (z : Sofar) → Sees project.old home z → Sees project.new home (with_constructor datatype name.now arg z)) }
{
    let at = number(project.world.variants.len())?;
    let entry = named(alloc, project, name, at)?;
    let name = copy_text(alloc, name)?;
    project.world.constructors.push(entry)?;
    project.world.variants.push(Variant {
        datatype,
        name,
        arg,
    })?;
    Ok(())
}

/// The constructors of a datatype.
fn variants_in(
    alloc: Global,
    project: &mut Project,
    datatype: u32,
    variants: &[Written],
) -> Result<(), Stop>
    ensures ok { OnOk result ((home : ℕ) (z : Sofar) → Sees project.old home z → Comes project.new home (variants_out most_nodes datatype variants.now z)) }
    ensures refused { IfRefused result (λ r. (home : ℕ) (z : Sofar) → Sees project.old home z → Refuses (datatype_names z) (BreaksVariants most_nodes datatype variants.now z) r) }
{
    for i in 0..variants.len() {
        let variant = &variants[i];
        let arg = argument_of(alloc, project, variant)?;
        add_variant(alloc, project, datatype, &variant.name, arg)?;
    }
    Ok(())
}

/// `datatype`, which is in scope of its own constructors.
pub fn datatype_in(
    alloc: Global,
    project: &mut Project,
    name: &Text,
    variants: &[Written],
) -> Result<(), Stop>
    ensures ok { OnOk result ((home : ℕ) (z : Sofar) → Sees project.old home z → Comes project.new home (variants_out most_nodes z.place.datatypes variants.now (with_datatype home name.now z))) }
    ensures refused { IfRefused result (λ r. (home : ℕ) (z : Sofar) → Sees project.old home z → Refuses (datatype_names (with_datatype home name.now z)) (BreaksVariants most_nodes z.place.datatypes variants.now (with_datatype home name.now z)) r) }
{
    let datatype = add_datatype(alloc, project, name)?;
    variants_in(alloc, project, datatype, variants)
}
