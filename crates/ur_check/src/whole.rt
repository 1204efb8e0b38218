//! The whole check.
ghost use Rattle.std.specs.Prelude.{◌≡◌, length, IfOk, OnOk};
ghost use Rattle.std.specs.Option.{option_copied};
ghost use Rattle.ur_rows.specs.Nodes.{most_nodes};
ghost use Rattle.ur_base.specs.Stopping.{IfRefused};
ghost use Rattle.ur_typed.specs.DeclFaults.{ProjectHasFault};
ghost use Rattle.ur_typed.specs.Source.{begun, IsSourceWithin};
ghost use Rattle.ur_check.specs.Refused.{HasCause};
ghost use Rattle.ur_check.specs.Views.{SeesSome, AddsModules, EntersAll, ProjectFaults, Resolves};

use crate::assembled::assembled;
use crate::bodies::{Bodies, no_bodies};
use crate::field_names;
use crate::modules::modules_in;
use std::alloc::Global;
use ur_base::{List, Stop, Text};
use ur_check_heads::{Project, entries, nothing_declared};
use ur_kinds::check_kinds;
use ur_names::check_names;
use ur_syntax::{Module, Signature};
use ur_tree::Typed;
use ur_typed_laws::checked_is_typed;

/// Declares all modules; the entries of the project.
fn declared(
    alloc: Global,
    project: &mut Project,
    bodies: &mut Bodies,
    names: &[Text],
    modules: &[Module],
    signature: Option<&Signature>,
) -> Result<List<u32>, Stop>
    requires seen { SeesSome project.old }
    requires named { length names.now ≡ length modules.now }
    ensures added { OnOk result (AddsModules project.old bodies.old names.now modules.now project.new bodies.new) }
    ensures entries { IfOk result (EntersAll project.new (option_copied signature.entry)) }
    ensures refused { IfRefused result (ProjectFaults project.old bodies.old names.now modules.now (option_copied signature.entry)) }
{
    modules_in(alloc, project, bodies, names, modules)?;
    let list = entries(alloc, project, signature)?;
    Ok(list)
}

/// The source of a project whose names of fields are these.
fn typed_source(
    alloc: Global,
    names: &[Text],
    modules: &[Module],
    signature: Option<&Signature>,
    fields: List<Text>,
) -> Result<Typed, Stop>
    requires { length names.now ≡ length modules.now }
    ensures made { IfOk result (Resolves names.now fields modules.now (option_copied signature.entry)) }
    ensures refused { IfRefused result (ProjectHasFault most_nodes (begun fields) names.now modules.now (option_copied signature.entry)) }
{
    let mut project = nothing_declared(alloc, fields);
    let mut bodies = no_bodies(alloc);
    let found = declared(alloc, &mut project, &mut bodies, names, modules, signature)?;
    let app = assembled(alloc, names, found.as_slice(), project, bodies)?;
    Ok(app)
}

/// The typed source of a project, whose modules have these names; or else why there is none: E07 and E08 by its names, E09 by
/// its kinds, and then those of its types.
pub fn check(
    alloc: Global,
    names: &[Text],
    modules: &[Module],
    signature: Option<&Signature>,
) -> Result<Typed, Stop>
    requires { length names.now ≡ length modules.now }
    ensures source { IfOk result (IsSourceWithin most_nodes names.now modules.now (option_copied signature.entry)) }
    ensures refused { IfRefused result (HasCause most_nodes names.now modules.now (option_copied signature.entry)) }
{
    check_names(alloc, names, modules, signature)?;
    check_kinds(alloc, names, modules, signature)?;
    let fields = field_names(alloc, modules)?;
    let app = typed_source(alloc, names, modules, signature, fields)?;
    checked_is_typed();
    Ok(app)
}
