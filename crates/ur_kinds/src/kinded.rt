//! The step of kinds.
ghost use Rattle.std.specs.Prelude.{◌≡◌, length, OnOk};
ghost use Rattle.std.specs.Option.{option_copied};
ghost use Rattle.ur_base.specs.Stopping.{IfRefused};
ghost use Rattle.ur_kinds.specs.KindedFaults.{ProjectIsKinded, KindFault};

use crate::decls::events;
use crate::search::find;
use std::alloc::Global;
use ur_base::{Stop, Text};
use ur_syntax::{Module, Signature};

/// Whether each constructor that a project writes has the kind that its place wants, in its scope. Otherwise E09 for
/// the first one, in order of modules and place, that has not. One with a name that is not in scope is passed over:
/// names are looked at before.
pub fn check_kinds(
    alloc: Global,
    names: &[Text],
    modules: &[Module],
    signature: Option<&Signature>,
) -> Result<(), Stop>
    requires { length names.now ≡ length modules.now }
    ensures kinded { OnOk result (ProjectIsKinded names.now modules.now (option_copied signature.entry)) }
    ensures refused { IfRefused result (KindFault names.now modules.now (option_copied signature.entry)) }
{
    let told = events(alloc, names, modules, signature)?;
    find(alloc, told.as_slice())
}
