//! The step of names.
ghost use Rattle.std.specs.Prelude.{◌≡◌, length};
ghost use Rattle.std.specs.Option.{option_copied};
ghost use Rattle.ur_names.specs.Faults.{Told, fault_of};

use crate::events;
use crate::scope::find;
use std::alloc::Global;
use ur_base::{Stop, Text};
use ur_syntax::{Module, Signature};

/// Whether each name that a project uses is in scope, and none is given twice where once is allowed. Otherwise the
/// first name, in order of modules and place, for which that is not so: E07 or E08.
pub fn check_names(
    alloc: Global,
    names: &[Text],
    modules: &[Module],
    signature: Option<&Signature>,
) -> Result<(), Stop>
    requires { length names.now ≡ length modules.now }
    ensures told { Told result (fault_of names.now modules.now (option_copied signature.entry)) }
{
    let told = events(alloc, names, modules, signature)?;
    find(alloc, told.as_slice())
}
