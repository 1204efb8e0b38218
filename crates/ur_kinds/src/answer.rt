//! The public calls.
ghost use Rattle.std.specs.Prelude.{IfOk, OnOk};
ghost use Rattle.ur_base.specs.Stopping.{IfRefused};
ghost use Rattle.ur_syntax.specs.HasKind.{HasKind, scope_in};
ghost use Rattle.ur_kinds.specs.Kindless.{HasNoKind, HasNotKind};

use crate::name_walk::names_known;
use crate::names::Names;
use crate::walk::{kind_in, of_kind};
use std::alloc::Global;
use ur_base::Stop;
use ur_syntax::{Con, ConEnv, Kind};

/// The kind of a constructor. A constructor without one is E07 with its first unknown name, or else E09 with a kind
/// that is found in it where another one is wanted.
pub fn kind_of(alloc: Global, env: &ConEnv, con: &Con) -> Result<Kind, Stop>
    ensures kind { IfOk result (HasKind (scope_in env.now) con.now.form) }
    ensures refused { IfRefused result (HasNoKind (scope_in env.now) con.now.form) }
{
    let names = Names::Declared(env);
    names_known(alloc, &names, con)?;
    kind_in(alloc, &names, con)
}

/// A constructor has this kind. One that has not is E07 with its first unknown name, or else E09 with a kind that is
/// found in it, or of it, where another one is wanted.
pub fn has_kind(alloc: Global, env: &ConEnv, con: &Con, wanted: &Kind) -> Result<(), Stop>
    ensures kind { OnOk result (HasKind (scope_in env.now) con.now.form wanted.now) }
    ensures refused { IfRefused result (HasNotKind (scope_in env.now) con.now.form wanted.now) }
{
    let names = Names::Declared(env);
    names_known(alloc, &names, con)?;
    of_kind(alloc, &names, con, wanted)
}
