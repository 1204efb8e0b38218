//! A server made of compiled code.
ghost use Rattle.std.specs.Prelude.{◌≡◌, ◌≤◌, false, IfOk, IfErr, OnErr};
ghost use Rattle.ur_machine.specs.Answers.{ArePatternsOf};
ghost use Rattle.ur_top.specs.Starting.{IsAttachedServer, Unattached};

use crate::reporting::RunEnd;
use std::alloc::Global;
use ur_compile::Compiled;
use ur_keeper::Keeper;
use ur_serve::{NewEnd, Server};
use ur_words::Settings;

/// Attaches the keeper, and makes the server. The routes of a project whose files are told can be served (ur_compile_laws).
pub(crate) fn start<K: Keeper>(
    alloc: Global,
    compiled: Compiled,
    settings: &Settings,
    keeper: &mut K,
) -> Result<Server, RunEnd>
    requires patterns { ArePatternsOf compiled.verified compiled.patterns }
    requires at_rest { K.under_way keeper.old ≡ false }
    ensures started { IfOk result (IsAttachedServer compiled.verified compiled.patterns settings.now
        (record { kept = K.kept keeper.old; saved = K.saved keeper.old; faults = K.faults keeper.old })
        (record { kept = K.kept keeper.new; saved = K.saved keeper.new; faults = K.faults keeper.new }) (K.under_way keeper.new)) }
    ensures ends { IfErr result (Unattached compiled.verified.schema
        (record { kept = K.kept keeper.old; saved = K.saved keeper.old; faults = K.faults keeper.old })
        (record { kept = K.kept keeper.new; saved = K.saved keeper.new; faults = K.faults keeper.new })) }
    ensures err { OnErr result ((K.saved keeper.new ≡ K.saved keeper.old) × (K.kept keeper.new ≡ K.kept keeper.old) × (K.under_way keeper.new ≡ false)) }
    ensures reads { K.reads keeper.new ≡ K.reads keeper.old }
    ensures never_falls { K.faults keeper.old ≤ K.faults keeper.new }
{
    let Compiled { verified, patterns } = compiled;
    if !verified.code().handlers.are_routes() {
        return Err(RunEnd::Memory);
    }
    let Ok(application) = verified.code().schema.copy(alloc) else {
        return Err(RunEnd::Memory);
    };
    match Server::new(
        alloc,
        verified,
        patterns,
        keeper,
        settings.cache,
        settings.steps,
    ) {
        Ok(server) => Ok(server),
        Err(NewEnd::Differs(kept)) => Err(RunEnd::Schema { kept, application }),
        Err(NewEnd::Keeper) => Err(RunEnd::Keeper),
        Err(NewEnd::Memory) => Err(RunEnd::Memory),
    }
}
