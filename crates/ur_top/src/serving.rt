//! The commands that serve a project.
ghost use Rattle.std.specs.Prelude.{◌≡◌, ◌≢◌, ◌≤◌, ◌<◌, ℕ, false, List, [], ◌++◌, Some, IfOk, OnOk, IfErr, OnErr, Any};
ghost use Rattle.ur_base.specs.Counts.{Rose};
ghost use Rattle.ur_base.specs.Told.{WhereTold};
ghost use Rattle.ur_words.specs.Texts as texts;
ghost use Rattle.ur_words.specs.declared.reading.Reading.TheVariants as reading;
ghost use Rattle.ur_headline.specs.Counting.{IsCutOff};
ghost use Rattle.ur_keeper.specs.Keeper.{TellsStore};
ghost use Rattle.ur_top.specs.Ends.{world, IsSaid};
ghost use Rattle.ur_top.specs.Serving.{IsReplayed, IsUnsaid};
ghost use Rattle.ur_top.specs.Starting.{IsStarted, Unstarted};
ghost use Rattle.ur_top.specs.Obeyed.{Obeyed};

use crate::attaching::start;
use crate::compiling::compiled;
use crate::connections::{serve_connections, was_cut_off};
use crate::reporting::RunEnd;
use std::alloc::Global;
use ur_base::{List, Memory, Text};
use ur_compile::one_application;
use ur_headline::{links_of_source_lead, served_run_serves};
use ur_io::{SessionEnd, Shelf, Sink, Wire, print};
use ur_keeper::Keeper;
use ur_serve::Server;
use ur_words::{Settings, serving_line};

/// How serving ended, and its sessions.
#[derive(Drop)]
pub(crate) struct EndedServing {
    pub end: RunEnd,
    pub sessions: List<SessionEnd>,
}

/// The end of a run without a session.
pub(crate) fn unserved(alloc: Global, end: RunEnd) -> EndedServing
    ensures { result ≡ record { end = end; sessions = [] } }
{
    EndedServing {
        end,
        sessions: List::new(alloc),
    }
}

/// Serves one connection. A session that the wire cut off ends the run as a fault of the wire.
pub(crate) fn replay<S: Shelf, W: Wire, K: Keeper>(
    alloc: Global,
    project: &Text,
    settings: &Settings,
    shelf: &mut S,
    wire: &mut W,
    keeper: &mut K,
) -> EndedServing
    requires { K.under_way keeper.old ≡ false }
    ensures obeyed { Obeyed (S.told shelf.old) (TellsStore (K.kept keeper.old) (K.saved keeper.old)) (Some (reading.Replay project.now settings.now))
        (world S.faults W.told W.is_current W.faults K.kept K.saved K.reads K.under_way K.faults shelf.old wire.old keeper.old)
        (world S.faults W.told W.is_current W.faults K.kept K.saved K.reads K.under_way K.faults shelf.new wire.new keeper.new)
        result.end result.sessions }
    ensures files_kept { S.told shelf.new ≡ S.told shelf.old }
{
    one_application();
    served_run_serves();
    links_of_source_lead();
    match started(alloc, project, settings, shelf, keeper) {
        Ok(server) => replayed(serve_connections(alloc, server, 1, wire, keeper)),
        Err(end) => unserved(alloc, end),
    }
}

/// What a replay comes to, of what its serving came to.
fn replayed(served: EndedServing) -> EndedServing
    ensures { IsReplayed served.end served.sessions result.end result.sessions }
{
    let EndedServing { end, sessions } = served;
    let end = if was_cut_off(&sessions) {
        RunEnd::Wire
    } else {
        end
    };
    EndedServing { end, sessions }
}

/// Prints the first line, and serves so many connections at most.
pub(crate) fn serve<S: Shelf, W: Wire, K: Keeper, O: Sink>(
    alloc: Global,
    project: &Text,
    port: u16,
    settings: &Settings,
    most: u32,
    shelf: &mut S,
    wire: &mut W,
    keeper: &mut K,
    out: &mut O,
) -> EndedServing
    requires at_rest { K.under_way keeper.old ≡ false }
    requires some { 0 < most }
    ensures obeyed { Obeyed (S.told shelf.old) (TellsStore (K.kept keeper.old) (K.saved keeper.old)) (Some (reading.Serve project.now port settings.now most))
        (world S.faults W.told W.is_current W.faults K.kept K.saved K.reads K.under_way K.faults shelf.old wire.old keeper.old)
        (world S.faults W.told W.is_current W.faults K.kept K.saved K.reads K.under_way K.faults shelf.new wire.new keeper.new)
        result.end result.sessions }
    ensures said { WhereTold (O.told out.old) (λ before. (text : List ℕ) × (O.told out.new ≡ Some (before ++ text))
        × IsSaid (Some (reading.Serve project.now port settings.now most)) result.end text) }
    ensures announced { result.sessions ≢ [] → WhereTold (O.told out.old) (λ before. O.told out.new ≡ Some (before ++ texts.serving_line port)) }
    ensures sink { result.end ≡ RunEnd.Sink → Rose (O.faults out.old) (O.faults out.new) }
    ensures files_kept { S.told shelf.new ≡ S.told shelf.old }
    ensures never_falls { O.faults out.old ≤ O.faults out.new }
{
    one_application();
    served_run_serves();
    links_of_source_lead();
    match started(alloc, project, settings, shelf, keeper) {
        Ok(server) => match say_port(alloc, port, out) {
            Ok(()) => serve_connections(alloc, server, most, wire, keeper),
            Err(end) => unserved(alloc, end),
        },
        Err(end) => unserved(alloc, end),
    }
}

/// A server of the project over the keeper.
fn started<S: Shelf, K: Keeper>(
    alloc: Global,
    project: &Text,
    settings: &Settings,
    shelf: &mut S,
    keeper: &mut K,
) -> Result<Server, RunEnd>
    requires { K.under_way keeper.old ≡ false }
    ensures started { IfOk result (IsStarted (S.told shelf.old) project.now settings.now
        (record { kept = K.kept keeper.old; saved = K.saved keeper.old; faults = K.faults keeper.old })
        (record { kept = K.kept keeper.new; saved = K.saved keeper.new; faults = K.faults keeper.new }) (K.under_way keeper.new)) }
    ensures ends { IfErr result (Unstarted (S.told shelf.old) project.now (S.faults shelf.old) (S.faults shelf.new)
        (record { kept = K.kept keeper.old; saved = K.saved keeper.old; faults = K.faults keeper.old })
        (record { kept = K.kept keeper.new; saved = K.saved keeper.new; faults = K.faults keeper.new })) }
    ensures err { OnErr result ((K.saved keeper.new ≡ K.saved keeper.old) × (K.kept keeper.new ≡ K.kept keeper.old) × (K.under_way keeper.new ≡ false)) }
    ensures reads { K.reads keeper.new ≡ K.reads keeper.old }
    ensures files_kept { S.told shelf.new ≡ S.told shelf.old }
    ensures never_fall { (S.faults shelf.old ≤ S.faults shelf.new) × (K.faults keeper.old ≤ K.faults keeper.new) }
{
    let compiled = compiled(alloc, shelf, project)?;
    start(alloc, compiled, settings, keeper)
}

/// Prints that connections to this port are served.
fn say_port<O: Sink>(alloc: Global, port: u16, out: &mut O) -> Result<(), RunEnd>
    ensures said { WhereTold (O.told out.old) (λ before. OnOk result (O.told out.new ≡ Some (before ++ texts.serving_line port))) }
    ensures ends { IfErr result (IsUnsaid port (O.told out.old) (O.told out.new) (O.faults out.old) (O.faults out.new)) }
    ensures never_falls { O.faults out.old ≤ O.faults out.new }
{
    match serving_line(alloc, port) {
        Ok(line) => match print(out, line.as_slice()) {
            Ok(()) => Ok(()),
            Err(_) => Err(RunEnd::Sink),
        },
        Err(Memory) => Err(RunEnd::Memory),
    }
}
