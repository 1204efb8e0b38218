//! A project compiled, for a run.
ghost use Rattle.std.specs.Prelude.{◌≡◌, ◌≤◌, IfOk, IfErr};
ghost use Rattle.ur_machine.specs.Answers.{ArePatternsOf};
ghost use Rattle.ur_compile.specs.Kept.{IsCodeFor};
ghost use Rattle.ur_top.specs.Sources.{OfFiles};
ghost use Rattle.ur_top.specs.Starting.{ends_as, Uncompiled};

use crate::reporting::RunEnd;
use std::alloc::Global;
use std::str;
use ur_base::Text;
use ur_compile::{CompileEnd, Compiled, compile};
use ur_io::Shelf;

/// The code of the project of this name, or how the run ends without it.
pub(crate) fn compiled<S: Shelf>(
    alloc: Global,
    shelf: &mut S,
    project: &Text,
) -> Result<Compiled, RunEnd>
    ensures coded { IfOk result (λ c. OfFiles (S.told shelf.old) project.now (λ app. IsCodeFor app c.verified)) }
    ensures patterns { IfOk result (λ c. ArePatternsOf c.verified c.patterns) }
    ensures ends { IfErr result (Uncompiled (S.told shelf.old) project.now (S.faults shelf.old) (S.faults shelf.new)) }
    ensures never_falls { S.faults shelf.old ≤ S.faults shelf.new }
    ensures kept { S.told shelf.new ≡ S.told shelf.old }
{
    let Ok(project) = str::from_utf8(project.as_slice()) else {
        return Err(RunEnd::Memory);
    };
    match compile(alloc, shelf, project) {
        Ok(compiled) => Ok(compiled),
        Err(end) => Err(end_of(end)),
    }
}

/// How a run ends where nothing was compiled.
pub(crate) fn end_of(end: CompileEnd) -> RunEnd
    ensures { result ≡ ends_as end }
{
    match end {
        CompileEnd::Refused { file, refusal } => RunEnd::Refused { file, refusal },
        CompileEnd::Shelf => RunEnd::Shelf,
        CompileEnd::Memory => RunEnd::Memory,
    }
}
