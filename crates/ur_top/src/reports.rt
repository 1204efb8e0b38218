//! The commands that compile a project and tell of it.
ghost use Rattle.std.specs.Prelude.{◌≡◌, ◌≤◌};
ghost use Rattle.ur_machine.specs.Answers.{ArePatternsOf};
ghost use Rattle.ur_compile.specs.Kept.{IsCodeFor};
ghost use Rattle.ur_top.specs.Sources.{OfFiles};
ghost use Rattle.ur_top.specs.Starting.{IsChecked, IsSited};

use crate::compiling::compiled;
use crate::reporting::RunEnd;
use std::alloc::Global;
use ur_base::Text;
use ur_compile::Compiled;
use ur_invalidate::sites_text;
use ur_io::Shelf;

/// How many routes the project has.
pub(crate) fn check<S: Shelf>(alloc: Global, shelf: &mut S, project: &Text) -> RunEnd
    ensures ends { IsChecked (S.told shelf.old) project.now (S.faults shelf.old) (S.faults shelf.new) result }
    ensures never_falls { S.faults shelf.old ≤ S.faults shelf.new }
    ensures kept { S.told shelf.new ≡ S.told shelf.old }
{
    match compiled(alloc, shelf, project) {
        Ok(compiled) => RunEnd::Checked(compiled.verified.code().handlers.routes.len()),
        Err(end) => end,
    }
}

/// The sites of the project, and what each of its updates drops.
pub(crate) fn sites<S: Shelf>(alloc: Global, shelf: &mut S, project: &Text) -> RunEnd
    ensures ends { IsSited (S.told shelf.old) project.now (S.faults shelf.old) (S.faults shelf.new) result }
    ensures never_falls { S.faults shelf.old ≤ S.faults shelf.new }
    ensures kept { S.told shelf.new ≡ S.told shelf.old }
{
    match compiled(alloc, shelf, project) {
        Ok(compiled) => listed(alloc, &compiled),
        Err(end) => end,
    }
}

fn listed(alloc: Global, compiled: &Compiled) -> RunEnd
    requires { ArePatternsOf compiled.now.verified compiled.now.patterns }
    ensures ends { (told : _) (word : _) (faults faults' : _) → OfFiles told word (λ app. IsCodeFor app compiled.now.verified) → IsSited told word faults faults' result }
{
    let code = compiled.verified.code();
    match sites_text(alloc, &code.queries, &code.changes, &compiled.patterns) {
        Ok(text) => RunEnd::Listed(text),
        Err(_) => RunEnd::Memory,
    }
}
