//! The passes, in order.
ghost use Rattle.std.specs.Prelude.{◌≡◌, ◌≤◌, length, Some, None, IfOk, IsTrue, OnOk, Option};
ghost use Rattle.ur_base.specs.Codes.{is_refusal_code};
ghost use Rattle.ur_base.specs.Counts.{Rose};
ghost use Rattle.ur_base.specs.Stopping.{IfRefused, Says};
ghost use Rattle.ur_base.specs.Told.{WhereTold};
ghost use Rattle.ur_io.specs.Files.{Files};
ghost use Rattle.ur_rows.specs.Nodes.{most_nodes};
ghost use Rattle.ur_tree.specs.declared.typed.Typed.{Typed};
ghost use Rattle.ur_typed.specs.Source.{IsSourceWithin};
ghost use Rattle.ur_check.specs.Refused.{HasCause};
ghost use Rattle.ur_check_limits.specs.Limits.{name_of, text_of};
ghost use Rattle.ur_conditions.specs.Patterns.{AreAllPatterns};
ghost use Rattle.ur_conditions.specs.Law.{IsSoundInvalidation, ReadArguments};
ghost use Rattle.ur_load.specs.Loaded.{IsLoaded, file_at as file_of_number};
ghost use Rattle.ur_compile.specs.Accepts.{Accepts};
ghost use Rattle.ur_compile.specs.Ends.{IfRefusedIn, IsFileOf, OnShelf};
ghost use Rattle.ur_compile.specs.Explains.{Fails, Refuses};
ghost use Rattle.ur_compile.specs.Kept.{IsCodeFor};

use crate::compiled::{CompileEnd, Compiled, stopped_in};
use crate::law::one_application;
use std::alloc::Global;
use ur_base::{Memory, Stop};
use ur_check::{caused_is_none, check};
use ur_check_limits::{Limit, exceeded};
use ur_code::never_stuck;
use ur_conditions::patterns_read_arguments;
use ur_effects::effects;
use ur_invalidate::patterns;
use ur_io::Shelf;
use ur_load::{Loaded, file_at, load_project, one_project, refused_is_not_loaded};
use ur_mono::{code_keeps_meaning, mono};
use ur_tree::Typed;
use ur_unfold::unfold;
use ur_verify::{Verified, verify};

/// The code of the project of this name, which means what its source means. Refused with the first of these that is so:
/// its files, tokens or grammar (E01 to E06, E20), names and kinds (E07 to E09), types (E10 to E13, E15, E16), instances
/// (E17, E18), first-order types (E19), a route that answers GET writes (E14), a limit of the store or the code (E20).
pub fn compile<S: Shelf>(
    alloc: Global,
    shelf: &mut S,
    project: &str,
) -> Result<Compiled, CompileEnd>
    ensures compiled { WhereTold (S.told shelf.old) (λ files. IfOk result (λ c. (app : Typed) × Accepts files project.now app × IsCodeFor app c.verified)) }
    ensures patterns { IfOk result (λ c. AreAllPatterns c.verified.queries c.verified.changes c.patterns) }
    ensures sound { IfOk result (λ c. IsSoundInvalidation c.verified.schema c.verified.queries c.verified.changes c.patterns) }
    ensures reads { IfOk result (λ c. ReadArguments c.verified.changes c.patterns) }
    ensures refused { IfRefusedIn result (λ file r. WhereTold (S.told shelf.old) (λ files. Refuses files project.now file r)) }
    // Whatever the shelf tells.
    ensures named { IfRefusedIn result (λ file r. IsTrue (is_refusal_code r.code)) }
    ensures shelf { OnShelf result (Rose (S.faults shelf.old) (S.faults shelf.new)) }
    ensures never_falls { S.faults shelf.old ≤ S.faults shelf.new }
    ensures kept { S.told shelf.new ≡ S.told shelf.old }
{
    refused_is_not_loaded();
    match load_project(alloc, shelf, project) {
        Ok(loaded) => of_loaded(alloc, &loaded),
        Err(end) => Err(CompileEnd::from(end)),
    }
}

/// The code of a project whose files are read.
fn of_loaded(alloc: Global, loaded: &Loaded) -> Result<Compiled, CompileEnd>
    requires { length loaded.now.names ≡ length loaded.now.modules }
    ensures compiled { IfOk result (λ c. (files : Files) (project : _) → IsLoaded files project loaded.now → (app : Typed) × Accepts files project app × IsCodeFor app c.verified) }
    ensures patterns { IfOk result (λ c. AreAllPatterns c.verified.queries c.verified.changes c.patterns) }
    ensures sound { IfOk result (λ c. IsSoundInvalidation c.verified.schema c.verified.queries c.verified.changes c.patterns) }
    ensures reads { IfOk result (λ c. ReadArguments c.verified.changes c.patterns) }
    ensures refused { IfRefusedIn result (λ file r. (files : Files) (project : _) → IsLoaded files project loaded.now → Refuses files project file r) }
    ensures no_shelf { OnShelf result ⊥ }
{
    caused_is_none();
    one_project();
    one_application();
    let typed = typed_of(alloc, loaded)?;
    match code_of(alloc, typed) {
        Ok(verified) => Ok(with_patterns(alloc, verified)?),
        Err(stop) => Err(stopped_in(alloc, &loaded.project, stop)),
    }
}

/// The application of a project.
fn typed_of(alloc: Global, loaded: &Loaded) -> Result<Typed, CompileEnd>
    requires { length loaded.now.names ≡ length loaded.now.modules }
    ensures source { IfOk result (IsSourceWithin most_nodes loaded.now.names loaded.now.modules loaded.now.signature) }
    ensures refused { IfRefusedIn result (λ file r. HasCause most_nodes loaded.now.names loaded.now.modules loaded.now.signature r × (file ≡ file_of_number loaded.now r.span.file)) }
    ensures no_shelf { OnShelf result ⊥ }
{
    let names = loaded.names.as_slice();
    let modules = loaded.modules.as_slice();
    match check(alloc, names, modules, loaded.signature.as_ref()) {
        Ok(typed) => Ok(typed),
        Err(stop) => {
            let file = file_at(loaded, file_number(&stop));
            Err(stopped_in(alloc, file, stop))
        }
    }
}

/// The number of the file in which a stop is.
fn file_number(stop: &Stop) -> u32
    ensures { IsFileOf stop.now result }
{
    match stop {
        Stop::Memory => 0,
        Stop::Refused(refusal) => refusal.span.file,
    }
}

/// The code of an application.
fn code_of(alloc: Global, typed: Typed) -> Result<Verified, Stop>
    ensures code { IfOk result (IsCodeFor typed) }
    ensures refused { IfRefused result (Fails typed) }
{
    let over = exceeded(&typed);
    let closed = unfold(alloc, typed)?;
    let code = mono(alloc, closed)?;
    never_stuck(&code);
    code_keeps_meaning();
    let verified = verify(alloc, code)?;
    effects(alloc, verified.code())?;
    within(alloc, over)?;
    Ok(verified)
}

/// Whether no limit is exceeded.
fn within(alloc: Global, over: Option<Limit>) -> Result<(), Stop>
    ensures none { OnOk result (over ≡ None) }
    ensures refused { IfRefused result (λ r. (l : Limit) × (over ≡ Some l) × Says r 20 (name_of l) (text_of l)) }
{
    match over {
        None => Ok(()),
        Some(limit) => Err(Stop::Refused(limit.refusal(alloc)?)),
    }
}

/// The code, with its patterns.
fn with_patterns(alloc: Global, verified: Verified) -> Result<Compiled, Memory>
    ensures same { IfOk result (λ c. c.verified ≡ verified) }
    ensures patterns { IfOk result (λ c. AreAllPatterns c.verified.queries c.verified.changes c.patterns) }
    ensures sound { IfOk result (λ c. IsSoundInvalidation c.verified.schema c.verified.queries c.verified.changes c.patterns) }
    ensures reads { IfOk result (λ c. ReadArguments c.verified.changes c.patterns) }
{
    patterns_read_arguments();
    let code = verified.code();
    let patterns = patterns(alloc, &code.queries, &code.changes)?;
    Ok(Compiled { verified, patterns })
}
