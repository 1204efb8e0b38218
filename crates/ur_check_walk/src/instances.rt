//! Functions with constructor arguments that are not applied.
ghost use Rattle.std.specs.Prelude.{◌≡◌, true, false, ℕ, List as GhostList, IfOk};
ghost use Rattle.ur_base.specs.Stopping.{IfRefused};
ghost use Rattle.ur_syntax.specs.Names.{name_text};
ghost use Rattle.ur_typed_rules.specs.Faults.{unknown};
ghost use Rattle.ur_syntax.specs.declared.exp.ExpForm.TheVariants as form;
ghost use Rattle.ur_typed_rules.specs.Scopes.{World as GhostWorld, Scope as GhostScope, Mode as GhostMode};
ghost use Rattle.ur_typed.specs.Faults.{is_given, BreaksNamed};
ghost use Rattle.ur_typed.specs.Faults as faults;
ghost use Rattle.ur_check_scopes.specs.Views.{Stands, StopIs, StopTells, key_in};
ghost use Rattle.ur_check_rules.specs.Callees.{named_by, IsFree};
ghost use Rattle.ur_check_walk.specs.Promises.{StandsSomewhere, GivesLeaf, TellsLeaf};

use std::alloc::Global;
use ur_base::{Span, Stop};
use ur_check_rules::{Out, applied_at, passed_out};
use ur_check_scopes::{Around, Key, Means, key_text, local_at, not_so, seen, unknown};
use ur_syntax::{Exp, ExpForm};

/// A function with constructor arguments that is not applied.
pub fn instance(alloc: Global, around: &Around, e: &Exp) -> Result<Out, Stop>
    requires { StandsSomewhere around.now }
    ensures typed { IfOk result (λ o. (m : GhostMode) → GivesLeaf around.now e.now.form m o) }
    ensures refused { IfRefused result (λ r. is_given e.now.form ≡ true → (m : GhostMode) → TellsLeaf around.now e.now.form m r) }
{
    let found = applied_at(alloc, around, e)?;
    match found {
        Some(applied) => passed_out(alloc, around, e.span, applied),
        None => Err(no_function(alloc, around, e)),
    }
}

/// How it is told that what has constructor arguments is no named function.
fn no_function(alloc: Global, around: &Around, e: &Exp) -> Stop
    ensures { (w : GhostWorld) (s : GhostScope) → Stands around.now w s → StopTells around.now.world.now.datatype_names (BreaksNamed w s e.now.form) result }
{
    let mut head = e;
    while let ExpForm::ConApp(inner, _) = &head.form {
        head = inner.get();
    }
    no_name(alloc, around, head)
}

/// The same of what has none.
fn no_name(alloc: Global, around: &Around, e: &Exp) -> Stop
    ensures { is_given e.now.form ≡ false → (w : GhostWorld) (s : GhostScope) → Stands around.now w s → StopTells around.now.world.now.datatype_names (BreaksNamed w s e.now.form) result }
{
    match &e.form {
        ExpForm::Var(x) => {
            let own = x.as_slice();
            no_value(alloc, around, e.span, own)
        }
        ExpForm::Member(m, x) => {
            let home = m.as_slice();
            let name = x.as_slice();
            undeclared(alloc, around, e.span, &Key::Member(home, name))
        }
        _ => not_named(alloc, e.span),
    }
}

fn not_named(alloc: Global, span: Span) -> Stop
    ensures { (names : GhostList (GhostList ℕ)) → StopIs names faults.not_named result }
{
    not_so(alloc, span, b"a constructor argument", b"a named function")
}

/// The same of a bare name.
fn no_value(alloc: Global, around: &Around, span: Span, x: &[u8]) -> Stop
    ensures { (w : GhostWorld) (s : GhostScope) → Stands around.now w s → StopTells around.now.world.now.datatype_names (BreaksNamed w s (form.Var x.now)) result }
{
    let sought = local_at(&around.scope.locals, x);
    match sought {
        Ok(found) => match found {
            Some(_place) => not_named(alloc, span),
            None => undeclared(alloc, around, span, &Key::Own(x)),
        },
        Err(_stopped) => Stop::Memory,
    }
}

/// The same of a name that no local hides.
fn undeclared(alloc: Global, around: &Around, span: Span, key: &Key) -> Stop
    ensures { (w : GhostWorld) (s : GhostScope) → Stands around.now w s → IsFree key.now s → StopTells around.now.world.now.datatype_names (BreaksNamed w s (named_by key.now)) result }
{
    let home = around.world.env.home.as_slice();
    match seen(home, around.world.values.as_slice(), key) {
        Some(means) => match means {
            Means::Val(_number) => not_named(alloc, span),
            Means::Function(_number) => Stop::Memory,
        },
        None => no_declaration(alloc, span, key),
    }
}

fn no_declaration(alloc: Global, span: Span, key: &Key) -> Stop
    ensures { (names : GhostList (GhostList ℕ)) → StopIs names (unknown (name_text (key_in key.now).home (key_in key.now).name)) result }
{
    match key_text(alloc, key) {
        Ok(name) => unknown(alloc, span, name.as_slice()),
        Err(_stopped) => Stop::Memory,
    }
}
