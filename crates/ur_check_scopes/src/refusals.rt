//! Refusals of the step of types, by their codes and texts.
ghost use Rattle.std.specs.Prelude.{IfOk, IsTrue, List as GhostList, ℕ};
ghost use Rattle.ur_base.specs.Codes.{is_refusal_code};
ghost use Rattle.ur_base.specs.Stopping.{Says};
ghost use Rattle.ur_typed_rules.specs.Faults as faults;
ghost use Rattle.ur_tree.specs.Text as texts;
ghost use Rattle.ur_check_scopes.specs.Views.{StopIs, StopSays};

use std::alloc::Global;
use ur_base::{List, Memory, Refusal, Span, Stop, Text};
use ur_rows::{NormalType, Part};
use ur_tree::{apart_from, row_text, type_text};

fn told(alloc: Global, code: u8, span: Span, left: &[u8], right: &[u8]) -> Result<Refusal, Memory>
    requires { IsTrue (is_refusal_code code) }
    ensures { IfOk result (λ r. Says r code left.now right.now) }
{
    let left = List::from_slice(alloc, left)?;
    let right = List::from_slice(alloc, right)?;
    Ok(Refusal {
        code,
        span,
        left,
        right,
    })
}

/// The second text is told apart from the first.
fn of_two(alloc: Global, code: u8, span: Span, left: &[u8], right: &[u8]) -> Result<Refusal, Memory>
    requires { IsTrue (is_refusal_code code) }
    ensures { IfOk result (λ r. Says r code left.now (texts.apart_from left.now right.now)) }
{
    let right = apart_from(alloc, left, right)?;
    let refusal = told(alloc, code, span, left, right.as_slice())?;
    Ok(refusal)
}

fn stopped(made: Result<Refusal, Memory>) -> Stop
    ensures { (code : ℕ) (left right : GhostList ℕ) → IfOk made (λ r. Says r code left right) → StopSays code left right result }
{
    match made {
        Ok(refusal) => Stop::Refused(refusal),
        Err(_want) => Stop::Memory,
    }
}

/// A name that is not in scope.
pub fn unknown(alloc: Global, span: Span, name: &[u8]) -> Stop
    ensures { (names : GhostList (GhostList ℕ)) → StopIs names (faults.unknown name.now) result }
{
    stopped(told(alloc, 7, span, name, b""))
}

/// A name that stands twice.
pub fn twice(alloc: Global, span: Span, name: &[u8]) -> Stop
    ensures { (names : GhostList (GhostList ℕ)) → StopIs names (faults.twice name.now) result }
{
    stopped(told(alloc, 8, span, name, b""))
}

/// Another kind than the one that is wanted.
pub fn unkinded(alloc: Global, span: Span, found: &[u8], wanted: &[u8]) -> Stop
    ensures { (names : GhostList (GhostList ℕ)) → StopIs names (faults.unkinded found.now wanted.now) result }
{
    stopped(of_two(alloc, 9, span, found, wanted))
}

/// Another type than the one that is wanted.
pub fn mismatch(alloc: Global, span: Span, found: &[u8], wanted: &[u8]) -> Stop
    ensures { (names : GhostList (GhostList ℕ)) → StopIs names (faults.mismatch found.now wanted.now) result }
{
    stopped(of_two(alloc, 10, span, found, wanted))
}

/// What does not fit in SQL.
pub fn misfit(alloc: Global, span: Span, found: &[u8], wanted: &[u8]) -> Stop
    ensures { (names : GhostList (GhostList ℕ)) → StopIs names (faults.misfit found.now wanted.now) result }
{
    stopped(of_two(alloc, 12, span, found, wanted))
}

/// A form that may not stand there so.
pub fn not_so(alloc: Global, span: Span, found: &[u8], wanted: &[u8]) -> Stop
    ensures { (names : GhostList (GhostList ℕ)) → StopIs names (faults.not_so found.now wanted.now) result }
{
    stopped(of_two(alloc, 15, span, found, wanted))
}

/// A normal form of more than 65,536 nodes.
pub fn too_large(alloc: Global, span: Span) -> Stop
    ensures { (names : GhostList (GhostList ℕ)) → StopIs names faults.too_large result }
{
    stopped(told(alloc, 16, span, b"65537", b"65536"))
}

fn rows(
    alloc: Global,
    names: &[Text],
    span: Span,
    left: &[Part],
    right: &[Part],
) -> Result<Refusal, Memory>
    ensures { IfOk result (λ r. Says r 11 (texts.row_text names.now left.now) (texts.row_text names.now right.now)) }
{
    let left = row_text(alloc, names, left)?;
    let right = row_text(alloc, names, right)?;
    Ok(Refusal {
        code: 11,
        span,
        left,
        right,
    })
}

/// Two rows that are not apart. `names` are those of datatypes.
pub fn not_apart(alloc: Global, names: &[Text], span: Span, left: &[Part], right: &[Part]) -> Stop
    ensures { StopIs names.now (faults.not_apart left.now right.now) result }
{
    stopped(rows(alloc, names, span, left, right))
}

fn of_type(
    alloc: Global,
    names: &[Text],
    code: u8,
    span: Span,
    found: &NormalType,
    wanted: &[u8],
) -> Result<Refusal, Memory>
    requires { IsTrue (is_refusal_code code) }
    ensures { IfOk result (λ r. Says r code (texts.type_text names.now found.now) (texts.apart_from (texts.type_text names.now found.now) wanted.now)) }
{
    let found = type_text(alloc, names, found)?;
    let refusal = of_two(alloc, code, span, found.as_slice(), wanted)?;
    Ok(refusal)
}

fn of_types(
    alloc: Global,
    names: &[Text],
    span: Span,
    found: &NormalType,
    wanted: &NormalType,
) -> Result<Refusal, Memory>
    ensures { IfOk result (λ r. Says r 10 (texts.type_text names.now found.now) (texts.apart_from (texts.type_text names.now found.now) (texts.type_text names.now wanted.now))) }
{
    let wanted = type_text(alloc, names, wanted)?;
    let refusal = of_type(alloc, names, 10, span, found, wanted.as_slice())?;
    Ok(refusal)
}

/// A type that is found where another one is wanted.
pub fn types_differ(
    alloc: Global,
    names: &[Text],
    span: Span,
    found: &NormalType,
    wanted: &NormalType,
) -> Stop
    ensures { StopIs names.now (faults.types_differ names.now found.now wanted.now) result }
{
    stopped(of_types(alloc, names, span, found, wanted))
}

/// A type that is found where one of another form is wanted.
pub fn not_of_type(
    alloc: Global,
    names: &[Text],
    span: Span,
    found: &NormalType,
    wanted: &[u8],
) -> Stop
    ensures { StopIs names.now (faults.not_of_type names.now found.now wanted.now) result }
{
    stopped(of_type(alloc, names, 10, span, found, wanted))
}

/// A type that may not stand there.
pub fn type_not_so(
    alloc: Global,
    names: &[Text],
    span: Span,
    found: &NormalType,
    wanted: &[u8],
) -> Stop
    ensures { StopIs names.now (faults.not_so (texts.type_text names.now found.now) wanted.now) result }
{
    stopped(of_type(alloc, names, 15, span, found, wanted))
}
