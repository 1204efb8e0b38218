//! The steps of a fold.
ghost use Rattle.std.specs.Prelude.{◌≡◌, [], ◌∷◌, ◌++◌, true, IfOk};
ghost use Rattle.ur_rows.specs.declared.normal.Normal.TheVariants as normal;
ghost use Rattle.ur_rows.specs.IsNormal.{is_normal_part, is_normal_row, is_normal_type};
ghost use Rattle.ur_rows.specs.Put.{instance_row};
ghost use Rattle.ur_source.specs.Reading.{fold_steps, step_at, steps_of};
ghost use Rattle.ur_unfold_static.specs.Held.{Grows};
ghost use Rattle.ur_unfold_static.specs.Scopes.{StepIs, StepMayBe, StepsMayBe, cons_of};

use crate::constructors::row_under;
use std::alloc::Global;
use ur_base::{List, Memory};
use ur_rows::{Label, Normal, NormalType, Part, copy_label, copy_row, copy_type};
use ur_unfold_static::{Closing, Scope, Step};

/// How many parts a row may have that is folded over. A step has a copy of the row behind its field, so more are want of
/// memory.
const FOLDED: usize = 2048;

/// The steps of a row's fields under the scope, the last one first; none where it has a part that is no field.
pub fn fold_steps(
    alloc: Global,
    closing: &mut Closing<'_>,
    scope: &Scope,
    row: &List<Part>,
) -> Result<Option<List<Step>>, Memory>
    ensures steps { IfOk result (λ ss. StepsMayBe closing.new ss (fold_steps (cons_of closing.old scope.now) row.now)) }
    ensures grows { Grows closing.old closing.new }
{
    let closed = folded_row(alloc, closing, scope, row)?;
    steps_of(alloc, closing, closed)
}

/// The row under the scope, where it may be folded over.
fn folded_row(
    alloc: Global,
    closing: &Closing<'_>,
    scope: &Scope,
    row: &List<Part>,
) -> Result<List<Part>, Memory>
    ensures of { IfOk result (λ x. x ≡ instance_row (cons_of closing.now scope.now) row.now) }
    ensures in_order { IfOk result (λ x. is_normal_row x ≡ true) }
{
    let closed = row_under(alloc, closing, scope, row)?;
    if closed.len() > FOLDED {
        return Err(Memory);
    }
    Ok(closed)
}

/// The steps of a closed row's fields.
fn steps_of(
    alloc: Global,
    closing: &mut Closing<'_>,
    row: List<Part>,
) -> Result<Option<List<Step>>, Memory>
    requires { is_normal_row row ≡ true }
    ensures steps { IfOk result (λ ss. StepsMayBe closing.new ss (steps_of row)) }
    ensures grows { Grows closing.old closing.new }
{
    let mut left = row;
    let mut rest = List::new(alloc);
    let mut steps = List::new(alloc);
    while let Some(part) = left.pop() {
        match step_of(alloc, closing, &part, &rest)? {
            None => return Ok(None),
            Some(step) => steps.push(step)?,
        }
        rest = with_first(part, rest)?;
    }
    Ok(Some(steps))
}

/// The row with one part more, the first.
fn with_first(part: Part, row: List<Part>) -> Result<List<Part>, Memory>
    ensures { IfOk result (λ made. made ≡ part ∷ row) }
{
    let mut parts = row.into_vec();
    parts.insert(0, part)?;
    Ok(List::from_vec(parts))
}

/// The step of a field before others; none for a part that is no field.
fn step_of(
    alloc: Global,
    closing: &mut Closing<'_>,
    part: &Part,
    rest: &List<Part>,
) -> Result<Option<Step>, Memory>
    requires part { is_normal_part part.now ≡ true }
    requires rest { is_normal_row rest.now ≡ true }
    ensures step { IfOk result (λ s. StepMayBe closing.new s (step_at part.now rest.now)) }
    ensures grows { Grows closing.old closing.new }
{
    match part {
        Part::Field(label, of) => {
            let step = field_step(alloc, closing, label, of.get(), rest)?;
            Ok(Some(step))
        }
        Part::Piece(_) => Ok(None),
        Part::Mapped(_, _) => Ok(None),
    }
}

fn field_step(
    alloc: Global,
    closing: &mut Closing<'_>,
    label: &Label,
    of: &NormalType,
    rest: &List<Part>,
) -> Result<Step, Memory>
    requires of { is_normal_type of.now ≡ true }
    requires rest { is_normal_row rest.now ≡ true }
    ensures step { IfOk result (λ s. StepIs closing.new s (normal.Name label.now ∷ normal.Type of.now ∷ normal.Row rest.now ∷ [])) }
    ensures grows { Grows closing.old closing.new }
{
    let label = copy_label(alloc, label)?;
    let name = closing.add_con(Normal::Name(label))?;
    let t = copy_type(alloc, of)?;
    let of = closing.add_con(Normal::Type(t))?;
    let row = copy_row(alloc, rest)?;
    let rest = closing.add_con(Normal::Row(row))?;
    Ok(Step { name, of, rest })
}

/// The constructors with the three that a step binds.
pub fn in_step(alloc: Global, cons: &List<u32>, step: Step) -> Result<List<u32>, Memory>
    ensures { IfOk result (λ js. js ≡ cons.now ++ step.name ∷ step.of ∷ step.rest ∷ []) }
{
    let mut all = List::from_slice(alloc, cons.as_slice())?;
    all.push(step.name)?;
    all.push(step.of)?;
    all.push(step.rest)?;
    Ok(all)
}
