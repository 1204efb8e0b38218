//! The forms of folds.
ghost use Rattle.std.specs.Prelude.{◌≡◌, List as Items};
ghost use Rattle.ur_tree.specs.declared.exp.Exp.TheVariants as x;
ghost use Rattle.ur_meaning.specs.Form.{same_form};
ghost use Rattle.ur_source.specs.Reading.{Cons, fold_steps};
ghost use Rattle.ur_source.specs.Items.{Scope, folding, form_with};
ghost use Rattle.ur_unfold_pieces.specs.Forming.{FormedAs, OpensExp, OpensItem};
ghost use Rattle.ur_unfold_pieces.specs.Moving.{Stays};
ghost use Rattle.ur_unfold_pieces.specs.Standing.{IsWhole, ScopeIs, StepsLeft};
ghost use Rattle.ur_unfold_table.specs.Folding.{FoldsOver};

use crate::parts::{nothing, one, two};
use std::alloc::Global;
use ur_base::{Boxed, List};
use ur_meaning::{Halt, Head, Opened};
use ur_rows::Part;
use ur_tree::Exp;
use ur_unfold_pieces::{Opening, Piece, add_fold, static_in, step_at, step_scope, steps_in};
use ur_unfold_static::Step;

/// The form of a fold `e`: its closed static expression where it is a static one, and else its value.
pub fn fold_form<'a>(
    alloc: Global,
    table: &mut Opening<'a>,
    scope: u32,
    e: &'a Exp,
    step: &'a Boxed<Exp>,
    start: &'a Boxed<Exp>,
    row: &'a List<Part>,
) -> Result<Opened<Piece<'a>>, Halt>
    ensures form { (of : _) (acc : _) → e.now ≡ x.Fold of acc step.now start.now row.now → OpensExp table.old table.new scope e.now result }
    ensures stays { Stays table.old table.new }
{
    match static_in(alloc, table, scope, e)? {
        Some(number) => one(alloc, Head::Same, Piece::Closed(number)),
        None => value_fold(alloc, table, scope, step.get(), start.get(), row),
    }
}

fn value_fold<'a>(
    alloc: Global,
    table: &mut Opening<'a>,
    scope: u32,
    step: &'a Exp,
    start: &'a Exp,
    row: &'a List<Part>,
) -> Result<Opened<Piece<'a>>, Halt>
    ensures form { (around : Scope) → ScopeIs table.old scope around → IsWhole table.old → FormedAs table.old table.new (form_with (fold_steps around.cons row.now) (λ ks. same_form (folding around step.now start.now ks))) result }
    ensures stays { Stays table.old table.new }
{
    match steps_in(alloc, table, scope, row)? {
        None => nothing(alloc),
        Some(steps) => fold_over(alloc, table, scope, step, start, steps),
    }
}

/// The value of a fold over all of these steps.
fn fold_over<'a>(
    alloc: Global,
    table: &mut Opening<'a>,
    scope: u32,
    step: &'a Exp,
    start: &'a Exp,
    steps: List<Step>,
) -> Result<Opened<Piece<'a>>, Halt>
    ensures form { FoldsOver table.new scope step.now start.now steps result }
    ensures stays { Stays table.old table.new }
{
    let count = steps.len();
    if count > u32::MAX as usize {
        return Err(Halt::Memory);
    }
    let number = add_fold(&mut table.folds, steps)?;
    let folding = Piece::Folding {
        scope,
        step,
        start,
        steps: number,
        left: count as u32,
    };
    one(alloc, Head::Same, folding)
}

/// The form of a fold over the fields that are left: the start, or the first field's step with the fold of the others.
pub fn folding_form<'a>(
    alloc: Global,
    table: &mut Opening<'a>,
    scope: u32,
    step: &'a Exp,
    start: &'a Exp,
    steps: u32,
    left: u32,
) -> Result<Opened<Piece<'a>>, Halt>
    ensures form { (around : Scope) (ks : Items Cons) → ScopeIs table.old scope around → StepsLeft table.old steps left ks → OpensItem table.old table.new (folding around step.now start.now ks) result }
    ensures stays { Stays table.old table.new }
{
    if left == 0 {
        return one(alloc, Head::Same, Piece::Exp(scope, start));
    }
    match step_at(&table.folds, steps, left - 1) {
        None => Err(Halt::Memory),
        Some(at) => {
            let within = step_scope(alloc, table, scope, at)?;
            let others = Piece::Folding {
                scope,
                step,
                start,
                steps,
                left: left - 1,
            };
            two(alloc, Head::Let, others, Piece::Exp(within, step))
        }
    }
}
