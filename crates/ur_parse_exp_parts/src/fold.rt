//! `fold`, made of its parts: its constructors are read into boxes.
ghost use Rattle.std.specs.Prelude.{◌≡◌, IfOk};
ghost use Rattle.ur_syntax.specs.declared.exp.ExpForm.TheVariants as form;
ghost use Rattle.ur_parse_rules.specs.Places.{Moves, Reads, Refuses, IfRefused};
ghost use Rattle.ur_parse_rules.specs.ConParts.{con};
ghost use Rattle.ur_parse_rules.specs.Expressions.{at as as_read};
ghost use Rattle.ur_parse_rules.specs.declared.parse_rules_place.ConPlace.TheVariants as place;
ghost use Rattle.ur_parse_rules.specs.Parts.{of_con};
ghost use Rattle.ur_parse_rules.specs.Language.{language};

use crate::fold_of;
use std::alloc::Global;
use ur_base::{Boxed, Span, Stop};
use ur_lex::Tokens;
use ur_parse_con::read_con;
use ur_parse_rules::{ConPlace, Parsed, boxed};
use ur_syntax::{Con, Exp};

/// A constructor in a box, with the constructors that it holds: a reader that holds it has little to let go.
pub fn boxed_con(
    alloc: Global,
    tokens: &Tokens,
    at: usize,
    depth: usize,
    levels: usize,
) -> Result<Parsed<Boxed<Con>>, Stop>
    ensures moves { IfOk result (λ p. Moves tokens.now at p.end) }
    ensures found { IfOk result (λ p. Reads language depth tokens.now at p.end (of_con (con place.Plain)) p.tree) }
    ensures refused { IfRefused result (λ r. Refuses language depth tokens.now at (of_con (con place.Plain)) r) }
{
    let read = read_con(alloc, tokens, at, depth, levels, ConPlace::Plain)?;
    let Parsed { tree, end, height } = read;
    let tree = boxed(alloc, tree)?;
    Ok(Parsed { tree, end, height })
}

/// A constructor out of its box.
fn unboxed(con: Parsed<Boxed<Con>>) -> Parsed<Con>
    ensures { result.tree ≡ con.tree }
{
    let Parsed { tree, end, height } = con;
    Parsed {
        tree: tree.into_inner(),
        end,
        height,
    }
}

/// `fold [step] first second [row]`, which ends at a place.
pub fn folded(
    alloc: Global,
    span: Span,
    step: Parsed<Boxed<Con>>,
    first: Parsed<Boxed<Exp>>,
    second: Parsed<Boxed<Exp>>,
    row: Parsed<Boxed<Con>>,
    end: usize,
) -> Result<Parsed<Boxed<Exp>>, Stop>
    ensures found { IfOk result (λ p. (p.tree ≡ as_read span (form.Fold step.tree first.tree second.tree row.tree)) × (p.end ≡ end)) }
    ensures refused { IfRefused result (λ r. ⊥) }
{
    let step = unboxed(step);
    let row = unboxed(row);
    fold_of(alloc, span, step, first, second, row, end)
}
