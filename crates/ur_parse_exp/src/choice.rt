//! `if`, its test and its first branch, before what stands behind `else`.
ghost use Rattle.std.specs.Prelude.{◌≡◌, IfOk};
ghost use Rattle.ur_parse_rules.specs.Places.{IfRefused};
ghost use Rattle.ur_parse_exp_parts.specs.Lines.{ended};
ghost use Rattle.ur_parse_exp.specs.Choices.{choice_at, chosen};

use std::alloc::Global;
use ur_base::{List, Span, Stop};
use ur_parse_exp_parts::{Line, conditional_of, may_grow};
use ur_parse_rules::Parsed;

/// A test and a first branch, with the span of their tokens, `if` the first.
#[derive(Drop)]
pub struct Choice {
    pub span: Span,
    pub test: Parsed<Line>,
    pub first: Parsed<Line>,
}

/// What stands behind the last `else` and covers a span, with the choices before it, up to a height.
pub fn chosen(
    alloc: Global,
    mut before: List<Choice>,
    covered: Span,
    last: Parsed<Line>,
    greatest: usize,
) -> Result<Parsed<Line>, Stop>
    ensures found { IfOk result (λ p. (ended p.tree ≡ chosen before covered (ended last.tree)) × (p.end ≡ last.end)) }
    ensures refused { IfRefused result (λ r. ⊥) }
{
    let mut whole = last;
    'choices: while let Some(choice) = before.pop() {
        may_grow(whole.height, greatest)?;
        whole = chosen_one(alloc, choice, covered, whole)?;
    }
    Ok(whole)
}

/// A choice and what stands behind its `else`, up to where a span ends.
fn chosen_one(
    alloc: Global,
    choice: Choice,
    covered: Span,
    other: Parsed<Line>,
) -> Result<Parsed<Line>, Stop>
    ensures found { IfOk result (λ p. (ended p.tree ≡ choice_at choice covered (ended other.tree)) × (p.end ≡ other.end)) }
    ensures refused { IfRefused result (λ r. ⊥) }
{
    let Choice { span, test, first } = choice;
    let span = Span {
        file: span.file,
        from: span.from,
        to: covered.to,
    };
    let made = conditional_of(alloc, span, test, first, other)?;
    Ok(made)
}
