//! Expressions with `::` between, which groups to the right.
ghost use Rattle.std.specs.Prelude.{◌≡◌, IfOk};
ghost use Rattle.ur_syntax.specs.declared.exp.ExpForm.TheVariants as form;
ghost use Rattle.ur_syntax.specs.declared.exp.Binary.TheVariants as op;
ghost use Rattle.ur_parse_rules.specs.Places.{IfRefused};
ghost use Rattle.ur_parse_rules.specs.Forms.{up_to};
ghost use Rattle.ur_parse_rules.specs.Expressions.{at};
ghost use Rattle.ur_parse_exp_parts.specs.Lists.{listed};

use crate::form::{Double, with_two};
use crate::height::may_grow;
use std::alloc::Global;
use ur_base::{Boxed, List, Span, Stop};
use ur_parse_rules::Parsed;
use ur_syntax::{Binary, Exp};

/// An expression with the span of its tokens, its parentheses among them.
#[derive(Drop)]
pub struct Piece {
    pub span: Span,
    pub exp: Boxed<Exp>,
}

/// Expressions joined by `::` to what stands behind each, the last of which covers a span, up to a height.
pub fn listed(
    alloc: Global,
    mut left: List<Piece>,
    covered: Span,
    last: Parsed<Boxed<Exp>>,
    tallest: usize,
    greatest: usize,
) -> Result<Parsed<Boxed<Exp>>, Stop>
    ensures found { IfOk result (λ p. (p.tree ≡ listed left covered last.tree) × (p.end ≡ last.end)) }
    ensures refused { IfRefused result (λ r. ⊥) }
{
    let mut right = last;
    'pieces: while let Some(piece) = left.pop() {
        may_grow(right.height, greatest)?;
        right = listed_one(alloc, piece, covered, right, tallest)?;
    }
    Ok(right)
}

/// An expression before `::` and what stands behind it, up to where a span ends.
fn listed_one(
    alloc: Global,
    piece: Piece,
    covered: Span,
    right: Parsed<Boxed<Exp>>,
    tallest: usize,
) -> Result<Parsed<Boxed<Exp>>, Stop>
    ensures found { IfOk result (λ p. (p.tree ≡ at (up_to piece.span covered) (form.Binary op.Cons piece.exp right.tree)) × (p.end ≡ right.end)) }
    ensures refused { IfRefused result (λ r. ⊥) }
{
    let Piece { span, exp } = piece;
    let span = Span {
        file: span.file,
        from: span.from,
        to: covered.to,
    };
    let first = Parsed {
        tree: exp,
        end: right.end,
        height: tallest,
    };
    with_two(alloc, span, Double::Binary(Binary::Cons), first, right)
}
