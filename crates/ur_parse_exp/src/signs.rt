//! Unary minus signs before an expression.
ghost use Rattle.std.specs.Prelude.{◌≡◌, ℕ, IfOk};
ghost use Rattle.ur_lex.specs.declared.token.Symbol.TheVariants as symbol;
ghost use Rattle.ur_lex.specs.declared.token.TokenKind.TheVariants as token;
ghost use Rattle.ur_parse_rules.specs.Places.{Moves, Other, OfKind, Reads, IfRefused};
ghost use Rattle.ur_parse_rules.specs.ExpParts.{negative};
ghost use Rattle.ur_parse_rules.specs.Parts.{of_exp};
ghost use Rattle.ur_parse_rules.specs.Language.{language};
ghost use Rattle.ur_parse_exp.specs.Signs.{SignsTo};

use std::alloc::Global;
use ur_base::{Boxed, Stop};
use ur_lex::{Symbol, TokenKind, Tokens};
use ur_parse_exp_parts::{Single, may_grow, with_one};
use ur_parse_rules::{Parsed, sees, span};
use ur_syntax::Exp;

/// The place of the first token from here on that is no minus.
pub fn past_signs(tokens: &Tokens, at: usize) -> usize
    ensures signs { SignsTo tokens.now at result }
    ensures end { Other tokens.now result (OfKind (token.Symbol symbol.Minus)) }
{
    let mut place = at;
    'signs: while sees(tokens, place, TokenKind::Symbol(Symbol::Minus)) {
        place += 1;
    }
    place
}

/// An expression with the signs before it, up to a height.
#[inline(never)]
pub fn signed(
    alloc: Global,
    tokens: &Tokens,
    at: usize,
    first: usize,
    greatest: usize,
    inner: Parsed<Boxed<Exp>>,
) -> Result<Parsed<Boxed<Exp>>, Stop>
    requires signs { SignsTo tokens.now at first }
    requires moving { Moves tokens.now first inner.end }
    ensures end { IfOk result (λ p. p.end ≡ inner.end) }
    ensures found { IfOk result (λ p. (n : ℕ) → Reads language n tokens.now first inner.end (of_exp negative) inner.tree → Reads language n tokens.now at inner.end (of_exp negative) p.tree) }
    ensures refused { IfRefused result (λ r. ⊥) }
{
    let mut whole = inner;
    let mut place = first;
    'signs: while place > at {
        place -= 1;
        may_grow(whole.height, greatest)?;
        let covered = span(tokens, place, whole.end);
        whole = with_one(alloc, covered, Single::Negative, whole)?;
    }
    Ok(whole)
}
