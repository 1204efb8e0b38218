//! What `--` removes.
ghost use Rattle.std.specs.Prelude.{◌≡◌, ◌+◌, ℕ, IfOk, drop, true, false};
ghost use Rattle.ur_lex.specs.declared.token.Symbol.TheVariants as symbol;
ghost use Rattle.ur_lex.specs.declared.token.TokenKind.TheVariants as token;
ghost use Rattle.ur_parse_rules.specs.Places.{Moves, IsAt, OfKind, Refuses, IfRefused, starts};
ghost use Rattle.ur_parse_rules.specs.Classes.{member};
ghost use Rattle.ur_parse_rules.specs.Ends.{sum_more};
ghost use Rattle.ur_parse_rules.specs.ExpParts as e;
ghost use Rattle.ur_parse_rules.specs.Parts.{of_exp};
ghost use Rattle.ur_parse_rules.specs.Language.{language};
ghost use Rattle.ur_parse_exp_parts.specs.Lists.{GoneRead};

use crate::begin::sees_argument;
use crate::form::removed;
use std::alloc::Global;
use ur_base::{Boxed, Stop};
use ur_lex::{Symbol, TokenKind, Tokens};
use ur_parse_con::{Level, read_removed, sign_at};
use ur_parse_rules::{Parsed, sees, span, unexpected};
use ur_syntax::Exp;

/// Whether what stands in a sum goes on at a place.
fn sees_more(tokens: &Tokens, at: usize) -> bool
    ensures { result ≡ starts (member sum_more) (drop at tokens.now) }
{
    match sign_at(tokens, at, Level::Sum) {
        Some(_) => true,
        None => match sign_at(tokens, at, Level::Product) {
            Some(_) => true,
            None => {
                if sees(tokens, at, TokenKind::Symbol(Symbol::Dot)) {
                    true
                } else {
                    sees_argument(tokens, at)
                }
            }
        },
    }
}

/// An expression that begins at a place, with `--` behind it and what that removes.
pub fn read_gone(
    alloc: Global,
    tokens: &Tokens,
    from: usize,
    whole: Parsed<Boxed<Exp>>,
) -> Result<Parsed<Boxed<Exp>>, Stop>
    requires moving { Moves tokens.now from whole.end }
    requires signed { IsAt tokens.now whole.end (whole.end + 1) (OfKind (token.Symbol symbol.DoubleMinus)) }
    ensures moves { IfOk result (λ p. Moves tokens.now whole.end p.end) }
    ensures found { IfOk result (λ p. GoneRead tokens.now from whole.end p.end whole.tree p.tree) }
    ensures refused { IfRefused result (λ r. (n : ℕ) → Refuses language n tokens.now whole.end (of_exp (e.left_step e.append)) r) }
{
    let (gone, end) = read_removed(alloc, tokens, whole.end + 1)?;
    if sees_more(tokens, end) {
        return Err(unexpected(alloc, tokens, end));
    }
    let covered = span(tokens, from, end);
    let made = removed(alloc, covered, whole, gone, end)?;
    Ok(made)
}
