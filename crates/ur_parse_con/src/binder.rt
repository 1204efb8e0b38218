//! Binders.
ghost use Rattle.std.specs.Prelude.{◌≡◌, ℕ, IfOk, drop};
ghost use Rattle.ur_parse_rules.specs.Places.{Moves, Reads, Refuses, IfRefused, starts};
ghost use Rattle.ur_parse_rules.specs.Classes.{member};
ghost use Rattle.ur_parse_rules.specs.Ends.{binder_starts};
ghost use Rattle.ur_parse_rules.specs.ExpParts.{binder};
ghost use Rattle.ur_parse_rules.specs.Parts.{of_exp};
ghost use Rattle.ur_parse_rules.specs.Language.{language};

use std::alloc::Global;
use ur_base::Stop;
use ur_lex::{Symbol, TokenKind, Tokens};
use ur_parse_rules::{expect_name, sees};
use ur_syntax::Binder;

/// Whether `_` or a variable stands at a place.
pub fn sees_binder(tokens: &Tokens, at: usize) -> bool
    ensures { result ≡ starts (member binder_starts) (drop at tokens.now) }
{
    if sees(tokens, at, TokenKind::Symbol(Symbol::Underscore)) {
        true
    } else if sees(tokens, at, TokenKind::Lower) {
        true
    } else {
        false
    }
}

/// `_` or a variable, and the place behind it.
pub fn read_binder(alloc: Global, tokens: &Tokens, at: usize) -> Result<(Binder, usize), Stop>
    ensures moves { IfOk result (λ p. Moves tokens.now at p.1) }
    ensures found { IfOk result (λ p. (n : ℕ) → Reads language n tokens.now at p.1 (of_exp binder) p.0) }
    ensures refused { IfRefused result (λ r. (n : ℕ) → Refuses language n tokens.now at (of_exp binder) r) }
{
    if sees(tokens, at, TokenKind::Symbol(Symbol::Underscore)) {
        Ok((Binder::Ignored, at + 1))
    } else {
        let (name, end) = expect_name(alloc, tokens, at, TokenKind::Lower)?;
        Ok((Binder::Named(name), end))
    }
}
