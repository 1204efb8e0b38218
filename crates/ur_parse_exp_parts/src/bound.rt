//! `_ <-` and `x <-`.
ghost use Rattle.std.specs.Prelude.{◌≡◌, ◌+◌, ℕ, IfOk, true, false};
ghost use Rattle.ur_parse_rules.specs.Places.{Moves, IfRefused, Refuses};
ghost use Rattle.ur_parse_rules.specs.ExpParts.{exp};
ghost use Rattle.ur_parse_rules.specs.Parts.{of_exp};
ghost use Rattle.ur_parse_rules.specs.Language.{language};
ghost use Rattle.ur_parse_exp_parts.specs.Bindings.{Binds, BindsOne, BindsNone};

use crate::word::expect_word_of;
use std::alloc::Global;
use ur_base::Stop;
use ur_lex::{Symbol, TokenKind, Tokens};
use ur_parse_rules::{expect, sees};
use ur_syntax::Binder;

/// Whether `_`, or a variable with `<-` behind it, stands at a place.
pub fn sees_binding(tokens: &Tokens, at: usize) -> bool
    ensures yes { result ≡ true → BindsOne tokens.now at }
    ensures no { result ≡ false → BindsNone tokens.now at }
{
    if sees(tokens, at, TokenKind::Symbol(Symbol::Underscore)) {
        true
    } else if sees(tokens, at, TokenKind::Lower) {
        sees(tokens, at + 1, TokenKind::Symbol(Symbol::LeftArrow))
    } else {
        false
    }
}

/// The binder before `<-` where one is seen, and the place behind `<-`.
pub fn binding(alloc: Global, tokens: &Tokens, at: usize) -> Result<(Binder, usize), Stop>
    requires { BindsOne tokens.now at }
    ensures moves { IfOk result (λ p. Moves tokens.now at p.1) }
    ensures found { IfOk result (λ p. Binds tokens.now at p.1 p.0) }
    ensures refused { IfRefused result (λ r. (m n : ℕ) → 1 + m ≡ n → Refuses language n tokens.now at (of_exp exp) r) }
{
    if sees(tokens, at, TokenKind::Symbol(Symbol::Underscore)) {
        let begin = expect(alloc, tokens, at + 1, TokenKind::Symbol(Symbol::LeftArrow))?;
        Ok((Binder::Ignored, begin))
    } else {
        let (name, arrow) = expect_word_of(alloc, tokens, at, TokenKind::Lower, true)?;
        let begin = expect(alloc, tokens, arrow, TokenKind::Symbol(Symbol::LeftArrow))?;
        Ok((Binder::Named(name), begin))
    }
}
