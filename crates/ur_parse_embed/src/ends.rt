//! What goes on behind parts of a statement.
ghost use Rattle.std.specs.Prelude.{◌≡◌, ◌∷◌, [], true, false, OnOk, drop};
ghost use Rattle.ur_base.specs.Stopping.{Says};
ghost use Rattle.ur_lex.specs.declared.token.Symbol.TheVariants as symbol;
ghost use Rattle.ur_lex.specs.declared.token.TokenKind.TheVariants as token;
ghost use Rattle.ur_parse_rules.specs.Places.{IfRefused, starts};
ghost use Rattle.ur_parse_rules.specs.Classes.{Classes, member, word_class, all_of};
ghost use Rattle.ur_parse_rules.specs.Ends.{sql_operators};

use crate::signs::goes_on;
use std::alloc::Global;
use ur_base::Stop;
use ur_lex::{Symbol, TokenKind, Tokens};
use ur_parse_rules::{sees, sees_word, unexpected};

/// Whether a word stands at a place, or what is told of other tokens there.
pub fn word_or(tokens: &Tokens, at: usize, word: &[u8], others: bool) -> bool
    ensures { (cs : Classes) → others ≡ starts (member cs) (drop at tokens.now) → result ≡ starts (member (word_class token.Upper word.now ∷ cs)) (drop at tokens.now) }
{
    if sees_word(tokens, at, TokenKind::Upper, word) {
        true
    } else {
        others
    }
}

/// Whether a comma stands at a place, or what is told of other tokens there.
pub fn comma_or(tokens: &Tokens, at: usize, others: bool) -> bool
    ensures { (cs : Classes) → others ≡ starts (member cs) (drop at tokens.now) → result ≡ starts (member (all_of (token.Symbol symbol.Comma) ∷ cs)) (drop at tokens.now) }
{
    if sees(tokens, at, TokenKind::Symbol(Symbol::Comma)) {
        true
    } else {
        others
    }
}

/// Whether an expression goes on at a place.
pub fn sees_operator(tokens: &Tokens, at: usize, bare: bool) -> bool
    ensures { result ≡ starts (member (sql_operators bare)) (drop at tokens.now) }
{
    let compares = goes_on(tokens, at, bare);
    let joins = word_or(tokens, at, b"AND", compares);
    word_or(tokens, at, b"OR", joins)
}

/// Passes where nothing goes on at a place.
pub fn finished(alloc: Global, tokens: &Tokens, at: usize, more: bool) -> Result<(), Stop>
    ensures found { OnOk result (more ≡ false) }
    ensures refused { IfRefused result (λ r. Says r 5 [] [] × (more ≡ true)) }
{
    if more {
        Err(unexpected(alloc, tokens, at))
    } else {
        Ok(())
    }
}
