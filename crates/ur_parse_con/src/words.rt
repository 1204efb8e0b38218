//! Words that are no modules at some places.
ghost use Rattle.std.specs.Prelude.{◌≡◌, IsTrue, IfOk, ◌+◌, false};
ghost use Rattle.ur_lex.specs.declared.token.TokenKind.TheVariants as token;
ghost use Rattle.ur_parse_rules.specs.Places.{IsName, IsAt, Unexpected, Passing, IfRefused, Other};
ghost use Rattle.ur_parse_rules.specs.Words as words;

use std::alloc::Global;
use ur_base::{Stop, Text};
use ur_lex::{TokenKind, Tokens};
use ur_parse_rules::{bytes_equal, sees, text, unexpected};

/// Whether a word may name a module: the words that a table's keys begin with may not, where keys may stand.
pub fn is_free(keys: bool, word: &[u8]) -> bool
    ensures { result ≡ words.is_free keys word.now }
{
    if keys {
        !(bytes_equal(word, b"PRIMARY") || bytes_equal(word, b"CONSTRAINT"))
    } else {
        true
    }
}

/// Whether the name of a module stands at a place.
pub fn sees_module(tokens: &Tokens, at: usize, keys: bool) -> bool
    ensures yes { IsTrue result → IsAt tokens.now at (at + 1) (Passing token.Upper (words.is_free keys)) }
    ensures no { result ≡ false → Other tokens.now at (Passing token.Upper (words.is_free keys)) }
{
    sees(tokens, at, TokenKind::Upper) && is_free(keys, tokens.content(at))
}

/// The name of a module at a place, and the place behind it.
pub fn expect_module(
    alloc: Global,
    tokens: &Tokens,
    at: usize,
    keys: bool,
) -> Result<(Text, usize), Stop>
    ensures found { IfOk result (λ p. IsName tokens.now at p.1 token.Upper (words.is_free keys) p.0) }
    ensures refused { IfRefused result (Unexpected tokens.now at (Passing token.Upper (words.is_free keys))) }
{
    if sees_module(tokens, at, keys) {
        Ok((text(alloc, tokens.content(at))?, at + 1))
    } else {
        Err(unexpected(alloc, tokens, at))
    }
}
