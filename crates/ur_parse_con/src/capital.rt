//! Constructors of datatypes, whose names are no words of patterns.
ghost use Rattle.std.specs.Prelude.{◌≡◌, IsTrue, IfOk, ◌+◌, false};
ghost use Rattle.ur_lex.specs.declared.token.TokenKind.TheVariants as token;
ghost use Rattle.ur_parse_rules.specs.Places.{IsName, IsAt, Unexpected, Passing, IfRefused, Other};
ghost use Rattle.ur_parse_rules.specs.Words.{is_constructor};

use std::alloc::Global;
use ur_base::{Stop, Text};
use ur_lex::{TokenKind, Tokens};
use ur_parse_rules::{is_among, sees, text, unexpected};

/// The words of patterns.
const PATTERN_WORDS: [&[u8]; 4] = [b"True", b"False", b"None", b"Some"];

/// Whether a word in capitals may name a constructor in a pattern.
fn is_constructor(word: &[u8]) -> bool
    ensures { result ≡ is_constructor word.now }
{
    !is_among(&PATTERN_WORDS, word)
}

/// Whether the name of a constructor stands at a place.
fn sees_constructor(tokens: &Tokens, at: usize) -> bool
    ensures yes { IsTrue result → IsAt tokens.now at (at + 1) (Passing token.Upper is_constructor) }
    ensures no { result ≡ false → Other tokens.now at (Passing token.Upper is_constructor) }
{
    sees(tokens, at, TokenKind::Upper) && is_constructor(tokens.content(at))
}

/// The name of a constructor at a place, and the place behind it.
pub fn expect_constructor(alloc: Global, tokens: &Tokens, at: usize) -> Result<(Text, usize), Stop>
    ensures found { IfOk result (λ p. IsName tokens.now at p.1 token.Upper is_constructor p.0) }
    ensures refused { IfRefused result (Unexpected tokens.now at (Passing token.Upper is_constructor)) }
{
    if sees_constructor(tokens, at) {
        Ok((text(alloc, tokens.content(at))?, at + 1))
    } else {
        Err(unexpected(alloc, tokens, at))
    }
}
