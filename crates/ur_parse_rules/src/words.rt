//! Names of fields in capitals, which the words of SQL are not.
ghost use Rattle.std.specs.Prelude.{◌≡◌, IsTrue, IfOk, ◌+◌, false, map};
ghost use Rattle.ur_lex.specs.declared.token.TokenKind.TheVariants as token;
ghost use Rattle.ur_lex.specs.Spelling.{is_among};
ghost use Rattle.ur_parse_rules.specs.Places.{IsName, IsAt, Unexpected, Passing, IfRefused, Other};
ghost use Rattle.ur_parse_rules.specs.Words as words;

use crate::{sees, text, unexpected};
use std::alloc::Global;
use ur_base::{Stop, Text};
use ur_lex::{TokenKind, Tokens};

/// The words of SQL.
const SQL_WORDS: [&[u8]; 35] = [
    b"PRIMARY",
    b"KEY",
    b"CONSTRAINT",
    b"UNIQUE",
    b"SELECT",
    b"FROM",
    b"JOIN",
    b"ON",
    b"WHERE",
    b"GROUP",
    b"BY",
    b"ORDER",
    b"ASC",
    b"DESC",
    b"LIMIT",
    b"OFFSET",
    b"AS",
    b"COUNT",
    b"SUM",
    b"MIN",
    b"MAX",
    b"INSERT",
    b"INTO",
    b"VALUES",
    b"UPDATE",
    b"SET",
    b"DELETE",
    b"TRUE",
    b"FALSE",
    b"AND",
    b"OR",
    b"NOT",
    b"NULL",
    b"SOME",
    b"IS",
];

/// Whether a word is one of these.
pub fn is_among(words: &[&[u8]], word: &[u8]) -> bool
    ensures { result ≡ is_among (map (λ w. w.now) words.now) word.now }
{
    let mut left = words;
    while let [first, rest @ ..] = left {
        if word == *first {
            return true;
        }
        left = rest;
    }
    false
}

/// Whether a word may name a field: the words of SQL may not.
fn is_field(word: &[u8]) -> bool
    ensures { result ≡ words.is_field word.now }
{
    !is_among(&SQL_WORDS, word)
}

/// Whether the name of a field in capitals stands at a place.
fn sees_field(tokens: &Tokens, at: usize) -> bool
    ensures yes { IsTrue result → IsAt tokens.now at (at + 1) (Passing token.Upper words.is_field) }
    ensures no { result ≡ false → Other tokens.now at (Passing token.Upper words.is_field) }
{
    sees(tokens, at, TokenKind::Upper) && is_field(tokens.content(at))
}

/// The name of a field in capitals at a place, and the place behind it.
pub fn expect_field(alloc: Global, tokens: &Tokens, at: usize) -> Result<(Text, usize), Stop>
    ensures found { IfOk result (λ p. IsName tokens.now at p.1 token.Upper words.is_field p.0) }
    ensures refused { IfRefused result (Unexpected tokens.now at (Passing token.Upper words.is_field)) }
{
    if sees_field(tokens, at) {
        Ok((text(alloc, tokens.content(at))?, at + 1))
    } else {
        Err(unexpected(alloc, tokens, at))
    }
}
