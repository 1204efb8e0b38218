//! Words that begin a form, and names that are none of them.
ghost use Rattle.std.specs.Prelude.{◌≡◌, ◌+◌, IsTrue, IfOk, false};
ghost use Rattle.ur_parse_rules.specs.Places.{IsAt, IsName, Other, Passing, Unexpected, IfRefused};
ghost use Rattle.ur_parse_rules.specs.Words as words;
ghost use Rattle.ur_parse_exp_parts.specs.Words.{PlainAt, StateAt, SqlAt, FormAt};

use std::alloc::Global;
use ur_base::{Stop, Text};
use ur_lex::{TokenKind, Tokens};
use ur_parse_rules::{is_among, sees, sees_word, text, unexpected};

/// A word that a form begins with.
#[derive(Clone, Copy, Debug, PartialEq, Eq)]
pub enum FormWord {
    Return,
    Show,
    Not,
    Error,
    Some,
    Fold,
    Nextval,
    GetCookie,
    SetCookie,
    Dml,
    QueryL,
    OneRow,
    OneOrNoRows,
    QueryX,
}

/// The words that a form begins with.
const FORM_WORDS: [&[u8]; 14] = [
    b"return",
    b"show",
    b"not",
    b"error",
    b"Some",
    b"nextval",
    b"getCookie",
    b"setCookie",
    b"dml",
    b"queryL",
    b"oneRow",
    b"oneOrNoRows",
    b"queryX",
    b"fold",
];

/// Whether a word is a name, which the words of forms are not at the head of an application.
pub fn is_name(first: bool, word: &[u8]) -> bool
    ensures { result ≡ words.is_name first word.now }
{
    !first || !is_among(&FORM_WORDS, word)
}

/// Whether a word of this kind stands at a place that is a name there.
pub fn sees_word_of(tokens: &Tokens, at: usize, kind: TokenKind, first: bool) -> bool
    ensures yes { IsTrue result → IsAt tokens.now at (at + 1) (Passing kind (words.is_name first)) }
    ensures no { result ≡ false → Other tokens.now at (Passing kind (words.is_name first)) }
{
    sees(tokens, at, kind) && is_name(first, tokens.content(at))
}

/// The word of this kind at a place that is a name there, and the place behind it.
pub fn expect_word_of(
    alloc: Global,
    tokens: &Tokens,
    at: usize,
    kind: TokenKind,
    first: bool,
) -> Result<(Text, usize), Stop>
    ensures found { IfOk result (λ p. IsName tokens.now at p.1 kind (words.is_name first) p.0) }
    ensures refused { IfRefused result (Unexpected tokens.now at (Passing kind (words.is_name first))) }
{
    if sees_word_of(tokens, at, kind, first) {
        Ok((text(alloc, tokens.content(at))?, at + 1))
    } else {
        Err(unexpected(alloc, tokens, at))
    }
}

/// The word at a place of a form over expressions.
fn plain_at(tokens: &Tokens, at: usize) -> Option<FormWord>
    ensures { PlainAt tokens.now at result }
{
    if sees_word(tokens, at, TokenKind::Lower, b"return") {
        Some(FormWord::Return)
    } else if sees_word(tokens, at, TokenKind::Lower, b"show") {
        Some(FormWord::Show)
    } else if sees_word(tokens, at, TokenKind::Lower, b"not") {
        Some(FormWord::Not)
    } else if sees_word(tokens, at, TokenKind::Lower, b"error") {
        Some(FormWord::Error)
    } else if sees_word(tokens, at, TokenKind::Upper, b"Some") {
        Some(FormWord::Some)
    } else if sees_word(tokens, at, TokenKind::Lower, b"fold") {
        Some(FormWord::Fold)
    } else {
        None
    }
}

/// The word at a place of a form over the name of a declaration.
fn state_at(tokens: &Tokens, at: usize) -> Option<FormWord>
    ensures { StateAt tokens.now at result }
{
    if sees_word(tokens, at, TokenKind::Lower, b"nextval") {
        Some(FormWord::Nextval)
    } else if sees_word(tokens, at, TokenKind::Lower, b"getCookie") {
        Some(FormWord::GetCookie)
    } else if sees_word(tokens, at, TokenKind::Lower, b"setCookie") {
        Some(FormWord::SetCookie)
    } else {
        None
    }
}

/// The word at a place of a form over SQL.
fn sql_at(tokens: &Tokens, at: usize) -> Option<FormWord>
    ensures { SqlAt tokens.now at result }
{
    if sees_word(tokens, at, TokenKind::Lower, b"dml") {
        Some(FormWord::Dml)
    } else if sees_word(tokens, at, TokenKind::Lower, b"queryL") {
        Some(FormWord::QueryL)
    } else if sees_word(tokens, at, TokenKind::Lower, b"oneRow") {
        Some(FormWord::OneRow)
    } else if sees_word(tokens, at, TokenKind::Lower, b"oneOrNoRows") {
        Some(FormWord::OneOrNoRows)
    } else if sees_word(tokens, at, TokenKind::Lower, b"queryX") {
        Some(FormWord::QueryX)
    } else {
        None
    }
}

/// The word of a form at a place, if one stands there.
pub fn form_at(tokens: &Tokens, at: usize) -> Option<FormWord>
    ensures { FormAt tokens.now at result }
{
    match plain_at(tokens, at) {
        Some(word) => Some(word),
        None => match state_at(tokens, at) {
            Some(word) => Some(word),
            None => sql_at(tokens, at),
        },
    }
}
