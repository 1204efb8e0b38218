//! What expressions begin with.
ghost use Rattle.std.specs.Prelude.{◌≡◌, drop};
ghost use Rattle.ur_parse_rules.specs.Places.{starts};
ghost use Rattle.ur_parse_rules.specs.Classes.{member};
ghost use Rattle.ur_parse_rules.specs.Ends.{exp_args};
ghost use Rattle.ur_parse_exp_parts.specs.Begins.{opens, opens_let, opens_post, begins_base, begins_post, begins_argument};

use crate::word::is_name;
use ur_lex::{Keyword, Symbol, TokenKind, Tokens};
use ur_parse_rules::peek;

fn opens(symbol: Symbol) -> bool
    ensures { result ≡ opens symbol }
{
    matches!(
        symbol,
        Symbol::LParen | Symbol::LBrace | Symbol::XmlOpen | Symbol::XmlEmpty
    )
}

fn opens_let(keyword: Keyword) -> bool
    ensures { result ≡ opens_let keyword }
{
    matches!(keyword, Keyword::Let)
}

fn opens_post(symbol: Symbol) -> bool
    ensures { result ≡ opens_post symbol }
{
    match symbol {
        Symbol::LBracket => true,
        _ => opens(symbol),
    }
}

/// Whether an atom begins with a token, but a word in capitals or `[]`.
fn begins_base(first: bool, kind: TokenKind, word: &[u8]) -> bool
    ensures { result ≡ begins_base first kind word.now }
{
    match kind {
        TokenKind::Int(_) => true,
        TokenKind::Str => true,
        TokenKind::Lower => is_name(first, word),
        TokenKind::Keyword(keyword) => opens_let(keyword),
        TokenKind::Symbol(symbol) => opens(symbol),
        _ => false,
    }
}

/// Whether an atom with the names of fields behind it begins with a token.
fn begins_post(first: bool, kind: TokenKind, word: &[u8]) -> bool
    ensures { result ≡ begins_post first kind word.now }
{
    match kind {
        TokenKind::Upper => is_name(first, word),
        TokenKind::Symbol(symbol) => opens_post(symbol),
        _ => begins_base(first, kind, word),
    }
}

/// Whether an argument begins with a token.
fn begins_argument(kind: TokenKind) -> bool
    ensures { result ≡ begins_argument kind }
{
    match kind {
        TokenKind::Int(_) => true,
        TokenKind::Str => true,
        TokenKind::Lower => true,
        TokenKind::Upper => true,
        TokenKind::Keyword(keyword) => opens_let(keyword),
        TokenKind::Symbol(symbol) => opens_post(symbol),
        _ => false,
    }
}

/// Whether an atom begins at a place, but a word in capitals or `[]`.
pub fn sees_base(tokens: &Tokens, at: usize, first: bool) -> bool
    ensures { result ≡ starts (begins_base first) (drop at tokens.now) }
{
    match peek(tokens, at) {
        Some(kind) => begins_base(first, kind, tokens.content(at)),
        None => false,
    }
}

/// Whether an atom with the names of fields behind it begins at a place.
pub fn sees_post(tokens: &Tokens, at: usize, first: bool) -> bool
    ensures { result ≡ starts (begins_post first) (drop at tokens.now) }
{
    match peek(tokens, at) {
        Some(kind) => begins_post(first, kind, tokens.content(at)),
        None => false,
    }
}

/// Whether an argument begins at a place.
pub fn sees_argument(tokens: &Tokens, at: usize) -> bool
    ensures { result ≡ starts (member exp_args) (drop at tokens.now) }
{
    match peek(tokens, at) {
        Some(kind) => begins_argument(kind),
        None => false,
    }
}
