//! Code as the tokens that it is: any tokens with their brackets in pairs.
ghost use Rattle.std.specs.Prelude.{◌≡◌, ◌+◌, ◌≤◌, ℕ, IfOk, drop, length, slice_range, IsTrue, false, true};
ghost use Rattle.ur_parse_rules.specs.Places.{Moves, Reads, Refuses, IfRefused, starts, IsAt, Among, Unexpected};
ghost use Rattle.ur_parse_rules.specs.Classes.{member};
ghost use Rattle.ur_parse_rules.specs.Quoted.{raw, antiquote as as_antiquote, attribute as as_attribute};
ghost use Rattle.ur_parse_rules.specs.CodeParts.{pieces, piece};
ghost use Rattle.ur_parse_rules.specs.SqlParts.{anti};
ghost use Rattle.ur_parse_rules.specs.Parts.{of_code, of_quote, of_sql};
ghost use Rattle.ur_parse_rules.specs.Ends.{code_starts, plain_kinds};
ghost use Rattle.ur_parse_rules.specs.Codes.{begins_well};
ghost use Rattle.ur_parse_rules.specs.Language.{language};
ghost use Rattle.ur_parse_embed_code.specs.Quotes.{Holds, raw_of};
ghost use Rattle.ur_parse_embed_code.specs.Brackets.{closes, is_bracket, is_code, is_plain, Closed, NotClosed};

use crate::quotes::{Quotes, Range};
use std::alloc::Global;
use ur_base::Stop;
use ur_lex::{Symbol, TokenKind, Tokens};
use ur_parse_rules::{below, expect, peek, sees, unexpected};

/// The greatest number of brackets one in the other in raw code: the stack is memory, and more is want of memory. Code
/// whose own nesting is read has fewer.
pub const MAX_BRACKETS: usize = 2048;

fn closes(symbol: Symbol) -> bool
    ensures { result ≡ closes symbol }
{
    matches!(symbol, Symbol::RParen | Symbol::RBracket | Symbol::RBrace)
}

fn is_bracket(symbol: Symbol) -> bool
    ensures { result ≡ is_bracket symbol }
{
    matches!(
        symbol,
        Symbol::LParen
            | Symbol::LBracket
            | Symbol::LBrace
            | Symbol::RParen
            | Symbol::RBracket
            | Symbol::RBrace
    )
}

/// Whether code goes on with a token.
fn is_code(kind: TokenKind) -> bool
    ensures { result ≡ is_code kind }
{
    match kind {
        TokenKind::Symbol(symbol) => !closes(symbol),
        _ => true,
    }
}

/// Whether a token is no bracket.
fn is_plain(kind: TokenKind) -> bool
    ensures { result ≡ is_plain kind }
{
    match kind {
        TokenKind::Symbol(symbol) => !is_bracket(symbol),
        _ => true,
    }
}

/// Whether code goes on at a place.
fn goes_on(tokens: &Tokens, at: usize) -> bool
    ensures { result ≡ starts (member code_starts) (drop at tokens.now) }
{
    match peek(tokens, at) {
        Some(kind) => is_code(kind),
        None => false,
    }
}

/// The place behind a token that is no bracket.
fn plain(alloc: Global, tokens: &Tokens, at: usize) -> Result<usize, Stop>
    ensures found { IfOk result (λ j. IsAt tokens.now at j (Among plain_kinds)) }
    ensures refused { IfRefused result (Unexpected tokens.now at (Among plain_kinds)) }
{
    match peek(tokens, at) {
        Some(kind) => {
            if is_plain(kind) {
                Ok(at + 1)
            } else {
                Err(unexpected(alloc, tokens, at))
            }
        }
        None => Err(unexpected(alloc, tokens, at)),
    }
}

/// The place where code ends that begins at a place.
#[cycle(code)]
fn pieces(alloc: Global, tokens: &Tokens, at: usize, levels: usize) -> Result<usize, Stop>
    ensures on { IfOk result (λ j. at ≤ j) }
    ensures within { at ≤ length tokens.now → IfOk result (λ j. j ≤ length tokens.now) }
    ensures found { IfOk result (λ j. (n : ℕ) → Reads language n tokens.now at j (of_code pieces) (slice_range tokens.now at j)) }
    ensures refused { IfRefused result (λ r. (n : ℕ) → Refuses language n tokens.now at (of_code pieces) r) }
{
    let mut end = at;
    'pieces: while goes_on(tokens, end) {
        end = piece(alloc, tokens, end, levels)?;
    }
    Ok(end)
}

/// The place behind a token that is no bracket, or behind tokens in brackets.
#[cycle(code)]
fn piece(alloc: Global, tokens: &Tokens, at: usize, levels: usize) -> Result<usize, Stop>
    ensures moves { IfOk result (λ j. Moves tokens.now at j) }
    ensures found { IfOk result (λ j. (n : ℕ) → Reads language n tokens.now at j (of_code piece) (slice_range tokens.now at j)) }
    ensures refused { IfRefused result (λ r. (n : ℕ) → Refuses language n tokens.now at (of_code piece) r) }
{
    if sees(tokens, at, TokenKind::Symbol(Symbol::LParen)) {
        let end = bracketed(alloc, tokens, at + 1, levels, Symbol::RParen)?;
        Ok(end)
    } else if sees(tokens, at, TokenKind::Symbol(Symbol::LBracket)) {
        let end = bracketed(alloc, tokens, at + 1, levels, Symbol::RBracket)?;
        Ok(end)
    } else if sees(tokens, at, TokenKind::Symbol(Symbol::LBrace)) {
        let end = bracketed(alloc, tokens, at + 1, levels, Symbol::RBrace)?;
        Ok(end)
    } else {
        let end = plain(alloc, tokens, at)?;
        Ok(end)
    }
}

/// The place behind the bracket that closes what begins at a place.
#[cycle(code)]
fn bracketed(
    alloc: Global,
    tokens: &Tokens,
    at: usize,
    levels: usize,
    close: Symbol,
) -> Result<usize, Stop>
    ensures moves { IfOk result (λ j. Moves tokens.now at j) }
    ensures found { IfOk result (λ j. Closed tokens.now at j close) }
    ensures refused { IfRefused result (NotClosed tokens.now at close) }
{
    let less = below(levels)?;
    let middle = pieces(alloc, tokens, at, less)?;
    let end = expect(alloc, tokens, middle, TokenKind::Symbol(close))?;
    Ok(end)
}

/// Whether code from one place up to another begins with `[` only as `[]`.
fn well(tokens: &Tokens, begin: usize, end: usize) -> bool
    requires { Moves tokens.now begin end }
    ensures { result ≡ begins_well (slice_range tokens.now begin end) }
{
    if sees(tokens, begin, TokenKind::Symbol(Symbol::LBracket)) {
        begin + 1 < end && sees(tokens, begin + 1, TokenKind::Symbol(Symbol::RBracket))
    } else {
        true
    }
}

/// The code of an antiquote at a place, where so many expressions may nest.
pub fn quoted(alloc: Global, tokens: &Tokens, at: usize, depth: usize) -> Result<Range, Stop>
    ensures begin { IfOk result (λ r. r.begin ≡ at) }
    ensures depth { IfOk result (λ r. r.depth ≡ depth) }
    ensures moves { IfOk result (λ r. Moves tokens.now at r.end) }
    ensures found { IfOk result (λ r. (n : ℕ) → Reads language n tokens.now at r.end (of_quote raw) (raw_of tokens.now at r.end)) }
    ensures refused { IfRefused result (λ r. (n : ℕ) → Refuses language n tokens.now at (of_quote raw) r) }
{
    let first = piece(alloc, tokens, at, MAX_BRACKETS)?;
    let end = pieces(alloc, tokens, first, MAX_BRACKETS)?;
    if !well(tokens, at, end) {
        return Err(unexpected(alloc, tokens, at));
    }
    Ok(Range {
        begin: at,
        end,
        depth,
    })
}

/// The code of an antiquote at a place, put behind the others. The answer is its number, and the place behind it.
pub fn antiquote(
    alloc: Global,
    tokens: &Tokens,
    at: usize,
    depth: usize,
    quotes: &mut Quotes,
) -> Result<(u32, usize), Stop>
    ensures moves { IfOk result (λ p. Moves tokens.now at p.1) }
    ensures found { IfOk result (λ p. Holds as_antiquote (λ c. (n : ℕ) → Reads language n tokens.now at p.1 (of_quote raw) c) tokens.now depth quotes.old quotes.new p.0) }
    ensures refused { IfRefused result (λ r. (n : ℕ) → Refuses language n tokens.now at (of_quote raw) r) }
{
    let range = quoted(alloc, tokens, at, depth)?;
    let number = quotes.push_exp(range)?;
    Ok((number, range.end))
}

/// The code of an attribute at a place, put behind the others. The answer is its number, and the place behind it.
pub fn attribute(
    alloc: Global,
    tokens: &Tokens,
    at: usize,
    depth: usize,
    quotes: &mut Quotes,
) -> Result<(u32, usize), Stop>
    ensures moves { IfOk result (λ p. Moves tokens.now at p.1) }
    ensures found { IfOk result (λ p. Holds as_attribute (λ c. (n : ℕ) → Reads language n tokens.now at p.1 (of_quote raw) c) tokens.now depth quotes.old quotes.new p.0) }
    ensures refused { IfRefused result (λ r. (n : ℕ) → Refuses language n tokens.now at (of_quote raw) r) }
{
    let range = quoted(alloc, tokens, at, depth)?;
    let number = quotes.push_attribute(range)?;
    Ok((number, range.end))
}

/// `{[e]}` at a place, its code put behind the others. The answer is its number, and the place behind it.
pub fn shown(
    alloc: Global,
    tokens: &Tokens,
    at: usize,
    depth: usize,
    quotes: &mut Quotes,
) -> Result<(u32, usize), Stop>
    ensures moves { IfOk result (λ p. Moves tokens.now at p.1) }
    ensures found { IfOk result (λ p. Holds as_antiquote (λ c. (n : ℕ) → Reads language n tokens.now at p.1 (of_sql raw anti) c) tokens.now depth quotes.old quotes.new p.0) }
    ensures refused { IfRefused result (λ r. (n : ℕ) → Refuses language n tokens.now at (of_sql raw anti) r) }
{
    let brace = expect(alloc, tokens, at, TokenKind::Symbol(Symbol::LBrace))?;
    let begin = expect(alloc, tokens, brace, TokenKind::Symbol(Symbol::LBracket))?;
    let (number, bracket) = antiquote(alloc, tokens, begin, depth, quotes)?;
    let close = expect(alloc, tokens, bracket, TokenKind::Symbol(Symbol::RBracket))?;
    let end = expect(alloc, tokens, close, TokenKind::Symbol(Symbol::RBrace))?;
    Ok((number, end))
}
