//! Readers of single tokens at a place of a list of tokens.
ghost use Rattle.std.specs.Prelude.{◌≡◌, ◌<◌, ◌≤◌, ◌+◌, length, drop, IfOk, OnOk, IfSome, slice_get, ◌^◌, ℕ, IsTrue, ◌↔◌, Bool, false, true, [], ◌∷◌, ◌++◌};
ghost use Rattle.ur_parse_rules.specs.Places.{IsName, Moves, SaysDeep, At, Sees, Unexpected, SaysSyntax, IsAt, Other, IfRefused, OfKind, Spelled, Passing, any, span_of};
ghost use Rattle.ur_lex.specs.declared.token.Lexeme.{Lexeme};
ghost use Rattle.ur_lex.specs.Spelling.{Text};

use std::alloc::Global;
use ur_base::{Boxed, List, Refusal, Span, Stop, Text};
use ur_lex::{TokenKind, Tokens};

/// The kind of the token at a place.
pub fn peek(tokens: &Tokens, at: usize) -> Option<TokenKind>
    ensures { Sees tokens.now at result }
{
    if at < tokens.len() {
        Some(tokens.get(at).kind)
    } else {
        None
    }
}

/// The refusal of the token at a place.
pub fn unexpected(alloc: Global, tokens: &Tokens, at: usize) -> Stop
    ensures { SaysSyntax result }
{
    let span = if at < tokens.len() {
        tokens.get(at).span
    } else {
        Span {
            file: 0,
            from: 0,
            to: 0,
        }
    };
    Stop::Refused(Refusal {
        code: 5,
        span,
        left: Text::new(alloc),
        right: Text::new(alloc),
    })
}

/// Whether a token of this kind stands at a place.
pub fn sees(tokens: &Tokens, at: usize, kind: TokenKind) -> bool
    ensures yes { IsTrue result → IsAt tokens.now at (at + 1) (OfKind kind) }
    ensures no { result ≡ false → Other tokens.now at (OfKind kind) }
{
    match peek(tokens, at) {
        Some(found) => same(found, kind),
        None => false,
    }
}

/// Whether a token of this kind that is spelled so stands at a place.
pub fn sees_word(tokens: &Tokens, at: usize, kind: TokenKind, word: &[u8]) -> bool
    ensures yes { IsTrue result → IsAt tokens.now at (at + 1) (Spelled kind word.now) }
    ensures no { result ≡ false → Other tokens.now at (Spelled kind word.now) }
{
    sees(tokens, at, kind) && bytes_equal(tokens.content(at), word)
}

/// The place behind a token of this kind.
pub fn expect(alloc: Global, tokens: &Tokens, at: usize, kind: TokenKind) -> Result<usize, Stop>
    ensures found { IfOk result (λ j. IsAt tokens.now at j (OfKind kind)) }
    ensures refused { IfRefused result (Unexpected tokens.now at (OfKind kind)) }
{
    if sees(tokens, at, kind) {
        Ok(at + 1)
    } else {
        Err(unexpected(alloc, tokens, at))
    }
}

/// The place behind a token of this kind that is spelled so.
pub fn expect_word(
    alloc: Global,
    tokens: &Tokens,
    at: usize,
    kind: TokenKind,
    word: &[u8],
) -> Result<usize, Stop>
    ensures found { IfOk result (λ j. IsAt tokens.now at j (Spelled kind word.now)) }
    ensures refused { IfRefused result (Unexpected tokens.now at (Spelled kind word.now)) }
{
    if sees_word(tokens, at, kind, word) {
        Ok(at + 1)
    } else {
        Err(unexpected(alloc, tokens, at))
    }
}

/// A tree in a box.
pub fn boxed<T: Drop>(alloc: Global, value: T) -> Result<Boxed<T>, Stop>
    ensures found { IfOk result (λ b. b ≡ value) }
    ensures refused { IfRefused result (λ r. ⊥) }
{
    match Boxed::new(alloc, value) {
        Ok(b) => Ok(b),
        Err(_) => Err(Stop::Memory),
    }
}

/// Whether two kinds are the same.
pub fn same(a: TokenKind, b: TokenKind) -> bool
    ensures { IsTrue result ↔ (a ≡ b) }
{
    a == b
}

/// Whether two texts are the same.
pub fn bytes_equal(a: &[u8], b: &[u8]) -> bool
    ensures { IsTrue result ↔ (a.now ≡ b.now) }
{
    a == b
}

/// The name of this kind at a place, and the place behind it.
pub fn expect_name(
    alloc: Global,
    tokens: &Tokens,
    at: usize,
    kind: TokenKind,
) -> Result<(Text, usize), Stop>
    ensures found { IfOk result (λ p. IsName tokens.now at p.1 kind any p.0) }
    ensures refused { IfRefused result (Unexpected tokens.now at (Passing kind any)) }
{
    if sees(tokens, at, kind) {
        Ok((text(alloc, tokens.content(at))?, at + 1))
    } else {
        Err(unexpected(alloc, tokens, at))
    }
}

/// A copy of a text.
pub fn text(alloc: Global, bytes: &[u8]) -> Result<Text, Stop>
    ensures found { IfOk result (λ w. w ≡ bytes.now) }
    ensures refused { IfRefused result (λ r. ⊥) }
{
    match Text::from_slice(alloc, bytes) {
        Ok(t) => Ok(t),
        Err(_) => Err(Stop::Memory),
    }
}

/// Puts an element at the end.
pub fn pushed<T: Drop>(list: &mut List<T>, element: T) -> Result<(), Stop>
    ensures found { OnOk result (list.new ≡ list.old ++ element ∷ []) }
    ensures refused { IfRefused result (λ r. ⊥) }
{
    match list.push(element) {
        Ok(()) => Ok(()),
        Err(_) => Err(Stop::Memory),
    }
}

/// The span of the tokens from one place up to another.
pub fn span(tokens: &Tokens, from: usize, to: usize) -> Span
    requires { Moves tokens.now from to }
    ensures { result ≡ span_of tokens.now from to }
{
    let first = tokens.get(from).span;
    let last = tokens.get(to - 1).span;
    Span {
        file: first.file,
        from: first.from,
        to: last.to,
    }
}

/// The refusal of nesting past the limit.
pub fn too_deep(alloc: Global, tokens: &Tokens, at: usize) -> Stop
    ensures { SaysDeep result }
{
    let span = if at < tokens.len() {
        tokens.get(at).span
    } else {
        Span {
            file: 0,
            from: 0,
            to: 0,
        }
    };
    match (text(alloc, b"257"), text(alloc, b"256")) {
        (Ok(left), Ok(right)) => Stop::Refused(Refusal {
            code: 6,
            span,
            left,
            right,
        }),
        _ => Stop::Memory,
    }
}
