//! The columns of a key.
ghost use Rattle.std.specs.Prelude.{◌≡◌, ◌+◌, ◌⊎◌, ℕ, IfOk, IsTrue, false, codes, []};
ghost use Rattle.ur_lex.specs.declared.token.Symbol.TheVariants as symbol;
ghost use Rattle.ur_lex.specs.declared.token.TokenKind.TheVariants as token;
ghost use Rattle.ur_parse_rules.specs.Places.{Moves, Refuses, IfRefused, IsAt, Other, OfKind, Spelled};
ghost use Rattle.ur_parse_rules.specs.DeclParts.{key_columns};
ghost use Rattle.ur_parse_rules.specs.Parts.{of_decl};
ghost use Rattle.ur_parse_rules.specs.Language.{language};
ghost use Rattle.ur_parse.specs.Tables.{ColumnsRead};

use std::alloc::Global;
use ur_base::{List, Span, Stop, Text};
use ur_lex::{Symbol, TokenKind, Tokens};
use ur_parse_rules::{expect, expect_field, pushed, sees, sees_word, span};

/// The columns of a key, with the span where they end and the place behind them.
#[derive(Drop)]
pub struct Columns {
    pub names: List<Text>,
    pub last: Span,
    pub end: usize,
}

/// Columns of a key, in parentheses or not. Behind a comma stands no other column.
pub fn read_columns(alloc: Global, tokens: &Tokens, at: usize) -> Result<Columns, Stop>
    ensures moves { IfOk result (λ c. Moves tokens.now at c.end) }
    ensures found { IfOk result (λ c. (n : ℕ) → ColumnsRead n tokens.now at c.end c.names c.last []) }
    ensures refused { IfRefused result (λ r. (n : ℕ) → Refuses language n tokens.now at (of_decl key_columns) r) }
{
    if sees(tokens, at, TokenKind::Symbol(Symbol::LParen)) {
        enclosed(alloc, tokens, at)
    } else {
        listed(alloc, tokens, at)
    }
}

/// `(A, B)`
fn enclosed(alloc: Global, tokens: &Tokens, at: usize) -> Result<Columns, Stop>
    requires { IsAt tokens.now at (at + 1) (OfKind (token.Symbol symbol.LParen)) }
    ensures moves { IfOk result (λ c. Moves tokens.now at c.end) }
    ensures found { IfOk result (λ c. (n : ℕ) → ColumnsRead n tokens.now at c.end c.names c.last []) }
    ensures refused { IfRefused result (λ r. (n : ℕ) → Refuses language n tokens.now at (of_decl key_columns) r) }
{
    let (name, mut end) = expect_field(alloc, tokens, at + 1)?;
    let mut names: List<Text> = List::new(alloc);
    pushed(&mut names, name)?;
    'commas: while sees(tokens, end, TokenKind::Symbol(Symbol::Comma)) {
        let (name, behind) = expect_field(alloc, tokens, end + 1)?;
        end = behind;
        pushed(&mut names, name)?;
    }
    let close = expect(alloc, tokens, end, TokenKind::Symbol(Symbol::RParen))?;
    let last = span(tokens, end, close);
    Ok(Columns {
        names,
        last,
        end: close,
    })
}

/// Whether a comma stands at a place, and no constraint behind it.
fn sees_column(tokens: &Tokens, at: usize) -> bool
    ensures yes { IsTrue result → IsAt tokens.now at (at + 1) (OfKind (token.Symbol symbol.Comma)) × Other tokens.now (at + 1) (Spelled token.Upper (codes "CONSTRAINT")) }
    ensures no { result ≡ false → Other tokens.now at (OfKind (token.Symbol symbol.Comma)) ⊎ IsAt tokens.now (at + 1) (at + 1 + 1) (Spelled token.Upper (codes "CONSTRAINT")) }
{
    if sees(tokens, at, TokenKind::Symbol(Symbol::Comma)) {
        !sees_word(tokens, at + 1, TokenKind::Upper, b"CONSTRAINT")
    } else {
        false
    }
}

/// `A, B`, where no parenthesis stands.
fn listed(alloc: Global, tokens: &Tokens, at: usize) -> Result<Columns, Stop>
    requires { Other tokens.now at (OfKind (token.Symbol symbol.LParen)) }
    ensures moves { IfOk result (λ c. Moves tokens.now at c.end) }
    ensures found { IfOk result (λ c. (n : ℕ) → ColumnsRead n tokens.now at c.end c.names c.last []) }
    ensures refused { IfRefused result (λ r. (n : ℕ) → Refuses language n tokens.now at (of_decl key_columns) r) }
{
    let (name, mut end) = expect_field(alloc, tokens, at)?;
    let mut last = span(tokens, at, end);
    let mut names: List<Text> = List::new(alloc);
    pushed(&mut names, name)?;
    'commas: while sees_column(tokens, end) {
        let begin = end + 1;
        let (name, behind) = expect_field(alloc, tokens, begin)?;
        last = span(tokens, begin, behind);
        end = behind;
        pushed(&mut names, name)?;
    }
    Ok(Columns { names, last, end })
}
