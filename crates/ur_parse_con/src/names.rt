//! Names, and what arguments begin with.
ghost use Rattle.std.specs.Prelude.{◌≡◌, ℕ, IfOk, drop};
ghost use Rattle.ur_parse_rules.specs.Places.{Moves, Reads, Refuses, IfRefused, starts};
ghost use Rattle.ur_parse_rules.specs.Classes.{member};
ghost use Rattle.ur_parse_rules.specs.Ends.{con_args};
ghost use Rattle.ur_parse_rules.specs.ConParts.{atom, field_name};
ghost use Rattle.ur_parse_rules.specs.Parts.{of_con};
ghost use Rattle.ur_parse_rules.specs.Language.{language};
ghost use Rattle.ur_parse_con.specs.Names.{begins_symbol, begins_argument, NoneOpens};

use crate::nodes::leaf;
use crate::words::{expect_module, is_free};
use std::alloc::Global;
use ur_base::Stop;
use ur_lex::{Symbol, TokenKind, Tokens};
use ur_parse_rules::{Parsed, expect, expect_field, expect_name, peek, sees, span};
use ur_syntax::{Con, ConForm, FieldName};

fn begins_symbol(symbol: Symbol) -> bool
    ensures { result ≡ begins_symbol symbol }
{
    matches!(
        symbol,
        Symbol::Hash | Symbol::LBracket | Symbol::LBrace | Symbol::Dollar | Symbol::LParen
    )
}

/// Whether an argument begins with a token.
fn begins_argument(keys: bool, kind: TokenKind, word: &[u8]) -> bool
    ensures { result ≡ begins_argument keys kind word.now }
{
    match kind {
        TokenKind::Lower => true,
        TokenKind::Upper => is_free(keys, word),
        TokenKind::Symbol(symbol) => begins_symbol(symbol),
        _ => false,
    }
}

/// Whether an argument begins at a place.
pub fn sees_argument(tokens: &Tokens, at: usize, keys: bool) -> bool
    ensures { result ≡ starts (member (con_args keys)) (drop at tokens.now) }
{
    match peek(tokens, at) {
        Some(kind) => begins_argument(keys, kind, tokens.content(at)),
        None => false,
    }
}

/// The name of a field: `A`, or a variable.
pub fn expect_field_name(
    alloc: Global,
    tokens: &Tokens,
    at: usize,
) -> Result<(FieldName, usize), Stop>
    ensures moves { IfOk result (λ p. Moves tokens.now at p.1) }
    ensures found { IfOk result (λ p. (n : ℕ) → Reads language n tokens.now at p.1 (of_con field_name) p.0) }
    ensures refused { IfRefused result (λ r. (n : ℕ) → Refuses language n tokens.now at (of_con field_name) r) }
{
    if sees(tokens, at, TokenKind::Lower) {
        let (name, end) = expect_name(alloc, tokens, at, TokenKind::Lower)?;
        Ok((FieldName::Variable(name), end))
    } else {
        let (name, end) = expect_field(alloc, tokens, at)?;
        Ok((FieldName::Literal(name), end))
    }
}

/// `x`, `#A` or `M.x`, where no other constructor begins.
pub fn named(alloc: Global, tokens: &Tokens, at: usize, keys: bool) -> Result<Parsed<Con>, Stop>
    ensures moves { IfOk result (λ p. Moves tokens.now at p.end) }
    ensures found { IfOk result (λ p. (n : ℕ) → Reads language n tokens.now at p.end (of_con (atom keys)) p.tree) }
    ensures refused { NoneOpens tokens.now at → IfRefused result (λ r. (n : ℕ) → Refuses language n tokens.now at (of_con (atom keys)) r) }
{
    if sees(tokens, at, TokenKind::Lower) {
        let (name, end) = expect_name(alloc, tokens, at, TokenKind::Lower)?;
        let covered = span(tokens, at, end);
        Ok(leaf(covered, ConForm::Var(name), end))
    } else if sees(tokens, at, TokenKind::Symbol(Symbol::Hash)) {
        let (name, end) = expect_field(alloc, tokens, at + 1)?;
        let covered = span(tokens, at, end);
        Ok(leaf(covered, ConForm::Name(name), end))
    } else {
        let (module, dot) = expect_module(alloc, tokens, at, keys)?;
        let dot = expect(alloc, tokens, dot, TokenKind::Symbol(Symbol::Dot))?;
        let (name, end) = expect_name(alloc, tokens, dot, TokenKind::Lower)?;
        let covered = span(tokens, at, end);
        Ok(leaf(covered, ConForm::Member(module, name), end))
    }
}
