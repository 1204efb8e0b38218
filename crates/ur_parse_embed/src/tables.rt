//! Names of tables, and items of FROM.
ghost use Rattle.std.specs.Prelude.{◌≤◌, ℕ, IfOk, length};
ghost use Rattle.ur_parse_rules.specs.Places.{Moves, Reads, Refuses, IfRefused};
ghost use Rattle.ur_parse_rules.specs.Quoted.{raw};
ghost use Rattle.ur_parse_rules.specs.SqlParts as part;
ghost use Rattle.ur_parse_rules.specs.Parts.{of_sql};
ghost use Rattle.ur_parse_rules.specs.Language.{language};

use crate::{finished, word_or};
use std::alloc::Global;
use ur_base::{Stop, Text};
use ur_lex::{Symbol, TokenKind, Tokens};
use ur_parse_rules::{expect, expect_field, expect_name, sees, sees_word, span};
use ur_syntax::{DeclName, FromItem};

/// The name of a table: `x` or `M.x`.
pub fn table_name(alloc: Global, tokens: &Tokens, at: usize) -> Result<(DeclName, usize), Stop>
    ensures moves { IfOk result (λ p. Moves tokens.now at p.1) }
    ensures found { IfOk result (λ p. (n : ℕ) → Reads language n tokens.now at p.1 (of_sql raw part.name) p.0) }
    ensures refused { IfRefused result (λ r. (n : ℕ) → Refuses language n tokens.now at (of_sql raw part.name) r) }
{
    if sees(tokens, at, TokenKind::Lower) {
        let (name, end) = expect_name(alloc, tokens, at, TokenKind::Lower)?;
        let covered = span(tokens, at, end);
        Ok((
            DeclName {
                span: covered,
                module: None,
                name,
            },
            end,
        ))
    } else {
        let (module, dot) = expect_name(alloc, tokens, at, TokenKind::Upper)?;
        let begin = expect(alloc, tokens, dot, TokenKind::Symbol(Symbol::Dot))?;
        let (name, end) = expect_name(alloc, tokens, begin, TokenKind::Lower)?;
        let covered = span(tokens, at, end);
        Ok((
            DeclName {
                span: covered,
                module: Some(module),
                name,
            },
            end,
        ))
    }
}

/// `AS A`, or nothing.
fn alias(alloc: Global, tokens: &Tokens, at: usize) -> Result<(Option<Text>, usize), Stop>
    ensures on { IfOk result (λ p. at ≤ p.1) }
    ensures within { at ≤ length tokens.now → IfOk result (λ p. p.1 ≤ length tokens.now) }
    ensures found { IfOk result (λ p. (n : ℕ) → Reads language n tokens.now at p.1 (of_sql raw part.alias) p.0) }
    ensures refused { IfRefused result (λ r. (n : ℕ) → Refuses language n tokens.now at (of_sql raw part.alias) r) }
{
    if sees_word(tokens, at, TokenKind::Upper, b"AS") {
        let (name, end) = expect_field(alloc, tokens, at + 1)?;
        let more = word_or(tokens, end, b"AS", false);
        finished(alloc, tokens, end, more)?;
        Ok((Some(name), end))
    } else {
        Ok((None, at))
    }
}

/// A table with its other name if it has one.
pub fn item(alloc: Global, tokens: &Tokens, at: usize) -> Result<(FromItem, usize), Stop>
    ensures moves { IfOk result (λ p. Moves tokens.now at p.1) }
    ensures found { IfOk result (λ p. (n : ℕ) → Reads language n tokens.now at p.1 (of_sql raw part.item) p.0) }
    ensures refused { IfRefused result (λ r. (n : ℕ) → Refuses language n tokens.now at (of_sql raw part.item) r) }
{
    let (table, behind) = table_name(alloc, tokens, at)?;
    let (alias, end) = alias(alloc, tokens, behind)?;
    let covered = span(tokens, at, end);
    Ok((
        FromItem {
            span: covered,
            table,
            alias,
            on: None,
        },
        end,
    ))
}
