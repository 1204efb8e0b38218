//! Columns, and names of tables.
ghost use Rattle.std.specs.Prelude.{◌≡◌, ◌≤◌, ℕ, IfOk, OnOk, length, true};
ghost use Rattle.ur_lex.specs.declared.token.Symbol.TheVariants as symbol;
ghost use Rattle.ur_lex.specs.declared.token.TokenKind.TheVariants as token;
ghost use Rattle.ur_parse_rules.specs.Places.{Moves, Reads, Refuses, IfRefused, IsName};
ghost use Rattle.ur_parse_embed_code.specs.Absent.{Present};
ghost use Rattle.ur_parse_rules.specs.SqlExpressions.{column_of};
ghost use Rattle.ur_parse_embed.specs.Columns.{Undotted};
ghost use Rattle.ur_parse_rules.specs.Quoted.{raw};
ghost use Rattle.ur_parse_rules.specs.Words.{is_field};
ghost use Rattle.ur_parse_rules.specs.SqlParts.{column, qualifier};
ghost use Rattle.ur_parse_rules.specs.Parts.{of_sql};
ghost use Rattle.ur_parse_rules.specs.Language.{language};

use std::alloc::Global;
use ur_base::{Span, Stop, Text};
use ur_lex::{Symbol, TokenKind, Tokens};
use ur_parse_embed_code::absent;
use ur_parse_rules::{expect, expect_field, expect_name, sees, span};
use ur_syntax::{SqlExp, SqlForm};

/// `.A`, or nothing.
fn qualifier(alloc: Global, tokens: &Tokens, at: usize) -> Result<(Option<Text>, usize), Stop>
    ensures on { IfOk result (λ p. at ≤ p.1) }
    ensures within { at ≤ length tokens.now → IfOk result (λ p. p.1 ≤ length tokens.now) }
    ensures found { IfOk result (λ p. (n : ℕ) → Reads language n tokens.now at p.1 (of_sql raw qualifier) p.0) }
    ensures refused { IfRefused result (λ r. (n : ℕ) → Refuses language n tokens.now at (of_sql raw qualifier) r) }
{
    if sees(tokens, at, TokenKind::Symbol(Symbol::Dot)) {
        let (name, end) = expect_field(alloc, tokens, at + 1)?;
        absent(alloc, tokens, end, TokenKind::Symbol(Symbol::Dot))?;
        Ok((Some(name), end))
    } else {
        Ok((None, at))
    }
}

/// A column: with its table, or where it may be bare without.
pub fn column(
    alloc: Global,
    tokens: &Tokens,
    at: usize,
    bare: bool,
) -> Result<(SqlExp, usize), Stop>
    ensures moves { IfOk result (λ p. Moves tokens.now at p.1) }
    ensures found { IfOk result (λ p. (n : ℕ) → Reads language n tokens.now at p.1 (of_sql raw (column bare)) p.0) }
    ensures refused { IfRefused result (λ r. (n : ℕ) → Refuses language n tokens.now at (of_sql raw (column bare)) r) }
{
    if sees(tokens, at, TokenKind::Lower) {
        let (table, dot) = expect_name(alloc, tokens, at, TokenKind::Lower)?;
        let begin = expect(alloc, tokens, dot, TokenKind::Symbol(Symbol::Dot))?;
        let (name, end) = expect_field(alloc, tokens, begin)?;
        undotted(alloc, tokens, end, bare)?;
        let covered = span(tokens, at, end);
        Ok((named(covered, table, Some(name)), end))
    } else {
        let (first, behind) = expect_field(alloc, tokens, at)?;
        field_column(alloc, tokens, at, first, behind, bare)
    }
}

/// A column that begins with a name in capitals, which is read.
pub fn field_column(
    alloc: Global,
    tokens: &Tokens,
    at: usize,
    first: Text,
    behind: usize,
    bare: bool,
) -> Result<(SqlExp, usize), Stop>
    requires { IsName tokens.now at behind token.Upper is_field first }
    ensures moves { IfOk result (λ p. Moves tokens.now at p.1) }
    ensures found { IfOk result (λ p. (n : ℕ) → Reads language n tokens.now at p.1 (of_sql raw (column bare)) p.0) }
    ensures refused { IfRefused result (λ r. (n : ℕ) → Refuses language n tokens.now at (of_sql raw (column bare)) r) }
{
    if bare {
        let (second, end) = qualifier(alloc, tokens, behind)?;
        let covered = span(tokens, at, end);
        Ok((named(covered, first, second), end))
    } else {
        let begin = expect(alloc, tokens, behind, TokenKind::Symbol(Symbol::Dot))?;
        let (second, end) = expect_field(alloc, tokens, begin)?;
        let covered = span(tokens, at, end);
        Ok((named(covered, first, Some(second)), end))
    }
}

/// Passes where no dot stands at a place, or one may.
pub fn undotted(alloc: Global, tokens: &Tokens, at: usize, bare: bool) -> Result<(), Stop>
    ensures found { OnOk result (Undotted tokens.now at bare) }
    ensures refused { IfRefused result (λ r. (bare ≡ true) × Present tokens.now at (token.Symbol symbol.Dot) r) }
{
    if bare {
        absent(alloc, tokens, at, TokenKind::Symbol(Symbol::Dot))
    } else {
        Ok(())
    }
}

/// A column with its table if it has one.
fn named(span: Span, first: Text, second: Option<Text>) -> SqlExp
    ensures { result ≡ column_of span first second }
{
    let form = match second {
        Some(name) => SqlForm::Qualified(first, name),
        None => SqlForm::Column(first),
    };
    SqlExp { span, form }
}
