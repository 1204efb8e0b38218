//! Columns and values of INSERT.
ghost use Rattle.std.specs.Prelude.{ℕ, IfOk};
ghost use Rattle.ur_parse_rules.specs.Places.{Moves, Reads, Refuses, IfRefused};
ghost use Rattle.ur_parse_rules.specs.Quoted.{raw};
ghost use Rattle.ur_parse_rules.specs.SqlParts as part;
ghost use Rattle.ur_parse_rules.specs.Parts.{of_sql};
ghost use Rattle.ur_parse_rules.specs.Language.{language};
ghost use Rattle.ur_parse_embed.specs.Pieces.{Adds, Extends};

use crate::read_exp;
use std::alloc::Global;
use ur_base::{List, Stop, Text};
use ur_lex::{Symbol, TokenKind, Tokens};
use ur_parse_embed_code::Quotes;
use ur_parse_rules::{expect, expect_field, pushed, sees};
use ur_syntax::SqlExp;

/// Columns with commas before them, up to the parenthesis that closes them. The answer is the place behind it.
pub fn columns_end(
    alloc: Global,
    tokens: &Tokens,
    at: usize,
    list: &mut List<Text>,
) -> Result<usize, Stop>
    ensures moves { IfOk result (λ j. Moves tokens.now at j) }
    ensures found { IfOk result (λ j. (n : ℕ) → Adds (Reads language n tokens.now at j (of_sql raw part.columns_end)) list.old list.new) }
    ensures refused { IfRefused result (λ r. (n : ℕ) → Refuses language n tokens.now at (of_sql raw part.columns_end) r) }
{
    let mut end = at;
    'columns: while sees(tokens, end, TokenKind::Symbol(Symbol::Comma)) {
        let (column, next) = expect_field(alloc, tokens, end + 1)?;
        pushed(list, column)?;
        end = next;
    }
    let close = expect(alloc, tokens, end, TokenKind::Symbol(Symbol::RParen))?;
    Ok(close)
}

/// Values with commas before them, up to the parenthesis that closes them. The answer is the place behind it.
pub fn values_end(
    alloc: Global,
    tokens: &Tokens,
    at: usize,
    depth: usize,
    levels: usize,
    list: &mut List<SqlExp>,
    quotes: &mut Quotes,
) -> Result<usize, Stop>
    ensures moves { IfOk result (λ j. Moves tokens.now at j) }
    ensures found { IfOk result (λ j. Extends (Reads language depth tokens.now at j (of_sql raw part.values_end)) tokens.now depth quotes.old quotes.new list.old list.new) }
    ensures refused { IfRefused result (Refuses language depth tokens.now at (of_sql raw part.values_end)) }
{
    let mut end = at;
    'values: while sees(tokens, end, TokenKind::Symbol(Symbol::Comma)) {
        let (value, next) = read_exp(alloc, tokens, end + 1, depth, levels, false, quotes)?;
        pushed(list, value)?;
        end = next;
    }
    let close = expect(alloc, tokens, end, TokenKind::Symbol(Symbol::RParen))?;
    Ok(close)
}
