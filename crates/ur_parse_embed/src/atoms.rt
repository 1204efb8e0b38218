//! Values.
ghost use Rattle.std.specs.Prelude.{ℕ, IfOk};
ghost use Rattle.ur_parse_rules.specs.Places.{IfRefused, Refuses};
ghost use Rattle.ur_parse_rules.specs.Quoted.{raw};
ghost use Rattle.ur_parse_rules.specs.SqlParts.{atom};
ghost use Rattle.ur_parse_rules.specs.Parts.{of_sql};
ghost use Rattle.ur_parse_rules.specs.Language.{language};
ghost use Rattle.ur_parse_embed.specs.Leaves.{IsLeaf, IsValue, SeesValue};

use crate::columns::undotted;
use crate::made::leaf;
use std::alloc::Global;
use ur_base::Stop;
use ur_lex::{TokenKind, Tokens};
use ur_parse_rules::{Parsed, expect_name, number_at, sees, sees_word, span};
use ur_syntax::{SqlExp, SqlForm};

/// A number, a text, `TRUE`, `FALSE` or `NULL`, if one of them stands at a place, and the place behind it.
fn value_at(alloc: Global, tokens: &Tokens, at: usize) -> Result<Option<(SqlForm, usize)>, Stop>
    ensures found { IfOk result (SeesValue tokens.now at) }
    ensures refused { IfRefused result (λ r. ⊥) }
{
    if let Some(number) = number_at(tokens, at) {
        Ok(Some((SqlForm::Int(number), at + 1)))
    } else if sees(tokens, at, TokenKind::SqlText) {
        let (text, end) = expect_name(alloc, tokens, at, TokenKind::SqlText)?;
        Ok(Some((SqlForm::Str(text), end)))
    } else if sees_word(tokens, at, TokenKind::Upper, b"TRUE") {
        Ok(Some((SqlForm::True, at + 1)))
    } else if sees_word(tokens, at, TokenKind::Upper, b"FALSE") {
        Ok(Some((SqlForm::False, at + 1)))
    } else if sees_word(tokens, at, TokenKind::Upper, b"NULL") {
        Ok(Some((SqlForm::Null, at + 1)))
    } else {
        Ok(None)
    }
}

/// A value that stands at a place. Where a column may be bare no dot may stand behind.
fn valued(
    alloc: Global,
    tokens: &Tokens,
    at: usize,
    form: SqlForm,
    end: usize,
    bare: bool,
) -> Result<Option<Parsed<SqlExp>>, Stop>
    requires { IsValue tokens.now at end form }
    ensures found { IfOk result (IsLeaf tokens.now at bare) }
    ensures refused { IfRefused result (λ r. (n : ℕ) → Refuses language n tokens.now at (of_sql raw (atom bare)) r) }
{
    undotted(alloc, tokens, end, bare)?;
    let covered = span(tokens, at, end);
    Ok(Some(leaf(covered, form, end)))
}

/// A value, if one stands at a place.
pub fn leaf_at(
    alloc: Global,
    tokens: &Tokens,
    at: usize,
    bare: bool,
) -> Result<Option<Parsed<SqlExp>>, Stop>
    ensures found { IfOk result (IsLeaf tokens.now at bare) }
    ensures refused { IfRefused result (λ r. (n : ℕ) → Refuses language n tokens.now at (of_sql raw (atom bare)) r) }
{
    let found = value_at(alloc, tokens, at)?;
    match found {
        Some((form, end)) => valued(alloc, tokens, at, form, end, bare),
        None => Ok(None),
    }
}
