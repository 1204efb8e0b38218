//! Operators and comparison signs.
ghost use Rattle.std.specs.Prelude.{◌≡◌, ◌+◌, ℕ, IfOk, OnOk, drop, false};
ghost use Rattle.ur_parse_rules.specs.Places.{Moves, Reads, Refuses, IfRefused, starts};
ghost use Rattle.ur_parse_rules.specs.Classes.{member};
ghost use Rattle.ur_parse_rules.specs.Quoted.{raw};
ghost use Rattle.ur_parse_rules.specs.SqlParts.{is_rest};
ghost use Rattle.ur_parse_rules.specs.Parts.{of_sql};
ghost use Rattle.ur_parse_rules.specs.Language.{language};
ghost use Rattle.ur_parse_rules.specs.Ends.{sql_sum, sql_comparison};
ghost use Rattle.ur_parse_embed.specs.Signs.{Operates, Compares, Compared};

use crate::made::Level;
use std::alloc::Global;
use ur_base::Stop;
use ur_lex::{Symbol, TokenKind, Tokens};
use ur_parse_rules::{expect_word, sees, sees_word, unexpected};
use ur_syntax::SqlBinary;

/// The operator of a level at a place, if one stands there.
pub fn operator(tokens: &Tokens, at: usize, level: Level) -> Option<SqlBinary>
    ensures { Operates tokens.now at level result }
{
    match level {
        Level::Disjunction => {
            if sees_word(tokens, at, TokenKind::Upper, b"OR") {
                Some(SqlBinary::Or)
            } else {
                None
            }
        }
        Level::Conjunction => {
            if sees_word(tokens, at, TokenKind::Upper, b"AND") {
                Some(SqlBinary::And)
            } else {
                None
            }
        }
        Level::Sum => {
            if sees(tokens, at, TokenKind::Symbol(Symbol::Plus)) {
                Some(SqlBinary::Add)
            } else if sees(tokens, at, TokenKind::Symbol(Symbol::Minus)) {
                Some(SqlBinary::Sub)
            } else {
                None
            }
        }
        Level::Product => {
            if sees(tokens, at, TokenKind::Symbol(Symbol::Star)) {
                Some(SqlBinary::Mul)
            } else {
                None
            }
        }
    }
}

/// The comparison sign at a place, if one stands there.
pub fn compared(tokens: &Tokens, at: usize) -> Option<SqlBinary>
    ensures { Compares tokens.now at result }
{
    if sees(tokens, at, TokenKind::Symbol(Symbol::Eq)) {
        Some(SqlBinary::Eq)
    } else if sees(tokens, at, TokenKind::Symbol(Symbol::Ne)) {
        Some(SqlBinary::Ne)
    } else if sees(tokens, at, TokenKind::Symbol(Symbol::Lt)) {
        Some(SqlBinary::Lt)
    } else if sees(tokens, at, TokenKind::Symbol(Symbol::Le)) {
        Some(SqlBinary::Le)
    } else if sees(tokens, at, TokenKind::Symbol(Symbol::Gt)) {
        Some(SqlBinary::Gt)
    } else if sees(tokens, at, TokenKind::Symbol(Symbol::Ge)) {
        Some(SqlBinary::Ge)
    } else {
        None
    }
}

/// Whether a sum goes on at a place.
fn sum_goes_on(tokens: &Tokens, at: usize, bare: bool) -> bool
    ensures { result ≡ starts (member (sql_sum bare)) (drop at tokens.now) }
{
    if sees(tokens, at, TokenKind::Symbol(Symbol::Plus)) {
        true
    } else if sees(tokens, at, TokenKind::Symbol(Symbol::Minus)) {
        true
    } else if sees(tokens, at, TokenKind::Symbol(Symbol::Star)) {
        true
    } else if bare {
        if sees(tokens, at, TokenKind::Symbol(Symbol::Dot)) {
            true
        } else {
            false
        }
    } else {
        false
    }
}

/// Whether a comparison goes on at a place.
pub fn goes_on(tokens: &Tokens, at: usize, bare: bool) -> bool
    ensures { result ≡ starts (member (sql_comparison bare)) (drop at tokens.now) }
{
    match compared(tokens, at) {
        Some(_) => true,
        None => {
            if sees_word(tokens, at, TokenKind::Upper, b"IS") {
                true
            } else {
                sum_goes_on(tokens, at, bare)
            }
        }
    }
}

/// Passes where no comparison goes on at a place: comparisons do not chain.
pub fn ended(alloc: Global, tokens: &Tokens, at: usize, bare: bool) -> Result<(), Stop>
    ensures found { OnOk result (starts (member (sql_comparison bare)) (drop at tokens.now) ≡ false) }
    ensures refused { IfRefused result (Compared tokens.now at bare) }
{
    if goes_on(tokens, at, bare) {
        Err(unexpected(alloc, tokens, at))
    } else {
        Ok(())
    }
}

/// `NULL` or `NOT NULL`: whether it is the former.
pub fn is_rest(alloc: Global, tokens: &Tokens, at: usize) -> Result<(bool, usize), Stop>
    ensures moves { IfOk result (λ p. Moves tokens.now at p.1) }
    ensures found { IfOk result (λ p. (n : ℕ) → Reads language n tokens.now at p.1 (of_sql raw is_rest) p.0) }
    ensures refused { IfRefused result (λ r. (n : ℕ) → Refuses language n tokens.now at (of_sql raw is_rest) r) }
{
    if sees_word(tokens, at, TokenKind::Upper, b"NOT") {
        let end = expect_word(alloc, tokens, at + 1, TokenKind::Upper, b"NULL")?;
        Ok((false, end))
    } else {
        let end = expect_word(alloc, tokens, at, TokenKind::Upper, b"NULL")?;
        Ok((true, end))
    }
}
