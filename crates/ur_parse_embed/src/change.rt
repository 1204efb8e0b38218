//! Changes.
ghost use Rattle.std.specs.Prelude.{◌≡◌, IfOk, codes, drop};
ghost use Rattle.ur_lex.specs.declared.token.TokenKind.TheVariants as token;
ghost use Rattle.ur_parse_rules.specs.Places.{Moves, Reads, Refuses, IfRefused, starts, IsAt, Spelled};
ghost use Rattle.ur_parse_rules.specs.Classes.{member};
ghost use Rattle.ur_parse_rules.specs.Quoted.{raw};
ghost use Rattle.ur_parse_rules.specs.SqlParts as part;
ghost use Rattle.ur_parse_rules.specs.Parts.{of_sql};
ghost use Rattle.ur_parse_rules.specs.Ends.{sql_last};
ghost use Rattle.ur_parse_rules.specs.Language.{language};
ghost use Rattle.ur_parse_embed_code.specs.Quotes.{Makes};

use crate::assigning::{assignment, more_assignments};
use crate::insert::{columns_end, values_end};
use crate::{
    comma_or, finished, list_of, read_exp, read_filter, read_table_name, sees_operator, word_or,
};
use std::alloc::Global;
use ur_base::Stop;
use ur_lex::{Symbol, TokenKind, Tokens};
use ur_parse_embed_code::Quotes;
use ur_parse_rules::{expect, expect_field, expect_word, sees_word, span};
use ur_syntax::SqlChange;

/// Whether a change goes on at a place.
fn change_goes_on(tokens: &Tokens, at: usize) -> bool
    ensures { result ≡ starts (member (sql_last part.change)) (drop at tokens.now) }
{
    let operates = sees_operator(tokens, at, true);
    let filter = word_or(tokens, at, b"WHERE", operates);
    comma_or(tokens, at, filter)
}

/// INSERT, behind that word.
fn insert(
    alloc: Global,
    tokens: &Tokens,
    at: usize,
    begin: usize,
    depth: usize,
    levels: usize,
    quotes: &mut Quotes,
) -> Result<(SqlChange, usize), Stop>
    requires { IsAt tokens.now at begin (Spelled token.Upper (codes "INSERT")) }
    ensures moves { IfOk result (λ p. Moves tokens.now at p.1) }
    ensures found { IfOk result (λ p. Makes (Reads language depth tokens.now at p.1 (of_sql raw part.change)) tokens.now depth quotes.old quotes.new p.0) }
    ensures refused { IfRefused result (Refuses language depth tokens.now at (of_sql raw part.change)) }
{
    let table_at = expect_word(alloc, tokens, begin, TokenKind::Upper, b"INTO")?;
    let (table, open_at) = read_table_name(alloc, tokens, table_at)?;
    let column_at = expect(alloc, tokens, open_at, TokenKind::Symbol(Symbol::LParen))?;
    let (column, columns_at) = expect_field(alloc, tokens, column_at)?;
    let mut columns = list_of(alloc, column)?;
    let word = columns_end(alloc, tokens, columns_at, &mut columns)?;
    let parenthesis = expect_word(alloc, tokens, word, TokenKind::Upper, b"VALUES")?;
    let value_at = expect(
        alloc,
        tokens,
        parenthesis,
        TokenKind::Symbol(Symbol::LParen),
    )?;
    let (value, values_at) = read_exp(alloc, tokens, value_at, depth, levels, false, quotes)?;
    let mut values = list_of(alloc, value)?;
    let end = values_end(alloc, tokens, values_at, depth, levels, &mut values, quotes)?;
    finished(alloc, tokens, end, change_goes_on(tokens, end))?;
    let covered = span(tokens, at, end);
    Ok((SqlChange::Insert(covered, table, columns, values), end))
}

/// UPDATE, behind that word.
fn update(
    alloc: Global,
    tokens: &Tokens,
    at: usize,
    begin: usize,
    depth: usize,
    levels: usize,
    quotes: &mut Quotes,
) -> Result<(SqlChange, usize), Stop>
    requires { IsAt tokens.now at begin (Spelled token.Upper (codes "UPDATE")) }
    ensures moves { IfOk result (λ p. Moves tokens.now at p.1) }
    ensures found { IfOk result (λ p. Makes (Reads language depth tokens.now at p.1 (of_sql raw part.change)) tokens.now depth quotes.old quotes.new p.0) }
    ensures refused { IfRefused result (Refuses language depth tokens.now at (of_sql raw part.change)) }
{
    let (table, word) = read_table_name(alloc, tokens, begin)?;
    let first_at = expect_word(alloc, tokens, word, TokenKind::Upper, b"SET")?;
    let (first, more_at) = assignment(alloc, tokens, first_at, depth, levels, quotes)?;
    let mut list = list_of(alloc, first)?;
    let filter_at = more_assignments(alloc, tokens, more_at, depth, levels, &mut list, quotes)?;
    let (filter, end) = read_filter(alloc, tokens, filter_at, depth, levels, true, quotes)?;
    finished(alloc, tokens, end, change_goes_on(tokens, end))?;
    let covered = span(tokens, at, end);
    Ok((SqlChange::Update(covered, table, list, filter), end))
}

/// DELETE, behind that word.
fn delete(
    alloc: Global,
    tokens: &Tokens,
    at: usize,
    begin: usize,
    depth: usize,
    levels: usize,
    quotes: &mut Quotes,
) -> Result<(SqlChange, usize), Stop>
    requires { IsAt tokens.now at begin (Spelled token.Upper (codes "DELETE")) }
    ensures moves { IfOk result (λ p. Moves tokens.now at p.1) }
    ensures found { IfOk result (λ p. Makes (Reads language depth tokens.now at p.1 (of_sql raw part.change)) tokens.now depth quotes.old quotes.new p.0) }
    ensures refused { IfRefused result (Refuses language depth tokens.now at (of_sql raw part.change)) }
{
    let table_at = expect_word(alloc, tokens, begin, TokenKind::Upper, b"FROM")?;
    let (table, filter_at) = read_table_name(alloc, tokens, table_at)?;
    let (filter, end) = read_filter(alloc, tokens, filter_at, depth, levels, true, quotes)?;
    finished(alloc, tokens, end, change_goes_on(tokens, end))?;
    let covered = span(tokens, at, end);
    Ok((SqlChange::Delete(covered, table, filter), end))
}

/// A change, with at most `depth` nested expressions of SQL, and at most `levels` signs before an expression.
pub fn change(
    alloc: Global,
    tokens: &Tokens,
    at: usize,
    depth: usize,
    levels: usize,
    quotes: &mut Quotes,
) -> Result<(SqlChange, usize), Stop>
    ensures moves { IfOk result (λ p. Moves tokens.now at p.1) }
    ensures found { IfOk result (λ p. Makes (Reads language depth tokens.now at p.1 (of_sql raw part.change)) tokens.now depth quotes.old quotes.new p.0) }
    ensures refused { IfRefused result (Refuses language depth tokens.now at (of_sql raw part.change)) }
{
    if sees_word(tokens, at, TokenKind::Upper, b"INSERT") {
        insert(alloc, tokens, at, at + 1, depth, levels, quotes)
    } else if sees_word(tokens, at, TokenKind::Upper, b"UPDATE") {
        update(alloc, tokens, at, at + 1, depth, levels, quotes)
    } else {
        let begin = expect_word(alloc, tokens, at, TokenKind::Upper, b"DELETE")?;
        delete(alloc, tokens, at, begin, depth, levels, quotes)
    }
}
