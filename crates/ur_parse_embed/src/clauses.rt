//! The clauses of a query.
ghost use Rattle.std.specs.Prelude.{◌≡◌, ◌≤◌, ℕ, Bool, IfOk, drop, length};
ghost use Rattle.ur_parse_rules.specs.Places.{Moves, Reads, Refuses, IfRefused, starts};
ghost use Rattle.ur_parse_rules.specs.Classes.{member};
ghost use Rattle.ur_parse_rules.specs.Quoted.{raw};
ghost use Rattle.ur_parse_rules.specs.SqlParts as part;
ghost use Rattle.ur_parse_rules.specs.Parts.{of_sql};
ghost use Rattle.ur_parse_rules.specs.Ends.{sql_last};
ghost use Rattle.ur_parse_rules.specs.Language.{language};
ghost use Rattle.ur_parse_embed_code.specs.Quotes.{Makes};
ghost use Rattle.ur_parse_embed.specs.Pieces.{Extends, Adds};

use crate::exp::exp;
use crate::lists::list_of;
use crate::{comma_or, finished, read_column, sees_operator, word_or};
use std::alloc::Global;
use ur_base::{List, Stop};
use ur_lex::{Symbol, TokenKind, Tokens};
use ur_parse_embed_code::{Quotes, shown};
use ur_parse_rules::{expect_word, number_at, pushed, sees, sees_word};
use ur_syntax::{Direction, Limit, OrderKey, SqlExp};

/// Whether a condition goes on at a place.
fn filter_goes_on(tokens: &Tokens, at: usize, bare: bool) -> bool
    ensures { result ≡ starts (member (sql_last (part.filter bare))) (drop at tokens.now) }
{
    let operates = sees_operator(tokens, at, bare);
    word_or(tokens, at, b"WHERE", operates)
}

/// `WHERE e`, or nothing. Where it may be bare, a column may stand without its table.
pub fn filter(
    alloc: Global,
    tokens: &Tokens,
    at: usize,
    depth: usize,
    levels: usize,
    bare: bool,
    quotes: &mut Quotes,
) -> Result<(Option<SqlExp>, usize), Stop>
    ensures on { IfOk result (λ p. at ≤ p.1) }
    ensures within { at ≤ length tokens.now → IfOk result (λ p. p.1 ≤ length tokens.now) }
    ensures found { IfOk result (λ p. Makes (Reads language depth tokens.now at p.1 (of_sql raw (part.filter bare))) tokens.now depth quotes.old quotes.new p.0) }
    ensures refused { IfRefused result (Refuses language depth tokens.now at (of_sql raw (part.filter bare))) }
{
    if sees_word(tokens, at, TokenKind::Upper, b"WHERE") {
        let (inner, end) = exp(alloc, tokens, at + 1, depth, levels, bare, quotes)?;
        finished(alloc, tokens, end, filter_goes_on(tokens, end, bare))?;
        Ok((Some(inner), end))
    } else {
        finished(alloc, tokens, at, filter_goes_on(tokens, at, bare))?;
        Ok((None, at))
    }
}

/// Columns with commas before them, as many as stand there. The answer is the place behind them.
fn more_columns(
    alloc: Global,
    tokens: &Tokens,
    at: usize,
    list: &mut List<SqlExp>,
) -> Result<usize, Stop>
    ensures on { IfOk result (λ j. at ≤ j) }
    ensures within { at ≤ length tokens.now → IfOk result (λ j. j ≤ length tokens.now) }
    ensures found { IfOk result (λ j. (n : ℕ) → Adds (Reads language n tokens.now at j (of_sql raw part.more_columns)) list.old list.new) }
    ensures refused { IfRefused result (λ r. (n : ℕ) → Refuses language n tokens.now at (of_sql raw part.more_columns) r) }
{
    let mut end = at;
    'columns: while sees(tokens, end, TokenKind::Symbol(Symbol::Comma)) {
        let (column, next) = read_column(alloc, tokens, end + 1, false)?;
        pushed(list, column)?;
        end = next;
    }
    Ok(end)
}

/// Whether the columns of a group go on at a place.
fn group_goes_on(tokens: &Tokens, at: usize) -> bool
    ensures { result ≡ starts (member (sql_last part.group)) (drop at tokens.now) }
{
    let again = word_or(tokens, at, b"GROUP", false);
    comma_or(tokens, at, again)
}

/// `GROUP BY` and columns, or nothing.
pub fn group(alloc: Global, tokens: &Tokens, at: usize) -> Result<(List<SqlExp>, usize), Stop>
    ensures on { IfOk result (λ p. at ≤ p.1) }
    ensures within { at ≤ length tokens.now → IfOk result (λ p. p.1 ≤ length tokens.now) }
    ensures found { IfOk result (λ p. (n : ℕ) → Reads language n tokens.now at p.1 (of_sql raw part.group) p.0) }
    ensures refused { IfRefused result (λ r. (n : ℕ) → Refuses language n tokens.now at (of_sql raw part.group) r) }
{
    if sees_word(tokens, at, TokenKind::Upper, b"GROUP") {
        let begin = expect_word(alloc, tokens, at + 1, TokenKind::Upper, b"BY")?;
        let (first, behind) = read_column(alloc, tokens, begin, false)?;
        let mut list = list_of(alloc, first)?;
        let end = more_columns(alloc, tokens, behind, &mut list)?;
        finished(alloc, tokens, end, group_goes_on(tokens, end))?;
        Ok((list, end))
    } else {
        finished(alloc, tokens, at, group_goes_on(tokens, at))?;
        Ok((List::new(alloc), at))
    }
}

/// Whether a direction goes on at a place.
fn direction_goes_on(tokens: &Tokens, at: usize) -> bool
    ensures { result ≡ starts (member (sql_last part.direction)) (drop at tokens.now) }
{
    let falls = word_or(tokens, at, b"DESC", false);
    word_or(tokens, at, b"ASC", falls)
}

/// `ASC`, `DESC`, or nothing.
fn direction(alloc: Global, tokens: &Tokens, at: usize) -> Result<(Direction, usize), Stop>
    ensures on { IfOk result (λ p. at ≤ p.1) }
    ensures within { at ≤ length tokens.now → IfOk result (λ p. p.1 ≤ length tokens.now) }
    ensures found { IfOk result (λ p. (n : ℕ) → Reads language n tokens.now at p.1 (of_sql raw part.direction) p.0) }
    ensures refused { IfRefused result (λ r. (n : ℕ) → Refuses language n tokens.now at (of_sql raw part.direction) r) }
{
    if sees_word(tokens, at, TokenKind::Upper, b"ASC") {
        finished(alloc, tokens, at + 1, direction_goes_on(tokens, at + 1))?;
        Ok((Direction::Ascending, at + 1))
    } else if sees_word(tokens, at, TokenKind::Upper, b"DESC") {
        finished(alloc, tokens, at + 1, direction_goes_on(tokens, at + 1))?;
        Ok((Direction::Descending, at + 1))
    } else {
        Ok((Direction::Ascending, at))
    }
}

/// Whether a key of an order goes on at a place.
fn key_goes_on(tokens: &Tokens, at: usize) -> bool
    ensures { result ≡ starts (member (sql_last part.order_key)) (drop at tokens.now) }
{
    let operates = sees_operator(tokens, at, false);
    let falls = word_or(tokens, at, b"DESC", operates);
    word_or(tokens, at, b"ASC", falls)
}

/// An expression to order by, with its direction.
fn order_key(
    alloc: Global,
    tokens: &Tokens,
    at: usize,
    depth: usize,
    levels: usize,
    quotes: &mut Quotes,
) -> Result<(OrderKey, usize), Stop>
    ensures moves { IfOk result (λ p. Moves tokens.now at p.1) }
    ensures found { IfOk result (λ p. Makes (Reads language depth tokens.now at p.1 (of_sql raw part.order_key)) tokens.now depth quotes.old quotes.new p.0) }
    ensures refused { IfRefused result (Refuses language depth tokens.now at (of_sql raw part.order_key)) }
{
    let (inner, middle) = exp(alloc, tokens, at, depth, levels, false, quotes)?;
    let (direction, end) = direction(alloc, tokens, middle)?;
    finished(alloc, tokens, end, key_goes_on(tokens, end))?;
    Ok((
        OrderKey {
            key: inner,
            direction,
        },
        end,
    ))
}

/// Keys with commas before them, as many as stand there. The answer is the place behind them.
fn more_keys(
    alloc: Global,
    tokens: &Tokens,
    at: usize,
    depth: usize,
    levels: usize,
    list: &mut List<OrderKey>,
    quotes: &mut Quotes,
) -> Result<usize, Stop>
    ensures on { IfOk result (λ j. at ≤ j) }
    ensures within { at ≤ length tokens.now → IfOk result (λ j. j ≤ length tokens.now) }
    ensures found { IfOk result (λ j. Extends (Reads language depth tokens.now at j (of_sql raw part.more_keys)) tokens.now depth quotes.old quotes.new list.old list.new) }
    ensures refused { IfRefused result (Refuses language depth tokens.now at (of_sql raw part.more_keys)) }
{
    let mut end = at;
    'keys: while sees(tokens, end, TokenKind::Symbol(Symbol::Comma)) {
        let (key, next) = order_key(alloc, tokens, end + 1, depth, levels, quotes)?;
        pushed(list, key)?;
        end = next;
    }
    let again = key_goes_on(tokens, end);
    finished(alloc, tokens, end, comma_or(tokens, end, again))?;
    Ok(end)
}

/// Whether an order goes on at a place.
fn order_goes_on(tokens: &Tokens, at: usize) -> bool
    ensures { result ≡ starts (member (sql_last part.order)) (drop at tokens.now) }
{
    let key = key_goes_on(tokens, at);
    let again = word_or(tokens, at, b"ORDER", key);
    comma_or(tokens, at, again)
}

/// `ORDER BY` and keys, or nothing.
pub fn order(
    alloc: Global,
    tokens: &Tokens,
    at: usize,
    depth: usize,
    levels: usize,
    quotes: &mut Quotes,
) -> Result<(List<OrderKey>, usize), Stop>
    ensures on { IfOk result (λ p. at ≤ p.1) }
    ensures within { at ≤ length tokens.now → IfOk result (λ p. p.1 ≤ length tokens.now) }
    ensures found { IfOk result (λ p. Makes (Reads language depth tokens.now at p.1 (of_sql raw part.order)) tokens.now depth quotes.old quotes.new p.0) }
    ensures refused { IfRefused result (Refuses language depth tokens.now at (of_sql raw part.order)) }
{
    if sees_word(tokens, at, TokenKind::Upper, b"ORDER") {
        let begin = expect_word(alloc, tokens, at + 1, TokenKind::Upper, b"BY")?;
        let (first, behind) = order_key(alloc, tokens, begin, depth, levels, quotes)?;
        let mut list = list_of(alloc, first)?;
        let end = more_keys(alloc, tokens, behind, depth, levels, &mut list, quotes)?;
        finished(alloc, tokens, end, order_goes_on(tokens, end))?;
        Ok((list, end))
    } else {
        finished(alloc, tokens, at, order_goes_on(tokens, at))?;
        Ok((List::new(alloc), at))
    }
}

/// A number, or `{[e]}`.
fn amount(
    alloc: Global,
    tokens: &Tokens,
    at: usize,
    depth: usize,
    quotes: &mut Quotes,
) -> Result<(Limit, usize), Stop>
    ensures moves { IfOk result (λ p. Moves tokens.now at p.1) }
    ensures found { IfOk result (λ p. Makes (Reads language depth tokens.now at p.1 (of_sql raw part.amount)) tokens.now depth quotes.old quotes.new p.0) }
    ensures refused { IfRefused result (Refuses language depth tokens.now at (of_sql raw part.amount)) }
{
    match number_at(tokens, at) {
        Some(number) => Ok((Limit::Int(number), at + 1)),
        None => {
            let (number, end) = shown(alloc, tokens, at, depth, quotes)?;
            Ok((Limit::Anti(number), end))
        }
    }
}

/// `LIMIT` and how many, or nothing.
pub fn limit(
    alloc: Global,
    tokens: &Tokens,
    at: usize,
    depth: usize,
    quotes: &mut Quotes,
) -> Result<(Option<Limit>, usize), Stop>
    ensures on { IfOk result (λ p. at ≤ p.1) }
    ensures within { at ≤ length tokens.now → IfOk result (λ p. p.1 ≤ length tokens.now) }
    ensures found { IfOk result (λ p. Makes (Reads language depth tokens.now at p.1 (of_sql raw part.limit)) tokens.now depth quotes.old quotes.new p.0) }
    ensures refused { IfRefused result (Refuses language depth tokens.now at (of_sql raw part.limit)) }
{
    if sees_word(tokens, at, TokenKind::Upper, b"LIMIT") {
        let (amount, end) = amount(alloc, tokens, at + 1, depth, quotes)?;
        finished(alloc, tokens, end, word_or(tokens, end, b"LIMIT", false))?;
        Ok((Some(amount), end))
    } else {
        Ok((None, at))
    }
}

/// `OFFSET` and how many, or nothing.
pub fn offset(
    alloc: Global,
    tokens: &Tokens,
    at: usize,
    depth: usize,
    quotes: &mut Quotes,
) -> Result<(Option<Limit>, usize), Stop>
    ensures on { IfOk result (λ p. at ≤ p.1) }
    ensures within { at ≤ length tokens.now → IfOk result (λ p. p.1 ≤ length tokens.now) }
    ensures found { IfOk result (λ p. Makes (Reads language depth tokens.now at p.1 (of_sql raw part.offset)) tokens.now depth quotes.old quotes.new p.0) }
    ensures refused { IfRefused result (Refuses language depth tokens.now at (of_sql raw part.offset)) }
{
    if sees_word(tokens, at, TokenKind::Upper, b"OFFSET") {
        let (amount, end) = amount(alloc, tokens, at + 1, depth, quotes)?;
        finished(alloc, tokens, end, word_or(tokens, end, b"OFFSET", false))?;
        Ok((Some(amount), end))
    } else {
        Ok((None, at))
    }
}
