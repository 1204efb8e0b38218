//! What is selected.
ghost use Rattle.std.specs.Prelude.{◌≡◌, ◌≤◌, ◌∷◌, [], ℕ, IfOk, codes, drop, length};
ghost use Rattle.ur_parse_rules.specs.Places.{Moves, Reads, Refuses, IfRefused, starts};
ghost use Rattle.ur_parse_rules.specs.Classes.{member};
ghost use Rattle.ur_parse_rules.specs.Quoted.{raw};
ghost use Rattle.ur_parse_rules.specs.SqlParts as part;
ghost use Rattle.ur_parse_rules.specs.Parts.{of_sql};
ghost use Rattle.ur_parse_rules.specs.Ends.{capitals, sql_last};
ghost use Rattle.ur_parse_rules.specs.Language.{language};
ghost use Rattle.ur_parse_embed_code.specs.Quotes.{Makes};
ghost use Rattle.ur_parse_embed.specs.Pieces.{Called, NotCalled, Enclosed, NotEnclosed, Extends};
ghost use Rattle.ur_parse_embed.specs.ParseSelectColumns.{is_column, is_dotted};

use crate::exp::exp;
use crate::lists::list_of;
use crate::{comma_or, finished, read_column, sees_operator, word_or};
use std::alloc::Global;
use ur_base::{List, Stop, Text};
use ur_lex::{Symbol, TokenKind, Tokens};
use ur_parse_embed_code::Quotes;
use ur_parse_rules::{expect, expect_field, expect_word, pushed, sees, sees_word, span};
use ur_syntax::{Aggregate, Selected, Selection, SqlExp};

/// `AS A`
fn called(alloc: Global, tokens: &Tokens, at: usize) -> Result<(Text, usize), Stop>
    ensures moves { IfOk result (λ p. Moves tokens.now at p.1) }
    ensures found { IfOk result (λ p. Called tokens.now at p.1 p.0) }
    ensures refused { IfRefused result (NotCalled tokens.now at) }
{
    let begin = expect_word(alloc, tokens, at, TokenKind::Upper, b"AS")?;
    expect_field(alloc, tokens, begin)
}

/// `(e)`
fn argument(
    alloc: Global,
    tokens: &Tokens,
    at: usize,
    depth: usize,
    levels: usize,
    quotes: &mut Quotes,
) -> Result<(SqlExp, usize), Stop>
    ensures moves { IfOk result (λ p. Moves tokens.now at p.1) }
    ensures found { IfOk result (λ p. Makes (Enclosed depth tokens.now at p.1) tokens.now depth quotes.old quotes.new p.0) }
    ensures refused { IfRefused result (NotEnclosed depth tokens.now at) }
{
    let begin = expect(alloc, tokens, at, TokenKind::Symbol(Symbol::LParen))?;
    let (inner, middle) = exp(alloc, tokens, begin, depth, levels, false, quotes)?;
    let end = expect(alloc, tokens, middle, TokenKind::Symbol(Symbol::RParen))?;
    Ok((inner, end))
}

/// Whether an aggregate stands at a place.
fn sees_aggregate(tokens: &Tokens, at: usize) -> bool
    ensures { result ≡ starts (member (capitals (codes "COUNT" ∷ codes "SUM" ∷ codes "MIN" ∷ codes "MAX" ∷ []))) (drop at tokens.now) }
{
    let greatest = word_or(tokens, at, b"MAX", false);
    let least = word_or(tokens, at, b"MIN", greatest);
    let sum = word_or(tokens, at, b"SUM", least);
    word_or(tokens, at, b"COUNT", sum)
}

/// `COUNT(*)`, or an aggregate of an expression.
fn aggregate(
    alloc: Global,
    tokens: &Tokens,
    at: usize,
    depth: usize,
    levels: usize,
    quotes: &mut Quotes,
) -> Result<(Aggregate, usize), Stop>
    ensures moves { IfOk result (λ p. Moves tokens.now at p.1) }
    ensures found { IfOk result (λ p. Makes (Reads language depth tokens.now at p.1 (of_sql raw part.aggregate)) tokens.now depth quotes.old quotes.new p.0) }
    ensures refused { IfRefused result (Refuses language depth tokens.now at (of_sql raw part.aggregate)) }
{
    if sees_word(tokens, at, TokenKind::Upper, b"COUNT") {
        let star = expect(alloc, tokens, at + 1, TokenKind::Symbol(Symbol::LParen))?;
        let close = expect(alloc, tokens, star, TokenKind::Symbol(Symbol::Star))?;
        let end = expect(alloc, tokens, close, TokenKind::Symbol(Symbol::RParen))?;
        Ok((Aggregate::Count, end))
    } else if sees_word(tokens, at, TokenKind::Upper, b"SUM") {
        let (tree, end) = argument(alloc, tokens, at + 1, depth, levels, quotes)?;
        Ok((Aggregate::Sum(tree), end))
    } else if sees_word(tokens, at, TokenKind::Upper, b"MIN") {
        let (tree, end) = argument(alloc, tokens, at + 1, depth, levels, quotes)?;
        Ok((Aggregate::Min(tree), end))
    } else {
        let begin = expect_word(alloc, tokens, at, TokenKind::Upper, b"MAX")?;
        let (tree, end) = argument(alloc, tokens, begin, depth, levels, quotes)?;
        Ok((Aggregate::Max(tree), end))
    }
}

/// Whether an item after SELECT goes on at a place.
fn item_goes_on(tokens: &Tokens, at: usize) -> bool
    ensures { result ≡ starts (member (sql_last part.selected)) (drop at tokens.now) }
{
    let operates = sees_operator(tokens, at, false);
    word_or(tokens, at, b"AS", operates)
}

/// Whether what is selected goes on at a place.
fn selection_goes_on(tokens: &Tokens, at: usize) -> bool
    ensures { result ≡ starts (member (sql_last part.selection)) (drop at tokens.now) }
{
    let item = item_goes_on(tokens, at);
    comma_or(tokens, at, item)
}

/// Whether `.A` stands at a place, and nothing behind it that goes on.
fn sees_dotted(tokens: &Tokens, at: usize) -> bool
    ensures { result ≡ is_dotted (drop at tokens.now) }
{
    if sees(tokens, at, TokenKind::Symbol(Symbol::Dot)) {
        let field = at + 1;
        if sees(tokens, field, TokenKind::Upper) {
            !item_goes_on(tokens, field + 1)
        } else {
            false
        }
    } else {
        false
    }
}

/// Whether a column stands at a place, and nothing behind it that goes on.
fn sees_column(tokens: &Tokens, at: usize) -> bool
    ensures { result ≡ is_column (drop at tokens.now) }
{
    if sees(tokens, at, TokenKind::Lower) {
        sees_dotted(tokens, at + 1)
    } else if sees(tokens, at, TokenKind::Upper) {
        sees_dotted(tokens, at + 1)
    } else {
        false
    }
}

/// An item after SELECT.
fn selected(
    alloc: Global,
    tokens: &Tokens,
    at: usize,
    depth: usize,
    levels: usize,
    quotes: &mut Quotes,
) -> Result<(Selected, usize), Stop>
    ensures moves { IfOk result (λ p. Moves tokens.now at p.1) }
    ensures found { IfOk result (λ p. Makes (Reads language depth tokens.now at p.1 (of_sql raw part.selected)) tokens.now depth quotes.old quotes.new p.0) }
    ensures refused { IfRefused result (Refuses language depth tokens.now at (of_sql raw part.selected)) }
{
    if sees_aggregate(tokens, at) {
        let (aggregate, middle) = aggregate(alloc, tokens, at, depth, levels, quotes)?;
        let (name, end) = called(alloc, tokens, middle)?;
        finished(alloc, tokens, end, item_goes_on(tokens, end))?;
        let covered = span(tokens, at, end);
        Ok((Selected::Aggregate(covered, aggregate, name), end))
    } else if sees_column(tokens, at) {
        let (column, end) = read_column(alloc, tokens, at, false)?;
        finished(alloc, tokens, end, item_goes_on(tokens, end))?;
        Ok((Selected::Column(column), end))
    } else {
        let (inner, middle) = exp(alloc, tokens, at, depth, levels, false, quotes)?;
        let (name, end) = called(alloc, tokens, middle)?;
        finished(alloc, tokens, end, item_goes_on(tokens, end))?;
        Ok((Selected::Named(inner, name), end))
    }
}

/// Items with commas before them, as many as stand there. The answer is the place behind them.
fn more_selected(
    alloc: Global,
    tokens: &Tokens,
    at: usize,
    depth: usize,
    levels: usize,
    list: &mut List<Selected>,
    quotes: &mut Quotes,
) -> Result<usize, Stop>
    ensures on { IfOk result (λ j. at ≤ j) }
    ensures within { at ≤ length tokens.now → IfOk result (λ j. j ≤ length tokens.now) }
    ensures found { IfOk result (λ j. Extends (Reads language depth tokens.now at j (of_sql raw part.more_selected)) tokens.now depth quotes.old quotes.new list.old list.new) }
    ensures refused { IfRefused result (Refuses language depth tokens.now at (of_sql raw part.more_selected)) }
{
    let mut end = at;
    'items: while sees(tokens, end, TokenKind::Symbol(Symbol::Comma)) {
        let (item, next) = selected(alloc, tokens, end + 1, depth, levels, quotes)?;
        pushed(list, item)?;
        end = next;
    }
    finished(alloc, tokens, end, selection_goes_on(tokens, end))?;
    Ok(end)
}

/// `*`, or items.
pub fn selection(
    alloc: Global,
    tokens: &Tokens,
    at: usize,
    depth: usize,
    levels: usize,
    quotes: &mut Quotes,
) -> Result<(Selection, usize), Stop>
    ensures moves { IfOk result (λ p. Moves tokens.now at p.1) }
    ensures found { IfOk result (λ p. Makes (Reads language depth tokens.now at p.1 (of_sql raw part.selection)) tokens.now depth quotes.old quotes.new p.0) }
    ensures refused { IfRefused result (Refuses language depth tokens.now at (of_sql raw part.selection)) }
{
    if sees(tokens, at, TokenKind::Symbol(Symbol::Star)) {
        finished(alloc, tokens, at + 1, selection_goes_on(tokens, at + 1))?;
        Ok((Selection::All, at + 1))
    } else {
        let (first, behind) = selected(alloc, tokens, at, depth, levels, quotes)?;
        let mut list = list_of(alloc, first)?;
        let end = more_selected(alloc, tokens, behind, depth, levels, &mut list, quotes)?;
        Ok((Selection::Items(list), end))
    }
}
