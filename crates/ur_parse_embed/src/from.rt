//! Items of FROM.
ghost use Rattle.std.specs.Prelude.{◌≡◌, ◌≤◌, IfOk, drop, length};
ghost use Rattle.ur_parse_rules.specs.Places.{Moves, Reads, Refuses, IfRefused, starts};
ghost use Rattle.ur_parse_rules.specs.Classes.{member};
ghost use Rattle.ur_parse_rules.specs.Quoted.{raw};
ghost use Rattle.ur_parse_rules.specs.SqlParts as part;
ghost use Rattle.ur_parse_rules.specs.Parts.{of_sql};
ghost use Rattle.ur_parse_rules.specs.Ends.{sql_last};
ghost use Rattle.ur_parse_rules.specs.Language.{language};
ghost use Rattle.ur_parse_embed_code.specs.Quotes.{Makes};
ghost use Rattle.ur_parse_embed.specs.Pieces.{Extends};
ghost use Rattle.ur_parse_embed.specs.Items.{Joined, NotJoined, Next, NoNext, more_from};

use crate::exp::exp;
use crate::tables::item;
use crate::{comma_or, finished, sees_operator, word_or};
use std::alloc::Global;
use ur_base::{List, Stop};
use ur_lex::{Symbol, TokenKind, Tokens};
use ur_parse_embed_code::Quotes;
use ur_parse_rules::{expect_word, pushed, sees};
use ur_syntax::FromItem;

/// An item with its condition, behind JOIN.
fn joined(
    alloc: Global,
    tokens: &Tokens,
    at: usize,
    depth: usize,
    levels: usize,
    quotes: &mut Quotes,
) -> Result<(FromItem, usize), Stop>
    ensures moves { IfOk result (λ p. Moves tokens.now at p.1) }
    ensures found { IfOk result (λ p. Makes (Joined depth tokens.now at p.1) tokens.now depth quotes.old quotes.new p.0) }
    ensures refused { IfRefused result (NotJoined depth tokens.now at) }
{
    let (item, behind) = item(alloc, tokens, at)?;
    let begin = expect_word(alloc, tokens, behind, TokenKind::Upper, b"ON")?;
    let (condition, end) = exp(alloc, tokens, begin, depth, levels, false, quotes)?;
    let FromItem {
        span,
        table,
        alias,
        on: _,
    } = item;
    Ok((
        FromItem {
            span,
            table,
            alias,
            on: Some(condition),
        },
        end,
    ))
}

/// Whether items go on at a place.
fn items_go_on(tokens: &Tokens, at: usize) -> bool
    ensures { result ≡ starts (member (sql_last part.more_items)) (drop at tokens.now) }
{
    let operates = sees_operator(tokens, at, false);
    let joins = word_or(tokens, at, b"JOIN", operates);
    let named = word_or(tokens, at, b"AS", joins);
    comma_or(tokens, at, named)
}

/// Whether an item follows at a place.
fn item_follows(tokens: &Tokens, at: usize) -> bool
    ensures { result ≡ starts (member more_from) (drop at tokens.now) }
{
    let joins = word_or(tokens, at, b"JOIN", false);
    comma_or(tokens, at, joins)
}

/// The next item with what stands before it.
fn next_item(
    alloc: Global,
    tokens: &Tokens,
    at: usize,
    depth: usize,
    levels: usize,
    quotes: &mut Quotes,
) -> Result<(FromItem, usize), Stop>
    ensures moves { IfOk result (λ p. Moves tokens.now at p.1) }
    ensures found { IfOk result (λ p. Next depth tokens.now at p.1 quotes.old quotes.new p.0) }
    ensures refused { IfRefused result (NoNext depth tokens.now at) }
{
    if sees(tokens, at, TokenKind::Symbol(Symbol::Comma)) {
        let (found, end) = item(alloc, tokens, at + 1)?;
        Ok((found, end))
    } else {
        let begin = expect_word(alloc, tokens, at, TokenKind::Upper, b"JOIN")?;
        let (found, end) = joined(alloc, tokens, begin, depth, levels, quotes)?;
        Ok((found, end))
    }
}

/// Items behind the first, as many as stand there. The answer is the place behind them.
pub fn more_items(
    alloc: Global,
    tokens: &Tokens,
    at: usize,
    depth: usize,
    levels: usize,
    list: &mut List<FromItem>,
    quotes: &mut Quotes,
) -> Result<usize, Stop>
    ensures on { IfOk result (λ j. at ≤ j) }
    ensures within { at ≤ length tokens.now → IfOk result (λ j. j ≤ length tokens.now) }
    ensures found { IfOk result (λ j. Extends (Reads language depth tokens.now at j (of_sql raw part.more_items)) tokens.now depth quotes.old quotes.new list.old list.new) }
    ensures refused { IfRefused result (Refuses language depth tokens.now at (of_sql raw part.more_items)) }
{
    let mut end = at;
    'items: while item_follows(tokens, end) {
        let (found, next) = next_item(alloc, tokens, end, depth, levels, quotes)?;
        pushed(list, found)?;
        end = next;
    }
    finished(alloc, tokens, end, items_go_on(tokens, end))?;
    Ok(end)
}
