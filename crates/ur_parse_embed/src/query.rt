//! Queries.
ghost use Rattle.std.specs.Prelude.{◌≡◌, IfOk, drop};
ghost use Rattle.ur_parse_rules.specs.Places.{Moves, Reads, Refuses, IfRefused, starts};
ghost use Rattle.ur_parse_rules.specs.Classes.{member};
ghost use Rattle.ur_parse_rules.specs.Quoted.{raw};
ghost use Rattle.ur_parse_rules.specs.SqlParts as part;
ghost use Rattle.ur_parse_rules.specs.Parts.{of_sql};
ghost use Rattle.ur_parse_rules.specs.Ends.{sql_last};
ghost use Rattle.ur_parse_rules.specs.Language.{language};
ghost use Rattle.ur_parse_embed_code.specs.Quotes.{Makes};

use crate::clauses::{filter, group, limit, offset, order};
use crate::from::more_items;
use crate::lists::list_of;
use crate::selection::selection;
use crate::tables::item;
use crate::{comma_or, finished, sees_operator, word_or};
use std::alloc::Global;
use ur_base::Stop;
use ur_lex::{TokenKind, Tokens};
use ur_parse_embed_code::Quotes;
use ur_parse_rules::{expect_word, span};
use ur_syntax::SqlQuery;

/// Whether a query goes on at a place.
fn query_goes_on(tokens: &Tokens, at: usize) -> bool
    ensures { result ≡ starts (member (sql_last part.query)) (drop at tokens.now) }
{
    let operates = sees_operator(tokens, at, false);
    let offset = word_or(tokens, at, b"OFFSET", operates);
    let limit = word_or(tokens, at, b"LIMIT", offset);
    let falls = word_or(tokens, at, b"DESC", limit);
    let rises = word_or(tokens, at, b"ASC", falls);
    let order = word_or(tokens, at, b"ORDER", rises);
    let group = word_or(tokens, at, b"GROUP", order);
    let filter = word_or(tokens, at, b"WHERE", group);
    let joins = word_or(tokens, at, b"JOIN", filter);
    let named = word_or(tokens, at, b"AS", joins);
    comma_or(tokens, at, named)
}

/// A query, with at most `depth` nested expressions of SQL, and at most `levels` signs before an expression.
pub fn query(
    alloc: Global,
    tokens: &Tokens,
    at: usize,
    depth: usize,
    levels: usize,
    quotes: &mut Quotes,
) -> Result<(SqlQuery, usize), Stop>
    ensures moves { IfOk result (λ p. Moves tokens.now at p.1) }
    ensures found { IfOk result (λ p. Makes (Reads language depth tokens.now at p.1 (of_sql raw part.query)) tokens.now depth quotes.old quotes.new p.0) }
    ensures refused { IfRefused result (Refuses language depth tokens.now at (of_sql raw part.query)) }
{
    let begin = expect_word(alloc, tokens, at, TokenKind::Upper, b"SELECT")?;
    let (selection, from_at) = selection(alloc, tokens, begin, depth, levels, quotes)?;
    let item_at = expect_word(alloc, tokens, from_at, TokenKind::Upper, b"FROM")?;
    let (first, items_at) = item(alloc, tokens, item_at)?;
    let mut from = list_of(alloc, first)?;
    let filter_at = more_items(alloc, tokens, items_at, depth, levels, &mut from, quotes)?;
    let (filter, group_at) = filter(alloc, tokens, filter_at, depth, levels, false, quotes)?;
    let (group, order_at) = group(alloc, tokens, group_at)?;
    let (order, limit_at) = order(alloc, tokens, order_at, depth, levels, quotes)?;
    let (limit, offset_at) = limit(alloc, tokens, limit_at, depth, quotes)?;
    let (offset, end) = offset(alloc, tokens, offset_at, depth, quotes)?;
    finished(alloc, tokens, end, query_goes_on(tokens, end))?;
    let covered = span(tokens, at, end);
    Ok((
        SqlQuery {
            span: covered,
            selection,
            from,
            filter,
            group,
            order,
            limit,
            offset,
        },
        end,
    ))
}
