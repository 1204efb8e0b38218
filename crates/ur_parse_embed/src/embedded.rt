//! The calls.
ghost use Rattle.std.specs.Prelude.{◌≡◌, ℕ, IfOk};
ghost use Rattle.std.specs.List.{list_all};
ghost use Rattle.ur_parse_rules.specs.Rules.{Read};
ghost use Rattle.ur_parse_rules.specs.Places.{Refuses, IfRefused};
ghost use Rattle.ur_parse_rules.specs.Quoted.{raw};
ghost use Rattle.ur_parse_rules.specs.SqlParts.{query, change};
ghost use Rattle.ur_parse_rules.specs.XmlParts.{literal};
ghost use Rattle.ur_parse_rules.specs.Parts.{of_sql, of_xml};
ghost use Rattle.ur_parse_rules.specs.Language.{language, max_nesting};
ghost use Rattle.ur_parse_embed.specs.Skeletons.{Embeds, IsWithin, lies_between};

use crate::{read_change, read_query};
use std::alloc::Global;
use ur_base::Stop;
use ur_lex::Tokens;
use ur_parse_con::MAX_NESTING;
use ur_parse_embed_code::{Quotes, Range, read_literal};
use ur_syntax::{SqlChange, SqlQuery, Xml};

/// The greatest number of signs before an expression, `NOT` and `-`: the stack is memory, and more is want of memory.
pub const MAX_SIGNS: usize = 1024;

/// A tree with the code of its antiquotes, and the place behind its tokens.
#[derive(Drop)]
pub struct Skeleton<T> {
    pub tree: T,
    pub quotes: Quotes,
    pub end: usize,
}

/// Whether code lies behind a place, has a token, and ends before another place.
fn lies_between(range: Range, from: usize, end: usize) -> bool
    ensures { result ≡ lies_between from end range }
{
    from < range.begin && range.begin < range.end && range.end < end
}

fn all_lie_between(ranges: &[Range], from: usize, end: usize) -> bool
    ensures { result ≡ list_all (lies_between from end) ranges.now }
{
    ranges.iter().all(|range| lies_between(*range, from, end))
}

/// What was read from a place up to another. Its code lies between its first token and its last: that is looked at here,
/// and code elsewhere would be want of memory.
fn enclosed<T: Drop>(tree: T, quotes: Quotes, from: usize, end: usize) -> Result<Skeleton<T>, Stop>
    ensures found { IfOk result (λ s. s ≡ record { tree = tree; quotes = quotes; end = end }) }
    ensures within { IfOk result (IsWithin from) }
    ensures refused { IfRefused result (λ r. ⊥) }
{
    if !all_lie_between(quotes.exps.as_slice(), from, end) {
        return Err(Stop::Memory);
    }
    if !all_lie_between(quotes.attributes.as_slice(), from, end) {
        return Err(Stop::Memory);
    }
    Ok(Skeleton { tree, quotes, end })
}

/// The query that begins at a place.
pub fn sql_query(alloc: Global, tokens: &Tokens, from: usize) -> Result<Skeleton<SqlQuery>, Stop>
    ensures found { IfOk result (Embeds (λ n. Read language n (of_sql raw query)) tokens.now from) }
    ensures within { IfOk result (IsWithin from) }
    ensures refused { IfRefused result (Refuses language max_nesting tokens.now from (of_sql raw query)) }
{
    let mut quotes = Quotes::new(alloc);
    let (tree, end) = read_query(alloc, tokens, from, MAX_NESTING, MAX_SIGNS, &mut quotes)?;
    let made = enclosed(tree, quotes, from, end)?;
    Ok(made)
}

/// The change that begins at a place.
pub fn sql_change(alloc: Global, tokens: &Tokens, from: usize) -> Result<Skeleton<SqlChange>, Stop>
    ensures found { IfOk result (Embeds (λ n. Read language n (of_sql raw change)) tokens.now from) }
    ensures within { IfOk result (IsWithin from) }
    ensures refused { IfRefused result (Refuses language max_nesting tokens.now from (of_sql raw change)) }
{
    let mut quotes = Quotes::new(alloc);
    let (tree, end) = read_change(alloc, tokens, from, MAX_NESTING, MAX_SIGNS, &mut quotes)?;
    let made = enclosed(tree, quotes, from, end)?;
    Ok(made)
}

/// The XML literal that begins at a place.
pub fn xml(alloc: Global, tokens: &Tokens, from: usize) -> Result<Skeleton<Xml>, Stop>
    ensures found { IfOk result (Embeds (λ n. Read language n (of_xml raw literal)) tokens.now from) }
    ensures within { IfOk result (IsWithin from) }
    ensures refused { IfRefused result (Refuses language max_nesting tokens.now from (of_xml raw literal)) }
{
    let mut quotes = Quotes::new(alloc);
    let (tree, end) = read_literal(alloc, tokens, from, MAX_NESTING, &mut quotes)?;
    let made = enclosed(tree, quotes, from, end)?;
    Ok(made)
}
