//! SQL in expressions. Its skeleton is read first, with code as the tokens that it is, and then the code.
ghost use Rattle.std.specs.Prelude.{◌≡◌, IfOk};
ghost use Rattle.ur_parse_rules.specs.Places.{Moves, Reads, Refuses, IfRefused, OfRefusal};
ghost use Rattle.ur_parse_rules.specs.Quoted.{expressions, raw};
ghost use Rattle.ur_parse_rules.specs.SqlParts as part;
ghost use Rattle.ur_parse_rules.specs.Parts.{of_sql};
ghost use Rattle.ur_parse_rules.specs.Language.{language};
ghost use Rattle.ur_parse_exp.specs.Tables.{Coded, AllRead, NoneOfAll};

use crate::code::{Codes, read_codes};
use crate::markup::{deeper, either, plain};
use std::alloc::Global;
use ur_base::{Boxed, List, Stop};
use ur_lex::Tokens;
use ur_parse_embed::{read_change, read_query};
use ur_parse_embed_code::Quotes;
use ur_parse_rules::{Parsed, boxed, too_deep};
use ur_syntax::{Exp, SqlChange, SqlQuery};

/// The greatest nesting of SQL that nests too deep and whose code is looked at still: the stack is memory, and more is
/// want of memory.
const MAX_SQL_NESTING: usize = 512;

/// The code of antiquotes and of attributes behind a place, where `less` fewer expressions may nest than each range says.
#[cycle(exp)]
fn all_codes(
    alloc: Global,
    tokens: &Tokens,
    from: usize,
    quotes: &Quotes,
    less: usize,
    levels: usize,
) -> Result<(Codes, Codes), Stop>
    ensures found { IfOk result (λ p. AllRead tokens.now less quotes.now p.0 p.1) }
    ensures refused { IfRefused result (NoneOfAll tokens.now quotes.now) }
{
    let exps = read_codes(alloc, tokens, from, quotes.exps.as_slice(), less, levels)?;
    let attributes = read_codes(
        alloc,
        tokens,
        from,
        quotes.attributes.as_slice(),
        less,
        levels,
    )?;
    Ok((exps, attributes))
}

/// The expressions of code, of what ends at a place.
fn exps_of(codes: Codes, end: usize) -> Parsed<List<Exp>>
    ensures exps { result.tree ≡ codes.exps.tree }
    ensures end { result.end ≡ end }
{
    let Codes { exps, deep: _ } = codes;
    let Parsed {
        tree,
        end: _,
        height,
    } = exps;
    Parsed { tree, end, height }
}

/// A query, and the expressions of its code, which end where it ends.
#[cycle(exp)]
pub fn query(
    alloc: Global,
    tokens: &Tokens,
    at: usize,
    depth: usize,
    levels: usize,
) -> Result<(Boxed<SqlQuery>, Parsed<List<Exp>>), Stop>
    ensures moves { IfOk result (λ p. Moves tokens.now at p.1.end) }
    ensures found { IfOk result (λ p. Coded (Reads language depth tokens.now at p.1.end (of_sql expressions part.query)) p.0 p.1.tree) }
    ensures refused { IfRefused result (λ r. Refuses language depth tokens.now at (of_sql expressions part.query) r) }
{
    let mut quotes = Quotes::new(alloc);
    match read_query(alloc, tokens, at, depth, levels, &mut quotes) {
        Ok((tree, end)) => {
            let kept = boxed(alloc, tree)?;
            let (exps, attributes) = all_codes(alloc, tokens, at, &quotes, 0, levels)?;
            if either(exps.deep, attributes.deep) {
                return Err(too_deep(alloc, tokens, at));
            }
            Ok((kept, exps_of(exps, end)))
        }
        Err(refused) => {
            let made = query_again(alloc, tokens, at, depth, levels, refused)?;
            Ok(made)
        }
    }
}

/// Why there is no query within the nesting, where its skeleton is refused: where that nests too deep it is read once more
/// with a nesting of its own, since code in it may be no expression.
#[cycle(exp)]
fn query_again(
    alloc: Global,
    tokens: &Tokens,
    at: usize,
    depth: usize,
    levels: usize,
    first: Stop,
) -> Result<(Boxed<SqlQuery>, Parsed<List<Exp>>), Stop>
    ensures found { IfOk result (λ p. ⊥) }
    ensures refused { OfRefusal first (λ r. Refuses language depth tokens.now at (of_sql raw part.query) r) → IfRefused result (λ r. Refuses language depth tokens.now at (of_sql expressions part.query) r) }
{
    deeper(first)?;
    if MAX_SQL_NESTING < depth {
        return Err(Stop::Memory);
    }
    let mut quotes = Quotes::new(alloc);
    match read_query(alloc, tokens, at, MAX_SQL_NESTING, levels, &mut quotes) {
        Ok((_tree, _end)) => {
            let less = MAX_SQL_NESTING - depth;
            let (_exps, _attributes) = all_codes(alloc, tokens, at, &quotes, less, levels)?;
            Err(too_deep(alloc, tokens, at))
        }
        Err(refused) => Err(plain(refused)),
    }
}

/// A change, and the expressions of its code, which end where it ends.
#[cycle(exp)]
pub fn change(
    alloc: Global,
    tokens: &Tokens,
    at: usize,
    depth: usize,
    levels: usize,
) -> Result<(Boxed<SqlChange>, Parsed<List<Exp>>), Stop>
    ensures moves { IfOk result (λ p. Moves tokens.now at p.1.end) }
    ensures found { IfOk result (λ p. Coded (Reads language depth tokens.now at p.1.end (of_sql expressions part.change)) p.0 p.1.tree) }
    ensures refused { IfRefused result (λ r. Refuses language depth tokens.now at (of_sql expressions part.change) r) }
{
    let mut quotes = Quotes::new(alloc);
    match read_change(alloc, tokens, at, depth, levels, &mut quotes) {
        Ok((tree, end)) => {
            let kept = boxed(alloc, tree)?;
            let (exps, attributes) = all_codes(alloc, tokens, at, &quotes, 0, levels)?;
            if either(exps.deep, attributes.deep) {
                return Err(too_deep(alloc, tokens, at));
            }
            Ok((kept, exps_of(exps, end)))
        }
        Err(refused) => {
            let made = change_again(alloc, tokens, at, depth, levels, refused)?;
            Ok(made)
        }
    }
}

/// Why there is no change within the nesting, where its skeleton is refused, as `query_again`.
#[cycle(exp)]
fn change_again(
    alloc: Global,
    tokens: &Tokens,
    at: usize,
    depth: usize,
    levels: usize,
    first: Stop,
) -> Result<(Boxed<SqlChange>, Parsed<List<Exp>>), Stop>
    ensures found { IfOk result (λ p. ⊥) }
    ensures refused { OfRefusal first (λ r. Refuses language depth tokens.now at (of_sql raw part.change) r) → IfRefused result (λ r. Refuses language depth tokens.now at (of_sql expressions part.change) r) }
{
    deeper(first)?;
    if MAX_SQL_NESTING < depth {
        return Err(Stop::Memory);
    }
    let mut quotes = Quotes::new(alloc);
    match read_change(alloc, tokens, at, MAX_SQL_NESTING, levels, &mut quotes) {
        Ok((_tree, _end)) => {
            let less = MAX_SQL_NESTING - depth;
            let (_exps, _attributes) = all_codes(alloc, tokens, at, &quotes, less, levels)?;
            Err(too_deep(alloc, tokens, at))
        }
        Err(refused) => Err(plain(refused)),
    }
}
