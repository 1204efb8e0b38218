//! The patterns of queries and changes.
ghost use Rattle.std.specs.Prelude.{◌≡◌, ◌≤◌, length, [], ◌∷◌, ◌++◌, IfOk, All, List, option_to_list};
ghost use Rattle.std.specs.List.{list_any};
ghost use Rattle.ur_sql.specs.declared.pattern.Pattern.{Pattern as PatternOf};
ghost use Rattle.ur_sql.specs.Answer.{first_ones};
ghost use Rattle.ur_conditions.specs.Pairs.{pairs_of, AreAtoms};
ghost use Rattle.ur_conditions.specs.Patterns.{any_key, pattern_eq, IsPatternOf, AreRead, ArePatterns};
ghost use Rattle.ur_invalidate.specs.Reading.{AreSitePatterns};

use crate::classes_of;
use crate::comparing::same_patterns;
use crate::reading::pattern_from;
use std::alloc::Global;
use ur_base::{List, Memory};
use ur_conditions::{Pair, pairs, pairs_of};
use ur_sql::{Change, KeyAt, Pattern, Query};

/// The patterns of each query at a change. More queries than `u32` has numbers take memory that is not had.
pub fn site_patterns(
    alloc: Global,
    queries: &[Query],
    change: &Change,
) -> Result<List<List<Pattern>>, Memory>
    requires { All (λ q. All AreAtoms (pairs_of q change.now)) queries.now }
    ensures { IfOk result (AreSitePatterns queries.now change.now) }
{
    if queries.len() > u32::MAX as usize {
        return Err(Memory);
    }
    let mut lists = List::new(alloc);
    for site in 0..queries.len() {
        lists.push(patterns_of(alloc, site as u32, &queries[site], change)?)?;
    }
    Ok(lists)
}

/// The patterns of a query, by its number, and a change: those of the pairs in order, equal ones once; over 64 pairs stand
/// for any key. A pair of more than 65,536 terms takes memory that is not had.
pub fn patterns_of(
    alloc: Global,
    site: u32,
    query: &Query,
    change: &Change,
) -> Result<List<Pattern>, Memory>
    requires { length (pairs_of query.now change.now) ≤ 64 → All AreAtoms (pairs_of query.now change.now) }
    ensures { IfOk result (ArePatterns site query.now change.now) }
{
    if pairs(query, change) > 64 {
        return any_key(alloc, site, query);
    }
    let pairs = pairs_of(alloc, query, change)?;
    read_pairs(alloc, site, pairs.as_slice())
}

/// The pattern that every key of the site matches.
fn any_key(alloc: Global, site: u32, query: &Query) -> Result<List<Pattern>, Memory>
    ensures { IfOk result (λ patterns. patterns ≡ any_key site query.now ∷ []) }
{
    let params = query.params.as_slice();
    let mut keys = List::new(alloc);
    for _param in params {
        keys.push(KeyAt::Any)?;
    }
    let guards = List::new(alloc);
    let mut patterns = List::new(alloc);
    patterns.push(Pattern { site, keys, guards })?;
    Ok(patterns)
}

/// The patterns of pairs, equal ones once.
fn read_pairs(alloc: Global, site: u32, pairs: &[Pair]) -> Result<List<Pattern>, Memory>
    requires { All AreAtoms pairs.now }
    ensures { IfOk result (AreRead site pairs.now) }
{
    let mut kept = List::new(alloc);
    for pair in pairs {
        kept = keep(kept, pattern_of(alloc, site, pair)?)?;
    }
    Ok(kept)
}

/// The pattern of a pair, if it is consistent.
fn pattern_of(alloc: Global, site: u32, pair: &Pair) -> Result<Option<Pattern>, Memory>
    requires { AreAtoms pair.now }
    ensures { IfOk result (IsPatternOf site pair.now) }
{
    let classes = classes_of(alloc, pair)?;
    pattern_from(alloc, site, &classes)
}

/// The patterns with one more, if it is there and none of them equals it.
fn keep(kept: List<Pattern>, pattern: Option<Pattern>) -> Result<List<Pattern>, Memory>
    ensures { IfOk result (λ all. (from : List PatternOf) → kept ≡ first_ones pattern_eq from → all ≡ first_ones pattern_eq (from ++ option_to_list pattern)) }
{
    match pattern {
        None => Ok(kept),
        Some(pattern) => keep_new(kept, pattern),
    }
}

fn keep_new(kept: List<Pattern>, pattern: Pattern) -> Result<List<Pattern>, Memory>
    ensures { IfOk result (λ all. (from : List PatternOf) → kept ≡ first_ones pattern_eq from → all ≡ first_ones pattern_eq (from ++ pattern ∷ [])) }
{
    let mut all = kept;
    if is_among(all.as_slice(), &pattern) {
        return Ok(all);
    }
    all.push(pattern)?;
    Ok(all)
}

fn is_among(patterns: &[Pattern], pattern: &Pattern) -> bool
    ensures { result ≡ list_any (λ other. pattern_eq other pattern.now) patterns.now }
{
    for other in patterns {
        if same_patterns(other, pattern) {
            return true;
        }
    }
    false
}
