//! The items of FROM, and what is in scope in a query.
ghost use Rattle.std.specs.Prelude.{◌≡◌, ℕ, List, Some, None, map, bytes_eq, IfOk, MatchOption};
ghost use Rattle.ur_values.specs.declared.schema.ColumnKind.{ColumnKind as Kind};
ghost use Rattle.std.specs.List.{list_any};
ghost use Rattle.ur_base.specs.Stopping.{IfRefused};
ghost use Rattle.ur_sqltype.specs.Lists.{repeated};
ghost use Rattle.ur_sqltype.specs.Query.{item_of, items_of, reads, begun};
ghost use Rattle.ur_sqltype.specs.SqltypeFaults.{QueryHasFault};

use std::alloc::Global;
use ur_base::{List, Memory, Stop, Text};
use ur_sql::{Item, Query};
use ur_sqltype::{Source, Within, sources_of, twice};
use ur_syntax::SqlQuery;
use ur_values::{ColumnKind, Schema};

/// The first alias that a later item has too.
fn repeated_alias<'a>(sources: &'a [Source]) -> Option<&'a [u8]>
    ensures { MatchOption result (repeated bytes_eq (map (λ s. s.alias) sources.now) ≡ None) (λ a. repeated bytes_eq (map (λ s. s.alias) sources.now) ≡ Some a.now) }
{
    let mut left = sources;
    while let Some((source, rest)) = left.split_first() {
        if has_alias(rest, source.alias.as_slice()) {
            return Some(source.alias.as_slice());
        }
        left = rest;
    }
    None
}

fn has_alias(sources: &[Source], alias: &[u8]) -> bool
    ensures { result ≡ list_any (bytes_eq alias.now) (map (λ s. s.alias) sources.now) }
{
    for source in sources {
        if alias == source.alias.as_slice() {
            return true;
        }
    }
    false
}

/// The items of FROM, no two of one alias.
pub fn items_of(
    alloc: Global,
    home: &Text,
    tables: &Schema,
    query: &SqlQuery,
) -> Result<List<Source>, Stop>
    ensures items { IfOk result (λ ss. items_of home.now tables.now query.now.«from» ≡ Some ss) }
    ensures refused { IfRefused result (λ r. (names : List (List ℕ)) (kinds : List Kind) → QueryHasFault home.now tables.now names kinds query.now r) }
{
    let sources = sources_of(alloc, home, tables, query.from.as_slice())?;
    match repeated_alias(sources.as_slice()) {
        Some(alias) => return Err(Stop::Refused(twice(alloc, query.span, alias)?)),
        None => {}
    }
    Ok(sources)
}

/// What is in scope in a query.
pub fn reads(alloc: Global, sources: List<Source>, kinds: &[ColumnKind]) -> Result<Within, Memory>
    ensures { IfOk result (λ w. w ≡ reads sources kinds.now) }
{
    let antiquotes = List::from_slice(alloc, kinds)?;
    Ok(Within {
        sources,
        bare: List::new(alloc),
        antiquotes,
    })
}

/// An item of FROM with the types of its columns.
fn item_of(alloc: Global, source: &Source) -> Result<Item, Memory>
    ensures { IfOk result (λ i. i ≡ item_of source.now) }
{
    let mut columns = List::new(alloc);
    for column in source.columns.as_slice() {
        columns.push(column.1)?;
    }
    Ok(Item {
        table: source.table,
        columns,
    })
}

fn items(alloc: Global, sources: &[Source]) -> Result<List<Item>, Memory>
    ensures { IfOk result (λ items. items ≡ map item_of sources.now) }
{
    let mut items = List::new(alloc);
    for source in sources {
        let item = item_of(alloc, source)?;
        items.push(item)?;
    }
    Ok(items)
}

/// A query of these items alone.
pub fn begun(alloc: Global, within: &Within) -> Result<Query, Memory>
    ensures { IfOk result (λ c. c ≡ begun within.now) }
{
    let params = List::from_slice(alloc, within.antiquotes.as_slice())?;
    let from = items(alloc, within.sources.as_slice())?;
    Ok(Query {
        params,
        fields: List::new(alloc),
        from,
        on: List::new(alloc),
        filter: None,
        group: List::new(alloc),
        order: List::new(alloc),
        limit: None,
        offset: None,
    })
}
