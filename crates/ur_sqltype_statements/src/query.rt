//! Queries.
ghost use Rattle.std.specs.Prelude.{◌≡◌, ℕ, List, Some, codes, option_and_then, IfOk};
ghost use Rattle.ur_base.specs.Stopping.{IfRefused, Says};
ghost use Rattle.ur_sql.specs.Typing.{QueryFits};
ghost use Rattle.ur_sqltype.specs.Query.{with_on, with_filter, with_fields, with_group, with_order, with_limit, with_offset, to_fields, stated, well_grouped, query_of};
ghost use Rattle.ur_sqltype_statements.specs.Found.{IsTypedQuery};
ghost use Rattle.ur_sqltype.specs.SqltypeFaults.{Breaks, QueryBreaks, QueryHasFault, column_text};

use crate::bounds::bound_of;
use crate::conditions::ons_of;
use crate::fields::fields_of;
use crate::items::{begun, items_of, reads};
use crate::order::{group_of, order_of};
use crate::typed::TypedQuery;
use std::alloc::Global;
use ur_base::{List, Memory, Refusal, Stop, Text};
use ur_rows::{Normal, Part};
use ur_sql::{Bound, ColumnAt, Field, OrderKey, Query, Scalar};
use ur_sqltype::{
    Within, column_text, condition_of, kinds_found, misfit, outside, query_of_fits, query_row,
    unboxed,
};
use ur_syntax::{ConEnv, SqlQuery};
use ur_values::{ColumnKind, Schema};

// ---- parts put into a query

fn put_on(core: Query, on: List<Scalar>) -> Query
    ensures { result ≡ record core { on = on } }
{
    let mut core = core;
    core.on = on;
    core
}

fn put_filter(core: Query, filter: Option<Scalar>) -> Query
    ensures { result ≡ record core { filter = filter } }
{
    let mut core = core;
    core.filter = filter;
    core
}

fn put_fields(core: Query, fields: List<Field>) -> Query
    ensures { result ≡ record core { fields = fields } }
{
    let mut core = core;
    core.fields = fields;
    core
}

fn put_group(core: Query, group: List<ColumnAt>) -> Query
    ensures { result ≡ record core { group = group } }
{
    let mut core = core;
    core.group = group;
    core
}

fn put_order(core: Query, order: List<OrderKey>) -> Query
    ensures { result ≡ record core { order = order } }
{
    let mut core = core;
    core.order = order;
    core
}

fn put_limit(core: Query, limit: Option<Bound>) -> Query
    ensures { result ≡ record core { limit = limit } }
{
    let mut core = core;
    core.limit = limit;
    core
}

fn put_offset(core: Query, offset: Option<Bound>) -> Query
    ensures { result ≡ record core { offset = offset } }
{
    let mut core = core;
    core.offset = offset;
    core
}

// ---- one part after the other

fn with_on(alloc: Global, within: &Within, query: &SqlQuery, core: Query) -> Result<Query, Stop>
    ensures typed { IfOk result (λ c. with_on within.now query.now core ≡ Some c) }
    ensures refused { IfRefused result (λ r. (names : List (List ℕ)) → Breaks names within.now query.now r) }
{
    let on = ons_of(alloc, within, query.from.as_slice())?;
    Ok(put_on(core, on))
}

fn with_filter(alloc: Global, within: &Within, query: &SqlQuery, core: Query) -> Result<Query, Stop>
    ensures typed { IfOk result (λ c. with_filter within.now query.now core ≡ Some c) }
    ensures refused { IfRefused result (λ r. (names : List (List ℕ)) → Breaks names within.now query.now r) }
{
    let filter = condition_of(alloc, within, &query.filter)?;
    Ok(put_filter(core, unboxed(filter)))
}

fn with_fields(
    alloc: Global,
    names: &[Text],
    within: &Within,
    query: &SqlQuery,
    core: Query,
) -> Result<Query, Stop>
    ensures typed { IfOk result (λ c. with_fields names.now within.now query.now core ≡ Some c) }
    ensures refused { IfRefused result (Breaks names.now within.now query.now) }
{
    let fields = fields_of(alloc, names, within, query)?;
    Ok(put_fields(core, fields))
}

fn with_group(alloc: Global, within: &Within, query: &SqlQuery, core: Query) -> Result<Query, Stop>
    ensures typed { IfOk result (λ c. with_group within.now query.now core ≡ Some c) }
    ensures refused { IfRefused result (λ r. (names : List (List ℕ)) → Breaks names within.now query.now r) }
{
    let group = group_of(alloc, within, query.group.as_slice())?;
    Ok(put_group(core, group))
}

fn with_order(alloc: Global, within: &Within, query: &SqlQuery, core: Query) -> Result<Query, Stop>
    ensures typed { IfOk result (λ c. with_order within.now query.now core ≡ Some c) }
    ensures refused { IfRefused result (λ r. (names : List (List ℕ)) → Breaks names within.now query.now r) }
{
    let order = order_of(alloc, within, query.order.as_slice())?;
    Ok(put_order(core, order))
}

fn with_limit(alloc: Global, within: &Within, query: &SqlQuery, core: Query) -> Result<Query, Stop>
    ensures typed { IfOk result (λ c. with_limit within.now query.now core ≡ Some c) }
    ensures refused { IfRefused result (λ r. (names : List (List ℕ)) → Breaks names within.now query.now r) }
{
    let limit = bound_of(alloc, within, query.span, &query.limit)?;
    Ok(put_limit(core, limit))
}

fn with_offset(alloc: Global, within: &Within, query: &SqlQuery, core: Query) -> Result<Query, Stop>
    ensures typed { IfOk result (λ c. with_offset within.now query.now core ≡ Some c) }
    ensures refused { IfRefused result (λ r. (names : List (List ℕ)) → Breaks names within.now query.now r) }
{
    let offset = bound_of(alloc, within, query.span, &query.offset)?;
    Ok(put_offset(core, offset))
}

/// A query with its conditions and fields.
fn with_front(
    alloc: Global,
    names: &[Text],
    within: &Within,
    query: &SqlQuery,
) -> Result<Query, Stop>
    ensures typed { IfOk result (λ c. to_fields names.now within.now query.now ≡ Some c) }
    ensures refused { IfRefused result (Breaks names.now within.now query.now) }
{
    let bare = begun(alloc, within)?;
    let joined = with_on(alloc, within, query, bare)?;
    let filtered = with_filter(alloc, within, query, joined)?;
    let given = with_fields(alloc, names, within, query, filtered)?;
    Ok(given)
}

/// A query with all its parts.
fn stated(alloc: Global, names: &[Text], within: &Within, query: &SqlQuery) -> Result<Query, Stop>
    ensures typed { IfOk result (λ c. stated names.now within.now query.now ≡ Some c) }
    ensures refused { IfRefused result (Breaks names.now within.now query.now) }
{
    let front = with_front(alloc, names, within, query)?;
    let grouped = with_group(alloc, within, query, front)?;
    let ordered = with_order(alloc, within, query, grouped)?;
    let limited = with_limit(alloc, within, query, ordered)?;
    let all = with_offset(alloc, within, query, limited)?;
    Ok(all)
}

// ---- the whole

/// A column outside of GROUP BY.
fn ungrouped(
    alloc: Global,
    within: &Within,
    query: &SqlQuery,
    at: ColumnAt,
) -> Result<Refusal, Memory>
    ensures { IfOk result (λ r. Says r 12 (column_text within.now.sources at) (codes "GROUP BY")) }
{
    let text = column_text(alloc, within.sources.as_slice(), at)?;
    misfit(alloc, query.span, text.as_slice(), b"GROUP BY")
}

/// The query over its items.
fn query_over(
    alloc: Global,
    names: &[Text],
    within: &Within,
    query: &SqlQuery,
) -> Result<Query, Stop>
    ensures typed { IfOk result (λ c. option_and_then well_grouped (stated names.now within.now query.now) ≡ Some c) }
    ensures refused { IfRefused result (Breaks names.now within.now query.now) }
{
    let core = stated(alloc, names, within, query)?;
    match outside(&core) {
        None => Ok(core),
        Some(at) => Err(Stop::Refused(ungrouped(alloc, within, query, at)?)),
    }
}

/// The core query, with these types of its antiquotes.
fn query_of(
    alloc: Global,
    env: &ConEnv,
    tables: &Schema,
    query: &SqlQuery,
    kinds: &[ColumnKind],
) -> Result<Query, Stop>
    ensures typed { IfOk result (λ c. query_of env.now.home tables.now env.now.fields kinds.now query.now ≡ Some c) }
    ensures refused { IfRefused result (QueryHasFault env.now.home tables.now env.now.fields kinds.now query.now) }
{
    let sources = items_of(alloc, &env.home, tables, query)?;
    let within = reads(alloc, sources, kinds)?;
    let core = query_over(alloc, env.fields.as_slice(), &within, query)?;
    Ok(core)
}

fn typed_query(core: Query, antiquotes: List<ColumnKind>, row: List<Part>) -> TypedQuery
    ensures { result ≡ record { core = core; antiquotes = antiquotes; row = row } }
{
    TypedQuery {
        core,
        antiquotes,
        row,
    }
}

/// The typed query of what is written in the module that `env` names, over the tables. `found` are the types found of its
/// antiquotes, in written order, `datatypes` the names of the datatypes, by number. A refusal is E07, E08 or E12; that of an
/// antiquote of another type has no place.
pub fn type_query(
    alloc: Global,
    env: &ConEnv,
    tables: &Schema,
    query: &SqlQuery,
    found: &[Normal],
    datatypes: &[Text],
) -> Result<TypedQuery, Stop>
    ensures typed { IfOk result (IsTypedQuery env.now.home tables.now env.now.fields found.now query.now) }
    ensures fits { IfOk result (λ t. QueryFits tables.now t.core) }
    ensures refused { IfRefused result (QueryBreaks datatypes.now env.now.home tables.now env.now.fields found.now query.now) }
{
    query_of_fits();
    let kinds = kinds_found(alloc, found, datatypes)?;
    let core = query_of(alloc, env, tables, query, kinds.as_slice())?;
    let row = query_row(alloc, env.fields.as_slice(), &core)?;
    Ok(typed_query(core, kinds, row))
}
