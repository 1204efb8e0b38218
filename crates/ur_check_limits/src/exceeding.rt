//! Whether a typed source has more than a limit.
ghost use Rattle.std.specs.Prelude.{◌≡◌, nat_lt, length};
ghost use Rattle.std.specs.List.{list_any};
ghost use Rattle.ur_sql.specs.Nodes.{query_nodes, change_nodes};
ghost use Rattle.ur_check_limits.specs.Limits.{is_exceeded};

use crate::limit::Limit;
use crate::nodes::{after_change, after_query};
use ur_base::List;
use ur_sql::{Change, Query};
use ur_tree::{Function, Typed};
use ur_values::TableShape;

fn has_wide_table(tables: &List<TableShape>) -> bool
    ensures { result ≡ list_any (λ t. nat_lt 64 (length t.columns)) tables.now }
{
    for table in tables.as_slice() {
        if table.columns.len() > 64 {
            return true;
        }
    }
    false
}

fn has_long_function(functions: &List<Function>) -> bool
    ensures { result ≡ list_any (λ f. nat_lt 16 (length f.params)) functions.now }
{
    for function in functions.as_slice() {
        if function.params.len() > 16 {
            return true;
        }
    }
    false
}

fn has_long_from(queries: &List<Query>) -> bool
    ensures { result ≡ list_any (λ q. nat_lt 3 (length q.from)) queries.now }
{
    for query in queries.as_slice() {
        if query.from.len() > 3 {
            return true;
        }
    }
    false
}

fn has_full_query(queries: &List<Query>) -> bool
    ensures { result ≡ list_any (λ q. nat_lt 16 (length q.params)) queries.now }
{
    for query in queries.as_slice() {
        if query.params.len() > 16 {
            return true;
        }
    }
    false
}

fn has_full_change(changes: &List<Change>) -> bool
    ensures { result ≡ list_any (λ u. nat_lt 16 (length u.params)) changes.now }
{
    for change in changes.as_slice() {
        if change.params.len() > 16 {
            return true;
        }
    }
    false
}

fn is_large_query(query: &Query) -> bool
    ensures { result ≡ nat_lt 16384 (query_nodes query.now) }
{
    match after_query(query, 16384) {
        None => true,
        Some(_rest) => false,
    }
}

fn is_large_change(change: &Change) -> bool
    ensures { result ≡ nat_lt 16384 (change_nodes change.now) }
{
    match after_change(change, 16384) {
        None => true,
        Some(_rest) => false,
    }
}

fn has_large_query(queries: &List<Query>) -> bool
    ensures { result ≡ list_any (λ q. nat_lt 16384 (query_nodes q)) queries.now }
{
    for query in queries.as_slice() {
        if is_large_query(query) {
            return true;
        }
    }
    false
}

fn has_large_change(changes: &List<Change>) -> bool
    ensures { result ≡ list_any (λ u. nat_lt 16384 (change_nodes u)) changes.now }
{
    for change in changes.as_slice() {
        if is_large_change(change) {
            return true;
        }
    }
    false
}

/// Whether the source has more than the limit. Takes no memory.
pub fn is_exceeded(app: &Typed, limit: Limit) -> bool
    ensures { result ≡ is_exceeded app.now limit }
{
    match limit {
        Limit::Tables => app.schema.tables.len() > 256,
        Limit::Columns => has_wide_table(&app.schema.tables),
        Limit::Sequences => app.schema.sequences.len() > 256,
        Limit::Routes => app.handlers.routes.len() > 1024,
        Limit::Sites => app.queries.len() > 256,
        Limit::Updates => app.changes.len() > 256,
        Limit::Items => has_long_from(&app.queries),
        Limit::Antiquotes => has_full_query(&app.queries) || has_full_change(&app.changes),
        Limit::Parameters => has_long_function(&app.functions),
        Limit::Nodes => has_large_query(&app.queries) || has_large_change(&app.changes),
    }
}
