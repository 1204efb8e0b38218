//! What comes of statements: their types, answers, changes and patterns.
ghost use Rattle.std.specs.Prelude.{◌≡◌, ◌∷◌, [], All, IfOk, IsTrue};
ghost use Rattle.ur_sql.specs.Typing.{QueryFits, ChangeFits};

use crate::reading::{change_of, query_of};
use crate::scope::module;
use crate::subject::Statement;
use crate::tables::World;
use crate::values::{put_planned, put_rows};
use case_files::Printer;
use std::alloc::Global;
use ur_base::{List, Memory, Stop};
use ur_conditions::Patterns;
use ur_invalidate::{patterns, sites_text};
use ur_rows::Normal;
use ur_sql::{Action, Change, Query, Scalar, answer, plan_action};
use ur_sqltype_statements::{TypedChange, TypedQuery, type_change, type_query};
use ur_syntax::{SqlChange, SqlQuery};
use ur_tree::row_text;
use ur_values::Schema;
use ur_verify::{change_fits, query_fits};

/// The types of the antiquotes of a statement, by its number.
fn found(world: &World, number: usize) -> &[Normal] {
    match world.found.get(number) {
        Some(found) => found.as_slice(),
        None => &[],
    }
}

fn query_typed(alloc: Global, world: &World, query: &SqlQuery) -> Result<TypedQuery, Stop> {
    let env = module(alloc)?;
    type_query(alloc, &env, &world.schema, query, found(world, 0), &[])
}

fn typed_query(alloc: Global, world: &World, text: &str) -> Result<TypedQuery, Stop> {
    let query = query_of(alloc, text)?;
    query_typed(alloc, world, &query)
}

fn change_typed(
    alloc: Global,
    world: &World,
    number: usize,
    change: &SqlChange,
) -> Result<TypedChange, Stop> {
    let env = module(alloc)?;
    type_change(
        alloc,
        &env,
        &world.schema,
        change,
        found(world, number),
        &[],
    )
}

fn typed_change(
    alloc: Global,
    world: &World,
    number: usize,
    text: &str,
) -> Result<TypedChange, Stop> {
    let change = change_of(alloc, text)?;
    change_typed(alloc, world, number, &change)
}

/// What comes of the statements of a text.
pub fn statement(alloc: Global, asked: Statement, text: &str, p: &mut Printer) -> Result<(), Stop> {
    let mut world = World::new(alloc);
    put_in(alloc, asked, &mut world, text, p)
}

fn put_in(
    alloc: Global,
    asked: Statement,
    world: &mut World,
    text: &str,
    p: &mut Printer,
) -> Result<(), Stop> {
    let (first, last) = world.read(text)?;
    match asked {
        Statement::Typed => put_typed(alloc, world, last, p),
        Statement::Answers => put_answers(alloc, world, last, p),
        Statement::Changes => put_changes(alloc, world, last, p),
        Statement::Sites => put_sites(alloc, world, first, last, p),
    }
}

// ---- types

fn put_words(p: &mut Printer, word: &[u8], count: usize) {
    for _ in 0..count {
        p.word(word);
    }
}

/// The row of a query's answer, and a word for each condition of a join, GROUP BY column, ORDER BY key and bound.
fn put_query(alloc: Global, typed: &TypedQuery, p: &mut Printer) -> Result<(), Stop> {
    let row = row_text(alloc, &[], typed.row.as_slice())?;
    p.put(b"=");
    p.word(row.as_slice());
    put_words(p, b"on", typed.core.on.len());
    put_words(p, b"group", typed.core.group.len());
    put_words(p, b"order", typed.core.order.len());
    put_words(p, b"limit", usize::from(typed.core.limit.is_some()));
    put_words(p, b"offset", usize::from(typed.core.offset.is_some()));
    Ok(())
}

fn put_sets(p: &mut Printer, word: &[u8], sets: &[(u32, Scalar)]) {
    p.word(word);
    for set in sets {
        p.number(u64::from(set.0));
    }
}

/// What a change does, with the columns that it sets, by their numbers.
fn put_typed_change(typed: &TypedChange, p: &mut Printer) {
    p.put(b"=");
    match &typed.core.action {
        Action::Insert(sets) => put_sets(p, b"insert", sets.as_slice()),
        Action::Update(sets, _) => put_sets(p, b"update", sets.as_slice()),
        Action::Delete(_) => p.word(b"delete"),
    }
}

fn put_typed(alloc: Global, world: &World, text: &str, p: &mut Printer) -> Result<(), Stop> {
    if text.starts_with("SELECT") {
        let typed = typed_query(alloc, world, text)?;
        return put_query(alloc, &typed, p);
    }
    let typed = typed_change(alloc, world, 0, text)?;
    put_typed_change(&typed, p);
    Ok(())
}

// ---- rows

fn put_answer(alloc: Global, world: &World, query: &Query, p: &mut Printer) -> Result<(), Stop> {
    let rows = answer(alloc, query, world.args.as_slice(), world.rows.as_slice())?;
    put_rows(p, rows.as_slice());
    Ok(())
}

fn put_answers(alloc: Global, world: &World, text: &str, p: &mut Printer) -> Result<(), Stop> {
    let typed = typed_query(alloc, world, text)?;
    put_answer(alloc, world, &typed.core, p)
}

fn put_change(alloc: Global, world: &World, change: &Change, p: &mut Printer) -> Result<(), Stop> {
    if let Some(rows) = world.rows.get(0) {
        let planned = plan_action(
            alloc,
            &change.action,
            world.args.as_slice(),
            rows,
            &world.keys,
        )?;
        put_planned(p, &planned);
    }
    Ok(())
}

fn put_changes(alloc: Global, world: &World, text: &str, p: &mut Printer) -> Result<(), Stop> {
    let typed = typed_change(alloc, world, 0, text)?;
    put_change(alloc, world, &typed.core, p)
}

// ---- patterns

/// Lines, with ` /` between them.
fn put_lines(p: &mut Printer, text: &[u8]) {
    p.put(b"= ");
    for byte in text {
        match byte {
            b'\n' => p.put(b" / "),
            other => p.put(&[*other]),
        }
    }
}

/// A text without the end of its last line.
fn lines(text: &[u8]) -> &[u8] {
    match text {
        [front @ .., b'\n'] => front,
        all => all,
    }
}

fn put_found(
    alloc: Global,
    queries: &List<Query>,
    changes: &List<Change>,
    found: &Patterns,
    p: &mut Printer,
) -> Result<(), Memory> {
    let text = sites_text(alloc, queries, changes, found)?;
    put_lines(p, lines(text.as_slice()));
    Ok(())
}

fn put_patterns(
    alloc: Global,
    schema: &Schema,
    queries: &List<Query>,
    changes: &List<Change>,
    p: &mut Printer,
) -> Result<(), Memory>
    requires queries { All (QueryFits schema.now) queries.now }
    requires changes { All (ChangeFits schema.now) changes.now }
{
    let found = patterns(alloc, queries, changes)?;
    put_found(alloc, queries, changes, &found, p)
}

fn one_query(alloc: Global, query: Query) -> Result<List<Query>, Memory>
    ensures { IfOk result (λ queries. queries ≡ query ∷ []) }
{
    let mut queries = List::new(alloc);
    queries.push(query)?;
    Ok(queries)
}

fn one_change(alloc: Global, change: Change) -> Result<List<Change>, Memory>
    ensures { IfOk result (λ changes. changes ≡ change ∷ []) }
{
    let mut changes = List::new(alloc);
    changes.push(change)?;
    Ok(changes)
}

fn put_fit(
    alloc: Global,
    schema: &Schema,
    query: Query,
    change: Change,
    p: &mut Printer,
) -> Result<(), Memory>
    requires query { QueryFits schema.now query }
    requires change { ChangeFits schema.now change }
{
    let queries = one_query(alloc, query)?;
    let changes = one_change(alloc, change)?;
    put_patterns(alloc, schema, &queries, &changes, p)
}

fn are_fit(alloc: Global, schema: &Schema, query: &Query, change: &Change) -> Result<bool, Memory>
    ensures query { IfOk result (λ fit. IsTrue fit → QueryFits schema.now query.now) }
    ensures change { IfOk result (λ fit. IsTrue fit → ChangeFits schema.now change.now) }
{
    if !query_fits(alloc, schema, query)? {
        return Ok(false);
    }
    let fits = change_fits(alloc, schema, change)?;
    Ok(fits)
}

/// The keys of the one query that the one change drops, where both fit the tables.
fn put_typed_sites(
    alloc: Global,
    schema: &Schema,
    query: Query,
    change: Change,
    p: &mut Printer,
) -> Result<(), Stop> {
    if !are_fit(alloc, schema, &query, &change)? {
        return Ok(());
    }
    Ok(put_fit(alloc, schema, query, change, p)?)
}

/// Those of a query that the change of a text drops.
fn put_changed(
    alloc: Global,
    world: &World,
    query: Query,
    change: &str,
    p: &mut Printer,
) -> Result<(), Stop> {
    let change = typed_change(alloc, world, 1, change)?.core;
    put_typed_sites(alloc, &world.schema, query, change, p)
}

fn put_sites(
    alloc: Global,
    world: &World,
    query: &str,
    change: &str,
    p: &mut Printer,
) -> Result<(), Stop> {
    let query = typed_query(alloc, world, query)?.core;
    put_changed(alloc, world, query, change, p)
}
