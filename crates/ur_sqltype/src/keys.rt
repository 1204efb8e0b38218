//! The keys of a table.
ghost use Rattle.std.specs.Prelude.{◌≡◌, Some, [], true, nat_eq, IfOk, All, Contains, MatchOption};
ghost use Rattle.std.specs.List.{list_any, IsDistinct};
ghost use Rattle.ur_base.specs.Stopping.{IfRefused, Says};
ghost use Rattle.ur_sqltype.specs.Expression.{is_optional};
ghost use Rattle.ur_sqltype.specs.Faults.{kind_text};
ghost use Rattle.ur_sqltype.specs.Lists.{all_of, repeated};
ghost use Rattle.ur_sqltype.specs.Table.{key_of, place_of, name_at, kind_at, HasNoOption, has_primary};
ghost use Rattle.ur_sqltype.specs.SqltableFaults.{KeyBreaks, KeysBreak, NoPlace, plain_of};

use crate::sqltable_columns::nowhere;
use crate::{column_of, is_optional, kind_text, misfit, place, unknown};
use std::alloc::Global;
use ur_base::{List, Memory, Refusal, Span, Stop, Text};
use ur_values::ColumnKind;

/// A key of a table: its columns, and whether it is the PRIMARY KEY.
#[derive(Drop)]
pub struct SqlKey {
    pub columns: List<Text>,
    pub primary: bool,
}

/// The place of a column.
fn place_of(alloc: Global, columns: &[(Text, ColumnKind)], name: &Text) -> Result<u32, Stop>
    ensures place { IfOk result (λ p. place_of columns.now name.now ≡ Some p) }
    ensures refused { IfRefused result (NoPlace columns.now name.now) }
{
    match column_of(name.as_slice(), columns) {
        None => Err(Stop::Refused(unknown(alloc, nowhere(), name.as_slice())?)),
        Some((at, _)) => Ok(place(at)?),
    }
}

/// The places of the columns of a key.
fn places_of(
    alloc: Global,
    columns: &[(Text, ColumnKind)],
    names: &[Text],
) -> Result<List<u32>, Stop>
    ensures places { IfOk result (λ ps. all_of (place_of columns.now) names.now ≡ Some ps) }
    ensures refused { IfRefused result (KeyBreaks columns.now names.now) }
{
    let mut places = List::new(alloc);
    for i in 0..names.len() {
        let place = place_of(alloc, columns, &names[i])?;
        places.push(place)?;
    }
    Ok(places)
}

/// The first place that stands once more behind itself.
fn repeated_place(places: &[u32]) -> Option<u32>
    ensures { result ≡ repeated nat_eq places.now }
{
    let mut left = places;
    while let Some((place, rest)) = left.split_first() {
        if has_place(rest, *place) {
            return Some(*place);
        }
        left = rest;
    }
    None
}

fn has_place(places: &[u32], place: u32) -> bool
    ensures { result ≡ list_any (nat_eq place) places.now }
{
    for other in places {
        if place == *other {
            return true;
        }
    }
    false
}

/// A key, no column of which stands twice or is optional.
fn key_of(alloc: Global, columns: &[(Text, ColumnKind)], key: &SqlKey) -> Result<List<u32>, Stop>
    ensures places { IfOk result (λ ps. key_of columns.now key.now ≡ Some ps) }
    ensures once { IfOk result (IsDistinct nat_eq) }
    ensures plain { IfOk result (HasNoOption columns.now) }
    ensures refused { IfRefused result (KeyBreaks columns.now key.now.columns) }
{
    let places = places_of(alloc, columns, key.columns.as_slice())?;
    match repeated_place(places.as_slice()) {
        None => match optional_place(columns, places.as_slice()) {
            None => Ok(places),
            Some(at) => Err(Stop::Refused(optional_at(alloc, columns, at)?)),
        },
        Some(at) => Err(Stop::Refused(twice_at(alloc, columns, at)?)),
    }
}

/// The first of these places whose column is optional.
fn optional_place(columns: &[(Text, ColumnKind)], places: &[u32]) -> Option<u32>
    ensures { MatchOption result (HasNoOption columns.now places.now) (λ n. Contains places.now n × (is_optional (kind_at columns.now n) ≡ true)) }
{
    for place in places {
        if is_optional(kind_at(columns, *place)) {
            return Some(*place);
        }
    }
    None
}

/// The type of the column at a place.
fn kind_at(columns: &[(Text, ColumnKind)], at: u32) -> ColumnKind
    ensures { result ≡ kind_at columns.now at }
{
    match columns.get(at as usize) {
        None => ColumnKind::Int,
        Some(column) => column.1,
    }
}

/// The type of an optional column in a key, and the one inside.
fn optional_at(alloc: Global, columns: &[(Text, ColumnKind)], at: u32) -> Result<Refusal, Memory>
    ensures { IfOk result (λ r. Says r 12 (kind_text (kind_at columns.now at)) (kind_text (plain_of (kind_at columns.now at)))) }
{
    let kind = kind_at(columns, at);
    let left = kind_text(kind);
    misfit(alloc, nowhere(), left, kind_text(plain_of(kind)))
}

fn plain_of(kind: ColumnKind) -> ColumnKind
    ensures { result ≡ plain_of kind }
{
    match kind {
        ColumnKind::OptInt => ColumnKind::Int,
        ColumnKind::OptStr => ColumnKind::Str,
        ColumnKind::OptBool => ColumnKind::Bool,
        ColumnKind::Int => kind,
        ColumnKind::Str => kind,
        ColumnKind::Bool => kind,
    }
}

/// The name of a column that stands twice.
fn twice_at(alloc: Global, columns: &[(Text, ColumnKind)], at: u32) -> Result<Refusal, Memory>
    ensures { IfOk result (λ r. Says r 8 (name_at columns.now at) []) }
{
    match columns.get(at as usize) {
        None => twice(alloc, nowhere(), b""),
        Some(column) => twice(alloc, nowhere(), column.0.as_slice()),
    }
}

/// A name that stands twice where once is allowed.
pub fn twice(alloc: Global, span: Span, name: &[u8]) -> Result<Refusal, Memory>
    ensures { IfOk result (λ r. Says r 8 name.now []) }
{
    let left = List::from_slice(alloc, name)?;
    Ok(Refusal {
        code: 8,
        span,
        left,
        right: List::new(alloc),
    })
}

/// The keys, each of which has no column twice and no optional one.
pub fn keys_of(
    alloc: Global,
    columns: &[(Text, ColumnKind)],
    keys: &[SqlKey],
) -> Result<List<List<u32>>, Stop>
    ensures places { IfOk result (λ ks. all_of (key_of columns.now) keys.now ≡ Some ks) }
    ensures once { IfOk result (All (IsDistinct nat_eq)) }
    ensures plain { IfOk result (All (HasNoOption columns.now)) }
    ensures refused { IfRefused result (KeysBreak columns.now keys.now) }
{
    let mut made = List::new(alloc);
    for i in 0..keys.len() {
        let key = key_of(alloc, columns, &keys[i])?;
        made.push(key)?;
    }
    Ok(made)
}

/// Whether the first key is the PRIMARY KEY.
pub fn has_primary(keys: &[SqlKey]) -> bool
    ensures { result ≡ has_primary keys.now }
{
    match keys.first() {
        None => false,
        Some(key) => key.primary,
    }
}
