//! Types and rows that may be written in a scope.
ghost use Rattle.std.specs.Prelude.{◌≡◌, ◌&&◌, true, [], ◌∷◌, map, option_map, OnOk};
ghost use Rattle.ur_base.specs.Stopping.{IfRefused};
ghost use Rattle.ur_disjoint.specs.Tests.{pair};
ghost use Rattle.ur_typed_rules.specs.Tests.{is_apart, are_apart, rows_are_apart, row_rows_are_apart, is_type, is_row};
ghost use Rattle.ur_typed_rules.specs.Faults as faults;
ghost use Rattle.ur_typed_rules.specs.Arguments.{BreaksApart, BreaksRowApart, BreaksPlace, BreaksRowPlace, BreaksFields};
ghost use Rattle.ur_check_scopes.specs.Views.{env_in, StopIs, StopTells, Refuses};
ghost use Rattle.ur_check_scopes.specs.Meeting.{IsMet, two_parts, met_in_row, met_in_type, met_in_part, met_within, met_of_row};

use crate::around::Around;
use crate::given::given_twice;
use crate::refusals::{not_apart, twice, unkinded};
use std::alloc::Global;
use std::slice;
use ur_base::{List, Span, Stop};
use ur_disjoint::{Assumed, prove};
use ur_rows::{NormalType, Part};
use ur_rows_normal::{row_is_in, type_is_in};
use ur_syntax::Con;

/// A part of a row, and all parts behind it, that are not apart.
#[derive(Clone, Copy)]
pub struct Meeting<'a> {
    pub left: &'a Part,
    pub right: &'a [Part],
}

fn is_apart(assumed: &[Assumed], first: &Part, rest: &[Part]) -> bool
    ensures { result ≡ is_apart (map pair assumed.now) (first.now ∷ []) rest.now }
{
    prove(assumed, slice::from_ref(first), rest)
}

/// The first part of a row that is not apart from those behind it.
#[tactic(auto, using(crate::proofs::Meeting::passing))]
fn meeting_in<'a>(assumed: &[Assumed], row: &'a [Part]) -> Option<Meeting<'a>>
    ensures { option_map two_parts result ≡ met_in_row (map pair assumed.now) row.now }
{
    let mut left = row;
    while let Some((first, rest)) = left.split_first() {
        if !is_apart(assumed, first, rest) {
            return Some(Meeting {
                left: first,
                right: rest,
            });
        }
        left = rest;
    }
    None
}

/// The same of the first row in a type that has such parts.
#[cycle(meeting)]
#[tactic(auto, using(crate::proofs::Meeting::meeting))]
fn met_in_type<'a>(assumed: &[Assumed], of: &'a NormalType) -> Option<Meeting<'a>>
    ensures { option_map two_parts result ≡ met_in_type (map pair assumed.now) of.now }
{
    match of {
        NormalType::Opt(t) => met_in_type(assumed, t.get()),
        NormalType::Many(t) => met_in_type(assumed, t.get()),
        NormalType::Transaction(t) => met_in_type(assumed, t.get()),
        NormalType::Arrow(a, b) => match met_in_type(assumed, a.get()) {
            Some(found) => Some(found),
            None => met_in_type(assumed, b.get()),
        },
        NormalType::Record(row) => rows_met(assumed, row),
        NormalType::Form(row) => rows_met(assumed, row),
        NormalType::Int => None,
        NormalType::Str => None,
        NormalType::Bool => None,
        NormalType::Page => None,
        NormalType::Xbody => None,
        NormalType::Xtable => None,
        NormalType::Xtr => None,
        NormalType::Variable(_) => None,
        NormalType::Datatype(_) => None,
    }
}

/// The same of a row, or of a row in one of its types.
#[cycle(meeting)]
#[tactic(auto, using(crate::proofs::Meeting::meeting))]
fn rows_met<'a>(assumed: &[Assumed], row: &'a List<Part>) -> Option<Meeting<'a>>
    ensures { option_map two_parts result ≡ met_of_row (map pair assumed.now) row.now }
{
    match meeting_in(assumed, row.as_slice()) {
        Some(found) => Some(found),
        None => met_within(assumed, row.as_slice()),
    }
}

#[cycle(meeting)]
#[tactic(auto, using(crate::proofs::Meeting::meeting))]
fn met_within<'a>(assumed: &[Assumed], parts: &'a [Part]) -> Option<Meeting<'a>>
    ensures { option_map two_parts result ≡ met_within (map pair assumed.now) parts.now }
{
    for i in 0..parts.len() {
        match met_in_part(assumed, &parts[i]) {
            Some(found) => return Some(found),
            None => {}
        }
    }
    None
}

#[cycle(meeting)]
#[tactic(auto, using(crate::proofs::Meeting::meeting))]
fn met_in_part<'a>(assumed: &[Assumed], part: &'a Part) -> Option<Meeting<'a>>
    ensures { option_map two_parts result ≡ met_in_part (map pair assumed.now) part.now }
{
    match part {
        Part::Field(_, t) => met_in_type(assumed, t.get()),
        Part::Piece(_) => None,
        Part::Mapped(_, f) => met_in_type(assumed, f.get()),
    }
}

fn met_here(alloc: Global, around: &Around, span: Span, found: &Meeting) -> Stop
    ensures { StopIs around.now.world.now.datatype_names (faults.not_apart (two_parts found.now).0 (two_parts found.now).1) result }
{
    let names = around.world.datatype_names.as_slice();
    not_apart(alloc, names, span, slice::from_ref(found.left), found.right)
}

/// A literal name that is written twice is E08, and other parts that are not apart are E11.
#[tactic(auto, using(crate::proofs::Judging::judging))]
fn met(alloc: Global, around: &Around, con: &Con, found: &Meeting) -> Stop
    ensures { StopTells around.now.world.now.datatype_names (IsMet con.now (two_parts found.now)) result }
{
    match given_twice(con) {
        Some(name) => twice(alloc, con.span, name.as_slice()),
        None => met_here(alloc, around, con.span, found),
    }
}

/// Whether the type may be written in the scope; `con` is what is written.
pub fn is_type(alloc: Global, around: &Around, con: &Con, of: &NormalType) -> Result<(), Stop>
    ensures ok { OnOk result (is_type (env_in around.now.scope.cons) of.now ≡ true) }
    ensures refused { IfRefused result (Refuses around.now.world.now.datatype_names (BreaksPlace (env_in around.now.scope.cons) con.now of.now)) }
{
    let is_in = type_is_in(of, around.scope.cons.kinds, 0)?;
    if !is_in {
        return Err(unkinded(alloc, con.span, b"another kind", b"Type"));
    }
    type_apart(alloc, around, con, of)?;
    Ok(())
}

/// Whether the rows in the type have parts that are apart.
#[tactic(auto, using(crate::proofs::Judging::judging))]
pub fn type_apart(alloc: Global, around: &Around, con: &Con, of: &NormalType) -> Result<(), Stop>
    ensures ok { OnOk result (rows_are_apart (env_in around.now.scope.cons).known of.now ≡ true) }
    ensures refused { IfRefused result (Refuses around.now.world.now.datatype_names (BreaksApart (env_in around.now.scope.cons).known con.now of.now)) }
{
    match met_in_type(around.scope.cons.known, of) {
        Some(found) => Err(met(alloc, around, con, &found)),
        None => Ok(()),
    }
}

/// Whether the row may be written in the scope; `con` is what is written.
pub fn is_row(alloc: Global, around: &Around, con: &Con, row: &List<Part>) -> Result<(), Stop>
    ensures ok { OnOk result (is_row (env_in around.now.scope.cons) row.now ≡ true) }
    ensures refused { IfRefused result (Refuses around.now.world.now.datatype_names (BreaksRowPlace (env_in around.now.scope.cons) con.now row.now)) }
{
    let is_in = row_is_in(row, around.scope.cons.kinds, 0)?;
    if !is_in {
        return Err(unkinded(alloc, con.span, b"another kind", b"{Type}"));
    }
    row_apart(alloc, around, con, row)?;
    Ok(())
}

/// Whether the parts of the row, and those of the rows in its types, are apart.
#[tactic(auto, using(crate::proofs::Judging::judging))]
pub fn row_apart(alloc: Global, around: &Around, con: &Con, row: &List<Part>) -> Result<(), Stop>
    ensures ok { OnOk result ((are_apart (env_in around.now.scope.cons).known row.now && row_rows_are_apart (env_in around.now.scope.cons).known row.now) ≡ true) }
    ensures refused { IfRefused result (Refuses around.now.world.now.datatype_names (BreaksRowApart (env_in around.now.scope.cons).known con.now row.now)) }
{
    match rows_met(around.scope.cons.known, row) {
        Some(found) => Err(met(alloc, around, con, &found)),
        None => Ok(()),
    }
}

/// Whether the parts of a row that is made of fields are apart from each other.
#[tactic(auto, using(crate::proofs::Judging::judging))]
pub fn fields_apart(alloc: Global, around: &Around, span: Span, row: &[Part]) -> Result<(), Stop>
    ensures ok { OnOk result (are_apart (env_in around.now.scope.cons).known row.now ≡ true) }
    ensures refused { IfRefused result (Refuses around.now.world.now.datatype_names (BreaksFields (env_in around.now.scope.cons).known row.now)) }
{
    match meeting_in(around.scope.cons.known, row) {
        Some(found) => Err(met_here(alloc, around, span, &found)),
        None => Ok(()),
    }
}
