//! The columns of a table.
ghost use Rattle.std.specs.Prelude.{◌≡◌, Some, None, map, bytes_eq, option_and_then, IfOk, MatchOption};
ghost use Rattle.std.specs.List.{list_any};
ghost use Rattle.ur_base.specs.Stopping.{IfRefused, Says};
ghost use Rattle.ur_values.specs.Kinds.{optional};
ghost use Rattle.ur_rows.specs.Made.{field};
ghost use Rattle.ur_sqltype.specs.Faults.{six_kinds};
ghost use Rattle.ur_sqltype.specs.Lists.{all_of, repeated};
ghost use Rattle.ur_sqltype.specs.Table.{type_kind, column_type_kind, column_from};
ghost use Rattle.ur_sqltype.specs.SqltableFaults.{NoColumn, IsNoColumn};

use crate::misfit;
use std::alloc::Global;
use ur_base::{List, Memory, Refusal, Span, Stop, Text};
use ur_rows::{Label, NormalType, Part};
use ur_tree::type_text;
use ur_values::ColumnKind;

/// The place of a refusal whose place only the caller knows.
pub fn nowhere() -> Span {
    Span {
        file: 0,
        from: 0,
        to: 0,
    }
}

/// The type int, string or bool, if it is one.
pub fn type_kind(of: &NormalType) -> Option<ColumnKind>
    ensures { result ≡ type_kind of.now }
{
    match of {
        NormalType::Int => Some(ColumnKind::Int),
        NormalType::Str => Some(ColumnKind::Str),
        NormalType::Bool => Some(ColumnKind::Bool),
        _ => None,
    }
}

/// The type of a column or an antiquote, if it is one.
pub fn column_type_kind(of: &NormalType) -> Option<ColumnKind>
    ensures { result ≡ column_type_kind of.now }
{
    match of {
        NormalType::Opt(t) => option_kind(t.get()),
        _ => type_kind(of),
    }
}

/// The type of options of this one.
fn option_kind(of: &NormalType) -> Option<ColumnKind>
    ensures { result ≡ option_and_then optional (type_kind of.now) }
{
    match type_kind(of) {
        None => None,
        Some(kind) => kind.optional(),
    }
}

fn of_six(alloc: Global, found: &[u8]) -> Result<Refusal, Memory>
    ensures { IfOk result (λ r. Says r 12 found.now six_kinds) }
{
    misfit(
        alloc,
        nowhere(),
        found,
        b"int, string, bool or an option of these",
    )
}

/// A column, of a field with a literal name and a type of columns.
fn field_column(
    alloc: Global,
    l: &Label,
    of: &NormalType,
    datatypes: &[Text],
) -> Result<(Text, ColumnKind), Stop>
    ensures column { IfOk result (λ c. column_from (field l.now of.now) ≡ Some c) }
    ensures refused { IfRefused result (IsNoColumn datatypes.now (field l.now of.now)) }
{
    match l {
        Label::Variable(_) => Err(Stop::Refused(of_six(alloc, b"row")?)),
        Label::Literal(name) => match column_type_kind(of) {
            None => {
                let text = type_text(alloc, datatypes, of)?;
                Err(Stop::Refused(of_six(alloc, text.as_slice())?))
            }
            Some(kind) => {
                let name = List::from_slice(alloc, name.as_slice())?;
                Ok((name, kind))
            }
        },
    }
}

/// A column, of a part of a row.
fn column_from(alloc: Global, part: &Part, datatypes: &[Text]) -> Result<(Text, ColumnKind), Stop>
    ensures column { IfOk result (λ c. column_from part.now ≡ Some c) }
    ensures refused { IfRefused result (IsNoColumn datatypes.now part.now) }
{
    match part {
        Part::Field(l, t) => field_column(alloc, l, t.get(), datatypes),
        Part::Piece(_) => Err(Stop::Refused(of_six(alloc, b"row")?)),
        Part::Mapped(_, _) => Err(Stop::Refused(of_six(alloc, b"row")?)),
    }
}

/// The columns of a row, all of whose parts are columns.
pub fn columns_of(
    alloc: Global,
    row: &[Part],
    datatypes: &[Text],
) -> Result<List<(Text, ColumnKind)>, Stop>
    ensures columns { IfOk result (λ cs. all_of column_from row.now ≡ Some cs) }
    ensures refused { IfRefused result (NoColumn datatypes.now row.now) }
{
    let mut columns = List::new(alloc);
    for i in 0..row.len() {
        let column = column_from(alloc, &row[i], datatypes)?;
        columns.push(column)?;
    }
    Ok(columns)
}

/// The first name that a later column has too.
pub fn repeated_column<'a>(columns: &'a [(Text, ColumnKind)]) -> Option<&'a [u8]>
    ensures { MatchOption result (repeated bytes_eq (map (λ c. c.0) columns.now) ≡ None) (λ a. repeated bytes_eq (map (λ c. c.0) columns.now) ≡ Some a.now) }
{
    let mut left = columns;
    while let Some((column, rest)) = left.split_first() {
        if has_column(rest, column.0.as_slice()) {
            return Some(column.0.as_slice());
        }
        left = rest;
    }
    None
}

fn has_column(columns: &[(Text, ColumnKind)], name: &[u8]) -> bool
    ensures { result ≡ list_any (bytes_eq name.now) (map (λ c. c.0) columns.now) }
{
    for column in columns {
        if name == column.0.as_slice() {
            return true;
        }
    }
    false
}
