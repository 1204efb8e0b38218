//! Tables.
ghost use Rattle.std.specs.Prelude.{◌≡◌, Some, None, IfOk, MatchOption};
ghost use Rattle.ur_base.specs.Stopping.{IfRefused, Says};
ghost use Rattle.std.specs.Prelude.{codes};
ghost use Rattle.ur_rows.specs.declared.normal.Normal.TheVariants as normal;
ghost use Rattle.ur_sqltype.specs.Table.{PrimaryComesFirst, IsTable, IsTableOf, record_row};
ghost use Rattle.ur_sqltype.specs.SqltableFaults.{TableBreaks, RowBreaks, normal_text};

use crate::keys::{SqlKey, has_primary, keys_of, twice};
use crate::misfit;
use crate::sqltable_columns::{columns_of, nowhere, repeated_column};
use std::alloc::Global;
use ur_base::{List, Memory, Refusal, Stop, Text};
use ur_rows::{Normal, NormalType, Part};
use ur_tree::type_text;
use ur_values::TableShape;

/// The shape of a table of that type with those keys. `datatypes` are the names of the datatypes, by number.
pub fn table_shape(
    alloc: Global,
    name: &str,
    columns: &Normal,
    keys: &[SqlKey],
    datatypes: &[Text],
) -> Result<TableShape, Stop>
    requires { PrimaryComesFirst keys.now }
    ensures shape { IfOk result (IsTable name.now columns.now keys.now) }
    ensures refused { IfRefused result (TableBreaks datatypes.now columns.now keys.now) }
{
    match row_of(columns) {
        None => Err(Stop::Refused(no_record(alloc, columns, datatypes)?)),
        Some(row) => row_shape(alloc, name, row.as_slice(), keys, datatypes),
    }
}

/// The row of a record's type, if the form is one.
fn row_of(of: &Normal) -> Option<&List<Part>>
    ensures { MatchOption result (record_row of.now ≡ None) (λ r. record_row of.now ≡ Some r.now) }
{
    match of {
        Normal::Type(t) => type_row(t),
        Normal::Name(_) => None,
        Normal::Row(_) => None,
        Normal::Fn(_, _) => None,
    }
}

fn type_row(of: &NormalType) -> Option<&List<Part>>
    ensures { MatchOption result (record_row (normal.Type of.now) ≡ None) (λ r. record_row (normal.Type of.now) ≡ Some r.now) }
{
    match of {
        NormalType::Record(row) => Some(row),
        _ => None,
    }
}

pub fn normal_text(alloc: Global, of: &Normal, datatypes: &[Text]) -> Result<Text, Memory>
    ensures { IfOk result (λ text. text ≡ normal_text datatypes.now of.now) }
{
    match of {
        Normal::Type(t) => type_text(alloc, datatypes, t),
        Normal::Name(_) => List::from_slice(alloc, b"name"),
        Normal::Row(_) => List::from_slice(alloc, b"row"),
        Normal::Fn(_, _) => List::from_slice(alloc, b"fn"),
    }
}

fn no_record(alloc: Global, of: &Normal, datatypes: &[Text]) -> Result<Refusal, Memory>
    ensures { IfOk result (λ r. Says r 12 (normal_text datatypes.now of.now) (codes "record")) }
{
    let text = normal_text(alloc, of, datatypes)?;
    misfit(alloc, nowhere(), text.as_slice(), b"record")
}

/// The shape of a table with the columns of a row.
fn row_shape(
    alloc: Global,
    name: &str,
    row: &[Part],
    keys: &[SqlKey],
    datatypes: &[Text],
) -> Result<TableShape, Stop>
    ensures shape { IfOk result (IsTableOf name.now row.now keys.now) }
    ensures refused { IfRefused result (RowBreaks datatypes.now row.now keys.now) }
{
    let columns = columns_of(alloc, row, datatypes)?;
    match repeated_column(columns.as_slice()) {
        Some(a) => return Err(Stop::Refused(twice(alloc, nowhere(), a)?)),
        None => {}
    }
    let made = keys_of(alloc, columns.as_slice(), keys)?;
    let name = List::from_slice(alloc, name.as_bytes())?;
    Ok(TableShape {
        name,
        columns,
        keys: made,
        primary: has_primary(keys),
    })
}
