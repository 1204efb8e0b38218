//! Rows with Absent in each new column.
ghost use Rattle.std.specs.Prelude.{◌≡◌, ◌≤◌, ◌<◌, ◌∷◌, List, IfOk, IfSome, length, drop};
ghost use Rattle.ur_values.specs.Extends.{Column, grown};
ghost use Rattle.ur_keeper.specs.Growing.{grown_rows, grown_step};

use std::alloc::Global;
use ur_base::{List, Memory, Shared, Text};
use ur_values::{ColumnKind, Numbered, Row, Value};

/// Each row of the kept columns with Absent in each new column.
pub(crate) fn grown_rows(
    alloc: Global,
    columns: &[(Text, ColumnKind)],
    kept: &[(Text, ColumnKind)],
    rows: &List<Numbered>,
) -> Result<List<Numbered>, Memory>
    ensures { IfOk result (λ all. all ≡ grown_rows columns.now kept.now rows.now) }
{
    let mut all = List::new(alloc);
    for row in rows.as_slice() {
        let number = row.number;
        let cells = grown_row(alloc, columns, kept, row.row.get())?;
        let row = Shared::new(alloc, cells)?;
        all.push(Numbered { number, row })?;
    }
    Ok(all)
}

/// A row of the kept columns with Absent in each new column.
pub fn grown_row(
    alloc: Global,
    columns: &[(Text, ColumnKind)],
    kept: &[(Text, ColumnKind)],
    row: &Row,
) -> Result<Row, Memory>
    ensures { IfOk result (λ all. all ≡ grown columns.now kept.now row.now) }
{
    let cells = row.as_slice();
    let mut all = List::new(alloc);
    let mut at: usize = 0;
    for column in columns {
        match next_cell(alloc, column, kept, cells, at)? {
            Some(cell) => {
                all.push(cell)?;
                at += 1;
            }
            None => all.push(Value::Absent)?,
        }
    }
    Ok(all)
}

/// A copy of the next cell, where the next kept column has the name of this one.
fn next_cell(
    alloc: Global,
    column: &(Text, ColumnKind),
    kept: &[(Text, ColumnKind)],
    cells: &[Value],
    at: usize,
) -> Result<Option<Value>, Memory>
    requires { at ≤ length cells.now }
    ensures step { IfOk result (λ cell. (rest : List Column) → grown (column.now ∷ rest) (drop at kept.now) (drop at cells.now) ≡ grown_step rest kept.now cells.now at cell) }
    ensures within { IfOk result (λ cell. IfSome cell (λ x. at < length cells.now)) }
{
    if at >= kept.len() {
        return Ok(None);
    }
    if at >= cells.len() {
        return Ok(None);
    }
    if kept[at].0 == column.0 {
        return Ok(Some(cells[at].copy(alloc)?));
    }
    Ok(None)
}
