//! The columns that are selected as they are.
ghost use Rattle.std.specs.Prelude.{◌≡◌, ℕ, List, [], Some, None, IfOk, Contains};
ghost use Rattle.ur_base.specs.Stopping.{IfRefused, Says};
ghost use Rattle.ur_syntax.specs.declared.sql.SqlExp.{SqlExp as WrittenExp};
ghost use Rattle.ur_syntax.specs.declared.sql.Selected.TheVariants as selected;
ghost use Rattle.ur_syntax.specs.declared.sql.Selection.TheVariants as selection;
ghost use Rattle.ur_syntax.specs.declared.sql.SqlQuery.{SqlQuery as Written};
ghost use Rattle.ur_sqltype.specs.Lists.{all_of, behind, repeated};
ghost use Rattle.ur_sqltype.specs.Query.{column_form, selected_columns, column_in, same_column, is_chosen, chosen_of};
ghost use Rattle.ur_sqltype.specs.SqltypeFaults.{ColumnBreaks, column_text, Breaks};

use std::alloc::Global;
use ur_base::{List, Memory, Refusal, Span, Stop};
use ur_sql::ColumnAt;
use ur_sqltype::{Within, column_in, column_text, has_column, twice};
use ur_syntax::{Selected, Selection, SqlQuery};

/// One more column that is selected as it is, at the end.
fn with_column(
    alloc: Global,
    within: &Within,
    item: &Selected,
    columns: List<ColumnAt>,
) -> Result<List<ColumnAt>, Stop>
    ensures typed { IfOk result (λ more. behind columns (all_of (column_in within.now) (column_form item.now)) ≡ Some more) }
    ensures refused { IfRefused result (λ r. (e : WrittenExp) × (item.now ≡ selected.Column e) × ColumnBreaks within.now e r) }
{
    match item {
        Selected::Column(e) => {
            let mut columns = columns;
            let column = column_in(alloc, within, e)?;
            columns.push(column)?;
            Ok(columns)
        }
        Selected::Named(_, _) => Ok(columns),
        Selected::Aggregate(_, _, _) => Ok(columns),
    }
}

fn columns_in(alloc: Global, within: &Within, items: &[Selected]) -> Result<List<ColumnAt>, Stop>
    ensures typed { IfOk result (λ ats. all_of (column_in within.now) (selected_columns items.now) ≡ Some ats) }
    ensures refused { IfRefused result (λ r. (e : WrittenExp) × Contains items.now (selected.Column e) × ColumnBreaks within.now e r) }
{
    let mut columns = List::new(alloc);
    for i in 0..items.len() {
        columns = with_column(alloc, within, &items[i], columns)?;
    }
    Ok(columns)
}

/// The first column that stands once more behind itself.
fn repeated_column(columns: &[ColumnAt]) -> Option<ColumnAt>
    ensures { result ≡ repeated same_column columns.now }
{
    let mut left = columns;
    while let Some((at, rest)) = left.split_first() {
        if has_column(rest, at.item, at.column) {
            return Some(*at);
        }
        left = rest;
    }
    None
}

/// A column that is selected twice.
fn chosen_twice(alloc: Global, span: Span, within: &Within, at: ColumnAt) -> Result<Refusal, Memory>
    ensures { IfOk result (λ r. Says r 8 (column_text within.now.sources at) []) }
{
    let text = column_text(alloc, within.sources.as_slice(), at)?;
    twice(alloc, span, text.as_slice())
}

/// The columns of these items, none of which is there twice.
fn once_chosen(
    alloc: Global,
    span: Span,
    within: &Within,
    items: &[Selected],
) -> Result<List<ColumnAt>, Stop>
    ensures columns { IfOk result (λ ats. all_of (column_in within.now) (selected_columns items.now) ≡ Some ats) }
    ensures once { IfOk result (λ ats. repeated same_column ats ≡ None) }
    ensures refused { IfRefused result (λ r. (names : List (List ℕ)) (q : Written) → q.selection ≡ selection.Items items.now → Breaks names within.now q r) }
{
    let columns = columns_in(alloc, within, items)?;
    match repeated_column(columns.as_slice()) {
        None => Ok(columns),
        Some(at) => Err(Stop::Refused(chosen_twice(alloc, span, within, at)?)),
    }
}

/// The columns that are selected, where they are not all.
pub fn chosen_of(
    alloc: Global,
    within: &Within,
    query: &SqlQuery,
) -> Result<Option<List<ColumnAt>>, Stop>
    ensures typed { IfOk result (λ chosen. chosen_of within.now query.now.selection ≡ Some chosen) }
    ensures refused { IfRefused result (λ r. (names : List (List ℕ)) → Breaks names within.now query.now r) }
{
    match &query.selection {
        Selection::All => Ok(None),
        Selection::Items(items) => {
            let columns = once_chosen(alloc, query.span, within, items.as_slice())?;
            Ok(Some(columns))
        }
    }
}

/// Whether a column is selected.
pub fn is_chosen(chosen: &Option<List<ColumnAt>>, item: u32, column: u32) -> bool
    ensures { result ≡ is_chosen chosen.now item column }
{
    match chosen {
        None => true,
        Some(columns) => has_column(columns.as_slice(), item, column),
    }
}
