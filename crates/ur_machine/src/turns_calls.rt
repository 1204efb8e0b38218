//! Calls of a keeper, whose ends are stops.
ghost use Rattle.std.specs.Prelude.{◌≡◌, true, All, IfOk, OnOk};
ghost use Rattle.ur_base.specs.Counts.{HasCause, next_count};
ghost use Rattle.ur_base.specs.Told.{WhereTold, Becomes};
ghost use Rattle.ur_keeper.specs.Tables.{AreRowsOf, HasNextDraw, drawn, sequence_at, table_at};
ghost use Rattle.ur_keeper.specs.Keeper.{HasTable, HasSequence, OfShape, IsRowOf};
ghost use Rattle.ur_sql.specs.Plan.{OfNewRow};
ghost use Rattle.ur_machine.specs.Changing.{MayChange, MayChangeAll, changed_in, all_changed};
ghost use Rattle.ur_machine.specs.Stops.{EndsCall};

use crate::stop::TurnStop;
use ur_base::List;
use ur_keeper::{Keeper, KeeperEnd};
use ur_sql::RowChange;
use ur_values::Numbered;

/// The current rows of a table.
pub(crate) fn scan<K: Keeper>(keeper: &mut K, table: u32) -> Result<List<Numbered>, TurnStop>
    requires under_way { K.under_way keeper.old ≡ true }
    requires table { HasTable (K.kept keeper.old) table }
    ensures rows { IfOk result (λ rows. WhereTold (K.current keeper.old) (λ t. rows ≡ table_at t table)) }
    ensures every_form { IfOk result (λ rows. OfShape (K.kept keeper.old) table (λ shape. AreRowsOf shape rows)) }
    ensures current { OnOk result (K.current keeper.new ≡ K.current keeper.old) }
    ensures reads { K.reads keeper.new ≡ next_count (K.reads keeper.old) }
    ensures ends { EndsCall result (K.saved keeper.old) (K.saved keeper.new) (K.current keeper.new) (K.kept keeper.old) (K.kept keeper.new) (K.under_way keeper.new) }
    ensures cause { HasCause TurnStop.Keeper (K.faults keeper.old) (K.faults keeper.new) result }
{
    match keeper.scan(table) {
        Ok(rows) => Ok(rows),
        Err(end) => match end {
            KeeperEnd::Failed => Err(TurnStop::Keeper),
            KeeperEnd::Memory => Err(TurnStop::Undone),
        },
    }
}

/// The next number of a sequence, which then rises by one.
pub(crate) fn draw<K: Keeper>(keeper: &mut K, sequence: u32) -> Result<i64, TurnStop>
    requires under_way { K.under_way keeper.old ≡ true }
    requires sequence { HasSequence (K.kept keeper.old) sequence }
    requires room { WhereTold (K.current keeper.old) (HasNextDraw sequence) }
    ensures number { IfOk result (λ n. WhereTold (K.current keeper.old) (λ t. n ≡ sequence_at t sequence)) }
    ensures current { OnOk result (Becomes (drawn sequence) (K.current keeper.old) (K.current keeper.new)) }
    ensures reads { K.reads keeper.new ≡ K.reads keeper.old }
    ensures ends { EndsCall result (K.saved keeper.old) (K.saved keeper.new) (K.current keeper.new) (K.kept keeper.old) (K.kept keeper.new) (K.under_way keeper.new) }
    ensures cause { HasCause TurnStop.Keeper (K.faults keeper.old) (K.faults keeper.new) result }
{
    match keeper.next_number(sequence) {
        Ok(number) => Ok(number),
        Err(end) => match end {
            KeeperEnd::Failed => Err(TurnStop::Keeper),
            KeeperEnd::Memory => Err(TurnStop::Undone),
        },
    }
}

/// Makes a change of one row.
fn change_row<K: Keeper>(keeper: &mut K, table: u32, change: &RowChange) -> Result<(), TurnStop>
    requires under_way { K.under_way keeper.old ≡ true }
    requires table { HasTable (K.kept keeper.old) table }
    requires row { OfNewRow (IsRowOf (K.kept keeper.old) table) change.now }
    requires may { WhereTold (K.current keeper.old) (λ t. MayChange (table_at t table) change.now) }
    ensures current { OnOk result (Becomes (changed_in table change.now) (K.current keeper.old) (K.current keeper.new)) }
    ensures reads { K.reads keeper.new ≡ K.reads keeper.old }
    ensures ends { EndsCall result (K.saved keeper.old) (K.saved keeper.new) (K.current keeper.new) (K.kept keeper.old) (K.kept keeper.new) (K.under_way keeper.new) }
    ensures cause { HasCause TurnStop.Keeper (K.faults keeper.old) (K.faults keeper.new) result }
{
    let made = match change {
        RowChange::Add(row) => keeper.insert(table, row),
        RowChange::Put(number, row) => keeper.replace(table, *number, row),
        RowChange::Drop(number) => keeper.remove(table, *number),
    };
    match made {
        Ok(()) => Ok(()),
        Err(end) => match end {
            KeeperEnd::Failed => Err(TurnStop::Keeper),
            KeeperEnd::Memory => Err(TurnStop::Undone),
        },
    }
}

/// Makes changes of rows, one after the other.
pub(crate) fn change_rows<K: Keeper>(
    keeper: &mut K,
    table: u32,
    changes: &[RowChange],
) -> Result<(), TurnStop>
    requires under_way { K.under_way keeper.old ≡ true }
    requires table { HasTable (K.kept keeper.old) table }
    requires rows { All (OfNewRow (IsRowOf (K.kept keeper.old) table)) changes.now }
    requires may { WhereTold (K.current keeper.old) (MayChangeAll table changes.now) }
    ensures current { OnOk result (Becomes (all_changed table changes.now) (K.current keeper.old) (K.current keeper.new)) }
    ensures reads { K.reads keeper.new ≡ K.reads keeper.old }
    ensures ends { EndsCall result (K.saved keeper.old) (K.saved keeper.new) (K.current keeper.new) (K.kept keeper.old) (K.kept keeper.new) (K.under_way keeper.new) }
    ensures cause { HasCause TurnStop.Keeper (K.faults keeper.old) (K.faults keeper.new) result }
{
    let mut left = changes;
    while let Some((change, rest)) = left.split_first() {
        change_row(keeper, table, change)?;
        left = rest;
    }
    Ok(())
}
