//! One row added in a transaction of its own, over any keeper.
ghost use Rattle.std.specs.Prelude.{◌≡◌, false, ℕ, option_map, OnOk, OnErr};
ghost use Rattle.ur_base.specs.Counts.{HasCause, next_count};
ghost use Rattle.ur_base.specs.Told.{WhereTold, Becomes};
ghost use Rattle.ur_keeper.specs.Keeper.{HasTable, IsRowOf, OfSchema};
ghost use Rattle.ur_keeper.specs.Tables.{HasNextNumber, MayCommit, inserted};

use crate::keeper::{Keeper, KeeperEnd};
use ur_values::Row;

/// Scans a table, adds the row last and saves the table.
pub fn add_row<K: Keeper>(keeper: &mut K, table: u32, row: &Row) -> Result<(), KeeperEnd>
    requires at_rest { K.under_way keeper.old ≡ false }
    requires table { HasTable (K.kept keeper.old) table }
    requires row { IsRowOf (K.kept keeper.old) table row.now }
    requires room { WhereTold (K.saved keeper.old) (HasNextNumber table) }
    requires keys { OfSchema (K.kept keeper.old) (option_map (inserted table row.now) (K.saved keeper.old)) MayCommit }
    ensures added { OnOk result (Becomes (inserted table row.now) (K.saved keeper.old) (K.saved keeper.new)) }
    ensures unchanged { OnErr result (K.saved keeper.new ≡ K.saved keeper.old) }
    ensures kept { K.kept keeper.new ≡ K.kept keeper.old }
    ensures ended { K.under_way keeper.new ≡ false }
    ensures reads { K.reads keeper.new ≡ next_count (K.reads keeper.old) }
    ensures cause { HasCause KeeperEnd.Failed (K.faults keeper.old) (K.faults keeper.new) result }
{
    keeper.begin();
    keeper.scan(table)?;
    keeper.insert(table, row)?;
    keeper.commit()
}
