//! Whether a store has a fault.
ghost use Rattle.std.specs.Prelude.{◌≡◌, ℕ, ◌+◌, ◌<◌, ◌≤◌, true, length, IfOk, OnOk, IsTrue};
ghost use Rattle.ur_base.specs.Counts.{HasCause};
ghost use Rattle.ur_base.specs.Told.{WhereTold};
ghost use Rattle.ur_keeper_bodies.specs.Bodies.{IsOpened};
ghost use Rattle.ur_keeper_kept.specs.Faults.{Finds};
ghost use Rattle.ur_keeper_kept.specs.Attach.{IsSoundStore, IsSoundTable, IsSoundSequence, IsSoundRows};

use crate::stock::Stock;
use crate::work::{number_now, rows_now};
use std::alloc::Global;
use ur_base::Memory;
use ur_keeper::KeeperEnd;
use ur_keeper_bodies::{Bodies, Layout};
use ur_values::{Numbered, Schema, TableShape, repeated_key_of};

/// That the store reads in this layout and has no fault. More tables or sequences than `u32` has numbers take memory that is not had.
pub(crate) fn check_store<B: Bodies>(
    alloc: Global,
    stock: &mut Stock<B>,
    layout: Layout,
    schema: &Schema,
) -> Result<(), KeeperEnd>
    requires opened { B.opened stock.old.bodies ≡ true }
    ensures sound { OnOk result (WhereTold (B.bodies stock.old.bodies) (IsSoundStore layout schema.now)) }
    ensures same { IsOpened (B.bodies stock.old.bodies) (B.bodies stock.new.bodies) (B.opened stock.new.bodies) }
    ensures first { B.tells_at_first stock.new.bodies ≡ B.tells_at_first stock.old.bodies }
    ensures found { Finds result stock.old.found stock.new.found (B.bodies stock.old.bodies) (λ m. IsSoundStore layout schema.now m → ⊥) }
    ensures cause { HasCause KeeperEnd.Failed (B.faults stock.old.bodies + stock.old.found) (B.faults stock.new.bodies + stock.new.found) result }
{
    check_tables(alloc, stock, layout, schema)?;
    check_sequences(alloc, stock, schema.sequences.len())?;
    Ok(())
}

fn check_tables<B: Bodies>(
    alloc: Global,
    stock: &mut Stock<B>,
    layout: Layout,
    schema: &Schema,
) -> Result<(), KeeperEnd>
    requires opened { B.opened stock.old.bodies ≡ true }
    ensures sound { OnOk result (WhereTold (B.bodies stock.old.bodies) (λ m. (i : ℕ) → i < length schema.now.tables → IsSoundTable layout schema.now m i)) }
    ensures same { IsOpened (B.bodies stock.old.bodies) (B.bodies stock.new.bodies) (B.opened stock.new.bodies) }
    ensures first { B.tells_at_first stock.new.bodies ≡ B.tells_at_first stock.old.bodies }
    ensures found { Finds result stock.old.found stock.new.found (B.bodies stock.old.bodies) (λ m. ((i : ℕ) → i < length schema.now.tables → IsSoundTable layout schema.now m i) → ⊥) }
    ensures cause { HasCause KeeperEnd.Failed (B.faults stock.old.bodies + stock.old.found) (B.faults stock.new.bodies + stock.new.found) result }
{
    for place in 0..schema.tables.len() {
        check_table(alloc, stock, layout, schema, place)?;
    }
    Ok(())
}

fn check_table<B: Bodies>(
    alloc: Global,
    stock: &mut Stock<B>,
    layout: Layout,
    schema: &Schema,
    place: usize,
) -> Result<(), KeeperEnd>
    requires opened { B.opened stock.old.bodies ≡ true }
    requires place { place < length schema.now.tables }
    ensures sound { OnOk result (WhereTold (B.bodies stock.old.bodies) (λ m. IsSoundTable layout schema.now m place)) }
    ensures same { IsOpened (B.bodies stock.old.bodies) (B.bodies stock.new.bodies) (B.opened stock.new.bodies) }
    ensures first { B.tells_at_first stock.new.bodies ≡ B.tells_at_first stock.old.bodies }
    ensures found { Finds result stock.old.found stock.new.found (B.bodies stock.old.bodies) (λ m. IsSoundTable layout schema.now m place → ⊥) }
    ensures cause { HasCause KeeperEnd.Failed (B.faults stock.old.bodies + stock.old.found) (B.faults stock.new.bodies + stock.new.found) result }
{
    let Ok(table) = u32::try_from(place) else {
        return Err(KeeperEnd::Memory);
    };
    let found = rows_now(alloc, stock, layout, schema, table, &[])?;
    let sound = are_sound(
        alloc,
        &schema.tables.as_slice()[place],
        found.rows.as_slice(),
    )?;
    if sound {
        return Ok(());
    }
    Err(stock.fault())
}

/// Whether a table may have these rows.
fn are_sound(alloc: Global, shape: &TableShape, rows: &[Numbered]) -> Result<bool, Memory>
    ensures sound { IfOk result (λ sound. IsTrue sound → IsSoundRows shape.now rows.now) }
    ensures unsound { IfOk result (λ sound. IsSoundRows shape.now rows.now → IsTrue sound) }
{
    if rows.len() > 1000000 {
        return Ok(false);
    }
    for row in rows {
        if row.number > 4611686018427387904 {
            return Ok(false);
        }
    }
    let key = repeated_key_of(alloc, &shape.keys, rows)?;
    Ok(key.is_none())
}

fn check_sequences<B: Bodies>(
    alloc: Global,
    stock: &mut Stock<B>,
    sequences: usize,
) -> Result<(), KeeperEnd>
    requires opened { B.opened stock.old.bodies ≡ true }
    ensures sound { OnOk result (WhereTold (B.bodies stock.old.bodies) (λ m. (i : ℕ) → i < sequences → IsSoundSequence m i)) }
    ensures same { IsOpened (B.bodies stock.old.bodies) (B.bodies stock.new.bodies) (B.opened stock.new.bodies) }
    ensures first { B.tells_at_first stock.new.bodies ≡ B.tells_at_first stock.old.bodies }
    ensures found { Finds result stock.old.found stock.new.found (B.bodies stock.old.bodies) (λ m. ((i : ℕ) → i < sequences → IsSoundSequence m i) → ⊥) }
    ensures cause { HasCause KeeperEnd.Failed (B.faults stock.old.bodies + stock.old.found) (B.faults stock.new.bodies + stock.new.found) result }
{
    for place in 0..sequences {
        check_sequence(alloc, stock, place)?;
    }
    Ok(())
}

fn check_sequence<B: Bodies>(
    alloc: Global,
    stock: &mut Stock<B>,
    place: usize,
) -> Result<(), KeeperEnd>
    requires opened { B.opened stock.old.bodies ≡ true }
    ensures sound { OnOk result (WhereTold (B.bodies stock.old.bodies) (λ m. IsSoundSequence m place)) }
    ensures same { IsOpened (B.bodies stock.old.bodies) (B.bodies stock.new.bodies) (B.opened stock.new.bodies) }
    ensures first { B.tells_at_first stock.new.bodies ≡ B.tells_at_first stock.old.bodies }
    ensures found { Finds result stock.old.found stock.new.found (B.bodies stock.old.bodies) (λ m. IsSoundSequence m place → ⊥) }
    ensures cause { HasCause KeeperEnd.Failed (B.faults stock.old.bodies + stock.old.found) (B.faults stock.new.bodies + stock.new.found) result }
{
    let Ok(sequence) = u32::try_from(place) else {
        return Err(KeeperEnd::Memory);
    };
    let number = number_now(alloc, stock, sequence, &[])?;
    if number > 4611686018427387904 {
        return Err(stock.fault());
    }
    Ok(())
}
