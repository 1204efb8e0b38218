//! A store of a kept schema under a schema that extends it.
ghost use Rattle.std.specs.Prelude.{◌≡◌, ◌++◌, ◌+◌, ◌<◌, ◌≤◌, true, length, All, None, IfOk, OnOk, OnErr, IfSome, IfNone, IsTrue, IsFalse};
ghost use Rattle.ur_base.specs.Counts.{HasCause};
ghost use Rattle.ur_base.specs.Told.{WhereTold};
ghost use Rattle.ur_values.specs.Extends.{extends, grown};
ghost use Rattle.ur_keeper_bodies.specs.Bodies.{IsOpened, bodies_of};
ghost use Rattle.ur_keeper_bodies.specs.declared.stored.Layout.TheVariants as layouts;
ghost use Rattle.ur_keeper_bodies.specs.Rows.{row_of, kinds_in};
ghost use Rattle.ur_keeper_bodies.specs.Columns.{columns_body};
ghost use Rattle.ur_keeper_kept.specs.Laid.{table_tab, IsBodyBy, IsLaidBy, HasShortNames};
ghost use Rattle.ur_keeper_kept.specs.Rewriting.{puts};
ghost use Rattle.ur_keeper_kept.specs.First.{first_row, new_body, renewing};
ghost use Rattle.ur_keeper_kept.specs.Faults.{Finds};
ghost use Rattle.ur_keeper_kept.specs.Attach.{IsKeptText, IsSoundStore, IsTextChange, IsGrowth, Grows};

use crate::checking::check_store;
use crate::reading::{columns_at, table_tab};
use crate::stock::Stock;
use std::alloc::Global;
use ur_base::{Bytes, List, Memory, Text};
use ur_keeper::{KeeperEnd, grown_row};
use ur_keeper_bodies::{Bodies, BodyChange, Layout, columns_bytes, read_row, stored_text};
use ur_values::{ColumnKind, Schema};

/// Takes a store of a kept schema, which has no fault, for a schema that extends it: rows of the first layout are written anew, with Absent in
/// each new column, and those of the second one stay.
pub(crate) fn grow<B: Bodies>(
    alloc: Global,
    stock: &mut Stock<B>,
    layout: Layout,
    schema: &Schema,
    kept: &Schema,
) -> Result<(), KeeperEnd>
    requires opened { B.opened stock.old.bodies ≡ true }
    requires short { HasShortNames schema.now }
    requires extends { extends schema.now kept.now ≡ true }
    requires text { WhereTold (B.bodies stock.old.bodies) (IsKeptText layout kept.now) }
    ensures grows { OnOk result (Grows layout schema.now kept.now (B.bodies stock.old.bodies) (B.bodies stock.new.bodies)) }
    ensures same { OnErr result (B.bodies stock.new.bodies ≡ B.bodies stock.old.bodies) }
    ensures stays_open { B.opened stock.new.bodies ≡ true }
    ensures first { B.tells_at_first stock.new.bodies ≡ B.tells_at_first stock.old.bodies }
    ensures found { Finds result stock.old.found stock.new.found (B.bodies stock.old.bodies) (λ m. IsSoundStore layout kept.now m → ⊥) }
    ensures cause { HasCause KeeperEnd.Failed (B.faults stock.old.bodies + stock.old.found) (B.faults stock.new.bodies + stock.new.found) result }
{
    check_store(alloc, stock, layout, kept)?;
    let changes = changes_of(alloc, stock, layout, schema, kept)?;
    stock.save(changes.as_slice())?;
    Ok(())
}

/// What has to be written.
fn changes_of<B: Bodies>(
    alloc: Global,
    stock: &mut Stock<B>,
    layout: Layout,
    schema: &Schema,
    kept: &Schema,
) -> Result<List<BodyChange>, KeeperEnd>
    requires opened { B.opened stock.old.bodies ≡ true }
    requires shapes { length schema.now.tables ≡ length kept.now.tables }
    requires laid { WhereTold (B.bodies stock.old.bodies) (IsLaidBy layout kept.now) }
    ensures changes { IfOk result (λ changes. WhereTold (B.bodies stock.old.bodies) (λ m. IsGrowth layout schema.now kept.now m changes)) }
    ensures same { IsOpened (B.bodies stock.old.bodies) (B.bodies stock.new.bodies) (B.opened stock.new.bodies) }
    ensures first { B.tells_at_first stock.new.bodies ≡ B.tells_at_first stock.old.bodies }
    ensures found { Finds result stock.old.found stock.new.found (B.bodies stock.old.bodies) (λ m. ⊥) }
    ensures cause { HasCause KeeperEnd.Failed (B.faults stock.old.bodies + stock.old.found) (B.faults stock.new.bodies + stock.new.found) result }
{
    match layout {
        Layout::One => {
            let changes = rewriting(alloc, stock, schema, kept)?;
            Ok(changes)
        }
        Layout::Two => {
            let changes = text_change(alloc, schema, kept)?;
            Ok(changes)
        }
    }
}

/// The text of a store of the second layout, where it is another one.
fn text_change(alloc: Global, schema: &Schema, kept: &Schema) -> Result<List<BodyChange>, Memory>
    ensures { IfOk result (λ changes. IsTextChange schema.now kept.now changes) }
{
    let mut changes = List::new(alloc);
    if kept.same(schema) {
        return Ok(changes);
    }
    let text = stored_text(alloc, schema)?;
    changes.push(BodyChange::Put(0, 0, text))?;
    Ok(changes)
}

/// Each row of a store of the first layout anew, and the text.
fn rewriting<B: Bodies>(
    alloc: Global,
    stock: &mut Stock<B>,
    schema: &Schema,
    kept: &Schema,
) -> Result<List<BodyChange>, KeeperEnd>
    requires opened { B.opened stock.old.bodies ≡ true }
    requires shapes { length schema.now.tables ≡ length kept.now.tables }
    requires laid { WhereTold (B.bodies stock.old.bodies) (IsLaidBy layouts.One kept.now) }
    ensures changes { IfOk result (λ changes. WhereTold (B.bodies stock.old.bodies) (λ m. IsGrowth layouts.One schema.now kept.now m changes)) }
    ensures same { IsOpened (B.bodies stock.old.bodies) (B.bodies stock.new.bodies) (B.opened stock.new.bodies) }
    ensures first { B.tells_at_first stock.new.bodies ≡ B.tells_at_first stock.old.bodies }
    ensures found { Finds result stock.old.found stock.new.found (B.bodies stock.old.bodies) (λ m. ⊥) }
    ensures cause { HasCause KeeperEnd.Failed (B.faults stock.old.bodies + stock.old.found) (B.faults stock.new.bodies + stock.new.found) result }
{
    let mut changes = List::new(alloc);
    for place in 0..kept.tables.len() {
        rewrite_table(alloc, stock, schema, kept, place, &mut changes)?;
    }
    let text = stored_text(alloc, schema)?;
    changes.push(BodyChange::Put(0, 0, text))?;
    Ok(changes)
}

/// Each row of a table anew. More tables than `u32` has numbers take memory that is not had.
fn rewrite_table<B: Bodies>(
    alloc: Global,
    stock: &mut Stock<B>,
    schema: &Schema,
    kept: &Schema,
    place: usize,
    changes: &mut List<BodyChange>,
) -> Result<(), KeeperEnd>
    requires opened { B.opened stock.old.bodies ≡ true }
    requires place { place < length kept.now.tables }
    requires shapes { length schema.now.tables ≡ length kept.now.tables }
    requires laid { WhereTold (B.bodies stock.old.bodies) (IsLaidBy layouts.One kept.now) }
    ensures changes { OnOk result (WhereTold (B.bodies stock.old.bodies) (λ m. changes.new ≡ changes.old ++ puts (table_tab place) (renewing schema.now kept.now place) (bodies_of m (table_tab place)))) }
    ensures same { IsOpened (B.bodies stock.old.bodies) (B.bodies stock.new.bodies) (B.opened stock.new.bodies) }
    ensures first { B.tells_at_first stock.new.bodies ≡ B.tells_at_first stock.old.bodies }
    ensures found { Finds result stock.old.found stock.new.found (B.bodies stock.old.bodies) (λ m. ⊥) }
    ensures cause { HasCause KeeperEnd.Failed (B.faults stock.old.bodies + stock.old.found) (B.faults stock.new.bodies + stock.new.found) result }
{
    let Ok(table) = u32::try_from(place) else {
        return Err(KeeperEnd::Memory);
    };
    let tab = table_tab(table);
    let entries = stock.read(tab)?;
    let columns = columns_at(schema, place);
    let others = columns_at(kept, place);
    let done = put_all(alloc, tab, columns, others, entries.as_slice(), changes)?;
    if done {
        return Ok(());
    }
    Err(stock.fault())
}

/// Puts each of these rows anew. Whether all of them are rows.
fn put_all(
    alloc: Global,
    tab: i64,
    columns: &[(Text, ColumnKind)],
    others: &[(Text, ColumnKind)],
    entries: &[(i64, Bytes)],
    changes: &mut List<BodyChange>,
) -> Result<bool, Memory>
    ensures all { IfOk result (λ done. IsTrue done → changes.new ≡ changes.old ++ puts tab (new_body columns.now others.now) entries.now) }
    ensures none { IfOk result (λ done. IsFalse done → All (IsBodyBy layouts.One others.now) entries.now → ⊥) }
{
    for entry in entries {
        let Some(body) = new_body(alloc, columns, others, entry.1.as_slice())? else {
            return Ok(false);
        };
        changes.push(BodyChange::Put(tab, entry.0, body))?;
    }
    Ok(true)
}

/// The new body of a row of the first layout: grown, with the names of its columns.
fn new_body(
    alloc: Global,
    columns: &[(Text, ColumnKind)],
    others: &[(Text, ColumnKind)],
    body: &[u8],
) -> Result<Option<Bytes>, Memory>
    ensures body { IfOk result (λ new. IfSome new (λ bytes. bytes ≡ columns_body columns.now (grown columns.now others.now (first_row others.now body.now)))) }
    ensures none { IfOk result (λ new. IfNone new (row_of (kinds_in others.now) body.now ≡ None)) }
{
    let Some(row) = read_row(alloc, others, body)? else {
        return Ok(None);
    };
    let new = grown_row(alloc, columns, others, &row)?;
    let bytes = columns_bytes(alloc, columns, &new)?;
    Ok(Some(bytes))
}
