//! The calls on the current tables.
ghost use Rattle.std.specs.Prelude.{◌≡◌, ◌+◌, ◌≤◌, ◌<◌, ◌≤ℤ◌, ◌<ℤ◌, ◌+ℤ◌, pos, true, length, option_map, IfOk, OnOk, IfSome, IfNone, slice_get};
ghost use Rattle.ur_base.specs.Counts.{HasCause};
ghost use Rattle.ur_base.specs.Told.{WhereTold};
ghost use Rattle.ur_values.specs.Numbered.{next_number};
ghost use Rattle.ur_keeper.specs.Tables.{Keeps, HasNextNumber, HasNextDraw, HasRowAt, AreRowsOf, table_at, sequence_at, inserted, replaced, removed, drawn};
ghost use Rattle.ur_keeper.specs.Keeper.{IsRowOf};
ghost use Rattle.ur_keeper_bodies.specs.Bodies.{BodyMap, IsOpened, body_at, bodies_of, written};
ghost use Rattle.ur_keeper_kept.specs.Laid.{table_tab, columns_at, table_in, tables_in};
ghost use Rattle.ur_keeper_kept.specs.Faults.{Finds, AreReadable, IsDrawable, HasLowNumbers};
ghost use Rattle.ur_keeper_kept.specs.Kept.{with_changes, IsPending, IsChanged, AreRead, IsNumber};

use crate::pending::Pending;
use crate::reading::{Found, change_body, columns_at, read_rows, table_tab};
use crate::stock::Stock;
use std::alloc::Global;
use ur_base::{Bytes, List, Memory};
use ur_keeper::KeeperEnd;
use ur_keeper_bodies::{
    Bodies, BodyChange, Layout, bodies_after, columns_bytes, number_bytes, read_number,
};
use ur_values::{Numbered, Row, Schema};

/// The rows of a table in this layout, under these changes.
pub(crate) fn rows_now<B: Bodies>(
    alloc: Global,
    stock: &mut Stock<B>,
    layout: Layout,
    schema: &Schema,
    table: u32,
    changes: &[BodyChange],
) -> Result<Found, KeeperEnd>
    requires opened { B.opened stock.old.bodies ≡ true }
    requires table { table < length schema.now.tables }
    ensures read { IfOk result (λ f. WhereTold (B.bodies stock.old.bodies) (λ m. AreRead layout (columns_at schema.now table) (bodies_of (written m changes.now) (table_tab table)) f.rows f.next)) }
    ensures shaped { IfOk result (λ f. IfSome (slice_get schema.now.tables table) (λ shape. AreRowsOf shape f.rows)) }
    ensures same { IsOpened (B.bodies stock.old.bodies) (B.bodies stock.new.bodies) (B.opened stock.new.bodies) }
    ensures first { B.tells_at_first stock.new.bodies ≡ B.tells_at_first stock.old.bodies }
    ensures found { Finds result stock.old.found stock.new.found (B.bodies stock.old.bodies) (λ m. AreReadable layout (columns_at schema.now table) (bodies_of (written m changes.now) (table_tab table)) → ⊥) }
    ensures cause { HasCause KeeperEnd.Failed (B.faults stock.old.bodies + stock.old.found) (B.faults stock.new.bodies + stock.new.found) result }
{
    let tab = table_tab(table);
    let entries = stock.read(tab)?;
    let entries = bodies_after(alloc, tab, entries, changes)?;
    let columns = schema.tables.as_slice()[table as usize].columns.as_slice();
    let rows = read_rows(alloc, layout, columns, entries.as_slice())?;
    match rows {
        Some(found) => Ok(found),
        None => Err(stock.fault()),
    }
}

/// The current rows of a table. Its next number is kept.
pub(crate) fn scan_rows<B: Bodies>(
    alloc: Global,
    stock: &mut Stock<B>,
    schema: &Schema,
    table: u32,
    pending: &mut Pending,
) -> Result<List<Numbered>, KeeperEnd>
    requires opened { B.opened stock.old.bodies ≡ true }
    requires table { table < length schema.now.tables }
    requires pending { WhereTold (B.bodies stock.old.bodies) (λ m. IsPending schema.now m pending.old) }
    ensures rows { IfOk result (λ rows. WhereTold (option_map (tables_in schema.now) (with_changes pending.old.changes (B.bodies stock.old.bodies))) (λ t. rows ≡ table_at t table)) }
    ensures shaped { IfOk result (λ rows. IfSome (slice_get schema.now.tables table) (λ shape. AreRowsOf shape rows)) }
    ensures pending { OnOk result (WhereTold (B.bodies stock.old.bodies) (λ m. IsPending schema.now m pending.new)) }
    ensures changes { OnOk result (pending.new.changes ≡ pending.old.changes) }
    ensures same { IsOpened (B.bodies stock.old.bodies) (B.bodies stock.new.bodies) (B.opened stock.new.bodies) }
    ensures first { B.tells_at_first stock.new.bodies ≡ B.tells_at_first stock.old.bodies }
    ensures found { Finds result stock.old.found stock.new.found (option_map (tables_in schema.now) (with_changes pending.old.changes (B.bodies stock.old.bodies))) (λ t. HasLowNumbers (table_at t table) → ⊥) }
    ensures cause { HasCause KeeperEnd.Failed (B.faults stock.old.bodies + stock.old.found) (B.faults stock.new.bodies + stock.new.found) result }
{
    let found = rows_now(
        alloc,
        stock,
        Layout::Two,
        schema,
        table,
        pending.changes.as_slice(),
    )?;
    pending.see(table, found.next);
    Ok(found.rows)
}

/// The number of a new row.
fn next_row<B: Bodies>(
    alloc: Global,
    stock: &mut Stock<B>,
    schema: &Schema,
    table: u32,
    pending: &Pending,
) -> Result<i64, KeeperEnd>
    requires opened { B.opened stock.old.bodies ≡ true }
    requires table { table < length schema.now.tables }
    requires pending { WhereTold (B.bodies stock.old.bodies) (λ m. IsPending schema.now m pending.now) }
    requires room { WhereTold (option_map (tables_in schema.now) (with_changes pending.now.changes (B.bodies stock.old.bodies))) (HasNextNumber table) }
    ensures number { IfOk result (λ n. WhereTold (B.bodies stock.old.bodies) (λ m. n ≡ pos (next_number (table_in schema.now (written m pending.now.changes) table)))) }
    ensures same { IsOpened (B.bodies stock.old.bodies) (B.bodies stock.new.bodies) (B.opened stock.new.bodies) }
    ensures first { B.tells_at_first stock.new.bodies ≡ B.tells_at_first stock.old.bodies }
    ensures found { Finds result stock.old.found stock.new.found (B.bodies stock.old.bodies) (λ m. ⊥) }
    ensures cause { HasCause KeeperEnd.Failed (B.faults stock.old.bodies + stock.old.found) (B.faults stock.new.bodies + stock.new.found) result }
{
    if let Some((seen, next)) = pending.seen {
        if seen == table {
            return Ok(next);
        }
    }
    let found = rows_now(
        alloc,
        stock,
        Layout::Two,
        schema,
        table,
        pending.changes.as_slice(),
    )?;
    Ok(found.next)
}

/// Adds a row last, with the next number.
pub(crate) fn insert_row<B: Bodies>(
    alloc: Global,
    stock: &mut Stock<B>,
    schema: &Schema,
    table: u32,
    row: &Row,
    pending: &mut Pending,
) -> Result<(), KeeperEnd>
    requires opened { B.opened stock.old.bodies ≡ true }
    requires table { table < length schema.now.tables }
    requires row { IsRowOf (Keeps schema.now) table row.now }
    requires pending { WhereTold (B.bodies stock.old.bodies) (λ m. IsPending schema.now m pending.old) }
    requires room { WhereTold (option_map (tables_in schema.now) (with_changes pending.old.changes (B.bodies stock.old.bodies))) (HasNextNumber table) }
    ensures changed { OnOk result (WhereTold (B.bodies stock.old.bodies) (λ m. IsChanged schema.now (inserted table row.now) m pending.old pending.new)) }
    ensures same { IsOpened (B.bodies stock.old.bodies) (B.bodies stock.new.bodies) (B.opened stock.new.bodies) }
    ensures first { B.tells_at_first stock.new.bodies ≡ B.tells_at_first stock.old.bodies }
    ensures found { Finds result stock.old.found stock.new.found (B.bodies stock.old.bodies) (λ m. ⊥) }
    ensures cause { HasCause KeeperEnd.Failed (B.faults stock.old.bodies + stock.old.found) (B.faults stock.new.bodies + stock.new.found) result }
{
    let number = next_row(alloc, stock, schema, table, pending)?;
    let columns = columns_at(schema, table as usize);
    let body = columns_bytes(alloc, columns, row)?;
    let seen = seen_after(table, number);
    pending.add(BodyChange::Add(table_tab(table), number, body), seen)?;
    Ok(())
}

/// What is known of a table's next number behind this one.
fn seen_after(table: u32, number: i64) -> Option<(u32, i64)>
    ensures { IfSome result (λ seen. seen ≡ (table, number +ℤ pos 1)) }
{
    match number.checked_add(1) {
        Some(next) => Some((table, next)),
        None => None,
    }
}

/// Puts a row in the place of the one with this number.
pub(crate) fn replace_row<B: Bodies>(
    alloc: Global,
    stock: &mut Stock<B>,
    schema: &Schema,
    table: u32,
    number: u64,
    row: &Row,
    pending: &mut Pending,
) -> Result<(), KeeperEnd>
    requires opened { B.opened stock.old.bodies ≡ true }
    requires table { table < length schema.now.tables }
    requires row { IsRowOf (Keeps schema.now) table row.now }
    requires pending { WhereTold (B.bodies stock.old.bodies) (λ m. IsPending schema.now m pending.old) }
    requires there { WhereTold (option_map (tables_in schema.now) (with_changes pending.old.changes (B.bodies stock.old.bodies))) (HasRowAt table number) }
    ensures changed { OnOk result (WhereTold (B.bodies stock.old.bodies) (λ m. IsChanged schema.now (replaced table number row.now) m pending.old pending.new)) }
    ensures same { IsOpened (B.bodies stock.old.bodies) (B.bodies stock.new.bodies) (B.opened stock.new.bodies) }
    ensures first { B.tells_at_first stock.new.bodies ≡ B.tells_at_first stock.old.bodies }
    ensures found { Finds result stock.old.found stock.new.found (B.bodies stock.old.bodies) (λ m. ⊥) }
    ensures cause { HasCause KeeperEnd.Failed (B.faults stock.old.bodies + stock.old.found) (B.faults stock.new.bodies + stock.new.found) result }
{
    let Ok(place) = i64::try_from(number) else {
        return Err(stock.fault());
    };
    let columns = columns_at(schema, table as usize);
    let body = columns_bytes(alloc, columns, row)?;
    pending.add(BodyChange::Put(table_tab(table), place, body), None)?;
    Ok(())
}

/// Removes the row with this number.
pub(crate) fn remove_row<B: Bodies>(
    stock: &mut Stock<B>,
    schema: &Schema,
    table: u32,
    number: u64,
    pending: &mut Pending,
) -> Result<(), KeeperEnd>
    requires opened { B.opened stock.old.bodies ≡ true }
    requires table { table < length schema.now.tables }
    requires pending { WhereTold (B.bodies stock.old.bodies) (λ m. IsPending schema.now m pending.old) }
    requires there { WhereTold (option_map (tables_in schema.now) (with_changes pending.old.changes (B.bodies stock.old.bodies))) (HasRowAt table number) }
    ensures changed { OnOk result (WhereTold (B.bodies stock.old.bodies) (λ m. IsChanged schema.now (removed table number) m pending.old pending.new)) }
    ensures same { IsOpened (B.bodies stock.old.bodies) (B.bodies stock.new.bodies) (B.opened stock.new.bodies) }
    ensures first { B.tells_at_first stock.new.bodies ≡ B.tells_at_first stock.old.bodies }
    ensures found { Finds result stock.old.found stock.new.found (B.bodies stock.old.bodies) (λ m. ⊥) }
    ensures cause { HasCause KeeperEnd.Failed (B.faults stock.old.bodies + stock.old.found) (B.faults stock.new.bodies + stock.new.found) result }
{
    let Ok(place) = i64::try_from(number) else {
        return Err(stock.fault());
    };
    pending.add(BodyChange::Drop(table_tab(table), place), None)?;
    Ok(())
}

/// One body under these changes.
fn body_now<B: Bodies>(
    alloc: Global,
    stock: &mut Stock<B>,
    tab: i64,
    num: i64,
    changes: &[BodyChange],
) -> Result<Option<Bytes>, KeeperEnd>
    requires { B.opened stock.old.bodies ≡ true }
    ensures body { IfOk result (λ body. WhereTold (B.bodies stock.old.bodies) (λ m. body ≡ body_at (written m changes.now) tab num)) }
    ensures same { IsOpened (B.bodies stock.old.bodies) (B.bodies stock.new.bodies) (B.opened stock.new.bodies) }
    ensures first { B.tells_at_first stock.new.bodies ≡ B.tells_at_first stock.old.bodies }
    ensures found { stock.new.found ≡ stock.old.found }
    ensures cause { HasCause KeeperEnd.Failed (B.faults stock.old.bodies + stock.old.found) (B.faults stock.new.bodies + stock.new.found) result }
{
    let kept = stock.one(tab, num)?;
    let body = body_after(alloc, kept, tab, num, changes)?;
    Ok(body)
}

/// A body after these changes of the map.
fn body_after(
    alloc: Global,
    kept: Option<Bytes>,
    tab: i64,
    num: i64,
    changes: &[BodyChange],
) -> Result<Option<Bytes>, Memory>
    ensures { IfOk result (λ body. (m : BodyMap) → kept ≡ body_at m tab num → body ≡ body_at (written m changes.now) tab num) }
{
    let mut body = kept;
    for change in changes {
        change_body(alloc, &mut body, tab, num, change)?;
    }
    Ok(body)
}

/// The next number of a sequence.
pub(crate) fn number_now<B: Bodies>(
    alloc: Global,
    stock: &mut Stock<B>,
    sequence: u32,
    changes: &[BodyChange],
) -> Result<i64, KeeperEnd>
    requires { B.opened stock.old.bodies ≡ true }
    ensures number { IfOk result (λ n. WhereTold (B.bodies stock.old.bodies) (λ m. IsNumber (body_at (written m changes.now) (pos 1) (pos sequence)) n)) }
    ensures room { IfOk result (λ n. (pos 1 ≤ℤ n) × (n <ℤ pos 9223372036854775807)) }
    ensures same { IsOpened (B.bodies stock.old.bodies) (B.bodies stock.new.bodies) (B.opened stock.new.bodies) }
    ensures first { B.tells_at_first stock.new.bodies ≡ B.tells_at_first stock.old.bodies }
    ensures found { Finds result stock.old.found stock.new.found (B.bodies stock.old.bodies) (λ m. IsDrawable (body_at (written m changes.now) (pos 1) (pos sequence)) → ⊥) }
    ensures cause { HasCause KeeperEnd.Failed (B.faults stock.old.bodies + stock.old.found) (B.faults stock.new.bodies + stock.new.found) result }
{
    let body = body_now(alloc, stock, 1, i64::from(sequence), changes)?;
    let number = number_in_body(&body);
    match number {
        Some(number) => Ok(number),
        None => Err(stock.fault()),
    }
}

/// The number of a body, where it is one that may be drawn.
fn number_in_body(body: &Option<Bytes>) -> Option<i64>
    ensures number { IfSome result (IsNumber body.now) }
    ensures none { IfNone result (IsDrawable body.now → ⊥) }
    ensures room { IfSome result (λ n. (pos 1 ≤ℤ n) × (n <ℤ pos 9223372036854775807)) }
{
    let Some(bytes) = body else {
        return None;
    };
    let Some(number) = read_number(bytes.as_slice()) else {
        return None;
    };
    if number < 1 {
        return None;
    }
    if number == i64::MAX {
        return None;
    }
    Some(number)
}

/// The number that is drawn next from a sequence: the one that the last draw left, or what the store and the changes say.
fn next_drawn<B: Bodies>(
    alloc: Global,
    stock: &mut Stock<B>,
    schema: &Schema,
    sequence: u32,
    pending: &Pending,
) -> Result<i64, KeeperEnd>
    requires opened { B.opened stock.old.bodies ≡ true }
    requires pending { WhereTold (B.bodies stock.old.bodies) (λ m. IsPending schema.now m pending.now) }
    requires sequence { sequence < length schema.now.sequences }
    requires room { WhereTold (option_map (tables_in schema.now) (with_changes pending.now.changes (B.bodies stock.old.bodies))) (HasNextDraw sequence) }
    ensures number { IfOk result (λ n. WhereTold (B.bodies stock.old.bodies) (λ m. IsNumber (body_at (written m pending.now.changes) (pos 1) (pos sequence)) n)) }
    ensures room { IfOk result (λ n. (pos 1 ≤ℤ n) × (n <ℤ pos 9223372036854775807)) }
    ensures same { IsOpened (B.bodies stock.old.bodies) (B.bodies stock.new.bodies) (B.opened stock.new.bodies) }
    ensures first { B.tells_at_first stock.new.bodies ≡ B.tells_at_first stock.old.bodies }
    ensures found { Finds result stock.old.found stock.new.found (B.bodies stock.old.bodies) (λ m. ⊥) }
    ensures cause { HasCause KeeperEnd.Failed (B.faults stock.old.bodies + stock.old.found) (B.faults stock.new.bodies + stock.new.found) result }
{
    let next = pending.next_of(sequence);
    if next < 1 {
        let number = number_now(alloc, stock, sequence, pending.changes.as_slice())?;
        return Ok(number);
    }
    if next == i64::MAX {
        return Err(stock.fault());
    }
    Ok(next)
}

/// Draws the next number of a sequence, which then rises by one.
pub(crate) fn draw<B: Bodies>(
    alloc: Global,
    stock: &mut Stock<B>,
    schema: &Schema,
    sequence: u32,
    pending: &mut Pending,
) -> Result<i64, KeeperEnd>
    requires opened { B.opened stock.old.bodies ≡ true }
    requires sequence { sequence < length schema.now.sequences }
    requires pending { WhereTold (B.bodies stock.old.bodies) (λ m. IsPending schema.now m pending.old) }
    requires room { WhereTold (option_map (tables_in schema.now) (with_changes pending.old.changes (B.bodies stock.old.bodies))) (HasNextDraw sequence) }
    ensures number { IfOk result (λ n. WhereTold (option_map (tables_in schema.now) (with_changes pending.old.changes (B.bodies stock.old.bodies))) (λ t. n ≡ sequence_at t sequence)) }
    ensures changed { OnOk result (WhereTold (B.bodies stock.old.bodies) (λ m. IsChanged schema.now (drawn sequence) m pending.old pending.new)) }
    ensures same { IsOpened (B.bodies stock.old.bodies) (B.bodies stock.new.bodies) (B.opened stock.new.bodies) }
    ensures first { B.tells_at_first stock.new.bodies ≡ B.tells_at_first stock.old.bodies }
    ensures found { Finds result stock.old.found stock.new.found (B.bodies stock.old.bodies) (λ m. ⊥) }
    ensures cause { HasCause KeeperEnd.Failed (B.faults stock.old.bodies + stock.old.found) (B.faults stock.new.bodies + stock.new.found) result }
{
    let number = next_drawn(alloc, stock, schema, sequence, pending)?;
    let next = number + 1;
    let body = number_bytes(alloc, next)?;
    pending.draw(
        sequence,
        BodyChange::Put(1, i64::from(sequence), body),
        next,
    )?;
    Ok(number)
}
