//! One table of a keeper in memory.
ghost use Rattle.std.specs.Prelude.{◌≡◌, ◌↔◌, ◌≤◌, ◌<◌, ◌^◌, [], All, IsTrue, IfOk, OnOk, OnErr};
ghost use Rattle.ur_values.specs.Numbered.{next_number, has_number, add_row, put_row, drop_row, HaveRisingNumbers};
ghost use Rattle.ur_keeper.specs.Versions.{Rows};

use crate::draft::Draft;
use std::alloc::Global;
use std::marker::Model;
use ur_base::{List, Memory, Shared};
use ur_values::{Numbered, Row, copy_values};

/// The saved rows of a table and, where the transaction under way has changed it, its current rows. Contracts see
/// both lists.
#[derive(Drop)]
pub struct Table {
    saved: List<Numbered>,
    changed: Option<Draft>,
}

impl Model for Table {
    ghost use Rattle.std.specs.Prelude.{unwrap_or};
    ghost use Rattle.ur_keeper.specs.Versions.{Rows, rows_code};

    ghost Value = { Rows };

    ghost coded = { rows_code };

    ghost view = { λ t. record { saved = t.saved; current = unwrap_or t.changed t.saved } };
}

impl Table {
    /// No rows. Takes no memory.
    pub fn new(alloc: Global) -> Table
        ensures { result ≡ record { saved = []; current = [] } }
    {
        Table {
            saved: List::new(alloc),
            changed: None,
        }
    }

    /// These rows, saved and current. Takes no memory.
    pub fn of(rows: List<Numbered>) -> Table
        ensures { result ≡ record { saved = rows; current = rows } }
    {
        Table {
            saved: rows,
            changed: None,
        }
    }

    /// The rows as they were saved last.
    pub fn saved_rows(&self) -> &List<Numbered>
        ensures { result.now ≡ self.now.saved }
    {
        &self.saved
    }

    /// Whether the saved rows have numbers that are low enough for a store that is attached. Takes no memory.
    pub fn has_low_numbers(&self) -> bool
        ensures { IsTrue result ↔ All (λ r. r.number ≤ 4611686018427387904) self.now.saved }
    {
        for row in self.saved.as_slice() {
            if row.number > 4611686018427387904 {
                return false;
            }
        }
        true
    }

    /// A copy of the current rows.
    pub fn copy(&self, alloc: Global) -> Result<List<Numbered>, Memory>
        ensures { IfOk result (λ copy. copy ≡ self.now.current) }
    {
        match &self.changed {
            Some(draft) => draft.copy(alloc),
            None => copy_rows(alloc, &self.saved),
        }
    }

    /// Adds a row last, with the next number.
    pub fn insert(&mut self, alloc: Global, row: &Row) -> Result<(), Memory>
        requires rising { HaveRisingNumbers self.old.current }
        requires room { next_number self.old.current < 2 ^ 64 }
        ensures ok { OnOk result (self.new ≡ record { saved = self.old.saved; current = add_row self.old.current row.now }) }
        ensures err { OnErr result (self.new ≡ self.old) }
    {
        let row = shared(alloc, row)?;
        let mut draft = self.take(alloc)?;
        let added = draft.insert(row);
        self.changed = Some(draft);
        added
    }

    /// Puts a row in the place of the one with this number.
    pub fn replace(&mut self, alloc: Global, number: u64, row: &Row) -> Result<(), Memory>
        requires rising { HaveRisingNumbers self.old.current }
        requires there { IsTrue (has_number self.old.current number) }
        ensures ok { OnOk result (self.new ≡ record { saved = self.old.saved; current = put_row self.old.current number row.now }) }
        ensures err { OnErr result (self.new ≡ self.old) }
    {
        let row = shared(alloc, row)?;
        let mut draft = self.take(alloc)?;
        draft.replace(number, row);
        self.changed = Some(draft);
        Ok(())
    }

    /// Removes the row with this number.
    pub fn remove(&mut self, alloc: Global, number: u64) -> Result<(), Memory>
        requires rising { HaveRisingNumbers self.old.current }
        requires there { IsTrue (has_number self.old.current number) }
        ensures ok { OnOk result (self.new ≡ record { saved = self.old.saved; current = drop_row self.old.current number }) }
        ensures err { OnErr result (self.new ≡ self.old) }
    {
        let mut draft = self.take(alloc)?;
        let removed = draft.remove(number);
        self.changed = Some(draft);
        removed
    }

    /// Saves the current rows. Takes no memory.
    pub fn commit(&mut self)
        ensures { self.new ≡ record { saved = self.old.current; current = self.old.current } }
    {
        if let Some(draft) = self.changed.take() {
            self.saved = draft.into_rows();
        }
    }

    /// Makes the saved rows the current ones. Takes no memory.
    pub fn rollback(&mut self)
        ensures { self.new ≡ record { saved = self.old.saved; current = self.old.saved } }
    {
        self.changed = None;
    }

    /// Moves the current rows out; the saved ones are current until rows are put back.
    fn take(&mut self, alloc: Global) -> Result<Draft, Memory>
        requires { HaveRisingNumbers self.old.current }
        ensures rows { IfOk result (λ rows. rows ≡ self.old.current) }
        ensures ok { OnOk result (self.new ≡ record { saved = self.old.saved; current = self.old.saved }) }
        ensures err { OnErr result (self.new ≡ self.old) }
    {
        match self.changed.take() {
            Some(draft) => Ok(draft),
            None => Ok(Draft::new(alloc, copy_rows(alloc, &self.saved)?)),
        }
    }
}

/// A copy of a row, which may be shared.
fn shared(alloc: Global, row: &Row) -> Result<Shared<Row>, Memory>
    ensures { IfOk result (λ copy. copy ≡ row.now) }
{
    let copy = copy_values(alloc, row)?;
    let shared = Shared::new(alloc, copy)?;
    Ok(shared)
}

/// A copy of rows, which shares their values.
fn copy_rows(alloc: Global, rows: &List<Numbered>) -> Result<List<Numbered>, Memory>
    ensures { IfOk result (λ copy. copy ≡ rows.now) }
{
    let mut copied = List::new(alloc);
    for row in rows.as_slice() {
        copied.push(row.copy(alloc)?)?;
    }
    Ok(copied)
}
