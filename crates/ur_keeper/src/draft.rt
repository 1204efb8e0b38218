//! The rows of a table that the transaction under way has changed.
ghost use Rattle.std.specs.Prelude.{◌≡◌, ◌+◌, ◌≤◌, ◌<◌, ◌-◌, ◌^◌, ℕ, [], false, IsTrue, IfOk, OnOk, OnErr, length, slice_index, slice_index_or, List};
ghost use Rattle.ur_values.specs.declared.schema.Numbered.{Numbered};
ghost use Rattle.ur_values.specs.Numbered.{next_number, has_number, add_row, put_row, drop_row, numbers_of, HaveRisingNumbers};
ghost use Rattle.ur_keeper.specs.Drafts.{left};

use std::alloc::Global;
use std::marker::Model;
use ur_base::{List, Memory, Shared};
use ur_values::{Numbered, Row};

/// Rows under change. A removed row is marked as gone and stands until the rows are saved or a row is added after it, so
/// that no change moves the other rows. Contracts see the rows that are left.
#[derive(Drop)]
pub(crate) struct Draft {
    rows: Vec<Numbered>,
    gone: Vec<bool>,
}

impl Model for Draft {
    ghost use Rattle.std.specs.Prelude.{List};
    ghost use Rattle.ur_values.specs.declared.schema.Numbered.{Numbered};
    ghost use Rattle.ur_values.specs.Numbered.{HaveRisingNumbers};
    ghost use Rattle.ur_keeper.specs.Versions.{rows_coded};
    ghost use Rattle.ur_keeper.specs.Drafts.{left};

    ghost Value = { List Numbered };

    ghost coded = { rows_coded };

    ghost view = { λ d. left d.rows.items d.gone.items };

    ghost invariant = { λ d. HaveRisingNumbers d.rows.items };
}

impl Draft {
    /// These rows, none of them gone. Takes no memory.
    pub(crate) fn new(alloc: Global, rows: List<Numbered>) -> Draft
        requires { HaveRisingNumbers rows }
        ensures { result ≡ rows }
    {
        Draft {
            rows: rows.into_vec(),
            gone: Vec::new(alloc),
        }
    }

    /// A copy of the rows.
    pub(crate) fn copy(&self, alloc: Global) -> Result<List<Numbered>, Memory>
        ensures { IfOk result (λ copy. copy ≡ self.now) }
    {
        copy_left(alloc, &self.rows, &self.gone)
    }

    /// The rows as a list. Takes no memory.
    pub(crate) fn into_rows(self) -> List<Numbered>
        ensures { result ≡ self }
    {
        let Draft { mut rows, mut gone } = self;
        close_up(&mut rows, &mut gone);
        List::from_vec(rows)
    }

    /// Adds a row last, with the next number.
    pub(crate) fn insert(&mut self, row: Shared<Row>) -> Result<(), Memory>
        requires rising { HaveRisingNumbers self.old }
        requires room { next_number self.old < 2 ^ 64 }
        ensures ok { OnOk result (self.new ≡ add_row self.old row) }
        ensures err { OnErr result (self.new ≡ self.old) }
    {
        close_end(&mut self.rows, &mut self.gone);
        let number = number_after(&self.rows);
        self.rows.push(Numbered { number, row })?;
        Ok(())
    }

    /// Puts a row in the place of the one with this number. Takes no memory.
    pub(crate) fn replace(&mut self, number: u64, row: Shared<Row>)
        requires rising { HaveRisingNumbers self.old }
        requires there { IsTrue (has_number self.old number) }
        ensures { self.new ≡ put_row self.old number row }
    {
        let at = find(&self.rows, number);
        self.rows[at] = Numbered { number, row };
    }

    /// Removes the row with this number.
    pub(crate) fn remove(&mut self, number: u64) -> Result<(), Memory>
        requires there { IsTrue (has_number self.old number) }
        ensures ok { OnOk result (self.new ≡ drop_row self.old number) }
        ensures err { OnErr result (self.new ≡ self.old) }
    {
        mark_up_to(&mut self.gone, self.rows.len())?;
        let at = find(&self.rows, number);
        self.gone[at] = true;
        Ok(())
    }
}

/// Whether the row at this place is gone.
fn is_gone(gone: &[bool], at: usize) -> bool
    ensures { result ≡ slice_index_or gone.now at false }
{
    gone.get(at).copied().unwrap_or(false)
}

/// Marks for this many rows at least: those that were not marked are not gone.
fn mark_up_to(gone: &mut Vec<bool>, count: usize) -> Result<(), Memory>
    ensures marked { OnOk result (count ≤ length gone.new.items) }
    ensures same { (rows : List Numbered) → left rows gone.new.items ≡ left rows gone.old.items }
{
    while gone.len() < count {
        gone.push(false)?;
    }
    Ok(())
}

/// Lets the rows at the end go that are gone, so that the last row is left. Takes no memory.
fn close_end(rows: &mut Vec<Numbered>, gone: &mut Vec<bool>)
    requires rising { HaveRisingNumbers rows.old.items }
    ensures left { left rows.new.items gone.new.items ≡ left rows.old.items gone.old.items }
    ensures rising { HaveRisingNumbers rows.new.items }
    ensures marks { length gone.new.items ≤ length rows.new.items }
    ensures last { slice_index_or gone.new.items (length rows.new.items - 1) false ≡ false }
{
    gone.truncate(rows.len());
    while is_gone(gone, rows.len().saturating_sub(1)) {
        rows.truncate(rows.len() - 1);
        gone.truncate(rows.len());
    }
}

/// Moves the rows that are left together. Takes no memory.
fn close_up(rows: &mut Vec<Numbered>, gone: &mut Vec<bool>)
    ensures rows { rows.new.items ≡ left rows.old.items gone.old.items }
    ensures gone { gone.new.items ≡ [] }
{
    if gone.is_empty() {
        return;
    }
    let mut kept = 0;
    for at in 0..rows.len() {
        if !is_gone(gone, at) {
            rows.swap(kept, at);
            kept += 1;
        }
    }
    rows.truncate(kept);
    gone.clear();
}

/// A copy of the rows that are not gone.
fn copy_left(alloc: Global, rows: &[Numbered], gone: &[bool]) -> Result<List<Numbered>, Memory>
    ensures { IfOk result (λ copy. copy ≡ left rows.now gone.now) }
{
    let mut copied = List::new(alloc);
    for at in 0..rows.len() {
        if !is_gone(gone, at) {
            copied.push(rows[at].copy(alloc)?)?;
        }
    }
    Ok(copied)
}

/// The number that a new row gets.
fn number_after(rows: &[Numbered]) -> u64
    requires rising { HaveRisingNumbers rows.now }
    requires room { next_number rows.now < 2 ^ 64 }
    ensures { result ≡ next_number rows.now }
{
    match rows.last() {
        Some(last) => last.number + 1,
        None => 0,
    }
}

/// The place of the row with this number.
fn find(rows: &[Numbered], number: u64) -> usize
    requires rising { HaveRisingNumbers rows.now }
    requires there { IsTrue (has_number rows.now number) }
    ensures within { result < length rows.now }
    ensures found { slice_index (numbers_of rows.now) result ≡ number }
{
    let mut low = 0;
    let mut high = rows.len();
    while low < high {
        let middle = low + (high - low) / 2;
        let there = rows[middle].number;
        if there == number {
            return middle;
        }
        if there < number {
            low = middle + 1;
        } else {
            high = middle;
        }
    }
    unreachable!()
}
