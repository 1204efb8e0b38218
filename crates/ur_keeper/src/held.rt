//! The tables and sequences of a keeper in memory.
ghost use Rattle.std.specs.Prelude.{◌≡◌, ◌≤◌, ◌<◌, ◌^◌, ◌<ℤ◌, ◌≤ℤ◌, ◌↔◌, ℕ, pos, [], map, All, IsTrue, IfOk, OnOk, OnErr, length};
ghost use Rattle.ur_values.specs.Numbered.{next_number, has_number, HaveRisingNumbers};
ghost use Rattle.ur_keeper.specs.Tables.{table_at, sequence_at, inserted, replaced, removed, drawn, HasNextNumber, HasNextDraw, HasRowAt};
ghost use Rattle.ur_keeper.specs.Tables.{NumbersUpTo, empty_tables};
ghost use Rattle.ur_keeper.specs.Growing.{grown_all, grown_tables};
ghost use Rattle.ur_keeper.specs.Versions.{Both, no_rows, settled, committed, rolled_back};
ghost use Rattle.ur_keeper.specs.Sequences.{first_draw, committed_sequence, rolled_back_sequence};

use crate::growing::grown_rows;
use crate::sequence::Sequence;
use crate::table::Table;
use std::alloc::Global;
use std::marker::Model;
use ur_base::{List, Memory, Text};
use ur_values::{Numbered, Row, Schema, TableShape};

/// All tables and sequences. Contracts see them as they were saved and as they are now.
#[derive(Drop)]
pub struct Held {
    tables: Vec<Table>,
    sequences: Vec<Sequence>,
}

impl Model for Held {
    ghost use Rattle.std.specs.Prelude.{map};
    ghost use Rattle.ur_keeper.specs.Versions.{Both, both_code};

    ghost Value = { Both };

    ghost coded = { both_code };

    ghost view = { λ h. record {
      saved = record { tables = map (λ t. t.saved) h.tables.items; sequences = map (λ s. s.saved) h.sequences.items };
      current = record { tables = map (λ t. t.current) h.tables.items; sequences = map (λ s. s.current) h.sequences.items };
    } };
}

impl Held {
    /// No tables. Takes no memory.
    pub fn new(alloc: Global) -> Held
        ensures { result ≡ record { saved = record { tables = []; sequences = [] }; current = record { tables = []; sequences = [] } } }
    {
        Held {
            tables: Vec::new(alloc),
            sequences: Vec::new(alloc),
        }
    }

    /// No rows in each table of the schema, and each sequence at 1.
    pub fn made(alloc: Global, schema: &Schema) -> Result<Held, Memory>
        ensures { IfOk result (λ made. made ≡ record { saved = empty_tables schema.now; current = empty_tables schema.now }) }
    {
        Ok(Held {
            tables: made_tables(alloc, &schema.tables)?,
            sequences: made_sequences(alloc, &schema.sequences)?,
        })
    }

    /// The saved rows, of the tables of a kept schema, under a schema that extends it, with Absent in each new column.
    pub fn grown(&self, alloc: Global, schema: &Schema, kept: &Schema) -> Result<Held, Memory>
        requires shapes { length schema.now.tables ≡ length kept.now.tables }
        requires tables { length kept.now.tables ≡ length self.now.saved.tables }
        ensures { IfOk result (λ grown. grown ≡ record { saved = grown_tables schema.now kept.now self.now.saved; current = grown_tables schema.now kept.now self.now.saved }) }
    {
        Ok(Held {
            tables: grown_all(
                alloc,
                schema.tables.as_slice(),
                kept.tables.as_slice(),
                &self.tables,
            )?,
            sequences: saved_sequences(alloc, &self.sequences)?,
        })
    }

    /// Whether the saved numbers are low enough for a store that is attached. Takes no memory.
    pub fn has_low_numbers(&self) -> bool
        ensures { IsTrue result ↔ NumbersUpTo 4611686018427387904 self.now.saved }
    {
        have_low_numbers(&self.tables) && are_low(&self.sequences)
    }

    /// The rows of a table as they were saved last.
    pub fn saved_table(&self, table: u32) -> &List<Numbered>
        requires { table < length self.now.saved.tables }
        ensures { result.now ≡ table_at self.now.saved table }
    {
        self.tables[table as usize].saved_rows()
    }

    /// A copy of the current rows of a table.
    pub fn scan(&self, alloc: Global, table: u32) -> Result<List<Numbered>, Memory>
        requires { table < length self.now.current.tables }
        ensures { IfOk result (λ rows. rows ≡ table_at self.now.current table) }
    {
        self.tables[table as usize].copy(alloc)
    }

    /// Adds a row last in a table.
    pub fn insert(&mut self, alloc: Global, table: u32, row: &Row) -> Result<(), Memory>
        requires table { table < length self.old.current.tables }
        requires rising { HaveRisingNumbers (table_at self.old.current table) }
        requires room { HasNextNumber table self.old.current }
        ensures ok { OnOk result (self.new ≡ record { saved = self.old.saved; current = inserted table row.now self.old.current }) }
        ensures err { OnErr result (self.new ≡ self.old) }
    {
        self.tables[table as usize].insert(alloc, row)
    }

    /// Puts a row in the place of the one with this number.
    pub fn replace(
        &mut self,
        alloc: Global,
        table: u32,
        number: u64,
        row: &Row,
    ) -> Result<(), Memory>
        requires table { table < length self.old.current.tables }
        requires rising { HaveRisingNumbers (table_at self.old.current table) }
        requires there { HasRowAt table number self.old.current }
        ensures ok { OnOk result (self.new ≡ record { saved = self.old.saved; current = replaced table number row.now self.old.current }) }
        ensures err { OnErr result (self.new ≡ self.old) }
    {
        self.tables[table as usize].replace(alloc, number, row)
    }

    /// Removes the row with this number.
    pub fn remove(&mut self, alloc: Global, table: u32, number: u64) -> Result<(), Memory>
        requires table { table < length self.old.current.tables }
        requires rising { HaveRisingNumbers (table_at self.old.current table) }
        requires there { HasRowAt table number self.old.current }
        ensures ok { OnOk result (self.new ≡ record { saved = self.old.saved; current = removed table number self.old.current }) }
        ensures err { OnErr result (self.new ≡ self.old) }
    {
        self.tables[table as usize].remove(alloc, number)
    }

    /// The next number of a sequence, which then rises by one. Takes no memory.
    pub fn next_number(&mut self, sequence: u32) -> i64
        requires sequence { sequence < length self.old.current.sequences }
        requires room { HasNextDraw sequence self.old.current }
        ensures number { result ≡ sequence_at self.old.current sequence }
        ensures drawn { self.new ≡ record { saved = self.old.saved; current = drawn sequence self.old.current } }
    {
        self.sequences[sequence as usize].draw()
    }

    /// Saves all current rows. Takes no memory.
    pub fn commit(&mut self)
        ensures { self.new ≡ record { saved = self.old.current; current = self.old.current } }
    {
        commit_tables(&mut self.tables);
        commit_sequences(&mut self.sequences);
    }

    /// Makes all saved rows the current ones. Takes no memory.
    pub fn rollback(&mut self)
        ensures { self.new ≡ record { saved = self.old.saved; current = self.old.saved } }
    {
        roll_back_tables(&mut self.tables);
        roll_back_sequences(&mut self.sequences);
    }
}

fn commit_tables(tables: &mut Vec<Table>)
    ensures { tables.new.items ≡ map committed tables.old.items }
{
    for i in 0..tables.len() {
        tables[i].commit();
    }
}

fn roll_back_tables(tables: &mut Vec<Table>)
    ensures { tables.new.items ≡ map rolled_back tables.old.items }
{
    for i in 0..tables.len() {
        tables[i].rollback();
    }
}

fn commit_sequences(sequences: &mut Vec<Sequence>)
    ensures { sequences.new.items ≡ map committed_sequence sequences.old.items }
{
    for i in 0..sequences.len() {
        sequences[i].commit();
    }
}

fn roll_back_sequences(sequences: &mut Vec<Sequence>)
    ensures { sequences.new.items ≡ map rolled_back_sequence sequences.old.items }
{
    for i in 0..sequences.len() {
        sequences[i].rollback();
    }
}

fn made_tables(alloc: Global, shapes: &List<TableShape>) -> Result<Vec<Table>, Memory>
    ensures { IfOk result (λ tables. tables.items ≡ map (λ _. no_rows) shapes.now) }
{
    let mut tables = Vec::new(alloc);
    for _shape in shapes.as_slice() {
        tables.push(Table::new(alloc))?;
    }
    Ok(tables)
}

fn made_sequences(alloc: Global, names: &List<Text>) -> Result<Vec<Sequence>, Memory>
    ensures { IfOk result (λ sequences. sequences.items ≡ map (λ _. first_draw) names.now) }
{
    let mut sequences = Vec::new(alloc);
    for _name in names.as_slice() {
        sequences.push(Sequence {
            saved: 1,
            current: 1,
        })?;
    }
    Ok(sequences)
}

fn grown_all(
    alloc: Global,
    shapes: &[TableShape],
    kept: &[TableShape],
    tables: &Vec<Table>,
) -> Result<Vec<Table>, Memory>
    requires shapes { length shapes.now ≡ length kept.now }
    requires tables { length kept.now ≡ length tables.now.items }
    ensures { IfOk result (λ all. all.items ≡ map settled (grown_all shapes.now kept.now (map (λ t. t.saved) tables.now.items))) }
{
    let mut all = Vec::new(alloc);
    for i in 0..shapes.len() {
        let columns = shapes[i].columns.as_slice();
        let rows = grown_rows(
            alloc,
            columns,
            kept[i].columns.as_slice(),
            tables[i].saved_rows(),
        )?;
        all.push(Table::of(rows))?;
    }
    Ok(all)
}

fn saved_sequences(alloc: Global, sequences: &Vec<Sequence>) -> Result<Vec<Sequence>, Memory>
    ensures { IfOk result (λ all. all.items ≡ map rolled_back_sequence sequences.now.items) }
{
    let mut all = Vec::new(alloc);
    for sequence in sequences.as_slice() {
        all.push(Sequence {
            saved: sequence.saved,
            current: sequence.saved,
        })?;
    }
    Ok(all)
}

fn have_low_numbers(tables: &Vec<Table>) -> bool
    ensures { IsTrue result ↔ All (λ t. All (λ r. r.number ≤ 4611686018427387904) t.saved) tables.now.items }
{
    for table in tables.as_slice() {
        if !table.has_low_numbers() {
            return false;
        }
    }
    true
}

fn are_low(sequences: &Vec<Sequence>) -> bool
    ensures { IsTrue result ↔ All (λ s. s.saved ≤ℤ pos 4611686018427387904) sequences.now.items }
{
    for sequence in sequences.as_slice() {
        if sequence.saved > 4611686018427387904 {
            return false;
        }
    }
    true
}
