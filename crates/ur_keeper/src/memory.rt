//! A keeper in memory.
ghost use Rattle.std.specs.Prelude.{◌≡◌, ◌≤◌, ◌↔◌, ◌⊎◌, refl, true, false, Some, IfOk, OnOk, OnErr, IsErrOf, IsTrue, IsFalse};
ghost use Rattle.ur_values.specs.declared.schema.Schema.{Schema as SchemaOf};
ghost use Rattle.ur_values.specs.Extends.{extends};
ghost use Rattle.ur_keeper.specs.Growing.{grown_tables};
ghost use Rattle.ur_keeper.specs.Tables.{inserted, replaced, removed, drawn, table_at, sequence_at, HasNextNumber, HasNextDraw, HasRowAt, MayCommit};
ghost use Rattle.ur_keeper.specs.Tables.{AreRowsOf, AreSound, empty_tables};
ghost use Rattle.ur_keeper.specs.Keeper.{HasTable, HasSequence, OfShape, OfSchema, IsRowOf, IsReadyOnly};
ghost use Rattle.ur_base.specs.FaultPlans.{Fails};
ghost use Rattle.ur_keeper.specs.Memory.{empty_memory, current_of, kept_of, passed, begun, read, changed, committed, given_up, failed, wanting};
ghost use Rattle.ur_keeper.specs.Memory.{attached, AnswersTo, IsFaulty};
ghost use Rattle.ur_base.specs.Counts.{HasCause};

use crate::held::Held;
use crate::keeper::{Attached, Keeper, KeeperEnd};
use std::alloc::Global;
use std::marker::Model;
use ur_base::{FaultPlan, List, Memory};
use ur_values::{Numbered, Row, Schema};

/// Tables in memory. The calls that can fail are counted from 1, and those whose number is listed fail.
#[derive(Drop)]
pub struct MemoryKeeper {
    alloc: Global,
    kept: Option<Schema>,
    held: Held,
    under_way: bool,
    reads: u64,
    plan: FaultPlan,
}

impl Model for MemoryKeeper {
    ghost use Rattle.ur_keeper.specs.Memory.{Memory, memory_code, IsKeeping};

    ghost Value = { Memory };

    ghost coded = { memory_code };

    ghost view = { λ k. record {
      kept = k.kept;
      current = k.held.current;
      saved = k.held.saved;
      under_way = k.under_way;
      reads = k.reads;
      plan = k.plan;
    } };

    ghost invariant = { λ k. IsKeeping k.kept k.under_way k.held };
}

impl MemoryKeeper {
    /// An empty store. Takes no memory.
    pub fn new(alloc: Global, fail: List<u64>) -> MemoryKeeper
        ensures { result ≡ empty_memory fail }
    {
        MemoryKeeper {
            alloc,
            kept: None,
            held: Held::new(alloc),
            under_way: false,
            reads: 0,
            plan: FaultPlan::new(fail),
        }
    }

    /// The number of scans.
    pub fn reads(&self) -> u64
        ensures { result ≡ self.now.reads }
    {
        self.reads
    }

    /// The rows of a table as they were saved last.
    pub fn table(&self, table: u32) -> &List<Numbered>
        requires { HasTable (kept_of self.now.kept) table }
        ensures { result.now ≡ table_at self.now.saved table }
    {
        self.held.saved_table(table)
    }

    /// Whether the schema extends that of the store, which has a fault.
    fn is_faulty(&self, schema: &Schema) -> bool
        ensures faulty { IsTrue result ↔ IsFaulty schema.now self.now }
        ensures sound { IsFalse result → (kept : SchemaOf) → self.now.kept ≡ Some kept → extends schema.now kept ≡ true → AreSound kept self.now.saved }
    {
        let Some(kept) = &self.kept else {
            return false;
        };
        if !schema.extends(kept) {
            return false;
        }
        !self.held.has_low_numbers()
    }

    /// Keeps the schema in an empty store.
    fn take(&mut self, schema: &Schema) -> Result<(), Memory>
        ensures ok { OnOk result (self.new ≡ record self.old { kept = Some schema.now; current = empty_tables schema.now; saved = empty_tables schema.now }) }
        ensures err { OnErr result (self.new ≡ self.old) }
    {
        let kept = schema.copy(self.alloc)?;
        let held = Held::made(self.alloc, schema)?;
        self.kept = Some(kept);
        self.held = held;
        Ok(())
    }

    /// Keeps a schema that extends the kept one, with Absent in each new column.
    fn grow(&mut self, schema: &Schema, kept: Schema) -> Result<(), Memory>
        requires kept { self.old.kept ≡ Some kept }
        requires extends { extends schema.now kept ≡ true }
        requires sound { AreSound kept self.old.saved }
        ensures ok { OnOk result (self.new ≡ record self.old { kept = Some schema.now; current = grown_tables schema.now kept self.old.saved; saved = grown_tables schema.now kept self.old.saved }) }
        ensures err { OnErr result (self.new ≡ self.old) }
    {
        let copy = schema.copy(self.alloc)?;
        let held = self.held.grown(self.alloc, schema, &kept)?;
        self.kept = Some(copy);
        self.held = held;
        Ok(())
    }

    /// Counts a call, which fails where it is listed.
    fn count(&mut self) -> Result<(), KeeperEnd>
        ensures ok { OnOk result (self.new ≡ passed self.old) }
        ensures err { OnErr result (self.new ≡ failed self.old) }
        ensures listed { IsErrOf result KeeperEnd.Failed ↔ Fails self.old.plan }
        ensures no_other { IsErrOf result KeeperEnd.Memory → ⊥ }
        ensures cause { HasCause KeeperEnd.Failed self.old.plan.faults self.new.plan.faults result }
    {
        if self.plan.fails() {
            self.fail();
            return Err(KeeperEnd::Failed);
        }
        self.plan.pass();
        Ok(())
    }

    /// Fails a call.
    fn fail(&mut self)
        ensures counted { self.new ≡ failed self.old }
        ensures later { self.old.plan.faults ≤ self.new.plan.faults }
    {
        self.plan.fail();
        self.give_up();
    }

    /// Gives the transaction up.
    fn give_up(&mut self)
        ensures { self.new ≡ given_up self.old }
    {
        self.held.rollback();
        self.under_way = false;
    }
}

impl Keeper for MemoryKeeper {
    ghost current = { current_of };

    ghost saved = { λ m. Some m.saved };

    ghost kept = { λ m. kept_of m.kept };

    ghost under_way = { λ m. m.under_way };

    ghost reads = { λ m. m.reads };

    ghost faults = { λ m. m.plan.faults };

    ghost commits_in_room = { true };

    ghost at_rest = { λ m rest. Prim.rw rest refl };

    /// Fails exactly where it is listed and where a store whose schema the given one extends has a fault.
    fn attach(&mut self, schema: &Schema) -> Result<Attached, KeeperEnd>
        requires { self.old.under_way ≡ false }
        ensures ok { OnOk result (self.new ≡ attached schema.now self.old) }
        ensures answer { IfOk result (AnswersTo schema.now self.old.kept) }
        ensures sound { IfOk result (λ answer. IsReadyOnly schema.now answer (Some self.new.saved)) }
        ensures listed { IsErrOf result KeeperEnd.Failed ↔ (Fails self.old.plan ⊎ IsFaulty schema.now self.old) }
        ensures failed { IsErrOf result KeeperEnd.Failed → self.new ≡ failed self.old }
        ensures memory { IsErrOf result KeeperEnd.Memory → self.new ≡ passed self.old }
        ensures cause { HasCause KeeperEnd.Failed self.old.plan.faults self.new.plan.faults result }
    {
        if self.plan.fails() || self.is_faulty(schema) {
            self.fail();
            return Err(KeeperEnd::Failed);
        }
        self.plan.pass();
        let Some(kept) = &self.kept else {
            self.take(schema)?;
            return Ok(Attached::Ready);
        };
        let kept = kept.copy(self.alloc)?;
        if schema.extends(&kept) {
            self.grow(schema, kept)?;
            return Ok(Attached::Ready);
        }
        Ok(Attached::Differs(kept))
    }

    /// Takes no memory.
    fn begin(&mut self)
        requires { self.old.under_way ≡ false }
        ensures { self.new ≡ begun self.old }
    {
        self.under_way = true;
    }

    /// Fails exactly where it is listed. The rows are copied.
    fn scan(&mut self, table: u32) -> Result<List<Numbered>, KeeperEnd>
        requires under_way { self.old.under_way ≡ true }
        requires table { HasTable (kept_of self.old.kept) table }
        ensures rows { IfOk result (λ rows. rows ≡ table_at self.old.current table) }
        ensures every_form { IfOk result (λ rows. OfShape (kept_of self.old.kept) table (λ shape. AreRowsOf shape rows)) }
        ensures ok { OnOk result (self.new ≡ passed (read self.old)) }
        ensures listed { IsErrOf result KeeperEnd.Failed ↔ Fails self.old.plan }
        ensures failed { IsErrOf result KeeperEnd.Failed → self.new ≡ failed (read self.old) }
        ensures memory { IsErrOf result KeeperEnd.Memory → self.new ≡ wanting (read self.old) }
        ensures cause { HasCause KeeperEnd.Failed self.old.plan.faults self.new.plan.faults result }
    {
        self.reads = self.reads.saturating_add(1);
        self.count()?;
        match self.held.scan(self.alloc, table) {
            Ok(rows) => Ok(rows),
            Err(_) => {
                self.give_up();
                Err(KeeperEnd::Memory)
            }
        }
    }

    /// Fails exactly where it is listed. The row is copied.
    fn insert(&mut self, table: u32, row: &Row) -> Result<(), KeeperEnd>
        requires under_way { self.old.under_way ≡ true }
        requires table { HasTable (kept_of self.old.kept) table }
        requires row { IsRowOf (kept_of self.old.kept) table row.now }
        requires room { HasNextNumber table self.old.current }
        ensures ok { OnOk result (self.new ≡ changed (inserted table row.now) self.old) }
        ensures listed { IsErrOf result KeeperEnd.Failed ↔ Fails self.old.plan }
        ensures failed { IsErrOf result KeeperEnd.Failed → self.new ≡ failed self.old }
        ensures memory { IsErrOf result KeeperEnd.Memory → self.new ≡ wanting self.old }
        ensures cause { HasCause KeeperEnd.Failed self.old.plan.faults self.new.plan.faults result }
    {
        self.count()?;
        match self.held.insert(self.alloc, table, row) {
            Ok(()) => Ok(()),
            Err(_) => {
                self.give_up();
                Err(KeeperEnd::Memory)
            }
        }
    }

    /// Fails exactly where it is listed. The row is copied.
    fn replace(&mut self, table: u32, number: u64, row: &Row) -> Result<(), KeeperEnd>
        requires under_way { self.old.under_way ≡ true }
        requires table { HasTable (kept_of self.old.kept) table }
        requires row { IsRowOf (kept_of self.old.kept) table row.now }
        requires there { HasRowAt table number self.old.current }
        ensures ok { OnOk result (self.new ≡ changed (replaced table number row.now) self.old) }
        ensures listed { IsErrOf result KeeperEnd.Failed ↔ Fails self.old.plan }
        ensures failed { IsErrOf result KeeperEnd.Failed → self.new ≡ failed self.old }
        ensures memory { IsErrOf result KeeperEnd.Memory → self.new ≡ wanting self.old }
        ensures cause { HasCause KeeperEnd.Failed self.old.plan.faults self.new.plan.faults result }
    {
        self.count()?;
        match self.held.replace(self.alloc, table, number, row) {
            Ok(()) => Ok(()),
            Err(_) => {
                self.give_up();
                Err(KeeperEnd::Memory)
            }
        }
    }

    /// Fails exactly where it is listed.
    fn remove(&mut self, table: u32, number: u64) -> Result<(), KeeperEnd>
        requires under_way { self.old.under_way ≡ true }
        requires table { HasTable (kept_of self.old.kept) table }
        requires there { HasRowAt table number self.old.current }
        ensures ok { OnOk result (self.new ≡ changed (removed table number) self.old) }
        ensures listed { IsErrOf result KeeperEnd.Failed ↔ Fails self.old.plan }
        ensures failed { IsErrOf result KeeperEnd.Failed → self.new ≡ failed self.old }
        ensures memory { IsErrOf result KeeperEnd.Memory → self.new ≡ wanting self.old }
        ensures cause { HasCause KeeperEnd.Failed self.old.plan.faults self.new.plan.faults result }
    {
        self.count()?;
        match self.held.remove(self.alloc, table, number) {
            Ok(()) => Ok(()),
            Err(_) => {
                self.give_up();
                Err(KeeperEnd::Memory)
            }
        }
    }

    /// Fails exactly where it is listed. Takes no memory.
    fn next_number(&mut self, sequence: u32) -> Result<i64, KeeperEnd>
        requires under_way { self.old.under_way ≡ true }
        requires sequence { HasSequence (kept_of self.old.kept) sequence }
        requires room { HasNextDraw sequence self.old.current }
        ensures number { IfOk result (λ n. n ≡ sequence_at self.old.current sequence) }
        ensures ok { OnOk result (self.new ≡ changed (drawn sequence) self.old) }
        ensures listed { IsErrOf result KeeperEnd.Failed ↔ Fails self.old.plan }
        ensures failed { IsErrOf result KeeperEnd.Failed → self.new ≡ failed self.old }
        ensures no_other { IsErrOf result KeeperEnd.Memory → ⊥ }
        ensures cause { HasCause KeeperEnd.Failed self.old.plan.faults self.new.plan.faults result }
    {
        self.count()?;
        Ok(self.held.next_number(sequence))
    }

    /// Fails exactly where it is listed. Takes no memory.
    fn commit(&mut self) -> Result<(), KeeperEnd>
        requires under_way { self.old.under_way ≡ true }
        requires keys { OfSchema (kept_of self.old.kept) (Some self.old.current) MayCommit }
        ensures ok { OnOk result (self.new ≡ committed self.old) }
        ensures listed { IsErrOf result KeeperEnd.Failed ↔ Fails self.old.plan }
        ensures failed { IsErrOf result KeeperEnd.Failed → self.new ≡ failed self.old }
        ensures no_other { IsErrOf result KeeperEnd.Memory → ⊥ }
        ensures cause { HasCause KeeperEnd.Failed self.old.plan.faults self.new.plan.faults result }
    {
        self.count()?;
        self.held.commit();
        self.under_way = false;
        Ok(())
    }

    /// Takes no memory.
    fn rollback(&mut self)
        requires under_way { self.old.under_way ≡ true }
        ensures { self.new ≡ given_up self.old }
    {
        self.give_up();
    }
}
