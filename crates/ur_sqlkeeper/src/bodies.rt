//! Bodies in a database.
ghost use Rattle.std.specs.Prelude.{◌≡◌, ◌≤◌, true, false, None, is_some, IsTrue, IfOk, OnOk};
ghost use Rattle.ur_base.specs.Counts.{Rose};
ghost use Rattle.sqlite.specs.Held.{state};
ghost use Rattle.ur_sqlkeeper.specs.Rows.{AreKept};
ghost use Rattle.ur_sqlkeeper.specs.Serving.{Connects, Holds, IsFound, IsServing, is_told, told_by};

use crate::honest::Honest;
use crate::reading::{one, read};
use crate::schema::{is_empty, is_ours};
use crate::statements::create;
use crate::writing::write;
use sqlite::{Connection, Error, ErrorCode, File, FileStore, MemStore};
use sqlite_disk::Memory;
use std::marker::Model;
use std::rt::HostRuntime;
use ur_base::{Bytes, List, Text};
use ur_keeper::KeeperEnd;
use ur_keeper_bodies::{Bodies, BodyChange};
use ur_keeper_kept::Kept;

/// Bodies in the one table of a database.
#[derive(Drop)]
pub struct SqlBodies<S: Honest> {
    rt: HostRuntime,
    path: Text,
    conn: Option<Connection<S>>,
    faults: u64,
}

impl<S: Honest> Model for SqlBodies<S> {
    ghost use Rattle.std.specs.Prelude.{◌≡◌, true, IfSome};
    ghost use Rattle.sqlite.specs.Held.{state};
    ghost use Rattle.ur_sqlkeeper.specs.Serving.{IsServing};
    ghost use Rattle.ur_sqlkeeper.specs.Bodies.{SqlState, sql_code};

    ghost Value = { SqlState S };

    ghost coded = { sql_code S.code };

    ghost view = { λ b. record { conn = b.conn; faults = b.faults } };

    ghost invariant = { λ b. S.is_honest ≡ true → IfSome b.conn (λ c. IsServing (state S.Store c)) };
}

/// Tables in a database.
pub type SqlKeeper<S> = Kept<SqlBodies<S>>;

impl SqlBodies<MemStore> {
    /// Bodies in a store in memory, which `open` makes. Takes no memory.
    pub fn in_memory(rt: HostRuntime) -> SqlBodies<MemStore>
        ensures { result ≡ record { conn = None; faults = 0 } }
    {
        SqlBodies::closed(rt, List::new(rt.alloc()))
    }
}

impl SqlBodies<FileStore<Memory>> {
    /// Bodies in new files in memory, which `open` makes. Takes no memory.
    pub fn in_memory_files(rt: HostRuntime) -> SqlBodies<FileStore<Memory>>
        ensures { result ≡ record { conn = None; faults = 0 } }
    {
        SqlBodies::closed(rt, List::new(rt.alloc()))
    }
}

impl SqlBodies<FileStore<File>> {
    /// Bodies in the file at this path, which `open` opens or makes. Takes no memory.
    pub fn in_file(rt: HostRuntime, path: Text) -> SqlBodies<FileStore<File>>
        ensures { result ≡ record { conn = None; faults = 0 } }
    {
        SqlBodies::closed(rt, path)
    }
}

impl<S: Honest + Drop> SqlBodies<S> {
    fn closed(rt: HostRuntime, path: Text) -> SqlBodies<S>
        ensures { result ≡ record { conn = None; faults = 0 } }
    {
        SqlBodies {
            rt,
            path,
            conn: None,
            faults: 0,
        }
    }
}

/// Why a call ends, by the error of the database. All but want of memory is a fault, which is counted.
fn ends(error: &Error, faults: &mut u64) -> KeeperEnd
    ensures later { faults.old ≤ faults.new }
    ensures failed { result ≡ KeeperEnd.Failed → Rose faults.old faults.new }
{
    match error {
        Error::SqliteFailure(ErrorCode::OutOfMemory) => KeeperEnd::Memory,
        _ => fault(faults),
    }
}

/// Counts a fault.
fn fault(faults: &mut u64) -> KeeperEnd
    ensures later { faults.old ≤ faults.new }
    ensures rose { Rose faults.old faults.new }
    ensures failed { result ≡ KeeperEnd.Failed }
{
    *faults = faults.saturating_add(1);
    KeeperEnd::Failed
}

/// A connection to the database, in which the table is made where there is nothing yet. Every other schema is refused,
/// and the database stays as it is.
fn connected<S: Honest + Drop>(rt: &HostRuntime, path: &[u8]) -> Result<Connection<S>, Error>
    ensures { IfOk result (λ c. S.is_honest ≡ true → Connects S.found (state S.Store c)) }
{
    let mut conn = S::connect(rt, path)?;
    prepare(&mut conn)?;
    if serves(&conn) {
        Ok(conn)
    } else {
        Err(Error::SqliteFailure(ErrorCode::NotADatabase))
    }
}

/// Makes the table where there is nothing yet.
fn prepare<S: Honest>(conn: &mut Connection<S>) -> Result<(), Error>
    ensures { S.is_honest ≡ true → IsFound S.found (state S.Store conn.old).now → OnOk result (Holds S.found (state S.Store conn.new).now) }
{
    if !is_empty(conn.schema()) {
        return Ok(());
    }
    create(conn)?;
    Ok(())
}

/// Whether the database is the one table, with no transaction under way.
fn serves<S: Honest>(conn: &Connection<S>) -> bool
    ensures { S.is_honest ≡ true → AreKept ((state S.Store conn.now).now.trees 0) → IsTrue result → IsServing (state S.Store conn.now) }
{
    is_ours(conn.schema()) && conn.is_autocommit()
}

/// Every refusal of the database but want of memory is counted.
impl<S: Honest + Drop> Bodies for SqlBodies<S> {
    ghost bodies = { λ b. told_by S.Store S.is_honest S.found b.conn };

    ghost opened = { λ b. is_some b.conn };

    ghost faults = { λ b. b.faults };

    ghost tells_at_first = { λ _. S.is_honest };

    ghost is_told = { λ b h. is_told _ _ h };

    fn open(&mut self) -> Result<(), KeeperEnd> {
        if self.conn.is_some() {
            return Ok(());
        }
        match connected(&self.rt, self.path.as_slice()) {
            Ok(conn) => {
                self.conn = Some(conn);
                Ok(())
            }
            Err(error) => Err(ends(&error, &mut self.faults)),
        }
    }

    fn read(&mut self, tab: i64) -> Result<List<(i64, Bytes)>, KeeperEnd> {
        let Some(conn) = &mut self.conn else {
            unreachable!()
        };
        match read(self.rt.alloc(), conn, tab) {
            Ok(found) => Ok(found),
            Err(error) => Err(ends(&error, &mut self.faults)),
        }
    }

    fn one(&mut self, tab: i64, num: i64) -> Result<Option<Bytes>, KeeperEnd> {
        let Some(conn) = &mut self.conn else {
            unreachable!()
        };
        match one(conn, tab, num) {
            Ok(found) => Ok(found),
            Err(error) => Err(ends(&error, &mut self.faults)),
        }
    }

    fn write(&mut self, changes: &[BodyChange]) -> Result<(), KeeperEnd> {
        let Some(conn) = &mut self.conn else {
            unreachable!()
        };
        match write(conn, changes) {
            Ok(true) => Ok(()),
            Ok(false) => Err(fault(&mut self.faults)),
            Err(error) => Err(ends(&error, &mut self.faults)),
        }
    }
}
