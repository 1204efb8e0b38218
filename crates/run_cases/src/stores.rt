//! The stores over which a case is run: tables in memory, and tables in a database.
ghost use Rattle.std.specs.Prelude.{◌≡◌, false, IfOk};

use crate::devices::keeper_of;
use crate::start::Fails;
use crate::tables::{put_held, put_saved};
use case_files::Printer;
use sqlite::{FileStore, MemStore};
use sqlite_disk::Memory as MemoryFile;
use std::alloc::Global;
use std::rt::HostRuntime;
use ur_base::Memory;
use ur_keeper::{Keeper, MemoryKeeper};
use ur_keeper_kept::Kept;
use ur_sqlkeeper::{SqlBodies, SqlKeeper};

/// A keeper of which a case tells how often it scanned and what its tables hold.
pub trait Store: Keeper + Sized {
    /// An empty store, whose calls of these numbers fail where it can be told to.
    fn made(rt: HostRuntime, fails: Fails) -> Result<Self, Memory>
        ensures { IfOk result (λ keeper. Self.under_way keeper ≡ false) };

    /// The same store, as one that is opened again where it is a database.
    fn again(self, alloc: Global) -> Self
        requires { Self.under_way self ≡ false }
        ensures { Self.under_way result ≡ false };

    /// The number of scans.
    fn scans(&self) -> u64;

    /// A line for each table that has rows.
    fn put_tables(&mut self, alloc: Global, p: &mut Printer)
        requires { Self.under_way self.old ≡ false };
}

impl Store for MemoryKeeper {
    fn made(rt: HostRuntime, fails: Fails) -> Result<MemoryKeeper, Memory> {
        keeper_of(rt.alloc(), fails)
    }

    fn again(self, alloc: Global) -> MemoryKeeper {
        let _ = alloc;
        self
    }

    fn scans(&self) -> u64 {
        self.reads()
    }

    fn put_tables(&mut self, alloc: Global, p: &mut Printer) {
        put_held(alloc, self, p);
    }
}

impl Store for SqlKeeper<MemStore> {
    fn made(rt: HostRuntime, fails: Fails) -> Result<SqlKeeper<MemStore>, Memory> {
        let _ = fails;
        Ok(Kept::new(rt.alloc(), SqlBodies::in_memory(rt)))
    }

    fn again(self, alloc: Global) -> SqlKeeper<MemStore> {
        Kept::new(alloc, self.into_bodies())
    }

    fn scans(&self) -> u64 {
        self.reads()
    }

    fn put_tables(&mut self, alloc: Global, p: &mut Printer) {
        put_saved(alloc, self, p);
    }
}

impl Store for SqlKeeper<FileStore<MemoryFile>> {
    fn made(rt: HostRuntime, fails: Fails) -> Result<SqlKeeper<FileStore<MemoryFile>>, Memory> {
        let _ = fails;
        Ok(Kept::new(rt.alloc(), SqlBodies::in_memory_files(rt)))
    }

    fn again(self, alloc: Global) -> SqlKeeper<FileStore<MemoryFile>> {
        Kept::new(alloc, self.into_bodies())
    }

    fn scans(&self) -> u64 {
        self.reads()
    }

    fn put_tables(&mut self, alloc: Global, p: &mut Printer) {
        put_saved(alloc, self, p);
    }
}
