//! The stores that bodies may stand in, and whether such a store is known to return what was written to it.
ghost use Rattle.std.specs.Prelude.{◌≡◌, Bool, true, false, IsTrue, IfOk};
ghost use Rattle.ur_keeper_bodies.specs.Bodies.{BodyMap};
ghost use Rattle.sqlite.specs.Held.{state};
ghost use Rattle.sqlite.specs.View.{IsClean};
ghost use Rattle.ur_sqlkeeper.specs.Serving.{IsFound};

use sqlite::{Alter, Connection, Error, ErrorCode, File, FileStore, Files, MemStore, Options};
use sqlite_disk::Memory;
use std::rt::HostRuntime;
use std::str;

/// A store of a database. Where it is honest, nobody else writes it and it returns what was written: that is a premise
/// for a file, and proved for a store in memory.
pub trait Honest: Alter {
    /// Whether every state of such a store is clean and open, and a connection to it finds no table or rows that were
    /// written by statements of this crate.
    ghost is_honest: { Bool };

    /// The bodies that a connection finds, where the store is honest.
    ghost found: { BodyMap };

    /// A connection to the store at this path, which is made where there is none.
    fn connect(rt: &HostRuntime, path: &[u8]) -> Result<Connection<Self>, Error>
        ensures { IfOk result (λ c. is_honest ≡ true → IsFound found (state Self.Store c).now) };

    /// A store that is honest stays clean and open.
    ghost stays: { (s : Self) → is_honest ≡ true → IsClean (Self.Store.view s) × IsTrue (Self.Store.view s).is_open };
}

impl Honest for MemStore {
    ghost use Rattle.std.specs.Prelude.{refl};
    ghost use Rattle.std.specs.FinMap.{empty};
    ghost use Rattle.sqlite_trees.proofs.Doubt.{no_doubt};

    ghost is_honest = { true };

    ghost found = { empty };

    ghost stays = { λ _ _. (no_doubt true refl, refl) };

    /// An empty store, whatever the path is.
    fn connect(rt: &HostRuntime, path: &[u8]) -> Result<Connection<MemStore>, Error> {
        let _ = path;
        let conn = Connection::open_in_memory(rt.alloc())?;
        Ok(conn)
    }
}

impl Honest for FileStore<File> {
    ghost use Rattle.ur_sqlkeeper.specs.Serving.{no_bodies};
    ghost use Rattle.std.proofs.Common.{true≢false, sym};

    ghost is_honest = { false };

    ghost found = { no_bodies };

    ghost stays = { λ _ h. absurd (true≢false (sym h)) };

    /// The file at the path.
    fn connect(rt: &HostRuntime, path: &[u8]) -> Result<Connection<FileStore<File>>, Error> {
        match str::from_utf8(path) {
            Ok(path) => Connection::open(rt, path),
            Err(_) => Err(Error::SqliteFailure(ErrorCode::CannotOpen)),
        }
    }
}

/// Files in memory, with the pages and the log of files on a disk.
impl Honest for FileStore<Memory> {
    ghost use Rattle.ur_sqlkeeper.specs.Serving.{no_bodies};
    ghost use Rattle.std.proofs.Common.{true≢false, sym};

    ghost is_honest = { false };

    ghost found = { no_bodies };

    ghost stays = { λ _ h. absurd (true≢false (sym h)) };

    /// New files, whatever the path is.
    fn connect(rt: &HostRuntime, path: &[u8]) -> Result<Connection<FileStore<Memory>>, Error> {
        let _ = path;
        let alloc = rt.alloc();
        let files = Files {
            log: Memory::new(alloc),
            db: Memory::new(alloc),
        };
        match Connection::open_files(alloc, files, Options::new(1)) {
            Ok(conn) => Ok(conn),
            Err((error, _)) => Err(error),
        }
    }
}
