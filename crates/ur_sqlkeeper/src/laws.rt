//! Laws of what keepers over databases tell.
ghost use Rattle.std.specs.Prelude.{◌≡◌, true};
ghost use Rattle.sqlite.specs.Steps.{over_memory};
ghost use Rattle.ur_keeper.specs.Keeper.{TellsStore};
ghost use Rattle.ur_keeper.specs.Tables.{Empty};
ghost use Rattle.ur_keeper_kept.specs.Kept.{KeptState, kept_of, saved_of};
ghost use Rattle.ur_sqlkeeper.specs.Bodies.{SqlState};
ghost use Rattle.ur_sqlkeeper.specs.Serving.{told_by, kept_in_memory, saved_in_memory};

use crate::bodies::{SqlBodies, SqlKeeper};
use crate::honest::Honest;
use sqlite::MemStore;
use std::rt::HostRuntime;
use ur_keeper_kept::Kept;

/// A keeper over a store that is honest tells what the store has, before its first `attach` too. Does nothing.
pub fn honest_stores_tell<S: Honest>()
    ensures { S.is_honest ≡ true → (k : KeptState (SqlState S)) → TellsStore (kept_of (λ b. S.is_honest) (λ b. told_by S.Store S.is_honest S.found b.conn) k) (saved_of (λ b. S.is_honest) (λ b. told_by S.Store S.is_honest S.found b.conn) k) }
{}

/// A keeper over a new store in memory. Takes no memory.
pub fn keeper_in_memory(rt: HostRuntime) -> SqlKeeper<MemStore>
    ensures empty { kept_in_memory result ≡ Empty }
    ensures tells { TellsStore (kept_in_memory result) (saved_in_memory result) }
{
    Kept::new(rt.alloc(), SqlBodies::in_memory(rt))
}
