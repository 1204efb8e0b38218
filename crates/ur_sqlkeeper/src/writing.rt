//! Changes of bodies in one transaction.
ghost use Rattle.std.specs.Prelude.{◌≡◌, true, false, Ok, IsTrue, IfOk, OnErr};
ghost use Rattle.sqlite.specs.Held.{state};
ghost use Rattle.ur_keeper_bodies.specs.Bodies.{CanWrite, CanWriteOne, written, written_one};
ghost use Rattle.ur_sqlkeeper.specs.Rows.{map_in};
ghost use Rattle.ur_sqlkeeper.specs.Serving.{IsOurs, IsServing, IsStill, Makes};

use crate::honest::Honest;
use crate::statements::{add, put, take};
use sqlite::{Connection, Error, Transaction};
use ur_keeper_bodies::BodyChange;

/// Makes all changes or none. It answers false where it made none, since a transaction was under way or a change was of
/// another number of rows than one.
pub(crate) fn write<S: Honest>(
    conn: &mut Connection<S>,
    changes: &[BodyChange],
) -> Result<bool, Error>
    ensures done { S.is_honest ≡ true → IsServing (state S.Store conn.old) → CanWrite (map_in ((state S.Store conn.old).now.trees 0)) changes.now
        → IfOk result (λ done. IsTrue done → IsServing (state S.Store conn.new) × (map_in ((state S.Store conn.new).now.trees 0) ≡ written (map_in ((state S.Store conn.old).now.trees 0)) changes.now)) }
    ensures none { S.is_honest ≡ true → IsServing (state S.Store conn.old) → CanWrite (map_in ((state S.Store conn.old).now.trees 0)) changes.now
        → IfOk result (λ done. done ≡ false → IsStill (state S.Store conn.old).now (state S.Store conn.new)) }
    ensures failed { S.is_honest ≡ true → IsServing (state S.Store conn.old) → CanWrite (map_in ((state S.Store conn.old).now.trees 0)) changes.now
        → OnErr result (IsStill (state S.Store conn.old).now (state S.Store conn.new)) }
{
    if !conn.is_autocommit() {
        return Ok(false);
    }
    let mut transaction = conn.transaction();
    if !write_each(&mut transaction, changes)? {
        return Ok(false);
    }
    transaction.commit()?;
    Ok(true)
}

/// Makes the changes in order. It ends at one that is of another number of rows than one.
fn write_each<S: Honest>(
    transaction: &mut Transaction<'_, S>,
    changes: &[BodyChange],
) -> Result<bool, Error>
    ensures same_reference { transaction.new.conn.ghost_name ≡ transaction.old.conn.ghost_name }
    ensures made { S.is_honest ≡ true → IsTrue (state S.Store transaction.old.conn.now).in_transaction → IsOurs (state S.Store transaction.old.conn.now).now
        → CanWrite (map_in ((state S.Store transaction.old.conn.now).now.trees 0)) changes.now
        → IfOk result (λ done. IsTrue done → Makes (λ m. written m changes.now) (state S.Store transaction.old.conn.now) (state S.Store transaction.new.conn.now)) }
    ensures kept { S.is_honest ≡ true → (state S.Store transaction.new.conn.now).committed ≡ (state S.Store transaction.old.conn.now).committed }
{
    for change in changes {
        if write_one(transaction, change)? != 1 {
            return Ok(false);
        }
    }
    Ok(true)
}

/// Makes one change. How many rows it changed.
fn write_one<S: Honest>(
    transaction: &mut Transaction<'_, S>,
    change: &BodyChange,
) -> Result<usize, Error>
    ensures same_reference { transaction.new.conn.ghost_name ≡ transaction.old.conn.ghost_name }
    ensures made { S.is_honest ≡ true → IsTrue (state S.Store transaction.old.conn.now).in_transaction → IsOurs (state S.Store transaction.old.conn.now).now
        → CanWriteOne (map_in ((state S.Store transaction.old.conn.now).now.trees 0)) change.now
        → result ≡ Ok 1 → Makes (λ m. written_one m change.now) (state S.Store transaction.old.conn.now) (state S.Store transaction.new.conn.now) }
    ensures kept { S.is_honest ≡ true → (state S.Store transaction.new.conn.now).committed ≡ (state S.Store transaction.old.conn.now).committed }
{
    match change {
        BodyChange::Add(tab, num, body) => add(transaction, *tab, *num, body.as_slice()),
        BodyChange::Put(tab, num, body) => put(transaction, *tab, *num, body.as_slice()),
        BodyChange::Drop(tab, num) => take(transaction, *tab, *num),
    }
}
