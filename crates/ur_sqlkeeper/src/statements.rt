//! The statements of the store, over any connection. Each function makes one call.
ghost use Rattle.std.specs.Prelude.{◌≡◌, [], true, Ok, IsTrue, IfOk, OnOk, codes};
ghost use Rattle.sqlite.specs.Held.{state};
ghost use Rattle.std.specs.FinMap.{insert, remove};
ghost use Rattle.ur_keeper_bodies.specs.declared.bodies.BodyChange.TheVariants as change;
ghost use Rattle.ur_keeper_bodies.specs.Bodies.{CanWriteOne};
ghost use Rattle.ur_sqlkeeper.specs.Table.{no_schema};
ghost use Rattle.ur_sqlkeeper.specs.Rows.{map_in, ShowsTable, ShowsPlace};
ghost use Rattle.ur_sqlkeeper.specs.Serving.{IsOurs, IsServing, IsStill, Makes};

use crate::honest::Honest;
use sqlite::{Connection, Error, Row, Transaction, params};

/// Makes the table, where there is none.
pub(crate) fn create<S: Honest>(conn: &mut Connection<S>) -> Result<usize, Error>
    ensures { S.is_honest ≡ true → (state S.Store conn.old).now.schema ≡ no_schema → OnOk result ((state S.Store conn.new).now.trees 0 ≡ []) }
{
    conn.execute(
        "CREATE TABLE IF NOT EXISTS ur_row (Tab INTEGER NOT NULL, Num INTEGER NOT NULL, Body BLOB NOT NULL, PRIMARY KEY (Tab, Num))",
        &[],
    )
}

/// The numbers and bodies of one table.
pub(crate) fn rows_of<S: Honest>(conn: &mut Connection<S>, tab: i64) -> Result<Vec<Row>, Error>
    ensures rows { S.is_honest ≡ true → IsOurs (state S.Store conn.old).now → IfOk result (λ rows. ShowsTable ((state S.Store conn.old).now.trees 0) tab rows.items) }
    ensures still { S.is_honest ≡ true → IsServing (state S.Store conn.old) → IsStill (state S.Store conn.old).now (state S.Store conn.new) }
{
    conn.query_all(
        "SELECT Num, Body FROM ur_row WHERE Tab = ?1 ORDER BY Num",
        params![tab],
    )
}

/// The bodies at one place, of which there is one at most.
pub(crate) fn rows_at<S: Honest>(
    conn: &mut Connection<S>,
    tab: i64,
    num: i64,
) -> Result<Vec<Row>, Error>
    ensures rows { S.is_honest ≡ true → IsOurs (state S.Store conn.old).now → IfOk result (λ rows. ShowsPlace ((state S.Store conn.old).now.trees 0) (tab, num) rows.items) }
    ensures still { S.is_honest ≡ true → IsServing (state S.Store conn.old) → IsStill (state S.Store conn.old).now (state S.Store conn.new) }
{
    conn.query_all(
        "SELECT Body FROM ur_row WHERE Tab = ?1 AND Num = ?2",
        params![tab, num],
    )
}

/// Adds a body. How many rows were added.
pub(crate) fn add<S: Honest>(
    transaction: &mut Transaction<'_, S>,
    tab: i64,
    num: i64,
    body: &[u8],
) -> Result<usize, Error>
    ensures same_reference { transaction.new.conn.ghost_name ≡ transaction.old.conn.ghost_name }
    ensures made { S.is_honest ≡ true → IsTrue (state S.Store transaction.old.conn.now).in_transaction → IsOurs (state S.Store transaction.old.conn.now).now
        → CanWriteOne (map_in ((state S.Store transaction.old.conn.now).now.trees 0)) (change.Add tab num body.now)
        → result ≡ Ok 1 → Makes (λ m. insert m (tab, num) body.now) (state S.Store transaction.old.conn.now) (state S.Store transaction.new.conn.now) }
    ensures kept { S.is_honest ≡ true → (state S.Store transaction.new.conn.now).committed ≡ (state S.Store transaction.old.conn.now).committed }
{
    transaction.execute(
        "INSERT INTO ur_row (Tab, Num, Body) VALUES (?1, ?2, ?3)",
        params![tab, num, body],
    )
}

/// Puts another body in the place of one. How many rows were changed.
pub(crate) fn put<S: Honest>(
    transaction: &mut Transaction<'_, S>,
    tab: i64,
    num: i64,
    body: &[u8],
) -> Result<usize, Error>
    ensures same_reference { transaction.new.conn.ghost_name ≡ transaction.old.conn.ghost_name }
    ensures made { S.is_honest ≡ true → IsTrue (state S.Store transaction.old.conn.now).in_transaction → IsOurs (state S.Store transaction.old.conn.now).now
        → result ≡ Ok 1 → Makes (λ m. insert m (tab, num) body.now) (state S.Store transaction.old.conn.now) (state S.Store transaction.new.conn.now) }
    ensures kept { S.is_honest ≡ true → (state S.Store transaction.new.conn.now).committed ≡ (state S.Store transaction.old.conn.now).committed }
{
    transaction.execute(
        "UPDATE ur_row SET Body = ?3 WHERE Tab = ?1 AND Num = ?2",
        params![tab, num, body],
    )
}

/// Takes a body away. How many rows were taken away.
pub(crate) fn take<S: Honest>(
    transaction: &mut Transaction<'_, S>,
    tab: i64,
    num: i64,
) -> Result<usize, Error>
    ensures same_reference { transaction.new.conn.ghost_name ≡ transaction.old.conn.ghost_name }
    ensures made { S.is_honest ≡ true → IsTrue (state S.Store transaction.old.conn.now).in_transaction → IsOurs (state S.Store transaction.old.conn.now).now
        → result ≡ Ok 1 → Makes (λ m. remove m (tab, num)) (state S.Store transaction.old.conn.now) (state S.Store transaction.new.conn.now) }
    ensures kept { S.is_honest ≡ true → (state S.Store transaction.new.conn.now).committed ≡ (state S.Store transaction.old.conn.now).committed }
{
    transaction.execute(
        "DELETE FROM ur_row WHERE Tab = ?1 AND Num = ?2",
        params![tab, num],
    )
}
