//! A request after its last turn.
ghost use Rattle.std.specs.Prelude.{◌≡◌, ◌≤◌, ◌⊎◌, ◌||◌, true, false, [], if◌then◌else◌};
ghost use Rattle.ur_base.specs.Counts.{Rose};
ghost use Rattle.ur_base.specs.Told.{WhereTold};
ghost use Rattle.ur_keeper.specs.Keeper.{OfSchema};
ghost use Rattle.ur_keeper.specs.Tables.{Keeps, MayCommit};
ghost use Rattle.ur_cache.specs.Entries.{settled};
ghost use Rattle.ur_machine.specs.Answers.{AreSavedAnswers, AreCurrentAnswers};
ghost use Rattle.ur_machine.specs.Turning.{IsKeeperUndone};
ghost use Rattle.ur_serve.specs.Ending.{settle_for};
ghost use Rattle.ur_serve.specs.Finishing.{EndsWith, Finishes, IsGivenOr};
ghost use Rattle.ur_serve.specs.Handling.{IsLast};
ghost use Rattle.ur_serve.specs.Replies as words;
ghost use Rattle.ur_serve.specs.Serving.{AreServable};

use crate::Reply;
use crate::ending::end;
use std::alloc::Global;
use ur_base::{Bytes, Memory};
use ur_cache::{Cache, Settle};
use ur_code::Code;
use ur_http::{HttpRequest, Method, respond};
use ur_keeper::{Keeper, KeeperEnd};
use ur_machine::Turn;

/// Builds the answer of the last turn, and ends the transaction: by a commit where the answer to a POST is a page, and else by
/// giving up the tables.
pub(crate) fn finish<K: Keeper>(
    alloc: Global,
    code: &Code,
    keeper: &mut K,
    cache: &mut Cache,
    turn: Turn,
    request: &HttpRequest,
    close: bool,
) -> Reply
    requires last { IsLast turn }
    requires undone { IsKeeperUndone turn (K.saved keeper.old) (K.current keeper.old) (K.under_way keeper.old) }
    requires kept { K.kept keeper.old ≡ Keeps code.now.schema }
    requires servable { K.under_way keeper.old ≡ true → WhereTold (K.current keeper.old) (AreServable code.now.schema) }
    requires saved { AreSavedAnswers code.now (K.saved keeper.old) cache.old }
    requires current { AreCurrentAnswers code.now (K.saved keeper.old) (K.current keeper.old) cache.old }
    ensures finished { Finishes request.now close (K.saved keeper.old) (K.current keeper.old) (K.saved keeper.new) cache.old cache.new turn result }
    ensures answers { AreSavedAnswers code.now (K.saved keeper.new) cache.new }
    ensures masks { cache.new.masks ≡ [] }
    ensures capacity { cache.new.capacity ≡ cache.old.capacity }
    ensures ended { K.under_way keeper.new ≡ false }
    ensures same_schema { K.kept keeper.new ≡ K.kept keeper.old }
    ensures reads { K.reads keeper.new ≡ K.reads keeper.old }
    ensures later { K.faults keeper.old ≤ K.faults keeper.new }
    ensures cause { result ≡ Reply.Keeper → (turn ≡ Turn.Keeper) ⊎ Rose (K.faults keeper.old) (K.faults keeper.new) }
{
    let head_only = is_head(request.method);
    let closes = closes(request, close);
    match turn {
        Turn::Page(page, cookies) => {
            let built = respond(
                alloc,
                200,
                "",
                cookies.as_slice(),
                page.as_slice(),
                head_only,
                closes,
            );
            end_with(code, keeper, cache, built, is_post(request.method))
        }
        Turn::Failed(page) => {
            let built = respond(alloc, 500, "", &[], page.as_slice(), head_only, closes);
            end_with(code, keeper, cache, built, false)
        }
        Turn::Keeper => {
            cache.settle(Settle::Rollback);
            Reply::Keeper
        }
        Turn::Memory => {
            cache.settle(Settle::Rollback);
            Reply::Memory
        }
        Turn::More => unreachable!(),
    }
}

/// Whether the head alone is answered.
pub(crate) fn is_head(method: Method) -> bool
    ensures { result ≡ words.is_head method }
{
    match method {
        Method::Head => true,
        _ => false,
    }
}

/// Whether the answer closes its connection.
pub(crate) fn closes(request: &HttpRequest, close: bool) -> bool
    ensures { result ≡ (request.now.close || close) }
{
    request.close || close
}

pub(crate) fn is_post(method: Method) -> bool
    ensures { result ≡ words.is_post method }
{
    match method {
        Method::Post => true,
        _ => false,
    }
}

/// Ends the transaction and gives the answer that was built; without one the tables are given up.
fn end_with<K: Keeper>(
    code: &Code,
    keeper: &mut K,
    cache: &mut Cache,
    built: Result<Bytes, Memory>,
    saves: bool,
) -> Reply
    requires under_way { K.under_way keeper.old ≡ true }
    requires keys { OfSchema (K.kept keeper.old) (K.current keeper.old) MayCommit }
    requires saved { AreSavedAnswers code.now (K.saved keeper.old) cache.old }
    requires current { AreCurrentAnswers code.now (K.saved keeper.old) (K.current keeper.old) cache.old }
    ensures given { EndsWith built ((K.saved keeper.new ≡ (if saves then K.current keeper.old else K.saved keeper.old)) × (cache.new ≡ settled cache.old (settle_for saves))) (K.saved keeper.new ≡ K.saved keeper.old) result }
    ensures answers { AreSavedAnswers code.now (K.saved keeper.new) cache.new }
    ensures masks { cache.new.masks ≡ [] }
    ensures capacity { cache.new.capacity ≡ cache.old.capacity }
    ensures ended { K.under_way keeper.new ≡ false }
    ensures same_schema { K.kept keeper.new ≡ K.kept keeper.old }
    ensures reads { K.reads keeper.new ≡ K.reads keeper.old }
    ensures later { K.faults keeper.old ≤ K.faults keeper.new }
    ensures cause { result ≡ Reply.Keeper → Rose (K.faults keeper.old) (K.faults keeper.new) }
    // Where a commit takes no memory, an answer that was built is given, unless the count rose.
    ensures in_room { K.commits_in_room ≡ true → IsGivenOr (Rose (K.faults keeper.old) (K.faults keeper.new)) built result }
{
    match built {
        Ok(bytes) => match end(code, keeper, cache, saves) {
            Ok(()) => Reply::Done(bytes),
            Err(end) => match end {
                KeeperEnd::Failed => Reply::Keeper,
                KeeperEnd::Memory => Reply::Memory,
            },
        },
        Err(_memory) => {
            give_up(code, keeper, cache);
            Reply::Memory
        }
    }
}

/// Gives up the tables, and the masks with them. The code is there for the contract.
pub(crate) fn give_up<K: Keeper>(code: &Code, keeper: &mut K, cache: &mut Cache)
    requires under_way { K.under_way keeper.old ≡ true }
    requires saved { AreSavedAnswers code.now (K.saved keeper.old) cache.old }
    ensures unsaved { K.saved keeper.new ≡ K.saved keeper.old }
    ensures answers { AreSavedAnswers code.now (K.saved keeper.new) cache.new }
    ensures masks { cache.new.masks ≡ [] }
    ensures capacity { cache.new.capacity ≡ cache.old.capacity }
    ensures ended { K.under_way keeper.new ≡ false }
    ensures same_schema { K.kept keeper.new ≡ K.kept keeper.old }
    ensures reads { K.reads keeper.new ≡ K.reads keeper.old }
    ensures later { K.faults keeper.old ≤ K.faults keeper.new }
{
    let _ = code;
    keeper.rollback();
    cache.settle(Settle::Rollback);
}
