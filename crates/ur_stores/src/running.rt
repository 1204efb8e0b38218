//! A run with the keeper of its tables.
ghost use Rattle.std.specs.Prelude.{◌≡◌, true, Some};
ghost use Rattle.ur_keeper.specs.Memory.{no_tables};
ghost use Rattle.ur_keeper.specs.Tables.{Empty};
ghost use Rattle.ur_stores.specs.Stores.{ServesFrom, ServesStore};
ghost use Rattle.ur_top.specs.Sources.{asked, ForApplication};

use std::alloc::Global;
use ur_base::List;
use ur_io::{Shelf, Sink, Wire};
use ur_keeper::MemoryKeeper;
use ur_keeper_kept::Kept;
use ur_sqlkeeper::{Honest, SqlBodies, SqlKeeper, honest_stores_tell};
use ur_top::{Outcome, run};

/// A run over tables in memory, and its keeper afterwards.
pub fn run_in_memory<F: Shelf, W: Wire, O: Sink>(
    alloc: Global,
    words: &[String],
    shelf: &mut F,
    wire: &mut W,
    out: &mut O,
) -> (Outcome, MemoryKeeper)
    ensures serves { ForApplication (F.told shelf.old) (asked words.now)
        (λ s app. ServesFrom app s Empty (Some no_tables) (Some result.1.saved) result.1.reads W.told wire.old wire.new result.0) }
{
    let mut keeper = MemoryKeeper::new(alloc, List::new(alloc));
    let outcome = run(alloc, words, shelf, wire, &mut keeper, out);
    (outcome, keeper)
}

/// A run over tables in a database, and its keeper afterwards. Where the store is honest, what it has at first is what a connection finds.
pub fn run_over<S: Honest + Drop, F: Shelf, W: Wire, O: Sink>(
    alloc: Global,
    words: &[String],
    shelf: &mut F,
    wire: &mut W,
    bodies: SqlBodies<S>,
    out: &mut O,
) -> (Outcome, SqlKeeper<S>)
    ensures serves { S.is_honest ≡ true → ForApplication (F.told shelf.old) (asked words.now)
        (λ s app. ServesStore S.Store S.found bodies app s result.1 W.told wire.old wire.new result.0) }
{
    honest_stores_tell::<S>();
    let mut keeper = Kept::new(alloc, bodies);
    let outcome = run(alloc, words, shelf, wire, &mut keeper, out);
    (outcome, keeper)
}
