//! The changes of a transaction.
ghost use Rattle.std.specs.Prelude.{◌≡◌, ◌++◌, ◌∷◌, [], ◌<◌, ◌==◌, ℕ, pos, length, get_or, cond, Some, OnOk};
ghost use Rattle.ur_keeper_kept.specs.Kept.{no_changes};

use std::alloc::Global;
use ur_base::{List, Memory};
use ur_keeper_bodies::BodyChange;

/// The changes of a transaction, the next number of the table that was seen last, and the next number of each sequence
/// that was drawn from, by its place: 0 for one that was not.
#[derive(Drop)]
pub(crate) struct Pending {
    pub(crate) changes: List<BodyChange>,
    pub(crate) seen: Option<(u32, i64)>,
    pub(crate) drawn: List<i64>,
}

impl Pending {
    /// No changes. Takes no memory.
    pub(crate) fn new(alloc: Global) -> Pending
        ensures { result ≡ no_changes }
    {
        Pending {
            changes: List::new(alloc),
            seen: None,
            drawn: List::new(alloc),
        }
    }

    /// One more change, after which this table has this next number.
    pub(crate) fn add(&mut self, change: BodyChange, seen: Option<(u32, i64)>) -> Result<(), Memory>
        ensures { OnOk result (self.new ≡ record { changes = self.old.changes ++ change ∷ []; seen = seen; drawn = self.old.drawn }) }
    {
        self.changes.push(change)?;
        self.seen = seen;
        Ok(())
    }

    /// This table has this next number. Takes no memory.
    pub(crate) fn see(&mut self, table: u32, next: i64)
        ensures { self.new ≡ record { changes = self.old.changes; seen = Some (table, next); drawn = self.old.drawn } }
    {
        self.seen = Some((table, next));
    }

    /// One more change, a draw after which this sequence has this next number.
    pub(crate) fn draw(
        &mut self,
        sequence: u32,
        change: BodyChange,
        next: i64,
    ) -> Result<(), Memory>
        ensures changes { OnOk result (self.new.changes ≡ self.old.changes ++ change ∷ []) }
        ensures seen { OnOk result (self.new.seen ≡ self.old.seen) }
        ensures drawn { OnOk result ((q : ℕ) → get_or self.new.drawn q (pos 0) ≡ cond (q == sequence) next (get_or self.old.drawn q (pos 0))) }
    {
        self.changes.push(change)?;
        put_number(&mut self.drawn, sequence as usize, next)?;
        Ok(())
    }

    /// The next number of a sequence, or 0 where it was not drawn from.
    pub(crate) fn next_of(&self, sequence: u32) -> i64
        ensures { result ≡ get_or self.now.drawn sequence (pos 0) }
    {
        number_at(self.drawn.as_slice(), sequence as usize)
    }
}

/// The number at this place, or 0 where there is none.
fn number_at(numbers: &[i64], place: usize) -> i64
    ensures { result ≡ get_or numbers.now place (pos 0) }
{
    numbers.get(place).copied().unwrap_or(0)
}

/// Puts a number at this place, with 0 at each new one before it.
fn put_number(numbers: &mut List<i64>, place: usize, number: i64) -> Result<(), Memory>
    ensures { OnOk result ((q : ℕ) → get_or numbers.new q (pos 0) ≡ cond (q == place) number (get_or numbers.old q (pos 0))) }
{
    make_room(numbers, place)?;
    numbers.set(place, number);
    Ok(())
}

/// Adds 0 at the end until this place is there.
fn make_room(numbers: &mut List<i64>, place: usize) -> Result<(), Memory>
    ensures room { OnOk result (place < length numbers.new) }
    ensures same { OnOk result ((q : ℕ) → get_or numbers.new q (pos 0) ≡ get_or numbers.old q (pos 0)) }
{
    while numbers.len() <= place {
        numbers.push(0)?;
    }
    Ok(())
}
