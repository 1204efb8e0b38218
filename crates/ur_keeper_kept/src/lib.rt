//! Tables kept in a map of bodies: how they stand in it, and what a change of the map is to the tables.
#![tactic(auto)]

mod attach;
mod checking;
mod growing;
mod kept;
mod laws;
mod pending;
mod reading;
mod starting;
mod stock;
mod work;

ghost use Rattle.ur_keeper_kept.specs.Changes.{AnAddInserts, APutReplaces, ADropRemoves, ANumberIsDrawn};

/// A body that is added as the last of a table inserts its row, one that is put replaces it, and one that is dropped
/// removes it; a next number that is put draws one. All else stays, and the store still reads.
pub fn changes_of_tables()
    ensures inserts { AnAddInserts }
    ensures replaces { APutReplaces }
    ensures removes { ADropRemoves }
    ensures draws { ANumberIsDrawn }
{}

pub use kept::Kept;
pub use laws::{bodies_tell, reopened};
