//! Laws of what a keeper over bodies tells.
ghost use Rattle.std.specs.Prelude.{◌≡◌, true};
ghost use Rattle.ur_keeper.specs.Keeper.{TellsStore};
ghost use Rattle.ur_keeper_kept.specs.Kept.{KeptState, kept_of, saved_of};
ghost use Rattle.ur_keeper_kept.specs.Laws.{IsReopened};

use crate::kept::Kept;
use std::alloc::Global;
use ur_keeper_bodies::Bodies;

/// A keeper over bodies that tell at first tells what its store has. Does nothing.
pub fn bodies_tell<B: Bodies>()
    ensures { (k : KeptState B) → B.tells_at_first k.bodies ≡ true → TellsStore (kept_of B.tells_at_first B.bodies k) (saved_of B.tells_at_first B.bodies k) }
{}

/// A keeper that has had no `attach`, over the same bodies: the text there is the schema's that was kept, and under it the tables are
/// those that were saved. Takes no memory.
pub fn reopened<B: Bodies + Drop>(alloc: Global, kept: Kept<B>) -> Kept<B>
    ensures { B.tells_at_first kept.bodies ≡ true → IsReopened (kept_of B.tells_at_first B.bodies kept) (saved_of B.tells_at_first B.bodies kept) (kept_of B.tells_at_first B.bodies result) }
{
    Kept::new(alloc, kept.into_bodies())
}
