//! Laws on the items that bytes begin with.
ghost use Rattle.std.specs.Prelude.{ℕ, List};
ghost use Rattle.ur_serve.specs.Fronts.{OneFront};

/// The items that bytes begin with are fixed by their number, and so is what is left; and where there is a list of all items
/// and the input ends behind a front, the front is all of it. Does nothing.
pub fn one_front()
    ensures { (bytes : List ℕ) → OneFront bytes }
{}
