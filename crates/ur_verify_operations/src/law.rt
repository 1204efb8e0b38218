//! Laws of types.
ghost use Rattle.ur_verify_operations.specs.Laws.{ElementsHold};

/// An element that stands in a body or form is of the type of what it holds.
pub fn elements_hold()
    ensures { ElementsHold }
{}
