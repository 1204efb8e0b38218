//! What typing gives.
ghost use Rattle.ur_code.specs.Sound.{NeverStuck};

use crate::Code;

/// No call of a route of code that fits its types is stuck: it comes to a page whose links and buttons are calls of
/// routes that answer them, to a program error with such a body, or to a budget that is spent.
pub fn never_stuck(code: &Code)
    ensures { NeverStuck code.now }
{}
