//! What taking a number off one list, or putting it in front, does to that list and to others.
ghost use Rattle.std.specs.Prelude.{◌≡◌};
ghost use Rattle.ur_cacheindex.specs.Chains.{TakesOff, PutsFront, TakenElsewhere, PutElsewhere};

/// A number that is taken off its list.
pub fn a_number_goes()
    ensures { TakesOff }
{}

/// A number that is put in front of a list.
pub fn a_number_comes()
    ensures { PutsFront }
{}

/// The lists that have no neighbour of a number that goes stay.
pub fn other_lists_stay()
    ensures { TakenElsewhere }
{}

/// The lists that have neither a number that comes nor the first of its list stay.
pub fn other_lists_stay_too()
    ensures { PutElsewhere }
{}
