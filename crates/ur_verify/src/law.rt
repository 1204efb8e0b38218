//! Laws of types.
ghost use Rattle.ur_verify.specs.Laws.{TypesAreUnique, MisfitsAreCauses};

/// A term has at most one type.
pub fn types_are_unique()
    ensures { TypesAreUnique }
{}

/// Code of which something is said at a place, as a refusal says it, does not fit.
pub fn misfits_are_causes()
    ensures { MisfitsAreCauses }
{}
