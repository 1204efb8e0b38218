ghost use Rattle.ur_kinds.specs.KindedLaws.{EachHasItsKind, FaultyIsNotKinded, OneFaultOfKinds};

/// A source in which a fault is told is not kinded.
pub fn faulty_is_not_kinded()
    ensures { FaultyIsNotKinded }
{}

/// Refusals of one source by its kinds have one code and one place.
pub fn one_fault_of_kinds()
    ensures { OneFaultOfKinds }
{}

/// In a source that is kinded, a written constructor whose names are in scope has the kind that its place wants.
pub fn each_has_its_kind()
    ensures { EachHasItsKind }
{}
