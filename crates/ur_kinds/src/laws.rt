ghost use Rattle.ur_kinds.specs.Laws.{OneKind, KindedIsKnown};

/// A constructor has at most one kind.
pub fn one_kind()
    ensures { OneKind }
{}

/// What has a kind has no unknown name.
pub fn kinded_is_known()
    ensures { KindedIsKnown }
{}
