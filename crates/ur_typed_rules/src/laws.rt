ghost use Rattle.ur_typed_rules.specs.Laws.{TypesAreTold, RowsAreDecided, TypesAreDecided, ArgumentsAreDecided, ParamsAreDecided, BranchesAreDecided, NamesAreDecided, PagesAreDecided};

/// Types are the same where their written forms are.
pub fn types_are_told()
    ensures { TypesAreTold }
{}

/// Whether two rows are apart, and whether the pieces of one are apart from each other.
pub fn rows_are_decided()
    ensures { RowsAreDecided }
{}

/// Whether a type and a row may be written in a scope.
pub fn types_are_decided()
    ensures { TypesAreDecided }
{}

/// Whether the constructor arguments of a function are right.
pub fn arguments_are_decided()
    ensures { ArgumentsAreDecided }
{}

/// Whether parameters are right that are static exactly where their types hold an arrow.
pub fn params_are_decided()
    ensures { ParamsAreDecided }
{}

/// Whether the branches of a `case` are all that it needs, none twice.
pub fn branches_are_decided()
    ensures { BranchesAreDecided }
{}

/// Whether the names that are bound together differ.
pub fn names_are_decided()
    ensures { NamesAreDecided }
{}

/// Whether a function is one of pages.
pub fn pages_are_decided()
    ensures { PagesAreDecided }
{}
