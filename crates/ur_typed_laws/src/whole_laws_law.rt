ghost use Rattle.ur_typed_laws.specs.Walked.{SourceIsWalked, OneSource};

/// What an expression resolves to, of a type by the rules, is what the walk gives.
pub fn source_is_walked()
    ensures { SourceIsWalked }
{}

/// An expression has at most one source and one type by the rules.
pub fn one_source()
    ensures { OneSource }
{}
