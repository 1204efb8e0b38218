ghost use Rattle.ur_typed_laws.specs.One.{LargerLimit, OneTypedSource};

/// A typed source within a limit is one within any larger limit.
pub fn larger_limit()
    ensures { LargerLimit }
{}

/// A project has at most one typed source.
pub fn one_typed_source()
    ensures { OneTypedSource }
{}
