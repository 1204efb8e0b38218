ghost use Rattle.ur_typed_laws.specs.Given.{NoneHasNoSource, SourceIsMade, TypedIsGiven};

/// The function of a project gives each project that has a typed source what the source is put together of.
pub fn typed_is_given()
    ensures { TypedIsGiven }
{}

/// A project of which the function gives nothing has no typed source.
pub fn none_has_no_source()
    ensures { NoneHasNoSource }
{}

/// The typed source of a project is put together of just what the function gives.
pub fn source_is_made()
    ensures { SourceIsMade }
{}
