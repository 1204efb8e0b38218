//! The laws of patterns.
ghost use Rattle.std.specs.Prelude.{All, List};
ghost use Rattle.ur_values.specs.declared.schema.Schema.{Schema};
ghost use Rattle.ur_sql.specs.declared.query.Query.{Query};
ghost use Rattle.ur_sql.specs.declared.change.Change.{Change};
ghost use Rattle.ur_sql.specs.Typing.{QueryFits, ChangeFits};
ghost use Rattle.ur_conditions.specs.declared.patterns.Patterns.{Patterns};
ghost use Rattle.ur_conditions.specs.Patterns.{AreAllPatterns};
ghost use Rattle.ur_conditions.specs.Law.{IsSoundInvalidation, ReadArguments};

/// Where no mask of an update that is run matches a key, the answer at the key is the same before and after:
/// so it is for the patterns of typed queries and changes.
pub fn patterns_keep_answers()
    ensures { (schema : Schema) (queries : List Query) (changes : List Change) (patterns : Patterns) → All (QueryFits schema) queries → All (ChangeFits schema) changes → AreAllPatterns queries changes patterns → IsSoundInvalidation schema queries changes patterns }
{}

/// The patterns of typed queries and changes read no further than the arguments of their update, and their constants are
/// ints, bools and texts.
pub fn patterns_read_arguments()
    ensures { (schema : Schema) (queries : List Query) (changes : List Change) (patterns : Patterns) → All (QueryFits schema) queries → All (ChangeFits schema) changes → AreAllPatterns queries changes patterns → ReadArguments changes patterns }
{}
