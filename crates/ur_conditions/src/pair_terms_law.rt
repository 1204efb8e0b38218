//! The law that the terms of a pair are few.
ghost use Rattle.std.specs.Prelude.{All};
ghost use Rattle.ur_sql.specs.declared.query.Query.{Query};
ghost use Rattle.ur_sql.specs.declared.change.Change.{Change};
ghost use Rattle.ur_conditions.specs.Pairs.{pairs_of};
ghost use Rattle.ur_conditions.specs.Few.{AreLimited, HasFewTerms};

/// Each pair of a query and a change within the limits of statements has fewer than 65,536 different terms, so a closure
/// has a number for each.
pub fn pairs_have_few_terms()
    ensures { (q : Query) (u : Change) → AreLimited q u → All HasFewTerms (pairs_of q u) }
{}
