//! The laws of a cache of answers.
ghost use Rattle.ur_conditions.specs.declared.patterns.Patterns.{Patterns};
ghost use Rattle.ur_conditions.specs.Patterns.{AreAllPatterns};
ghost use Rattle.ur_code.specs.declared.code.Code.{Code};
ghost use Rattle.ur_code.specs.Fits.{Fits};
ghost use Rattle.ur_machine.specs.Answers.{ArePatternsOf};
ghost use Rattle.ur_machine.specs.Laws.{IsKeptAtBegin, IsKeptAtHit, IsKeptAtRead, IsKeptAtChange, IsKeptAtMasks, IsKeptAtDraw, IsKeptAtCommit, IsKeptAtRollback, StepsJoin};

use ur_conditions::{patterns_keep_answers, patterns_read_arguments};

/// Within a transaction the entries are the answers over the saved tables, and those that no mask matches over the current
/// ones: so it is at its begin, and each step keeps it; a commit and a rollback leave answers over what is saved then. The
/// scans of steps add up.
pub fn answers_are_kept()
    ensures begin { (code : Code) → IsKeptAtBegin code }
    ensures hit { (code : Code) → IsKeptAtHit code }
    ensures read { (code : Code) → IsKeptAtRead code }
    ensures change { (code : Code) → IsKeptAtChange code }
    ensures masks { (code : Code) → IsKeptAtMasks code }
    ensures draw { (code : Code) → IsKeptAtDraw code }
    ensures commit { (code : Code) → IsKeptAtCommit code }
    ensures rollback { (code : Code) → IsKeptAtRollback code }
    ensures steps { (code : Code) → StepsJoin code }
{}

/// The patterns of all queries and changes of code that fits have the law of sound invalidation, and read no further than
/// the arguments of their change.
pub fn patterns_are_sound()
    ensures { (code : Code) (patterns : Patterns) → Fits code → AreAllPatterns code.queries code.changes patterns → ArePatternsOf code patterns }
{
    patterns_keep_answers();
    patterns_read_arguments();
}
