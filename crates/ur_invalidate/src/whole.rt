//! The patterns of all queries and changes.
ghost use Rattle.std.specs.Prelude.{All, IfOk};
ghost use Rattle.ur_values.specs.declared.schema.Schema.{Schema};
ghost use Rattle.ur_sql.specs.Typing.{QueryFits, ChangeFits};
ghost use Rattle.ur_conditions.specs.Law.{IsSoundInvalidation};
ghost use Rattle.ur_conditions.specs.Patterns.{AreAllPatterns};

use crate::site::site_patterns;
use std::alloc::Global;
use ur_base::{List, Memory};
use ur_conditions::{Patterns, patterns_keep_answers};
use ur_sql::{Change, Query};

/// The patterns of each change and each query, in order. A pair of more than 65,536 terms takes memory that is not had.
pub fn patterns(
    alloc: Global,
    queries: &List<Query>,
    changes: &List<Change>,
) -> Result<Patterns, Memory>
    requires { (schema : Schema) × All (QueryFits schema) queries.now × All (ChangeFits schema) changes.now }
    ensures patterns { IfOk result (AreAllPatterns queries.now changes.now) }
    ensures sound { IfOk result (λ patterns. (schema : Schema) → All (QueryFits schema) queries.now → All (ChangeFits schema) changes.now → IsSoundInvalidation schema queries.now changes.now patterns) }
{
    patterns_keep_answers();
    let queries = queries.as_slice();
    let changes = changes.as_slice();
    let mut updates = List::new(alloc);
    for change in changes {
        updates.push(site_patterns(alloc, queries, change)?)?;
    }
    Ok(Patterns { updates })
}
