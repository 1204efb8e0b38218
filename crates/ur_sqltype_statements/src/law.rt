//! The law of refusals.
ghost use Rattle.ur_sqltype_statements.specs.Found.{BrokenIsUntyped};

use ur_sqltype::faulty_query_is_none;

/// A query that breaks a rule is no typed query.
pub fn broken_query_is_untyped()
    ensures { BrokenIsUntyped }
{
    faulty_query_is_none();
}
