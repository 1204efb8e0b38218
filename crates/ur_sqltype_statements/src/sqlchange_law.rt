//! The law of refusals.
ghost use Rattle.ur_sqltype_statements.specs.SqlchangeFound.{BrokenIsUntyped};

use ur_sqltype::faulty_change_is_none;

/// A change that breaks a rule is no typed change.
pub fn broken_change_is_untyped()
    ensures { BrokenIsUntyped }
{
    faulty_change_is_none();
}
