//! Laws of what queries and changes stand for.
ghost use Rattle.ur_sqltype.specs.IsQuery.{StatedIsQuery};
ghost use Rattle.ur_sqltype.specs.Change.{StatedIsChange};
ghost use Rattle.ur_sqltype.specs.SqltypeFits.{QueryOfFits, ChangeOfFits};
ghost use Rattle.ur_sqltype.specs.SqltypeFaults.{FaultyQueryIsNone, FaultyChangeIsNone};

use crate::{faulty_is_none, kinded_fits};

/// The core of a query is what the rules say of it.
pub fn stated_is_query()
    ensures { StatedIsQuery }
{}

/// The core of a change is what the rules say of it.
pub fn stated_is_change()
    ensures { StatedIsChange }
{}

/// A query with a fault has no core.
pub fn faulty_query_is_none()
    ensures { FaultyQueryIsNone }
{
    faulty_is_none();
}

/// A change with a fault has no core.
pub fn faulty_change_is_none()
    ensures { FaultyChangeIsNone }
{
    faulty_is_none();
}

/// The core of a query fits its tables.
pub fn query_of_fits()
    ensures { QueryOfFits }
{
    kinded_fits();
}

/// The core of a change fits its table.
pub fn change_of_fits()
    ensures { ChangeOfFits }
{
    kinded_fits();
}
