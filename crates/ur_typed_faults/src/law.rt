ghost use Rattle.ur_typed.specs.Causes.{FaultyIsNone};
ghost use Rattle.ur_typed.specs.DeclFaults.{FaultyProjectIsNone};

use ur_sqltype::{faulty_change_is_none, faulty_query_is_none};

/// What has a fault is not typed.
pub fn faulty_is_none()
    ensures { FaultyIsNone }
{
    faulty_query_is_none();
    faulty_change_is_none();
}

/// A project that has a fault is not typed.
pub fn faulty_project_is_none()
    ensures { FaultyProjectIsNone }
{
    faulty_query_is_none();
    faulty_change_is_none();
}
