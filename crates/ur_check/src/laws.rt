ghost use Rattle.ur_check.specs.Refused.{CausedIsNone};

use ur_kinds::faulty_is_not_kinded;
use ur_typed_faults::faulty_project_is_none;
use ur_typed_laws::none_has_no_source;

/// A project that is refused has no source within the limit.
pub fn caused_is_none()
    ensures { CausedIsNone }
{
    faulty_is_not_kinded();
    faulty_project_is_none();
    none_has_no_source();
}
