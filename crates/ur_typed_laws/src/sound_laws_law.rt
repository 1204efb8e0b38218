ghost use Rattle.ur_typed_laws.specs.Sound.{CheckedIsTyped};

use crate::{project_statements_fit, typed_is_sound};

/// What is checked by the functions is the typed source of its project.
pub fn checked_is_typed()
    ensures { CheckedIsTyped }
{
    typed_is_sound();
    project_statements_fit();
}
