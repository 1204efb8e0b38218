ghost use Rattle.ur_sqltype.specs.SqltableFaults.{BrokenIsNone};

/// What breaks a rule of tables has no shape.
pub fn broken_is_none()
    ensures { BrokenIsNone }
{}
