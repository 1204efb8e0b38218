ghost use Rattle.ur_typed_faults.specs.Converse.{NoneIsFaulty, NoneProjectIsFaulty};

/// What is not typed has a fault.
pub fn none_is_faulty()
    ensures { NoneIsFaulty }
{}

/// A project that is not typed has a fault.
pub fn none_project_is_faulty()
    ensures { NoneProjectIsFaulty }
{}
