//! The law of variables that are not read.
ghost use Rattle.ur_machine_frames.specs.Laws.{UnreadComesAlike, UnreadCostsAlike};

/// A term comes to the same, in as many steps, whatever a variable holds that it does not read.
pub fn unread_variables_are_not_seen()
    ensures comes { UnreadComesAlike }
    ensures costs { UnreadCostsAlike }
{}
