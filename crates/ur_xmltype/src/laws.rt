//! What is refused has no answer.
ghost use Rattle.ur_xmltype.specs.Laws.{BadTagIsNone, BadFrameIsNone, MeetingIsNotApart};

/// A tag that is refused is none at its place.
pub fn bad_tag_is_none()
    ensures { BadTagIsNone }
{}

/// A literal that is refused has not the frame of its sort.
pub fn bad_frame_is_none()
    ensures { BadFrameIsNone }
{}

/// A row that is refused has parts that are not apart from each other.
pub fn meeting_is_not_apart()
    ensures { MeetingIsNotApart }
{}
