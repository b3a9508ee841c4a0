//! Laws of rooms and of sessions.
ghost use Rattle.network_links.specs.Lengths.{LengthsAreNumbers};
ghost use Rattle.network_links.specs.Ends.{StepsKeepNumber};
ghost use Rattle.network_links.specs.Rooms.{PutLeavesRoom, FirstLeavesRoom, LessLeavesRoom};

/// Room that a queue keeps lasts from call to call: a message uses the room that was kept for it; the first
/// message of a session's own in an empty queue uses none of it, and nor does a message that leaves.
pub fn room_is_left()
    ensures put { PutLeavesRoom }
    ensures first { FirstLeavesRoom }
    ensures less { LessLeavesRoom }
{}

/// No step changes a session's number.
pub fn steps_keep_number()
    ensures { StepsKeepNumber }
{}

/// The lengths are the numbers that the definition says.
pub fn lengths_are_numbers()
    ensures { LengthsAreNumbers }
{}
