//! The laws of streams and their messages.
ghost use Rattle.pcep_framing.specs.Frames.{FeedsJoin, AreFramesOnce};
ghost use Rattle.pcep_framing.specs.Feeding.{FeedsAsSaid};

/// The messages that a framer returns over any pieces are the messages of the pieces joined; and it is
/// bad exactly from the piece on that completes a bad header.
pub fn feeds_join()
    ensures { FeedsJoin }
{}

/// No stream has two lists of messages.
pub fn frames_are_one()
    ensures { AreFramesOnce }
{}

/// The relation and the function of one feed are the same.
pub fn feeds_as_said()
    ensures { FeedsAsSaid }
{}
