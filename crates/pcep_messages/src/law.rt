//! Laws of splitting and grouping: nothing is lost.
ghost use Rattle.pcep_messages.specs.Wholes.{RepliesAreWhole, ReportsAreWhole, RequestsAreWhole, SplitsWhole};

/// A frame stays alone, or its parts joined are its content, with one RP each.
pub fn splits_are_whole()
    ensures { SplitsWhole }
{}

/// The groups of objects joined are the objects, with at most one RP to each request and reply.
pub fn groups_are_whole()
    ensures requests { RequestsAreWhole }
    ensures replies { RepliesAreWhole }
    ensures reports { ReportsAreWhole }
{}
