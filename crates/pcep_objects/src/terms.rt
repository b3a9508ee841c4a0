//! The terms of a session.
ghost use Rattle.std.specs.Prelude.{◌≡◌};
ghost use Rattle.pcep_objects.specs.Terms.{agreed_of};

use crate::offer::{Agreed, Offer};

/// What holds for this end of a session (RFC 5440, section 7.3; RFC 8231, section 7.1.1): it sends by
/// its own Keepalive, waits by the DeadTimer of the other end, and is stateful where both are. Takes no
/// memory.
pub fn negotiate(ours: Offer, theirs: Offer) -> Agreed
    ensures { result ≡ agreed_of ours theirs }
{
    Agreed {
        keepalive: ours.keepalive,
        dead: theirs.dead,
        stateful: ours.stateful && theirs.stateful,
    }
}
