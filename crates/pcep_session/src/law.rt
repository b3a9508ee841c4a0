//! The law on the order of what a session says.
ghost use Rattle.pcep_session.specs.Order.{KeepsOrder};

/// Over all lists of inputs: a session that is down takes no more actions and said once that it is down, it
/// comes up at most once and only after an Open and a Keepalive of the peer, and it passes messages on
/// only between coming up and going down.
pub fn sessions_keep_order()
    ensures { KeepsOrder }
{}
