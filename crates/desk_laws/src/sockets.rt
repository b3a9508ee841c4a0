//! What a session writes.
ghost use Rattle.desk_laws.specs.Closed.{PutIsSaidBlindly};
ghost use Rattle.desk_laws.specs.Written.{WrittenWasPut};

/// What a session at a desk writes over its link is a first part of the messages that the run of the network put for that peer since its
/// connection was opened, where no other desk opens or drains it. So what is proved of runs holds of it: cut into frames these are
/// just those messages, and what a client is answered in them is right.
pub fn written_was_put()
    ensures { WrittenWasPut }
{}

/// What a run puts for a closed peer is what the network without topologies says for that peer on the disclosed trace. So what a session
/// writes to such a peer depends on nothing else.
pub fn put_is_said_blindly()
    ensures { PutIsSaidBlindly }
{}
