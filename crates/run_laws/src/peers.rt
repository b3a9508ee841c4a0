//! What outside peers are handed, what they read of it, and what is taken from them: in every run, what was put there for a peer, and
//! what it fed. Laws, as the contracts of calls that do nothing.
ghost use Rattle.run_laws.specs.Inlets.{TakenWasFed};
ghost use Rattle.run_laws.specs.Outlets.{DrainsHandOutAll, OutletsStand};
ghost use Rattle.run_laws.specs.Received.{AnswersAreRight, HandedIsRead};

/// In every state of a run a connection is open just where the transcript shows it open, and the peer that opened it holds it. What
/// its drains handed out, and behind that what waits, is what was put there for it since its Open, in order: nothing else, nothing
/// twice, and nothing is lost until it is shut.
pub fn outlets_stand()
    ensures { OutletsStand }
{}

/// A drain that is accepted comes from the holder, and hands out all that waits: what drains handed out is then all that was put
/// there for the connection since its Open.
pub fn drains_hand_out_all()
    ensures { DrainsHandOutAll }
{}

/// In every run in which no id wraps around: cut into frames, what drains hand out over a connection and what waits there are just the
/// messages that were put there for it, each read as it was meant.
pub fn handed_is_read()
    ensures { HandedIsRead }
{}

/// Each answer among them, to a client's request for a path, is one of those that the headline of the laws speaks of: a path is feasible
/// and least along the chain of the request that was open under its id, and NO-PATH of nature 0 says that there is none.
pub fn answers_are_right()
    ensures { AnswersAreRight }
{}

/// Each message that is taken from an outside peer in a run is what is heeded of one that is read from a part of a whole message of a stream that this peer fed,
/// from an Open of its connection on.
pub fn taken_was_fed()
    ensures { TakenWasFed }
{}
