//! Links stay calm, and carrying messages and solving jobs ends. Laws, as the contracts of calls that do nothing.
ghost use Rattle.run_laws.specs.Following.{WaysFollowSessions};
ghost use Rattle.run_laws.specs.Settling.{CarriesBreakNothing, FewFollow, MessagesAreLight, NewNetworksWeigh, RunsAreCalm, WeighsAtMost, WorkEnds, WorkKeepsIds, WorkWeighsLess};

/// In every run in which no id wraps around, what stands in the two queues of a link follows the start of both of its sessions, and
/// an element or the parent has requests of those neighbours alone whose sessions are open, and asks those alone.
pub fn links_are_calm()
    ensures { RunsAreCalm }
{}

/// In every state of every run an element, or the parent, may send a neighbour requests exactly where a link leads
/// there and its session with it is open.
pub fn ways_follow_sessions()
    ensures { WaysFollowSessions }
{}

/// So no message that is carried takes an inner session down.
pub fn carries_break_nothing()
    ensures { CarriesBreakNothing }
{}

/// In such a run each message that is carried and each job that is solved reduces the weight of the network,
/// so no more of them follow one another than the weight is. Where ids are left for as many requests
/// as the weight at the beginning, none wraps around till the end.
pub fn work_ends()
    ensures less { WorkWeighsLess }
    ensures ends { WorkEnds }
    ensures from_start { WorkKeepsIds }
{}

/// A network that has just been made weighs six for each of its inner links, and sent no request.
pub fn new_networks_weigh()
    ensures { NewNetworksWeigh }
{}

/// In such a run the weight is that of the messages in the inner queues, each of which weighs so much at most, and of few requests;
/// and the settings bound what a message weighs. So a count of 64 bits is enough while 2^47 messages stand
/// in the queues at most.
pub fn weight_is_bounded()
    ensures weighs { WeighsAtMost }
    ensures light { MessagesAreLight }
    ensures few { FewFollow }
{}
