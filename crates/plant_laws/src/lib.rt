//! The laws of a network of path computation elements, over all its runs. They are the contracts of calls that do nothing; each
//! statement stands in one file of specs/. Laws that fail once ids wrap around are of the runs in which no element and no parent
//! sends a neighbour more requests than there are ids.
//!
//! And jobs last: a request that can be solved stays as it is until it ends, in every step.
#![tactic(auto)]

ghost use Rattle.plant_laws.specs.Answered.{RequestsAreAnsweredOnce, RequestsAreAnsweredOnceIn};
ghost use Rattle.plant_laws.specs.Certified.{SolvesCertify, SolvesCertifyIn};
ghost use Rattle.plant_laws.specs.Broken.{BrokenForReasons};
ghost use Rattle.plant_laws.specs.Causes.{MessagesHaveCauses, NetworksBegin};
ghost use Rattle.plant_laws.specs.Chains.{OneChain, OneChainIn, QuietHasNonePending, QuietIsAnswered, QuietIsAnsweredIn};
ghost use Rattle.plant_laws.specs.Confined.{RunsAreConfined};
ghost use Rattle.plant_laws.specs.Counted.{ElementIdsDiffer, IdsCount};
ghost use Rattle.plant_laws.specs.Ends.{ChainsEndInside};
ghost use Rattle.plant_laws.specs.Errors.{InnerErrors};
ghost use Rattle.plant_laws.specs.Full.{FullForReasons};
ghost use Rattle.plant_laws.specs.Good.{GoodRequestsAreServed, HasGoodRequest};
ghost use Rattle.plant_laws.specs.Headline.{LeastAnswers, LeastAnswersIn, NoneAnswers, NoneAnswersIn};
ghost use Rattle.plant_laws.specs.Issuing.{ExpandedAreIssued, KeysAreIssued, ToldKeysLast};
ghost use Rattle.plant_laws.specs.Keys.{ExpandsRightly, ExpandsRightlyIn, KeysDiffer};
ghost use Rattle.plant_laws.specs.Matched.{RepliesAnswer, RepliesMatch};
ghost use Rattle.plant_laws.specs.Reading.{OutsideIsRead};
ghost use Rattle.plant_laws.specs.Readings.{MessagesAreRead, RequestsAreRead};
ghost use Rattle.plant_laws.specs.Replies.{LeastReplies, LeastRepliesIn, NoneReplies, NoneRepliesIn, SolvesSendOne};
ghost use Rattle.plant_laws.specs.Resting.{RestIsQuiet};
ghost use Rattle.plant_laws.specs.Runs.{AllIsWritten, InRuns, InRunsOverPcep, InShortRuns, OverPcep, RequestsAreWritten};
ghost use Rattle.plant_laws.specs.Served.{RequestsAreServed};
ghost use Rattle.plant_laws.specs.Solves.{SolvesTell};
ghost use Rattle.plant_laws.specs.Standing.{PinsAreCurrent, QueuesStand};
ghost use Rattle.plant_laws.specs.Steps.{StepsAreOne};
ghost use Rattle.plant_laws.specs.Tables.{OpenIsPending};
ghost use Rattle.plant_laws.specs.Topologies.{PinsAreDomains};
ghost use Rattle.plant_laws.specs.Twins.{TwinWorlds};
ghost use Rattle.plant_laws.specs.UnderWay.{WaitsAreUnderWay, WaitsAreUnderWayIn};
ghost use Rattle.plant_laws.specs.Waiting.{WaitsApart, WaitsAreSent};
ghost use Rattle.plant_laws.specs.WentOn.{NoneGoOut};
ghost use Rattle.plant_laws.specs.Worlds.{AcceptsAsBlind, BorderJoins, SaysAsBlind, SaysOneThing, TwoWorlds};

mod lasting;

pub use lasting::{
    blind_steps_last, jobs_are_kept, keys_are_before, lasts_over_steps, runs_are_in_order,
    steps_last,
};

// ---- steps

/// An event has one answer, one state after it and one list of deeds, unless memory runs out.
pub fn steps_are_one()
    ensures { StepsAreOne }
{}

// ---- least costs

/// Each path that a client is answered is of least cost among all walks through the asked domains in order,
/// each domain as it stood when its element took the request, with the keys of the solves that answered this
/// request; and NO-PATH of nature 0 says that there is none. For a request that went to the parent, which was
/// asked the same, the same over its border graph. Where an outside peer was asked for the domains behind, the
/// walks go on over the rows that it told, as far as they are heeded.
pub fn answers_are_least()
    ensures paths { LeastAnswers }
    ensures none { NoneAnswers }
{}

/// The replies of an element to its neighbours and the parent are, for each entry, of least cost among all
/// walks through the rest of the domains, or over what an outside peer told of them, and an entry without a path
/// has none.
pub fn replies_are_least()
    ensures paths { LeastReplies }
    ensures none { NoneReplies }
{}

// ---- solves

/// Each solve sends one message.
pub fn solves_send_one()
    ensures { SolvesSendOne }
{}

/// What a solve sends, and to whom, by cases: a branch for each entry of the join, that there is none, or
/// that there are too few keys; and the same at the parent.
pub fn solves_tell()
    ensures { SolvesTell }
{}

/// A solve's own rows are right, and each certificate of its job meets the conditions, over the topology that
/// the element had when it took the request, from the seeds that the taken reply gives, of the next domain's
/// element or of the outside peer that was asked for it.
pub fn solves_certify()
    ensures { SolvesCertify }
{}

// ---- requests

/// In a quiet state the chain of each pending request ends at an element that waits on an outside peer, and
/// none is pending at the parent. Where paths go on through no outside peer, none is pending at all.
pub fn quiet_is_answered()
    ensures outside { QuietIsAnswered }
    ensures none { QuietHasNonePending }
{}

/// Each request that waits is in the next's queue, or pending there with the rest of its sequence, or its
/// answer is in the queue back; or it waits on the outside peer that is asked for its next domain.
pub fn waits_are_under_way()
    ensures { WaitsAreUnderWay }
{}

/// Each path request that is accepted is pending, or is answered exactly once, or was dropped as its peer
/// cancelled it or went down. Any other answer under its id answers a message that asks under it anew.
pub fn requests_are_answered_once()
    ensures { RequestsAreAnsweredOnce }
{}

/// A request has one chain.
pub fn one_chain()
    ensures { OneChain }
{}

/// Where paths go on through no outside peer, a chain that an answer is about goes through its whole sequence,
/// to the target.
pub fn chains_end_inside()
    ensures { ChainsEndInside }
{}

// ---- two worlds

/// The best rows of an ask are the join of its border table with the rows that the next domain told, so a
/// border table tells all that a closed peer is told.
pub fn border_joins()
    ensures { BorderJoins }
{}

/// What closed peers hear in a run is what the blind plant says on its disclosed trace, byte for byte and in
/// order; and it accepts each event of that trace.
pub fn says_as_blind()
    ensures says { SaysAsBlind }
    ensures accepts { AcceptsAsBlind }
{}

/// The network without topologies says one thing on a trace whose rows stand in order.
pub fn says_one_thing()
    ensures { SaysOneThing }
{}

/// Two runs with one disclosed trace give closed peers the same bytes.
pub fn two_worlds()
    ensures { TwoWorlds }
{}

/// Two runs that differ in the topologies of one element alone, whose border tables for closed peers are the
/// same, give closed peers the same bytes.
pub fn twin_worlds()
    ensures { TwinWorlds }
{}

// ---- keys

/// A request to expand a key gets the open segment where the peer may see it, and else one and the same
/// refusal.
pub fn expands_rightly()
    ensures { ExpandsRightly }
{}

/// The keys of an element have different numbers, which fit their field.
pub fn keys_differ()
    ensures { KeysDiffer }
{}

/// The solve that issued a key chose the segment that it stands for, and told the key for it.
pub fn keys_are_issued()
    ensures { KeysAreIssued }
{}

/// A key that a solve told is a key of the element for its life, and stands for the segment that the solve
/// chose.
pub fn told_keys_last()
    ensures { ToldKeysLast }
{}

/// Each key that an element has when it takes a message was issued before, so an expansion shows the segment
/// that the solve chose which issued the key.
pub fn expanded_are_issued()
    ensures { ExpandedAreIssued }
{}

// ---- what is sent

/// All that is sent in a run is in written form, so it is read as it was meant.
pub fn all_is_written()
    ensures { InShortRuns AllIsWritten }
{}

/// All requests that are sent in a run are in written form, also where ids wrap around.
pub fn requests_are_written()
    ensures { InRuns RequestsAreWritten }
{}

// ---- what the transcript shows

/// In every state of a run the inner queues hold the texts of the messages that the transcript shows in them.
pub fn queues_stand()
    ensures { QueuesStand }
{}

/// In every state of a run only queues along links hold messages, and only elements have pending requests, besides the
/// parent where there is one, and an outside peer that the settings do not have has no connection.
pub fn runs_are_confined()
    ensures { RunsAreConfined }
{}

/// A network at rest is quiet, so the laws of quiet states hold for it.
pub fn rest_is_quiet()
    ensures { RestIsQuiet }
{}

/// In every state of a run the current pin of an element is of the topology that was last loaded.
pub fn pins_are_current()
    ensures { PinsAreCurrent }
{}

/// In every state of a run each current and each pinned topology obeys the rules of a topology, and is of
/// its element's own domain.
pub fn pins_are_domains()
    ensures { PinsAreDomains }
{}

/// In every run each message that an outside peer's element takes was read from bytes, and came from a peer
/// of the settings.
pub fn outside_is_read()
    ensures { OutsideIsRead }
{}

/// Each message that is taken from an inner queue is the one that stood there first, and requests are taken
/// one at a time.
pub fn messages_are_read()
    ensures { MessagesAreRead }
{}

/// The same of requests alone, also where ids wrap around.
pub fn requests_are_read()
    ensures { RequestsAreRead }
{}

/// The requests that are pending are those that the transcript shows open, each as it was delivered, with
/// the topology that was current then.
pub fn open_is_pending()
    ensures { OpenIsPending }
{}

/// A request that waits at an element was sent on in the moment that delivered it, under the id for which it
/// waits.
pub fn waits_are_sent()
    ensures { WaitsAreSent }
{}

/// No two requests of an element wait for the answer to one id of a peer.
pub fn waits_apart()
    ensures { WaitsApart }
{}

/// The last id of an element towards a neighbour is the number of the requests that it sent there, no request
/// that waits has a greater id, and no id is given twice.
pub fn ids_count()
    ensures counts { IdsCount }
    ensures differ { ElementIdsDiffer }
{}

/// A reply that stands in the queue to an element, under the id for which a row of it waits, answers the
/// very request that the element sent in the moment that opened the row: the reply was put by the deed that
/// ended that request, or that took it and answered at once. The same of each reply that an element takes.
pub fn replies_match()
    ensures standing { RepliesMatch }
    ensures taken { RepliesAnswer }
{}

// ---- causes

/// Each message that an element or the parent sends in a run has its cause, and where the cause holds it
/// is sent.
pub fn messages_have_causes()
    ensures causes { MessagesHaveCauses }
    ensures begin { NetworksBegin }
{}

/// An error between elements and the parent names no request, or answers a reply, or says that the parent
/// serves IPv4 alone; or, between elements, that a chain failed, since an outside peer that was asked does
/// not serve the request. None of their own requests is out of the profile.
pub fn inner_errors()
    ensures { InnerErrors }
{}

/// Each reply of an element, or the parent, that the chain is not available has a reason on the way of its
/// request. Where paths go on through no outside peer, no request goes on to one, and then no reason in these
/// laws is about such a peer.
pub fn broken_for_reasons()
    ensures reasons { BrokenForReasons }
    ensures inside { NoneGoOut }
{}

/// Each notice of an element, or the parent, that there is no room has a reason on the way of its request: a full
/// table, a solve that needs more keys than are free, or an outside peer that was asked and said so.
pub fn full_for_reasons()
    ensures { FullForReasons }
{}

/// In a quiet state each path request that an element accepted had one answer: paths, or that there are none,
/// or that there is no room, or the chain is not available or failed, for a reason on its way; or it was dropped,
/// as its peer cancelled it or went down; or its chain ends at an outside peer that has yet to answer.
pub fn requests_are_served()
    ensures { RequestsAreServed }
{}

/// In the next quiet state an accepted request had its one answer, paths or that there are none, where policy allows
/// each step on its way, over sessions that are up and stay up, with room in each table and keys enough, and where what
/// the parent asks for it is answered, as is what an outside peer is asked for it.
pub fn good_requests_are_served()
    ensures { GoodRequestsAreServed }
{}

/// There are such requests: all these conditions hold together in a run over PCEP, in which a client's request goes
/// through two domains.
pub fn good_requests_exist()
    ensures { HasGoodRequest }
{}

// ---- over PCEP

/// Over the wire of PCEP, with no premises except the rules of settings and the number of ids: the answers to clients and
/// closed peers, certificates, quiet and the requests that wait. And with no premise except the rules of
/// settings: one answer and one chain for each request, and what a key shows to whom.
pub fn laws_over_pcep()
    ensures paths { OverPcep LeastAnswersIn }
    ensures none { OverPcep NoneAnswersIn }
    ensures told { OverPcep LeastRepliesIn }
    ensures told_none { OverPcep NoneRepliesIn }
    ensures certified { OverPcep SolvesCertifyIn }
    ensures quiet { OverPcep QuietIsAnsweredIn }
    ensures under_way { OverPcep WaitsAreUnderWayIn }
    ensures once { InRunsOverPcep RequestsAreAnsweredOnceIn }
    ensures chain { InRunsOverPcep OneChainIn }
    ensures keys { InRunsOverPcep ExpandsRightlyIn }
{}
