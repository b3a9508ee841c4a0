//! A member is given a message: first all memory is taken, and then the deed is done, which takes none.
ghost use Rattle.std.specs.Prelude.{◌≡◌, ◌≤◌, ◌<◌, ◌+◌, ◌*◌, ◌++◌, true, [], ◌∷◌, length, IfErr, IfOk, IfSome, OnOk, OnErr, Some, slice_get};
ghost use Rattle.plant_queues.specs.declared.sent.Sent.{Sent};
ghost use Rattle.plant_queues.specs.Messages.{total, Covers};
ghost use Rattle.plant_queues.specs.Sents.{size_of};
ghost use Rattle.pcep_messages.specs.declared.message.Message.{Message};
ghost use Rattle.dom_base.specs.declared.names.As.{As};
ghost use Rattle.dom_base.specs.declared.names.Peer.{Peer};
ghost use Rattle.plant_text.specs.Settings.{elements_of};
ghost use Rattle.pce_common.specs.plant_model.RealWire.{wire};
ghost use Rattle.pce_common.specs.plant_model.State.{sent_by};
ghost use Rattle.pce_common.specs.plant_model.Deeds as deeds;
ghost use Rattle.network_links.specs.Carried.{flow_of};
ghost use Rattle.network_links.specs.Flow.{GrowsSaid, KeepsRoomAt};
ghost use Rattle.pce_common.specs.Membership.{is_member};
ghost use Rattle.pce_common.specs.Owed.{asked_in, owed, pending_in};
ghost use Rattle.network_events.specs.Standing.{Goes, here};
ghost use Rattle.network_events.specs.Giving.{CoversWords, IsGiven, KeepsForLetters, OnlyGrows, PutsAll, RoomToAnswer, RoomToGive, RoomToPut, is_own, own_words};

use dom_base::{As, NoMemory, Peer};
use network_links::{ANSWER_LENGTH, OWN_LENGTH, Traffic};
use pce_common::Members;
use pce_common::model::{Output, Outputs};
use pcep_messages::{Message, write_message};
use plant_queues::Said;
use std::alloc::Global;

/// What a message changes in a member, and the messages that this sends, as bytes.
#[derive(Drop)]
pub(crate) struct Prepared<P> {
    pub(crate) plan: P,
    pub(crate) letters: Said,
}

// How many messages, and how many bytes together.
#[derive(Clone, Copy)]
pub(crate) struct Need {
    messages: usize,
    bytes: usize,
}

pub(crate) const NOTHING: Need = Need {
    messages: 0,
    bytes: 0,
};

fn count_asked(message: &Message) -> usize
    ensures { result ≡ asked_in message.now }
{
    match message {
        Message::PcReq(asks) => asks.len(),
        _ => 0,
    }
}

// ---- letters

fn write_one(alloc: Global, at: As, output: &Output, letters: &mut Said) -> Result<(), NoMemory>
    ensures { OnOk result (letters.new.kept ≡ letters.old.kept ++ sent_by wire at (output.now ∷ [])) }
{
    let mut text = Vec::new(alloc);
    let Ok(()) = write_message(alloc, &output.message, &mut text) else {
        return Err(NoMemory);
    };
    letters.reserve(1, text.len())?;
    letters.put(at, output.to, text.as_slice());
    Ok(())
}

// The messages that are sent, as bytes.
fn write_all(alloc: Global, at: As, outputs: &Outputs) -> Result<Said, NoMemory>
    ensures { IfOk result (λ letters. letters.kept ≡ sent_by wire at outputs.now) }
{
    let mut letters = Said::new(alloc);
    for output in outputs.as_slice() {
        write_one(alloc, at, output, &mut letters)?;
    }
    Ok(letters)
}

// How many letters there are, and how many bytes they have together.
fn need_of(letters: &Said) -> Option<Need>
    ensures { IfSome result (λ need. (need.messages ≡ length letters.now.kept) × (need.bytes ≡ total size_of letters.now.kept)) }
{
    let mut bytes: usize = 0;
    for k in 0..letters.len() {
        let Some(more) = bytes.checked_add(letters.bytes(k).len()) else {
            return None;
        };
        bytes = more;
    }
    Some(Need {
        messages: letters.len(),
        bytes,
    })
}

// ---- room

// So many messages more, each of so many bytes.
fn with_more(need: Need, count: usize, length: usize) -> Option<Need>
    ensures { IfSome result (λ more. (more.messages ≡ need.messages + count) × (more.bytes ≡ need.bytes + length * count)) }
{
    let Some(messages) = need.messages.checked_add(count) else {
        return None;
    };
    let Some(size) = length.checked_mul(count) else {
        return None;
    };
    let Some(bytes) = need.bytes.checked_add(size) else {
        return None;
    };
    Some(Need { messages, bytes })
}

// An outside peer has one queue, which is its element's.
fn has_queue<M: Members>(members: &M, at: As, to: Peer) -> bool
    ensures { result ≡ is_own (M.stands members.now).network at to }
{
    match to {
        Peer::Outside(peer) => members.element_of(peer).0 == at.0,
        Peer::Inner(_) => true,
    }
}

// Room in a queue for letters, and for the answers of what is then pending.
fn reserve_queue<M: Members>(
    members: &M,
    traffic: &mut Traffic,
    at: As,
    to: Peer,
    letters: Need,
    asked: usize,
) -> Result<(), NoMemory>
    requires { is_member (M.stands members.now).network at ≡ true }
    ensures grows { OnlyGrows (flow_of traffic.old) (flow_of traffic.new) }
    ensures own { OnOk result (is_own (M.stands members.now).network at to ≡ true) }
    ensures keeps { OnOk result (KeepsForLetters at to letters.messages letters.bytes asked (M.stands members.now).seen (flow_of traffic.new)) }
{
    if !has_queue(members, at, to) {
        return Err(NoMemory);
    }
    let Some(answers) = members.owed(at, to).checked_add(asked) else {
        return Err(NoMemory);
    };
    let Some(need) = with_more(letters, answers, ANSWER_LENGTH) else {
        return Err(NoMemory);
    };
    traffic.reserve(at, to, need.messages, need.bytes)
}

// How many messages of their own all sessions say in one event, at most.
fn count_own(traffic: &Traffic) -> Option<usize>
    ensures { IfSome result (λ count. count ≡ own_words (flow_of traffic.now)) }
{
    let Some(outside) = traffic.peers().checked_mul(2) else {
        return None;
    };
    let Some(inner) = traffic.adjacencies().checked_mul(4) else {
        return None;
    };
    outside.checked_add(inner)
}

// Room in the list of said messages.
pub(crate) fn reserve_words<M: Members>(
    members: &M,
    traffic: &mut Traffic,
    letters: Need,
    asked: usize,
) -> Result<(), NoMemory>
    ensures grows { OnlyGrows (flow_of traffic.old) (flow_of traffic.new) }
    ensures covers { OnOk result (CoversWords (M.stands members.now).network letters.messages letters.bytes asked (M.stands members.now).seen (flow_of traffic.new)) }
{
    let Some(own) = count_own(traffic) else {
        return Err(NoMemory);
    };
    let Some(answers) = members.pending().checked_add(asked) else {
        return Err(NoMemory);
    };
    let Some(words) = with_more(letters, own, OWN_LENGTH) else {
        return Err(NoMemory);
    };
    let Some(need) = with_more(words, answers, ANSWER_LENGTH) else {
        return Err(NoMemory);
    };
    traffic.reserve_said(need.messages, need.bytes)
}

// Room for letters of a member, in the queues to whom they go and in that to the asker.
fn reserve_all<M: Members>(
    members: &M,
    traffic: &mut Traffic,
    at: As,
    peer: Peer,
    asked: usize,
    letters: &Said,
) -> Result<(), NoMemory>
    requires { is_member (M.stands members.now).network at ≡ true }
    ensures grows { OnlyGrows (flow_of traffic.old) (flow_of traffic.new) }
    ensures room { OnOk result (RoomToGive (M.stands members.now).network at peer asked letters.now.kept (M.stands members.now).seen (flow_of traffic.new)) }
{
    let Some(need) = need_of(letters) else {
        return Err(NoMemory);
    };
    reserve_queue(members, traffic, at, peer, need, asked)?;
    reserve_words(members, traffic, need, asked)?;
    for k in 0..letters.len() {
        let (_from, to) = letters.way(k);
        reserve_queue(members, traffic, at, to, need, asked)?;
    }
    Ok(())
}

/// What a message changes in a member, with room for all that this sends and for all that is then owed.
/// Nothing changes but room.
pub(crate) fn prepare<M: Members>(
    alloc: Global,
    members: &mut M,
    traffic: &mut Traffic,
    at: As,
    peer: Peer,
    message: Message,
) -> Result<Prepared<M::Plan>, NoMemory>
    requires { is_member (M.stands members.old).network at ≡ true }
    ensures same { M.stands members.new ≡ M.stands members.old }
    ensures grows { OnlyGrows (flow_of traffic.old) (flow_of traffic.new) }
    ensures fits { IfOk result (λ x. M.fits members.new x.plan) }
    ensures given { IfOk result (λ x. IsGiven (M.stands members.old).network M.show at peer (flow_of traffic.old).clock message (M.stands members.old).seen (M.next members.new x.plan) x.letters.kept) }
    ensures room { IfOk result (λ x. RoomToGive (M.stands members.old).network at peer (asked_in message) x.letters.kept (M.stands members.old).seen (flow_of traffic.new)) }
{
    let asked = count_asked(&message);
    let plan = members.take(at, peer, message, traffic.clock())?;
    let letters = write_all(alloc, at, M::outputs(&plan))?;
    reserve_all(members, traffic, at, peer, asked, &letters)?;
    Ok(Prepared { plan, letters })
}

// The letters of an answer, with room for them. An answer has one, so none is refused.
fn letters_of<M: Members>(
    alloc: Global,
    members: &M,
    traffic: &mut Traffic,
    at: As,
    outputs: &Outputs,
) -> Result<Said, NoMemory>
    requires { is_member (M.stands members.now).network at ≡ true }
    ensures grows { OnlyGrows (flow_of traffic.old) (flow_of traffic.new) }
    ensures letters { IfOk result (λ letters. letters.kept ≡ sent_by wire at outputs.now) }
    ensures room { IfOk result (λ letters. RoomToAnswer (M.stands members.now).network at letters.kept (M.stands members.now).seen (flow_of traffic.new)) }
{
    let letters = write_all(alloc, at, outputs)?;
    if letters.is_empty() {
        return Err(NoMemory);
    }
    let (_from, to) = letters.way(0);
    reserve_all(members, traffic, at, to, 0, &letters)?;
    Ok(letters)
}

/// The letters of an answer that a member has planned, with room for them, and for all that is owed as
/// before. Nothing changes but room; without memory the plan comes back.
pub(crate) fn prepare_plan<M: Members>(
    alloc: Global,
    members: &M,
    traffic: &mut Traffic,
    at: As,
    plan: M::Plan,
) -> Result<Prepared<M::Plan>, M::Plan>
    requires { is_member (M.stands members.now).network at ≡ true }
    ensures grows { OnlyGrows (flow_of traffic.old) (flow_of traffic.new) }
    ensures plan { IfOk result (λ x. x.plan ≡ plan) }
    ensures letters { IfOk result (λ x. x.letters.kept ≡ sent_by wire at (M.sends plan)) }
    ensures room { IfOk result (λ x. RoomToAnswer (M.stands members.now).network at x.letters.kept (M.stands members.now).seen (flow_of traffic.new)) }
    ensures back { IfErr result (λ back. back ≡ plan) }
{
    match letters_of(alloc, members, traffic, at, M::outputs(&plan)) {
        Ok(letters) => Ok(Prepared { plan, letters }),
        Err(NoMemory) => Err(plan),
    }
}

// ---- the deed

// All letters go into their queues, in which there is room.
fn put_all(traffic: &mut Traffic, letters: &Said)
    requires { RoomToPut letters.now.kept (flow_of traffic.old) }
    ensures { PutsAll letters.now.kept (flow_of traffic.old) (flow_of traffic.new) }
{
    for k in 0..letters.len() {
        let (from, to) = letters.way(k);
        traffic.put(from, to, letters.bytes(k));
    }
}

/// Does what was prepared; takes no memory.
pub(crate) fn perform<M: Members>(
    members: &mut M,
    traffic: &mut Traffic,
    prepared: Prepared<M::Plan>,
)
    requires fits { M.fits members.old prepared.plan }
    requires room { RoomToPut prepared.letters.kept (flow_of traffic.old) }
    ensures next { M.stands members.new ≡ record (M.stands members.old) { seen = M.next members.old prepared.plan } }
    ensures puts { PutsAll prepared.letters.kept (flow_of traffic.old) (flow_of traffic.new) }
    ensures goes { (at : As) (peer : Peer) (message : Message) → IsGiven (M.stands members.old).network M.show at peer (flow_of traffic.old).clock message (M.stands members.old).seen (M.next members.old prepared.plan) prepared.letters.kept
        → Goes (λ n. deeds.give M.Pin M.Key wire n M.show at peer message) (here (M.stands members.old) (flow_of traffic.old)) (here (M.stands members.new) (flow_of traffic.new)) }
{
    let Prepared { plan, letters } = prepared;
    members.make(plan);
    put_all(traffic, &letters);
}
