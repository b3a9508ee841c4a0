//! What closed peers hear of an event, as text: its messages to them, and what one of them drained.
ghost use Rattle.std.specs.Prelude.{◌≡◌, ◌++◌, ◌+◌, ◌<◌, [], drop, length, IfOk, OnOk, cond};
ghost use Rattle.plant_network.specs.plant_model.Blind.{is_closed as is_closed_peer};
ghost use Rattle.plant_network.specs.plant_model.Element.{is_client};
ghost use Rattle.plant_text.specs.Sents.{sent_line};
ghost use Rattle.transcript.specs.Lines.{answer_line, name_of};
ghost use Rattle.plant_network.specs.Blind.{whole};
ghost use Rattle.blind_play.specs.Making.{closed_text, drain_text, drainer_of, told_of};

use crate::events::Answer;
use disclosure::Class;
use dom_base::{As, NoMemory, Peer};
use plant_network::BlindPlant;
use plant_network::model::BlindEvent;
use plant_queues::Said;
use plant_text::NetworkParts;
use std::alloc::Global;
use transcript::{class_of, write_answer, write_sent};

/// The outside peer that drains what waits for it.
pub(crate) fn drainer_of(event: &BlindEvent) -> Option<u32>
    ensures { result ≡ drainer_of event.now }
{
    match event {
        BlindEvent::Drain(peer, _holder) => Some(*peer),
        _other => None,
    }
}

fn is_client(class: Class) -> bool
    ensures { result ≡ is_client class }
{
    match class {
        Class::Client { .. } => true,
        Class::Neighbour(_) | Class::Parent => false,
    }
}

// Whether a peer is closed: an element, the parent, or an outside peer that is no client.
fn is_closed(parts: &NetworkParts, peer: Peer) -> bool
    ensures { result ≡ is_closed_peer parts.now peer }
{
    !is_client(class_of(parts, peer))
}

// A message, where it goes to a closed peer.
fn write_if_closed(
    alloc: Global,
    line: u32,
    parts: &NetworkParts,
    from: As,
    to: Peer,
    bytes: &[u8],
    into: &mut Vec<u8>,
) -> Result<(), NoMemory>
    ensures { OnOk result (into.new.items ≡ into.old.items ++ cond (is_closed_peer parts.now to) (sent_line line from (name_of parts.now.peers to) bytes.now) []) }
{
    if is_closed(parts, to) {
        write_sent(alloc, line, parts.peers.as_slice(), from, to, bytes, into)
    } else {
        Ok(())
    }
}

// The k-th message, which is the first of those from there on.
fn write_kth(
    alloc: Global,
    line: u32,
    parts: &NetworkParts,
    said: &Said,
    k: usize,
    into: &mut Vec<u8>,
) -> Result<(), NoMemory>
    requires { k < length said.now.kept }
    ensures { OnOk result (into.new.items ++ closed_text line parts.now (drop (k + 1) said.now.kept) ≡ into.old.items ++ closed_text line parts.now (drop k said.now.kept)) }
{
    let (from, to) = said.way(k);
    write_if_closed(alloc, line, parts, from, to, said.bytes(k), into)?;
    Ok(())
}

// The messages to closed peers, in order.
fn write_closed(
    alloc: Global,
    line: u32,
    parts: &NetworkParts,
    said: &Said,
    into: &mut Vec<u8>,
) -> Result<(), NoMemory>
    ensures { OnOk result (into.new.items ≡ into.old.items ++ closed_text line parts.now said.now.kept) }
{
    for k in 0..said.len() {
        write_kth(alloc, line, parts, said, k, into)?;
    }
    Ok(())
}

// What a closed peer drained, by the answer to its drain.
fn write_drained(
    alloc: Global,
    line: u32,
    parts: &NetworkParts,
    drainer: Option<u32>,
    answer: &Answer,
    into: &mut Vec<u8>,
) -> Result<(), NoMemory>
    ensures { OnOk result (into.new.items ≡ into.old.items ++ drain_text line parts.now drainer answer.now) }
{
    let Some(peer) = drainer else {
        return Ok(());
    };
    if is_closed(parts, Peer::Outside(peer)) {
        write_answer(alloc, line, answer, into)
    } else {
        Ok(())
    }
}

/// What closed peers hear of an event with this answer; nothing where it is refused.
pub(crate) fn write_heard(
    alloc: Global,
    line: u32,
    plant: &BlindPlant,
    drainer: Option<u32>,
    answer: &Answer,
    into: &mut Vec<u8>,
) -> Result<(), NoMemory>
    ensures { OnOk result (into.new.items ≡ into.old.items ++ told_of line (whole plant.now) drainer answer.now) }
{
    if answer.is_err() {
        return Ok(());
    }
    write_drained(alloc, line, plant.parts(), drainer, answer, into)?;
    write_closed(alloc, line, plant.parts(), plant.said(), into)
}
