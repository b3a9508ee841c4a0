//! Lines of events.
ghost use Rattle.std.specs.Prelude.{◌≡◌, ◌<◌, ◌^◌, ◌||◌, length};
ghost use Rattle.std.specs.List.{list_all};
ghost use Rattle.line_text.specs.Lines.{is_skipped as tells_nothing};
ghost use Rattle.line_text.specs.Words.{is_blank};
ghost use Rattle.plant_text.specs.Given.{Gives};
ghost use Rattle.plant_text.specs.Lines.{behind, behind_blind, blind_event_in, blind_line_in, event_in, line_in};

use crate::line::{LineError, LineEvent};
use crate::network::Network;
use crate::row_words::solved;
use crate::settings::PeerRow;
use crate::verb::Verb;
use crate::word::{
    at_and_file, at_and_number, is_end, is_on, next_verb, number_alone, peer_alone, peer_and_bytes,
    peer_and_holder, two_ends,
};
use dom_base::{List, Tick};
use line_text::{Words, is_trimmed};
use std::alloc::Global;

// ---- the words behind each verb

#[tactic(auto, unfolding(crate::specs::Lines::behind))]
fn load(alloc: Global, words: &mut Words<'_>, _peers: &[PeerRow]) -> Result<LineEvent, LineError>
    ensures { Gives result (behind _peers.now Verb.Load words.old) }
{
    let (at, file) = at_and_file(alloc, words)?;
    Ok(LineEvent::Load(at, file))
}

#[tactic(auto, unfolding(crate::specs::Lines::behind))]
fn change(alloc: Global, words: &mut Words<'_>, _peers: &[PeerRow]) -> Result<LineEvent, LineError>
    ensures { Gives result (behind _peers.now Verb.Change words.old) }
{
    let (at, file) = at_and_file(alloc, words)?;
    Ok(LineEvent::Change(at, file))
}

#[tactic(auto, unfolding(crate::specs::Lines::behind))]
fn open_peer(words: &mut Words<'_>, peers: &[PeerRow]) -> Result<LineEvent, LineError>
    requires { length peers.now < 2 ^ 32 }
    ensures { Gives result (behind peers.now Verb.Open words.old) }
{
    match peer_and_holder(words, peers) {
        Some((peer, holder)) => Ok(LineEvent::Open(peer, holder)),
        None => Err(LineError::Outside),
    }
}

#[tactic(auto, unfolding(crate::specs::Lines::behind))]
fn shut(words: &mut Words<'_>, peers: &[PeerRow]) -> Result<LineEvent, LineError>
    requires { length peers.now < 2 ^ 32 }
    ensures { Gives result (behind peers.now Verb.Shut words.old) }
{
    match peer_alone(words, peers) {
        Some(peer) => Ok(LineEvent::Shut(peer)),
        None => Err(LineError::Outside),
    }
}

#[tactic(auto, unfolding(crate::specs::Lines::behind))]
fn feed(alloc: Global, words: &mut Words<'_>, peers: &[PeerRow]) -> Result<LineEvent, LineError>
    requires { length peers.now < 2 ^ 32 }
    ensures { Gives result (behind peers.now Verb.Feed words.old) }
{
    let (peer, bytes) = peer_and_bytes(alloc, words, peers)?;
    Ok(LineEvent::Feed(peer, bytes))
}

#[tactic(auto, unfolding(crate::specs::Lines::behind))]
fn receive(alloc: Global, words: &mut Words<'_>, peers: &[PeerRow]) -> Result<LineEvent, LineError>
    requires { length peers.now < 2 ^ 32 }
    ensures { Gives result (behind peers.now Verb.Receive words.old) }
{
    let (peer, bytes) = peer_and_bytes(alloc, words, peers)?;
    Ok(LineEvent::Receive(peer, bytes))
}

#[tactic(auto, unfolding(crate::specs::Lines::behind))]
fn take(words: &mut Words<'_>, peers: &[PeerRow]) -> Result<LineEvent, LineError>
    requires { length peers.now < 2 ^ 32 }
    ensures { Gives result (behind peers.now Verb.Take words.old) }
{
    match peer_alone(words, peers) {
        Some(peer) => Ok(LineEvent::Take(peer)),
        None => Err(LineError::Outside),
    }
}

#[tactic(auto, unfolding(crate::specs::Lines::behind))]
fn carry(words: &mut Words<'_>, _peers: &[PeerRow]) -> Result<LineEvent, LineError>
    ensures { Gives result (behind _peers.now Verb.Carry words.old) }
{
    match two_ends(words) {
        Some((a, b)) => Ok(LineEvent::Carry(a, b)),
        None => Err(LineError::Outside),
    }
}

#[tactic(auto, unfolding(crate::specs::Lines::behind))]
fn break_link(words: &mut Words<'_>, _peers: &[PeerRow]) -> Result<LineEvent, LineError>
    ensures { Gives result (behind _peers.now Verb.Break words.old) }
{
    match two_ends(words) {
        Some((a, b)) => Ok(LineEvent::Break(a, b)),
        None => Err(LineError::Outside),
    }
}

#[tactic(auto, unfolding(crate::specs::Lines::behind))]
fn solve(alloc: Global, words: &mut Words<'_>, _peers: &[PeerRow]) -> Result<LineEvent, LineError>
    ensures { Gives result (behind _peers.now Verb.Solve words.old) }
{
    match at_and_number(words) {
        Some((at, number)) => Ok(LineEvent::Solve(at, number, List::new(alloc))),
        None => Err(LineError::Outside),
    }
}

#[tactic(auto, unfolding(crate::specs::Lines::behind))]
fn tick(words: &mut Words<'_>, _peers: &[PeerRow]) -> Result<LineEvent, LineError>
    ensures { Gives result (behind _peers.now Verb.Tick words.old) }
{
    match number_alone(words) {
        Some(now) => Ok(LineEvent::Tick(Tick(now))),
        None => Err(LineError::Outside),
    }
}

#[tactic(auto, unfolding(crate::specs::Lines::behind))]
fn drain(words: &mut Words<'_>, peers: &[PeerRow]) -> Result<LineEvent, LineError>
    requires { length peers.now < 2 ^ 32 }
    ensures { Gives result (behind peers.now Verb.Drain words.old) }
{
    match peer_and_holder(words, peers) {
        Some((peer, holder)) => Ok(LineEvent::Drain(peer, holder)),
        None => Err(LineError::Outside),
    }
}

#[tactic(auto, unfolding(crate::specs::Lines::behind))]
fn settle(words: &mut Words<'_>, _peers: &[PeerRow]) -> Result<LineEvent, LineError>
    ensures { Gives result (behind _peers.now Verb.Settle words.old) }
{
    if is_end(words) {
        Ok(LineEvent::Settle)
    } else {
        Err(LineError::Outside)
    }
}

#[tactic(auto, unfolding(crate::specs::Lines::behind))]
fn finish(words: &mut Words<'_>, _peers: &[PeerRow]) -> Result<LineEvent, LineError>
    ensures { Gives result (behind _peers.now Verb.Finish words.old) }
{
    if is_end(words) {
        Ok(LineEvent::Finish)
    } else {
        Err(LineError::Outside)
    }
}

#[tactic(auto, unfolding(crate::specs::Lines::behind))]
fn certify(words: &mut Words<'_>, _peers: &[PeerRow]) -> Result<LineEvent, LineError>
    ensures { Gives result (behind _peers.now Verb.Certify words.old) }
{
    if is_on(words) {
        Ok(LineEvent::CertifyOn)
    } else {
        Err(LineError::Outside)
    }
}

#[tactic(auto, unfolding(crate::specs::Lines::behind))]
fn disclose(words: &mut Words<'_>, _peers: &[PeerRow]) -> Result<LineEvent, LineError>
    ensures { Gives result (behind _peers.now Verb.Disclose words.old) }
{
    if is_on(words) {
        Ok(LineEvent::DiscloseOn)
    } else {
        Err(LineError::Outside)
    }
}

// ---- whole lines

fn event_of(alloc: Global, words: &mut Words<'_>, peers: &[PeerRow]) -> Result<LineEvent, LineError>
    requires { length peers.now < 2 ^ 32 }
    ensures { Gives result (event_in peers.now words.old) }
{
    let Some(verb) = next_verb(words) else {
        return Err(LineError::Outside);
    };
    match verb {
        Verb::Load => load(alloc, words, peers),
        Verb::Change => change(alloc, words, peers),
        Verb::Open => open_peer(words, peers),
        Verb::Shut => shut(words, peers),
        Verb::Feed => feed(alloc, words, peers),
        Verb::Receive => receive(alloc, words, peers),
        Verb::Take => take(words, peers),
        Verb::Carry => carry(words, peers),
        Verb::Break => break_link(words, peers),
        Verb::Solve => solve(alloc, words, peers),
        Verb::Tick => tick(words, peers),
        Verb::Drain => drain(words, peers),
        Verb::Settle => settle(words, peers),
        Verb::Finish => finish(words, peers),
        Verb::Certify => certify(words, peers),
        Verb::Disclose => disclose(words, peers),
    }
}

#[tactic(auto, unfolding(crate::specs::Lines::behind_blind))]
fn blind_event_of(
    alloc: Global,
    words: &mut Words<'_>,
    peers: &[PeerRow],
) -> Result<LineEvent, LineError>
    requires { length peers.now < 2 ^ 32 }
    ensures { Gives result (blind_event_in peers.now words.old) }
{
    let Some(verb) = next_verb(words) else {
        return Err(LineError::Outside);
    };
    match verb {
        Verb::Load => Err(LineError::Outside),
        Verb::Change => Err(LineError::Outside),
        Verb::Open => open_peer(words, peers),
        Verb::Shut => shut(words, peers),
        Verb::Feed => feed(alloc, words, peers),
        Verb::Receive => receive(alloc, words, peers),
        Verb::Take => take(words, peers),
        Verb::Carry => carry(words, peers),
        Verb::Break => break_link(words, peers),
        Verb::Solve => solved(alloc, words),
        Verb::Tick => tick(words, peers),
        Verb::Drain => drain(words, peers),
        Verb::Settle => settle(words, peers),
        Verb::Finish => Err(LineError::Outside),
        Verb::Certify => Err(LineError::Outside),
        Verb::Disclose => Err(LineError::Outside),
    }
}

fn is_all_blank(line: &[u8]) -> bool
    ensures { result ≡ list_all is_blank line.now }
{
    line.iter().all(|c| *c == b' ' || *c == b'\t')
}

/// Whether a line is blank or a comment.
pub(crate) fn is_skipped(line: &[u8]) -> bool
    ensures { result ≡ tells_nothing line.now }
{
    is_all_blank(line) || line.starts_with(b"#")
}

/// The event that a line gives: None where it is blank or a comment. Words stand between blanks; numbers and
/// addresses are as in texts of topologies. A name that no peer has gives None as the peer.
pub fn read_line(
    alloc: Global,
    line: &[u8],
    network: &Network,
) -> Result<Option<LineEvent>, LineError>
    ensures { Gives result (line_in network.now line.now) }
{
    if is_skipped(line) {
        return Ok(None);
    }
    if !is_trimmed(line) {
        return Err(LineError::Outside);
    }
    let peers = network.parts().peers.as_slice();
    let event = event_of(alloc, &mut Words::new(line), peers)?;
    Ok(Some(event))
}

/// The same for a line of a network without topologies: `solve A N [ENTRY FAR HEAD COST ..]` has the rows of a border
/// table, and there is no `load`, `change`, `finish`, `certify` and `disclose`.
pub fn read_blind_line(
    alloc: Global,
    line: &[u8],
    network: &Network,
) -> Result<Option<LineEvent>, LineError>
    ensures { Gives result (blind_line_in network.now line.now) }
{
    if is_skipped(line) {
        return Ok(None);
    }
    if !is_trimmed(line) {
        return Err(LineError::Outside);
    }
    let peers = network.parts().peers.as_slice();
    let event = blind_event_of(alloc, &mut Words::new(line), peers)?;
    Ok(Some(event))
}
