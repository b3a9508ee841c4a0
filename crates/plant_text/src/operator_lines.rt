//! Lines of operators.
ghost use Rattle.std.specs.Prelude.{◌≡◌, ◌<◌, ◌^◌, MatchOption, None, Some, length};
ghost use Rattle.plant_text.specs.Given.{Gives};
ghost use Rattle.plant_text.specs.Lines.{first};
ghost use Rattle.plant_text.specs.OperatorLines.{behind, line_in, subject_in, subject_of, verb_in, words_in};

use crate::line::LineError;
use crate::lines::is_skipped;
use crate::network::Network;
use crate::operator_line::{OperatorLine, Subject};
use crate::operator_verb::{OperatorVerb, operator_verb_of};
use crate::settings::PeerRow;
use crate::word::{as_of, at_and_file, find_peer, is_end, peer_alone, two_ends};
use line_text::{Words, is_trimmed};
use std::alloc::Global;

fn next_operator_verb(words: &mut Words<'_>) -> Option<OperatorVerb>
    ensures { MatchOption result (first verb_in words.old ≡ None) (λ v. first verb_in words.old ≡ Some (v, words.new)) }
{
    operator_verb_of(words.next_word()?)
}

// ---- the words behind each verb

#[tactic(auto, unfolding(crate::specs::OperatorLines::behind))]
fn load(alloc: Global, words: &mut Words<'_>, _peers: &[PeerRow]) -> Result<OperatorLine, LineError>
    ensures { Gives result (behind _peers.now OperatorVerb.Load words.old) }
{
    let (at, file) = at_and_file(alloc, words)?;
    Ok(OperatorLine::Load(at, file))
}

#[tactic(auto, unfolding(crate::specs::OperatorLines::behind))]
fn change(
    alloc: Global,
    words: &mut Words<'_>,
    _peers: &[PeerRow],
) -> Result<OperatorLine, LineError>
    ensures { Gives result (behind _peers.now OperatorVerb.Change words.old) }
{
    let (at, file) = at_and_file(alloc, words)?;
    Ok(OperatorLine::Change(at, file))
}

#[tactic(auto, unfolding(crate::specs::OperatorLines::behind))]
fn stop(words: &mut Words<'_>, _peers: &[PeerRow]) -> Result<OperatorLine, LineError>
    ensures { Gives result (behind _peers.now OperatorVerb.Stop words.old) }
{
    if is_end(words) {
        Ok(OperatorLine::Stop)
    } else {
        Err(LineError::Outside)
    }
}

// Whom a word names.
fn subject_of(word: &[u8], peers: &[PeerRow]) -> Subject
    requires { length peers.now < 2 ^ 32 }
    ensures { result ≡ subject_of peers.now word.now }
{
    match as_of(word) {
        Some(at) => Subject::Element(at),
        None => Subject::Peer(find_peer(peers, word)),
    }
}

fn next_subject(words: &mut Words<'_>, peers: &[PeerRow]) -> Option<Subject>
    requires { length peers.now < 2 ^ 32 }
    ensures { result ≡ subject_in peers.now words.old }
{
    let Some(word) = words.next_word() else {
        return Some(Subject::All);
    };
    let subject = subject_of(word, peers);
    if is_end(words) { Some(subject) } else { None }
}

#[tactic(auto, unfolding(crate::specs::OperatorLines::behind))]
fn show(words: &mut Words<'_>, peers: &[PeerRow]) -> Result<OperatorLine, LineError>
    requires { length peers.now < 2 ^ 32 }
    ensures { Gives result (behind peers.now OperatorVerb.Show words.old) }
{
    match next_subject(words, peers) {
        Some(subject) => Ok(OperatorLine::Show(subject)),
        None => Err(LineError::Outside),
    }
}

#[tactic(auto, unfolding(crate::specs::OperatorLines::behind))]
fn shut(words: &mut Words<'_>, peers: &[PeerRow]) -> Result<OperatorLine, LineError>
    requires { length peers.now < 2 ^ 32 }
    ensures { Gives result (behind peers.now OperatorVerb.Shut words.old) }
{
    match peer_alone(words, peers) {
        Some(peer) => Ok(OperatorLine::Shut(peer)),
        None => Err(LineError::Outside),
    }
}

#[tactic(auto, unfolding(crate::specs::OperatorLines::behind))]
fn break_link(words: &mut Words<'_>, _peers: &[PeerRow]) -> Result<OperatorLine, LineError>
    ensures { Gives result (behind _peers.now OperatorVerb.Break words.old) }
{
    match two_ends(words) {
        Some((a, b)) => Ok(OperatorLine::Break(a, b)),
        None => Err(LineError::Outside),
    }
}

#[tactic(auto, unfolding(crate::specs::OperatorLines::behind))]
fn write(
    alloc: Global,
    words: &mut Words<'_>,
    _peers: &[PeerRow],
) -> Result<OperatorLine, LineError>
    ensures { Gives result (behind _peers.now OperatorVerb.Write words.old) }
{
    let (at, file) = at_and_file(alloc, words)?;
    Ok(OperatorLine::Write(at, file))
}

// ---- whole lines

fn asked_of(
    alloc: Global,
    words: &mut Words<'_>,
    peers: &[PeerRow],
) -> Result<OperatorLine, LineError>
    requires { length peers.now < 2 ^ 32 }
    ensures { Gives result (words_in peers.now words.old) }
{
    let Some(verb) = next_operator_verb(words) else {
        return Err(LineError::Outside);
    };
    match verb {
        OperatorVerb::Load => load(alloc, words, peers),
        OperatorVerb::Change => change(alloc, words, peers),
        OperatorVerb::Stop => stop(words, peers),
        OperatorVerb::Show => show(words, peers),
        OperatorVerb::Shut => shut(words, peers),
        OperatorVerb::Break => break_link(words, peers),
        OperatorVerb::Write => write(alloc, words, peers),
    }
}

/// What an operator's line asks for: None where it is blank or a comment. Its words are as in lines of events.
pub fn read_operator_line(
    alloc: Global,
    line: &[u8],
    network: &Network,
) -> Result<Option<OperatorLine>, LineError>
    ensures { Gives result (line_in network.now line.now) }
{
    if is_skipped(line) {
        return Ok(None);
    }
    if !is_trimmed(line) {
        return Err(LineError::Outside);
    }
    let peers = network.parts().peers.as_slice();
    let asked = asked_of(alloc, &mut Words::new(line), peers)?;
    Ok(Some(asked))
}
