//! The words of lines, one by one.
ghost use Rattle.std.specs.Prelude.{◌≡◌, ◌<◌, ◌^◌, ◌==◌, Some, None, MatchBool, MatchOption, length, position, true};
ghost use Rattle.std.specs.List.{list_any};
ghost use Rattle.std.specs.Str.{bytes_eq};
ghost use Rattle.line_text.specs.Hexadecimal.{is_blank as is_gap};
ghost use Rattle.plant_text.specs.Given.{Gives};
ghost use Rattle.plant_text.specs.Lines.{as_in, both, file_in, first, hex_in, number_32, number_64, on_in, only, peer_in, verb_in};

use crate::line::LineError;
use crate::settings::PeerRow;
use crate::verb::{Verb, verb_of};
use dom_base::{As, Bytes, List, Text, read_number};
use line_text::{HexError, Words, read_hex};
use std::alloc::Global;
use std::str::from_utf8;

/// Whether no word is left.
pub(crate) fn is_end(words: &mut Words<'_>) -> bool
    ensures { result ≡ (length words.old == 0) }
{
    words.next_word().is_none()
}

pub(crate) fn next_verb(words: &mut Words<'_>) -> Option<Verb>
    ensures { MatchOption result (first verb_in words.old ≡ None) (λ v. first verb_in words.old ≡ Some (v, words.new)) }
{
    verb_of(words.next_word()?)
}

pub(crate) fn as_of(word: &[u8]) -> Option<As>
    ensures { result ≡ as_in word.now }
{
    let number = read_number(word, u64::from(u16::MAX))?;
    Some(As(number as u16))
}

pub(crate) fn next_as(words: &mut Words<'_>) -> Option<As>
    ensures { MatchOption result (first as_in words.old ≡ None) (λ number. first as_in words.old ≡ Some (number, words.new)) }
{
    as_of(words.next_word()?)
}

fn next_number(words: &mut Words<'_>) -> Option<u32>
    ensures { MatchOption result (first number_32 words.old ≡ None) (λ n. first number_32 words.old ≡ Some (n, words.new)) }
{
    let number = read_number(words.next_word()?, u64::from(u32::MAX))?;
    Some(number as u32)
}

pub(crate) fn next_wide(words: &mut Words<'_>) -> Option<u64>
    ensures { MatchOption result (first number_64 words.old ≡ None) (λ n. first number_64 words.old ≡ Some (n, words.new)) }
{
    read_number(words.next_word()?, u64::MAX)
}

fn place_of(peers: &[PeerRow], name: &[u8]) -> Option<usize>
    ensures { result ≡ position (λ (p : PeerRow). bytes_eq p.name name.now) peers.now }
{
    peers
        .iter()
        .position(|peer| peer.name.as_str().as_bytes() == name)
}

/// The number of the first peer of this name.
pub(crate) fn find_peer(peers: &[PeerRow], name: &[u8]) -> Option<u32>
    requires { length peers.now < 2 ^ 32 }
    ensures { Some result ≡ peer_in peers.now name.now }
{
    match place_of(peers, name) {
        Some(place) => Some(place as u32),
        None => None,
    }
}

fn next_peer(words: &mut Words<'_>, peers: &[PeerRow]) -> Option<Option<u32>>
    requires { length peers.now < 2 ^ 32 }
    ensures { MatchOption result (first (peer_in peers.now) words.old ≡ None) (λ p. first (peer_in peers.now) words.old ≡ Some (p, words.new)) }
{
    Some(find_peer(peers, words.next_word()?))
}

pub(crate) fn is_on(words: &mut Words<'_>) -> bool
    ensures { MatchBool result (only on_in words.old ≡ Some true) (only on_in words.old ≡ None) }
{
    let Some(word) = words.next_word() else {
        return false;
    };
    word == b"on".as_slice() && is_end(words)
}

// ---- all words

pub(crate) fn peer_alone(words: &mut Words<'_>, peers: &[PeerRow]) -> Option<Option<u32>>
    requires { length peers.now < 2 ^ 32 }
    ensures { result ≡ only (peer_in peers.now) words.old }
{
    let peer = next_peer(words, peers)?;
    if is_end(words) { Some(peer) } else { None }
}

pub(crate) fn number_alone(words: &mut Words<'_>) -> Option<u64>
    ensures { result ≡ only number_64 words.old }
{
    let number = next_wide(words)?;
    if is_end(words) { Some(number) } else { None }
}

pub(crate) fn peer_and_holder(
    words: &mut Words<'_>,
    peers: &[PeerRow],
) -> Option<(Option<u32>, u32)>
    requires { length peers.now < 2 ^ 32 }
    ensures { result ≡ both (peer_in peers.now) number_32 words.old }
{
    let peer = next_peer(words, peers)?;
    let holder = next_number(words)?;
    if is_end(words) {
        Some((peer, holder))
    } else {
        None
    }
}

pub(crate) fn two_ends(words: &mut Words<'_>) -> Option<(As, As)>
    ensures { result ≡ both as_in as_in words.old }
{
    let a = next_as(words)?;
    let b = next_as(words)?;
    if is_end(words) { Some((a, b)) } else { None }
}

pub(crate) fn at_and_number(words: &mut Words<'_>) -> Option<(As, u64)>
    ensures { result ≡ both as_in number_64 words.old }
{
    let at = next_as(words)?;
    let number = next_wide(words)?;
    if is_end(words) {
        Some((at, number))
    } else {
        None
    }
}

// ---- words that take memory

fn file_of(alloc: Global, word: &[u8]) -> Result<Text, LineError>
    ensures { Gives result (file_in word.now) }
{
    let Ok(name) = from_utf8(word) else {
        return Err(LineError::Outside);
    };
    Ok(Text::copy_of(alloc, name)?)
}

fn has_gap(word: &[u8]) -> bool
    ensures { result ≡ list_any is_gap word.now }
{
    word.iter()
        .any(|c| *c == b' ' || *c == b'\n' || *c == b'\r')
}

fn bytes_of(alloc: Global, word: &[u8]) -> Result<Bytes, LineError>
    ensures { Gives result (hex_in word.now) }
{
    if word.is_empty() || has_gap(word) {
        return Err(LineError::Outside);
    }
    match read_hex(alloc, word) {
        Ok(bytes) => Ok(List::from_vec(bytes)),
        Err(HexError::NotHex) => Err(LineError::Outside),
        Err(HexError::NoMemory) => Err(LineError::NoMemory),
    }
}

pub(crate) fn at_and_file(alloc: Global, words: &mut Words<'_>) -> Result<(As, Text), LineError>
    ensures { Gives result (both as_in file_in words.old) }
{
    let Some(at) = next_as(words) else {
        return Err(LineError::Outside);
    };
    let Some(word) = words.next_word() else {
        return Err(LineError::Outside);
    };
    let file = file_of(alloc, word)?;
    if is_end(words) {
        Ok((at, file))
    } else {
        Err(LineError::Outside)
    }
}

pub(crate) fn peer_and_bytes(
    alloc: Global,
    words: &mut Words<'_>,
    peers: &[PeerRow],
) -> Result<(Option<u32>, Bytes), LineError>
    requires { length peers.now < 2 ^ 32 }
    ensures { Gives result (both (peer_in peers.now) hex_in words.old) }
{
    let Some(peer) = next_peer(words, peers) else {
        return Err(LineError::Outside);
    };
    let Some(word) = words.next_word() else {
        return Err(LineError::Outside);
    };
    let bytes = bytes_of(alloc, word)?;
    if is_end(words) {
        Ok((peer, bytes))
    } else {
        Err(LineError::Outside)
    }
}
