//! The meaning of the words of a row.
use dom_base::{Addr, As, Peer, read_colour, read_number};
use line_text::{Lines, Words, line_count, read_hex};
use std::alloc::Global;
use std::test::Fail;

/// The lines of a table.
pub(crate) fn lines_of(text: &[u8]) -> Result<Lines<'_>, Fail> {
    if line_count(text) > 10_000 {
        return Err(Fail::from("a long table"));
    }
    Ok(Lines::new(text))
}

pub(crate) fn word<'a>(words: &mut Words<'a>) -> Result<&'a [u8], Fail> {
    match words.next_word() {
        Some(word) => Ok(word),
        None => Err(Fail::from("no word")),
    }
}

pub(crate) fn number_in(word: &[u8]) -> Result<u32, Fail> {
    match read_number(word, u64::from(u32::MAX)) {
        Some(number) => Ok(number as u32),
        None => Err(Fail::from("no number")),
    }
}

pub(crate) fn number(words: &mut Words<'_>) -> Result<u32, Fail> {
    number_in(word(words)?)
}

pub(crate) fn domain_in(word: &[u8]) -> Result<As, Fail> {
    match read_number(word, u64::from(u16::MAX)) {
        Some(number) => Ok(As(number as u16)),
        None => Err(Fail::from("no domain")),
    }
}

pub(crate) fn domain(words: &mut Words<'_>) -> Result<As, Fail> {
    domain_in(word(words)?)
}

/// What a row tells of.
#[derive(Clone, Copy)]
pub(crate) enum Verb {
    New,
    Up,
    Down,
    Lost,
    Tick,
    Load,
    Full,
    Pins,
    Take,
    Idle,
    Job,
    Solve,
    Back,
    Other,
}

pub(crate) fn next_verb(words: &mut Words<'_>) -> Verb {
    match words.next_word() {
        Some(b"new") => Verb::New,
        Some(b"up") => Verb::Up,
        Some(b"down") => Verb::Down,
        Some(b"lost") => Verb::Lost,
        Some(b"tick") => Verb::Tick,
        Some(b"load") => Verb::Load,
        Some(b"full") => Verb::Full,
        Some(b"pins") => Verb::Pins,
        Some(b"take") => Verb::Take,
        Some(b"idle") => Verb::Idle,
        Some(b"job") => Verb::Job,
        Some(b"solve") => Verb::Solve,
        Some(b"back") => Verb::Back,
        _ => Verb::Other,
    }
}

// Peers with names: the elements of domains 1, 3 and 5 and the parent, a client that may have keys expanded,
// one that may not, and an outside element of domain 7.
fn peer_named(word: &[u8]) -> Option<Peer> {
    match word {
        b"one" => Some(Peer::Inner(As(1))),
        b"three" => Some(Peer::Inner(As(3))),
        b"five" => Some(Peer::Inner(As(5))),
        b"parent" => Some(Peer::Inner(As(0))),
        b"client" => Some(Peer::Outside(1)),
        b"plain" => Some(Peer::Outside(2)),
        b"seven" => Some(Peer::Outside(7)),
        _ => None,
    }
}

/// A peer by its name, or the element of a domain by its number.
pub(crate) fn peer_in(word: &[u8]) -> Result<Peer, Fail> {
    match peer_named(word) {
        Some(peer) => Ok(peer),
        None => Ok(Peer::Inner(domain_in(word)?)),
    }
}

pub(crate) fn peer(words: &mut Words<'_>) -> Result<Peer, Fail> {
    peer_in(word(words)?)
}

/// The number of an address: eight hexadecimal digits, or decimal ones.
pub(crate) fn spot(words: &mut Words<'_>) -> Result<u32, Fail> {
    let word = word(words)?;
    match read_colour(word) {
        Some(number) => Ok(number),
        None => number_in(word),
    }
}

pub(crate) fn addr(words: &mut Words<'_>) -> Result<Addr, Fail> {
    Ok(Addr::V4(spot(words)?))
}

// The digits of the message of a name.
fn digits_named(names: &'static [u8], name: &[u8]) -> Result<&'static [u8], Fail> {
    let mut lines = lines_of(names)?;
    for _k in 0..line_count(names) {
        let Some(line) = lines.next_line() else {
            break;
        };
        let mut words = Words::new(line.text);
        if word(&mut words)? == name {
            return word(&mut words);
        }
    }
    Err(Fail::from("no such message"))
}

/// The octets of the next word: a name of a message, or hexadecimal digits.
pub(crate) fn octets(
    alloc: Global,
    names: &'static [u8],
    words: &mut Words<'_>,
) -> Result<Vec<u8>, Fail> {
    let word = word(words)?;
    if word.starts_with(b"20") {
        return Ok(read_hex(alloc, word)?);
    }
    Ok(read_hex(alloc, digits_named(names, word)?)?)
}
