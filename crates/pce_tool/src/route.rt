//! The words of `path`: from where, to where, and through which domains.
ghost use Rattle.std.specs.Prelude.{◌≡◌, List, IfOk, MatchOption, None, OnErr, OnOk, Some, is_some, length, map, nat_le, string_bytes, true};
ghost use Rattle.std.specs.List.{list_any};
ghost use Rattle.dom_base.specs.declared.names.As.{As};
ghost use Rattle.plant_text.specs.Names.{same_as};
ghost use Rattle.pce_tool.specs.Tasks.{Gathers, along_in, are_alike, are_different, are_sequence, domain_in, domains_in, path_in, route_along, route_in, sequence_most, up_in, word_below};

use dom_base::{Addr, As, List, NoMemory, read_addr, read_number};
use std::alloc::Global;

/// A path that words ask for: the domain whose client asks, from where, to where, and through which domains; none where
/// the parent is to find them.
#[derive(Drop)]
pub struct Route {
    pub at: As,
    pub source: Addr,
    pub target: Addr,
    pub sequence: List<As>,
}

// How many domains a sequence may have.
const SEQUENCE_MAX: usize = 16;

// ---- words, which take no memory

fn domain_of(word: &str) -> Option<As>
    ensures { result ≡ domain_in word.now }
{
    let digits = word.as_bytes();
    if let [b'0', ..] = digits {
        return None;
    }
    let number = read_number(digits, u64::from(u16::MAX))?;
    Some(As(number as u16))
}

// Whether each word names a domain.
fn are_domains(words: &[String]) -> bool
    ensures { result ≡ is_some (domains_in (map string_bytes words.now)) }
{
    match words {
        [] => true,
        [first, rest @ ..] => domain_of(first.as_str()).is_some() && are_domains(rest),
    }
}

// Whether one of the words names this domain.
fn is_named(at: As, words: &[String]) -> bool
    ensures { (ds : List As) → domains_in (map string_bytes words.now) ≡ Some ds → result ≡ list_any (same_as at) ds }
{
    match words {
        [] => false,
        [first, rest @ ..] => match domain_of(first.as_str()) {
            Some(other) => at == other || is_named(at, rest),
            None => false,
        },
    }
}

// Whether the words name each domain once.
fn are_different(words: &[String]) -> bool
    ensures { (ds : List As) → domains_in (map string_bytes words.now) ≡ Some ds → result ≡ are_different ds }
{
    match words {
        [] => true,
        [first, rest @ ..] => match domain_of(first.as_str()) {
            Some(at) => !is_named(at, rest) && are_different(rest),
            None => false,
        },
    }
}

// Whether they are no more than a sequence may have.
fn is_short(words: &[String]) -> bool
    ensures { result ≡ nat_le (length (map string_bytes words.now)) sequence_most }
{
    words.len() <= SEQUENCE_MAX
}

// Whether the words are a sequence of domains.
#[tactic(auto, using(crate::proofs::RouteLemmas::no_sequence, crate::proofs::RouteLemmas::no_long_sequence, crate::proofs::RouteLemmas::sequence_if_different))]
fn are_sequence(words: &[String]) -> bool
    ensures { result ≡ are_sequence (domains_in (map string_bytes words.now)) }
{
    if !are_domains(words) {
        return false;
    }
    if !is_short(words) {
        return false;
    }
    match words {
        [] => false,
        [_first, ..] => are_different(words),
    }
}

// ---- the sequence

// Puts the domains that words name behind others.
#[tactic(auto, using(crate::proofs::RouteLemmas::first_and_others))]
fn gather(words: &[String], into: &mut Vec<As>) -> Result<(), NoMemory>
    requires domains { is_some (domains_in (map string_bytes words.now)) ≡ true }
    ensures { OnOk result (Gathers (map string_bytes words.now) into.old.items into.new.items) }
{
    match words {
        [] => Ok(()),
        [first, rest @ ..] => {
            let Some(at) = domain_of(first.as_str()) else {
                unreachable!();
            };
            into.push(at)?;
            gather(rest, into)
        }
    }
}

fn sequence_of(alloc: Global, words: &[String]) -> Result<List<As>, NoMemory>
    requires domains { is_some (domains_in (map string_bytes words.now)) ≡ true }
    ensures { IfOk result (λ ds. domains_in (map string_bytes words.now) ≡ Some ds) }
{
    let mut domains = Vec::new(alloc);
    gather(words, &mut domains)?;
    Ok(List::from_vec(domains))
}

// Through the domains of a sequence.
fn route_through(source: Addr, target: Addr, sequence: List<As>) -> Option<Route>
    ensures { are_sequence (Some sequence) ≡ true → result ≡ route_along source target sequence }
{
    let at = match sequence.as_slice() {
        [at, ..] => *at,
        [] => return None,
    };
    Some(Route {
        at,
        source,
        target,
        sequence,
    })
}

// Through the domains that words name.
#[tactic(auto, using(crate::proofs::RouteLemmas::no_route, crate::proofs::RouteLemmas::some_route, crate::proofs::RouteLemmas::are_named, crate::proofs::RouteLemmas::asks_for_one))]
fn route_along(
    alloc: Global,
    source: Addr,
    target: Addr,
    words: &[String],
) -> Result<Option<Route>, NoMemory>
    ensures route { IfOk result (λ route. route ≡ along_in source target (map string_bytes words.now)) }
    ensures asks { OnErr result (is_some (along_in source target (map string_bytes words.now)) ≡ true) }
{
    if !are_sequence(words) {
        return Ok(None);
    }
    let sequence = sequence_of(alloc, words)?;
    Ok(route_through(source, target, sequence))
}

fn route_up(alloc: Global, source: Addr, target: Addr, word: &str) -> Option<Route>
    ensures { result ≡ up_in source target word.now }
{
    let at = domain_of(word)?;
    Some(Route {
        at,
        source,
        target,
        sequence: List::new(alloc),
    })
}

// The word behind `parent`.
fn word_below(words: &[String]) -> Option<&str>
    ensures { MatchOption result (word_below (map string_bytes words.now) ≡ None) (λ word. word_below (map string_bytes words.now) ≡ Some word.now) }
{
    match words {
        [first, second] => {
            if first.as_str() == "parent" {
                Some(second.as_str())
            } else {
                None
            }
        }
        _ => None,
    }
}

fn route_of(
    alloc: Global,
    source: Addr,
    target: Addr,
    words: &[String],
) -> Result<Option<Route>, NoMemory>
    ensures route { IfOk result (λ route. route ≡ route_in source target (map string_bytes words.now)) }
    ensures asks { OnErr result (is_some (route_in source target (map string_bytes words.now)) ≡ true) }
{
    match word_below(words) {
        Some(word) => Ok(route_up(alloc, source, target, word)),
        None => route_along(alloc, source, target, words),
    }
}

// Whether both are IPv4, or both IPv6.
fn are_alike(a: Addr, b: Addr) -> bool
    ensures { result ≡ are_alike a b }
{
    match (a, b) {
        (Addr::V4(_), Addr::V4(_)) | (Addr::V6(_), Addr::V6(_)) => true,
        (Addr::V4(_), Addr::V6(_)) | (Addr::V6(_), Addr::V4(_)) => false,
    }
}

/// The path that words ask for: an address, another of its kind, and then domains in their order, or `parent` and one domain. None
/// where they are no such words, which is seen without memory.
pub(crate) fn path_of(
    alloc: Global,
    source: &str,
    target: &str,
    words: &[String],
) -> Result<Option<Route>, NoMemory>
    ensures route { IfOk result (λ route. route ≡ path_in source.now target.now (map string_bytes words.now)) }
    ensures asks { OnErr result (is_some (path_in source.now target.now (map string_bytes words.now)) ≡ true) }
{
    let Some(from) = read_addr(source.as_bytes()) else {
        return Ok(None);
    };
    let Some(to) = read_addr(target.as_bytes()) else {
        return Ok(None);
    };
    if !are_alike(from, to) {
        return Ok(None);
    }
    route_of(alloc, from, to, words)
}
