//! The lines of told events. Each call writes at the end; on `NoMemory` a part may stand there.
ghost use Rattle.std.specs.Prelude.{◌≡◌, ◌<◌, ◌≤◌, ◌++◌, ◌∷◌, [], OnOk, codes, decimal, length};
ghost use Rattle.std.specs.List.{AllByRecursion};
ghost use Rattle.line_text.specs.Hexadecimal.{hex_text};
ghost use Rattle.event_lines.specs.EventLines.{IsInRange, event_line, load_name as name_of_load, peer_name};

use crate::digits::{put, put_hex, put_number};
use crate::names::load_name;
use dom_base::{As, NoMemory};
use event_tape::Told;
use plant_text::PeerRow;
use std::alloc::Global;

// The number of a domain.
fn number_of(at: As) -> u64
    ensures number { result ≡ at.0 }
    ensures in_range { at.0 < 65_536 }
{
    u64::from(at.0)
}

// The name of a peer, if it has one.
fn name_of(peers: &[PeerRow], peer: u32) -> &[u8]
    ensures { result.now ≡ peer_name peers.now peer }
{
    match peers.get(peer as usize) {
        Some(row) => row.name.as_str().as_bytes(),
        None => b"",
    }
}

fn push_load(alloc: Global, own: u64, loads: u64, into: &mut Vec<u8>) -> Result<(), NoMemory>
    ensures { OnOk result (into.new.items ≡ into.old.items ++ codes "load" ++ 32 ∷ decimal own ++ 32 ∷ name_of_load loads ++ 10 ∷ []) }
{
    let name = load_name(alloc, loads)?;
    into.reserve(26)?;
    put(b"load", into);
    put_number(own, into);
    into.push_reserved(b' ');
    into.extend_from_slice(name.as_str().as_bytes())?;
    into.push(b'\n')?;
    Ok(())
}

// A word and a peer.
fn push_of_peer(
    word: &[u8],
    peers: &[PeerRow],
    peer: u32,
    into: &mut Vec<u8>,
) -> Result<(), NoMemory>
    requires { length word.now ≤ 7 }
    ensures { OnOk result (into.new.items ≡ into.old.items ++ word.now ++ 32 ∷ peer_name peers.now peer ++ 10 ∷ []) }
{
    let name = name_of(peers, peer);
    into.reserve(name.len() + 9)?;
    put(word, into);
    into.push_reserved(b' ');
    put(name, into);
    into.push_reserved(b'\n');
    Ok(())
}

// A word, a peer and a holder.
fn push_of_holder(
    word: &[u8],
    peers: &[PeerRow],
    peer: u32,
    holder: u32,
    into: &mut Vec<u8>,
) -> Result<(), NoMemory>
    requires { length word.now ≤ 7 }
    ensures { OnOk result (into.new.items ≡ into.old.items ++ word.now ++ 32 ∷ peer_name peers.now peer ++ 32 ∷ decimal holder ++ 10 ∷ []) }
{
    let name = name_of(peers, peer);
    into.reserve(name.len() + 30)?;
    put(word, into);
    into.push_reserved(b' ');
    put(name, into);
    put_number(u64::from(holder), into);
    into.push_reserved(b'\n');
    Ok(())
}

// A word and two numbers.
fn push_of_two(word: &[u8], first: u64, second: u64, into: &mut Vec<u8>) -> Result<(), NoMemory>
    requires { length word.now ≤ 7 }
    ensures { OnOk result (into.new.items ≡ into.old.items ++ word.now ++ 32 ∷ decimal first ++ 32 ∷ decimal second ++ 10 ∷ []) }
{
    into.reserve(50)?;
    put(word, into);
    put_number(first, into);
    put_number(second, into);
    into.push_reserved(b'\n');
    Ok(())
}

fn push_tick(tick: u64, into: &mut Vec<u8>) -> Result<(), NoMemory>
    ensures { OnOk result (into.new.items ≡ into.old.items ++ codes "tick" ++ 32 ∷ decimal tick ++ 10 ∷ []) }
{
    into.reserve(26)?;
    put(b"tick", into);
    put_number(tick, into);
    into.push_reserved(b'\n');
    Ok(())
}

fn push_receive(
    peers: &[PeerRow],
    peer: u32,
    octets: &[u8],
    into: &mut Vec<u8>,
) -> Result<(), NoMemory>
    ensures line { OnOk result (into.new.items ≡ into.old.items ++ codes "receive" ++ 32 ∷ peer_name peers.now peer ++ 32 ∷ hex_text octets.now ++ 10 ∷ []) }
    ensures in_range { AllByRecursion (λ b. b < 256) octets.now }
{
    let name = name_of(peers, peer);
    into.reserve(name.len() + 9)?;
    put(b"receive", into);
    into.push_reserved(b' ');
    put(name, into);
    into.push_reserved(b' ');
    into.reserve(2 * octets.len() + 1)?;
    put_hex(octets, into);
    into.push_reserved(b'\n');
    Ok(())
}

/// Writes the line of a told event and a line feed at the end. Of the loads so far, this one included where it is one,
/// there are so many. Whatever is told has numbers of their types.
pub fn push_line(
    alloc: Global,
    peers: &[PeerRow],
    loads: u64,
    told: &Told,
    into: &mut Vec<u8>,
) -> Result<(), NoMemory>
    ensures line { OnOk result (into.new.items ≡ into.old.items ++ event_line peers.now loads told.now) }
    ensures in_range { IsInRange told.now }
{
    match told {
        Told::Load(at, _topology) => push_load(alloc, number_of(*at), loads, into),
        Told::Open(peer, holder) => push_of_holder(b"open", peers, *peer, *holder, into),
        Told::Shut(peer) => push_of_peer(b"shut", peers, *peer, into),
        Told::Receive(peer, octets) => push_receive(peers, *peer, octets.as_slice(), into),
        Told::Take(peer) => push_of_peer(b"take", peers, *peer, into),
        Told::Carry(from, to) => push_of_two(b"carry", number_of(*from), number_of(*to), into),
        Told::Break(from, to) => push_of_two(b"break", number_of(*from), number_of(*to), into),
        Told::Solve(at, number) => push_of_two(b"solve", number_of(*at), *number, into),
        Told::Tick(tick) => push_tick(tick.0, into),
        Told::Drain(peer, holder) => push_of_holder(b"drain", peers, *peer, *holder, into),
    }
}
