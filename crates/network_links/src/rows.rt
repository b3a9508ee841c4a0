//! The policy of an element, and the classes of peers.
ghost use Rattle.std.specs.Prelude.{◌≡◌, IfOk};
ghost use Rattle.plant_text.specs.Settings.{class_from, class_of, deny_at, peer_row};

use disclosure::{Class, Deny};
use dom_base::{As, List, NoMemory, Peer};
use plant_text::{DenyRow, NetworkParts, PeerRow};
use std::alloc::Global;

/// The rows of policy of an element.
pub fn deny_at(alloc: Global, own: As, rows: &[DenyRow]) -> Result<List<Deny>, NoMemory>
    ensures { IfOk result (λ found. found ≡ deny_at own rows.now) }
{
    let mut found = List::new(alloc);
    for row in rows {
        if row.at.0 == own.0 {
            found.push(row.deny)?;
        }
    }
    Ok(found)
}

fn class_at(peers: &[PeerRow], number: u32) -> Class
    ensures { result ≡ class_from (peer_row number peers.now) }
{
    match peers.get(number as usize) {
        Some(row) => row.class,
        None => Class::Client { expand: false },
    }
}

/// What a peer may see: an element is a neighbour, and 0 the parent.
pub fn class_of(parts: &NetworkParts, peer: Peer) -> Class
    ensures { result ≡ class_of parts.now peer }
{
    match peer {
        Peer::Inner(As(0)) => Class::Parent,
        Peer::Inner(number) => Class::Neighbour(number),
        Peer::Outside(number) => class_at(parts.peers.as_slice(), number),
    }
}
