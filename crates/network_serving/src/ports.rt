//! Settings with peers that a server could not tell apart.
ghost use Rattle.std.specs.Prelude.{◌≡◌, ◌<◌, ◌≤◌, ◌^◌, ◌==◌, OnErr, OnOk, IfErr, IfNone, IfSome, length, true, false, ℕ};
ghost use Rattle.std.specs.List.{list_any};
ghost use Rattle.network_files.specs.Meeting.{are_alike as are_alike_rows};
ghost use Rattle.network_serving.specs.Ports.{AreApart, IsFirstRepeat, IsRefusedPort, has_port, repeats};
ghost use Rattle.plant_text.specs.declared.fault.NetFault.TheVariants.{Duplicate};
ghost use Rattle.network_serving.specs.Files.{IsBadText};

use crate::served::Served;
use crate::settings::bad_network;
use dom_base::Text;
use network_files::{are_alike, comes_to};
use plant_text::{NetFault, Network, PeerRow};
use std::alloc::Global;

// Whether one of these peers connects at that port.
fn has_port(peers: &[PeerRow], port: u16) -> bool
    ensures { result ≡ has_port port peers.now }
{
    peers.iter().any(|row| comes_to(row, port))
}

fn has_alike(peers: &[PeerRow], row: &PeerRow) -> bool
    ensures { result ≡ list_any (λ (p : PeerRow). are_alike_rows p row.now) peers.now }
{
    peers.iter().any(|p| are_alike(p, row))
}

// The first peer that is like an earlier one.
#[tactic(auto, using(crate::proofs::Repeats::repeat_at, crate::proofs::Repeats::none_more, crate::proofs::Repeats::none_at_all))]
fn first_repeat(peers: &[PeerRow]) -> Option<u32>
    requires few { length peers.now < 2 ^ 32 }
    ensures repeat { IfSome result (IsFirstRepeat peers.now) }
    ensures none { IfNone result ((k : ℕ) → repeats peers.now k ≡ false) }
{
    for i in 0..peers.len() {
        if has_alike(&peers[..i], &peers[i]) {
            return Some(i as u32);
        }
    }
    None
}

// A table of the settings is refused at that row, since who comes there can't be told from another peer.
fn repeated(alloc: Global, name: &str, table: &str, row: u32) -> Served
    ensures { IsBadText name.now (λ line fault. (line ≡ 0) × (fault ≡ Duplicate table.now row)) result }
{
    match Text::copy_of(alloc, table) {
        Ok(table) => bad_network(alloc, name, 0, NetFault::Duplicate(table, row)),
        Err(_) => Served::NoMemory,
    }
}

/// Refuses settings in which two peers have one port and not each an address of its own, or one has that of watchers: who comes in
/// is known by the port and the address that it comes from. Of two peers that are dialled at one place the second is refused too.
#[tactic(auto, using(crate::proofs::Repeats::peer_told, crate::proofs::Repeats::watch_told))]
pub(crate) fn check_ports(alloc: Global, name: &str, network: &Network) -> Result<(), Served>
    ensures ok { OnOk result (AreApart network.now) }
    ensures err { IfErr result (IsRefusedPort name.now network.now) }
{
    let parts = network.parts();
    let peers = parts.peers.as_slice();
    if let Some(row) = first_repeat(peers) {
        return Err(repeated(alloc, name, "peer", row));
    }
    match parts.watch {
        Some(port) if has_port(peers, port) => Err(repeated(alloc, name, "watch", 0)),
        _ => Ok(()),
    }
}
