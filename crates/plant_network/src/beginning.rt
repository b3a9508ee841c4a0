//! A network begins.
ghost use Rattle.std.specs.Prelude.{◌≡◌, [], length, IfOk, OnOk};
ghost use Rattle.dom_base.specs.declared.names.As.{As as Domain};
ghost use Rattle.plant_text.specs.Networks.{ObeysRules};
ghost use Rattle.plant_text.specs.Settings.{adjacencies};
ghost use Rattle.network_events.specs.network_links.Carried.{flow_of};
ghost use Rattle.network_events.specs.network_links.Flow.{IsBare};
ghost use Rattle.network_events.specs.Standing.{here};
ghost use Rattle.plant_network.specs.Beginning.{AreBare, Begins};

use dom_base::NoMemory;
use network_events::{Members, Traffic, adjacencies_of, begin_links};
use plant_text::NetworkParts;
use std::alloc::Global;

/// The outside peers and the links of these settings, on which nothing has begun.
pub(crate) fn traffic_of(alloc: Global, parts: &NetworkParts) -> Result<Traffic, NoMemory>
    requires rules { ObeysRules parts.now }
    ensures bare { IfOk result (λ traffic. IsBare (adjacencies parts.now) (length parts.now.peers) (flow_of traffic)) }
{
    let adjacencies = adjacencies_of(alloc, parts)?;
    Traffic::new(alloc, adjacencies.as_slice(), parts.peers.len())
}

/// The inner links begin between members that have just been made: an Open is in each of their queues (RFC 5440,
/// section 4.2.1).
pub(crate) fn begin<M: Members>(members: &M, traffic: &mut Traffic) -> Result<(), NoMemory>
    requires rules { ObeysRules (M.stands members.now).network }
    requires bare { IsBare (adjacencies (M.stands members.now).network) (length (M.stands members.now).network.peers) (flow_of traffic.old) }
    requires new { AreBare (M.stands members.now).network M.show (M.stands members.now).seen }
    requires none { (d : Domain) → (M.stands members.now).lost d ≡ [] }
    ensures { OnOk result (Begins M.show (here (M.stands members.now) (flow_of traffic.new))) }
{
    begin_links(members, traffic)
}
