//! The events of a network.
ghost use Rattle.std.specs.Prelude.{◌≡◌};
ghost use Rattle.network_events.specs.plant_model.declared.event.Event.TheVariants.{Load};
ghost use Rattle.plant_network.specs.Topologies.{IsSound, Moves, held};
ghost use Rattle.plant_network.specs.Whole.{IsOwnLoad};

use crate::answering::solve;
use dom_base::As;
use network_events::model::{Event, Outcome, Refused};
use network_events::{Traffic, break_link, carry, drain, feed, open, shut, take, tick};
use network_members::{Hierarchy, Topologies};
use std::alloc::Global;
use te_links::Topology;

fn load(
    members: &mut Hierarchy<Topologies>,
    traffic: &mut Traffic,
    at: As,
    topology: Topology,
) -> Result<Outcome, Refused>
    requires own { topology.own ≡ at }
    requires sound { IsSound (held members.old traffic.old) }
    ensures { Moves (held members.old traffic.old) (Load at topology) result (held members.new traffic.new) }
{
    match members.load(at, topology) {
        Ok(number) => {
            traffic.clear_said();
            Ok(Outcome::Loaded(number))
        }
        Err(why) => Err(why),
    }
}

/// Does one event.
pub(crate) fn act(
    alloc: Global,
    members: &mut Hierarchy<Topologies>,
    traffic: &mut Traffic,
    event: Event,
) -> Result<Outcome, Refused>
    requires own { IsOwnLoad event }
    requires sound { IsSound (held members.old traffic.old) }
    ensures { Moves (held members.old traffic.old) event result (held members.new traffic.new) }
{
    match event {
        Event::Load(at, topology) => load(members, traffic, at, topology),
        Event::Open(peer, holder) => open(members, traffic, peer, holder),
        Event::Shut(peer) => shut(members, traffic, peer),
        Event::Feed(peer, piece) => feed(members, traffic, peer, piece),
        Event::Take(peer) => take(alloc, members, traffic, peer),
        Event::Carry(from, to) => carry(alloc, members, traffic, from, to),
        Event::Break(a, b) => break_link(members, traffic, a, b),
        Event::Solve(at, number) => solve(alloc, members, traffic, at, number),
        Event::Tick(now) => tick(members, traffic, now),
        Event::Drain(peer, holder) => drain(members, traffic, peer, holder),
    }
}
