//! A network without topologies: what closed peers hear of it is what they hear of the network with topologies that
//! discloses the same border costs. No topology, pin or segment is in it.
ghost use Rattle.std.specs.Prelude.{◌≡◌};
ghost use Rattle.network_events.specs.plant_model.declared.event.BlindEvent.TheVariants.{Solve};
ghost use Rattle.network_events.specs.plant_model.Blind.{AreGivenRows, IsBlindGiven};
ghost use Rattle.plant_laws.specs.Lasting.{JobsLast};
ghost use Rattle.plant_network.specs.Blind.{IsSound, Moves, Stepped, held, whole};

use crate::network::Network;
use dom_base::{As, BorderRow, List};
use network_events::model::{BlindEvent, Outcome, Refused};
use network_events::{Traffic, answer, break_link, carry, drain, feed, open, shut, take, tick};
use network_members::{Blind, Hierarchy};
use std::alloc::Global;

/// Answers a request by the rows of its border table.
fn solve(
    alloc: Global,
    members: &mut Hierarchy<Blind>,
    traffic: &mut Traffic,
    at: As,
    number: u64,
    rows: List<BorderRow>,
) -> Result<Outcome, Refused>
    requires sound { IsSound (held members.old traffic.old) }
    requires rows { AreGivenRows rows }
    ensures { Moves (held members.old traffic.old) (Solve at number rows) result (held members.new traffic.new) }
{
    let now = traffic.clock();
    let plan = members.solve(alloc, at, number, rows.as_slice(), now)?;
    match answer(alloc, members, traffic, at, plan) {
        Ok(()) => Ok(Outcome::Done),
        Err(_plan) => Err(Refused::NoMemory),
    }
}

// Does one event.
fn act(
    alloc: Global,
    members: &mut Hierarchy<Blind>,
    traffic: &mut Traffic,
    event: BlindEvent,
) -> Result<Outcome, Refused>
    requires given { IsBlindGiven event }
    requires sound { IsSound (held members.old traffic.old) }
    ensures { Moves (held members.old traffic.old) event result (held members.new traffic.new) }
{
    match event {
        BlindEvent::Open(peer, holder) => open(members, traffic, peer, holder),
        BlindEvent::Shut(peer) => shut(members, traffic, peer),
        BlindEvent::Feed(peer, piece) => feed(members, traffic, peer, piece),
        BlindEvent::Take(peer) => take(alloc, members, traffic, peer),
        BlindEvent::Carry(from, to) => carry(alloc, members, traffic, from, to),
        BlindEvent::Break(a, b) => break_link(members, traffic, a, b),
        BlindEvent::Solve(at, number, rows) => solve(alloc, members, traffic, at, number, rows),
        BlindEvent::Tick(now) => tick(members, traffic, now),
        BlindEvent::Drain(peer, holder) => drain(members, traffic, peer, holder),
    }
}

/// A network without topologies.
pub type BlindPlant = Network<Blind>;

impl Network<Blind> {
    /// Does one event. What is refused changes nothing. A solve answers a request of an element by the rows that come
    /// with it; those of a client's request are not looked at. A tick is never refused; a break and a shut only where
    /// there is no such link or open peer.
    pub fn step(&mut self, event: BlindEvent) -> Result<Outcome, Refused>
        requires given { IsBlindGiven event }
        ensures steps { Stepped (whole self.old) event result (whole self.new) }
        ensures lasts { JobsLast (whole self.old).state (whole self.new).state }
    {
        act(self.alloc, &mut self.members, &mut self.traffic, event)
    }
}
