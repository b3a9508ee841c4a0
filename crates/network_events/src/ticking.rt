//! A tick: the clock goes on, each session is told so, and keys expire. It takes no memory.
ghost use Rattle.std.specs.Prelude.{◌≡◌, ◌<◌, ◌*◌, true, false, length, Ok};
ghost use Rattle.dom_base.specs.declared.names.As.{As};
ghost use Rattle.plant_text.specs.Names.{same_as};
ghost use Rattle.plant_text.specs.Settings.{has_adjacency, adjacencies};
ghost use Rattle.network_links.specs.Adjacencies.{adjacency_of};
ghost use Rattle.pce_common.specs.plant_model.RealWire.{wire};
ghost use Rattle.pce_common.specs.plant_model.Deeds as deeds;
ghost use Rattle.pce_common.specs.plant_model.Events as events;
ghost use Rattle.pcep_session.specs.declared.session.Input.TheVariants as inputs;
ghost use Rattle.network_links.specs.Carried.{flow_of};
ghost use Rattle.network_links.specs.Flow.{session_at};
ghost use Rattle.network_events.specs.Acting.{FitsInput};
ghost use Rattle.network_events.specs.Peers.{IsAtEnd, input_at};
ghost use Rattle.network_events.specs.Moving.{IsSound, Moves, OrLacks};
ghost use Rattle.pce_common.specs.Membership.{AreJoined, is_member};
ghost use Rattle.network_events.specs.Standing.{Goes, here};
ghost use Rattle.network_events.specs.Using.{IsUnderWay, Uses};

use crate::acting::give_input;
use crate::events::expire;
use dom_base::{As, Peer, Tick};
use network_links::Traffic;
use pce_common::Members;
use pce_common::model::{Outcome, Refused};
use pcep_session::Input;

// The session of a member with a peer takes a tick: in place where it has nothing to say or to do at it.
fn tick_session<M: Members>(members: &mut M, traffic: &mut Traffic, at: As, to: Peer, now: Tick)
    requires there { IsAtEnd at to (here (M.stands members.old) (flow_of traffic.old)) }
    requires fits { FitsInput at to (inputs.Tick now) (session_at at to (flow_of traffic.old)) (M.stands members.old).seen (flow_of traffic.old) }
    ensures { Goes (λ n. input_at M.Pin M.Key n M.show at to (inputs.Tick now)) (here (M.stands members.old) (flow_of traffic.old)) (here (M.stands members.new) (flow_of traffic.new)) }
{
    if traffic.tick_quietly(at, to, now) {
        return;
    }
    give_input(members, traffic, at, to, Input::Tick(now), true);
}

// The sessions of the outside peers are told, by number.
fn tick_peers<M: Members>(members: &mut M, traffic: &mut Traffic, now: Tick)
    requires joined { AreJoined (M.stands members.old).network }
    requires few { length (M.stands members.old).network.peers < 4294967296 }
    requires under { IsUnderWay (2 * length (M.stands members.old).network.peers) (here (M.stands members.old) (flow_of traffic.old)) }
    ensures { Uses (λ n. deeds.tick_outside M.Pin M.Key wire n M.show 0 n.peers now) (2 * length (M.stands members.old).network.peers) (here (M.stands members.old) (flow_of traffic.old)) (here (M.stands members.new) (flow_of traffic.new)) }
{
    let count = traffic.peers() as u32;
    for peer in 0..count {
        let at = members.element_of(peer);
        tick_session(members, traffic, at, Peer::Outside(peer), now);
    }
}

// Both ends of a link are told, the lower first.
fn tick_adjacency<M: Members>(
    members: &mut M,
    traffic: &mut Traffic,
    adjacency: (As, As),
    now: Tick,
)
    requires lower { is_member (M.stands members.old).network adjacency.0 ≡ true }
    requires upper { is_member (M.stands members.old).network adjacency.1 ≡ true }
    requires apart { same_as adjacency.0 adjacency.1 ≡ false }
    requires rises { adjacency.0.0 < adjacency.1.0 }
    requires linked { has_adjacency adjacency.0 adjacency.1 (adjacencies (M.stands members.old).network) ≡ true }
    requires under { IsUnderWay 4 (here (M.stands members.old) (flow_of traffic.old)) }
    ensures { Uses (λ n g. deeds.inner_input M.Pin M.Key wire n M.show (adjacency_of adjacency) adjacency.1 adjacency.0 (inputs.Tick now) (deeds.inner_input M.Pin M.Key wire n M.show (adjacency_of adjacency) adjacency.0 adjacency.1 (inputs.Tick now) g)) 4 (here (M.stands members.old) (flow_of traffic.old)) (here (M.stands members.new) (flow_of traffic.new)) }
{
    tick_session(members, traffic, adjacency.0, Peer::Inner(adjacency.1), now);
    tick_session(members, traffic, adjacency.1, Peer::Inner(adjacency.0), now);
}

// The sessions of the links are told, link by link.
fn tick_adjacencies<M: Members>(members: &mut M, traffic: &mut Traffic, now: Tick)
    requires joined { AreJoined (M.stands members.old).network }
    requires apart { (a b : As) → has_adjacency a b (adjacencies (M.stands members.old).network) ≡ true → same_as a b ≡ false }
    requires under { IsUnderWay (4 * length (adjacencies (M.stands members.old).network)) (here (M.stands members.old) (flow_of traffic.old)) }
    ensures { Uses (λ n. deeds.tick_adjacencies M.Pin M.Key wire n M.show (adjacencies n) now) (4 * length (adjacencies (M.stands members.old).network)) (here (M.stands members.old) (flow_of traffic.old)) (here (M.stands members.new) (flow_of traffic.new)) }
{
    for k in 0..traffic.adjacencies() {
        let Some(adjacency) = traffic.adjacency_at(k) else {
            unreachable!()
        };
        tick_adjacency(members, traffic, adjacency, now);
    }
}

// The later of two moments.
fn later(clock: Tick, at: Tick) -> Tick
    ensures { result ≡ record { 0 = events.later clock.0 at.0 } }
{
    if clock.0 < at.0 { at } else { clock }
}

/// The clock goes on to this moment, but never back; takes no memory, and is never refused.
pub fn tick<M: Members>(
    members: &mut M,
    traffic: &mut Traffic,
    at: Tick,
) -> Result<Outcome, Refused>
    requires sound { IsSound (here (M.stands members.old) (flow_of traffic.old)) }
    ensures { Moves (OrLacks M.show (λ s. false) (λ n s. events.tick M.Pin M.Key wire n M.show at.0 s)) (here (M.stands members.old) (flow_of traffic.old)) result (here (M.stands members.new) (flow_of traffic.new)) }
{
    let now = later(traffic.clock(), at);
    traffic.clear_said();
    traffic.set_clock(now);
    tick_peers(members, traffic, now);
    tick_adjacencies(members, traffic, now);
    expire(members, traffic, now);
    Ok(Outcome::Done)
}
