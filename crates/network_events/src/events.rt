//! The events that take no memory.
ghost use Rattle.std.specs.Prelude.{◌≡◌, true, false, []};
ghost use Rattle.dom_base.specs.declared.names.As.{As};
ghost use Rattle.pce_common.specs.plant_model.RealWire.{wire};
ghost use Rattle.pce_common.specs.plant_model.Deeds as deeds;
ghost use Rattle.pce_common.specs.plant_model.Events as events;
ghost use Rattle.network_links.specs.Carried.{flow_of};
ghost use Rattle.network_events.specs.Moving.{IsSound, Moves, OrLacks};
ghost use Rattle.pce_common.specs.Membership.{KeysBefore};
ghost use Rattle.network_events.specs.Standing.{Goes, here};

use crate::deeds::fall;
use crate::links::break_between;
use dom_base::{As, Peer, Tick};
use network_links::Traffic;
use pce_common::Members;
use pce_common::model::{Outcome, Refused};

/// A link breaks; takes no memory.
pub fn break_link<M: Members>(
    members: &mut M,
    traffic: &mut Traffic,
    a: As,
    b: As,
) -> Result<Outcome, Refused>
    requires sound { IsSound (here (M.stands members.old) (flow_of traffic.old)) }
    ensures { Moves (OrLacks M.show (λ s. false) (λ n s. events.break M.Pin M.Key wire n M.show a b s)) (here (M.stands members.old) (flow_of traffic.old)) result (here (M.stands members.new) (flow_of traffic.new)) }
{
    if !traffic.is_linked(a, b) {
        return Err(Refused::NoSuchPeer);
    }
    traffic.clear_said();
    break_between(members, traffic, a, b);
    Ok(Outcome::Done)
}

/// The connection of an outside peer is closed; takes no memory.
pub fn shut<M: Members>(
    members: &mut M,
    traffic: &mut Traffic,
    peer: u32,
) -> Result<Outcome, Refused>
    requires sound { IsSound (here (M.stands members.old) (flow_of traffic.old)) }
    ensures { Moves (OrLacks M.show (λ s. false) (λ n s. events.shut M.Pin M.Key wire n M.show peer s)) (here (M.stands members.old) (flow_of traffic.old)) result (here (M.stands members.new) (flow_of traffic.new)) }
{
    if !traffic.is_open(peer) {
        return Err(Refused::NoSuchPeer);
    }
    let at = members.element_of(peer);
    traffic.clear_said();
    fall(members, traffic, at, Peer::Outside(peer));
    traffic.shut(peer);
    Ok(Outcome::Done)
}

/// Keys expire; takes no memory.
pub(crate) fn expire<M: Members>(members: &mut M, traffic: &Traffic, now: Tick)
    requires { KeysBefore now.0 (M.stands members.old).network (M.stands members.old).seen }
    ensures { Goes (λ n. deeds.expire M.Pin M.Key wire n M.show now.0) (here (M.stands members.old) (flow_of traffic.now)) (here (M.stands members.new) (flow_of traffic.now)) }
{
    let _peers = traffic.peers();
    members.tick(now);
}
