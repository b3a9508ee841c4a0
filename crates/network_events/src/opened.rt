//! The connection of an outside peer is opened.
ghost use Rattle.std.specs.Prelude.{◌≡◌, true, []};
ghost use Rattle.pce_common.specs.plant_model.RealWire.{wire};
ghost use Rattle.pce_common.specs.plant_model.Events as events;
ghost use Rattle.network_links.specs.Carried.{flow_of};
ghost use Rattle.network_events.specs.Moving.{IsSound, Moves, OrLacks};
ghost use Rattle.network_events.specs.Standing.{here};

use crate::acting::give_input;
use dom_base::Peer;
use network_links::Traffic;
use pce_common::Members;
use pce_common::model::{Outcome, Refused};
use pcep_session::Input;

/// The connection of an outside peer is opened for this holder, and its session begins. An `Err` changes
/// nothing but room.
pub fn open<M: Members>(
    members: &mut M,
    traffic: &mut Traffic,
    peer: u32,
    holder: u32,
) -> Result<Outcome, Refused>
    requires sound { IsSound (here (M.stands members.old) (flow_of traffic.old)) }
    ensures { Moves (OrLacks M.show (λ s. true) (λ n s. events.open_peer M.Pin M.Key wire n M.show peer holder s)) (here (M.stands members.old) (flow_of traffic.old)) result (here (M.stands members.new) (flow_of traffic.new)) }
{
    if peer as usize >= traffic.peers() {
        return Err(Refused::NoSuchPeer);
    }
    if traffic.is_open(peer) {
        return Err(Refused::NoSuchPeer);
    }
    let Ok(()) = traffic.connect(peer, holder) else {
        return Err(Refused::NoMemory);
    };
    traffic.clear_said();
    let at = members.element_of(peer);
    give_input(
        members,
        traffic,
        at,
        Peer::Outside(peer),
        Input::Begin,
        false,
    );
    Ok(Outcome::Done)
}
