//! The deeds of a session: it says a message, comes up, or goes down.
ghost use Rattle.std.specs.Prelude.{◌≡◌, ◌≤◌, true, [], length};
ghost use Rattle.plant_queues.specs.Messages.{Covers};
ghost use Rattle.dom_base.specs.declared.names.As.{As};
ghost use Rattle.pce_common.specs.plant_model.Names.{set_as};
ghost use Rattle.pce_common.specs.plant_model.RealWire.{wire};
ghost use Rattle.pce_common.specs.plant_model.Deeds as deeds;
ghost use Rattle.network_links.specs.Ends.{own_bytes};
ghost use Rattle.network_links.specs.Flow.{Puts, room_at};
ghost use Rattle.network_links.specs.Carried.{flow_of};
ghost use Rattle.pce_common.specs.Membership.{is_member, fallen, lost_at};
ghost use Rattle.network_events.specs.Standing.{Goes, here};
ghost use Rattle.network_events.specs.Telling.{RoomToTell, Tells};

use dom_base::{As, Peer};
use network_links::{Traffic, lost_text, own_text};
use pce_common::Members;
use pcep_session::Own;

/// A session says a message of its own, for which there is room.
pub(crate) fn say(traffic: &mut Traffic, at: As, to: Peer, own: Own)
    requires there { Covers (room_at at to (flow_of traffic.old)) 1 (length (own_bytes own)) }
    requires said { Covers (flow_of traffic.old).room.said 1 (length (own_bytes own)) }
    ensures { Puts at to (own_bytes own) (flow_of traffic.old) (flow_of traffic.new) }
{
    traffic.put(at, to, own_text(own).as_slice());
}

/// A session of a member comes up.
pub(crate) fn rise<M: Members>(members: &mut M, traffic: &Traffic, at: As, peer: Peer)
    requires { is_member (M.stands members.old).network at ≡ true }
    ensures { Goes (λ n. deeds.rise M.Pin M.Key wire n M.show at peer) (here (M.stands members.old) (flow_of traffic.now)) (here (M.stands members.new) (flow_of traffic.now)) }
{
    let _peers = traffic.peers();
    members.up(at, peer);
}

// The lost requests of a member are answered, for which there is room.
fn tell_lost<M: Members>(members: &mut M, traffic: &mut Traffic, at: As)
    requires member { is_member (M.stands members.old).network at ≡ true }
    requires room { RoomToTell at ((M.stands members.old).lost at) (flow_of traffic.old) }
    ensures same { M.stands members.new ≡ record (M.stands members.old) { lost = (M.stands members.new).lost } }
    ensures lost { (a : As) → (M.stands members.new).lost a ≡ set_as at [] (M.stands members.old).lost a }
    ensures tells { Tells at ((M.stands members.old).lost at) (flow_of traffic.old) (flow_of traffic.new) }
{
    while let Some(lost) = members.next_lost(at) {
        traffic.put(at, lost.to, lost_text(&lost).as_slice());
    }
}

/// A session of a member goes down; its lost requests are answered, for which there is room.
pub(crate) fn fall<M: Members>(members: &mut M, traffic: &mut Traffic, at: As, peer: Peer)
    requires member { is_member (M.stands members.old).network at ≡ true }
    requires none { (a : As) → (M.stands members.old).lost a ≡ [] }
    requires room { RoomToTell at (lost_at at peer (M.stands members.old).seen) (flow_of traffic.old) }
    ensures seen { (M.stands members.new).seen ≡ fallen at peer (M.stands members.old).seen }
    ensures tells { Tells at (lost_at at peer (M.stands members.old).seen) (flow_of traffic.old) (flow_of traffic.new) }
    ensures goes { Goes (λ n. deeds.fall M.Pin M.Key wire n M.show at peer) (here (M.stands members.old) (flow_of traffic.old)) (here (M.stands members.new) (flow_of traffic.new)) }
{
    members.down(at, peer);
    tell_lost(members, traffic, at);
}
