//! A network that begins: each end of each inner link says its Open.
ghost use Rattle.std.specs.Prelude.{◌≡◌, true, [], length, OnOk};
ghost use Rattle.dom_base.specs.declared.names.As.{As};
ghost use Rattle.dom_base.specs.declared.names.Peer.{Peer};
ghost use Rattle.dom_base.specs.declared.names.Peer.TheVariants.{Inner};
ghost use Rattle.plant_text.specs.Settings.{elements_of, has_adjacency, adjacencies};
ghost use Rattle.pce_common.specs.plant_model.RealWire.{wire};
ghost use Rattle.pce_common.specs.plant_model.Deeds as deeds;
ghost use Rattle.pce_common.specs.plant_model.Events as events;
ghost use Rattle.network_links.specs.Carried.{flow_of};
ghost use Rattle.network_links.specs.Flow.{IsBare, KeepsRoomAt};
ghost use Rattle.pce_common.specs.Owed.{owed, pending_in};
ghost use Rattle.network_events.specs.Giving.{OnlyGrows};
ghost use Rattle.network_events.specs.Passing.{IsOf};
ghost use Rattle.network_events.specs.Rooms.{IsRoomy};
ghost use Rattle.network_events.specs.Standing.{Goes, here, state_of};

use crate::giving::{NOTHING, reserve_words};
use dom_base::{As, NoMemory, Peer};
use network_links::{OWN_LENGTH, Traffic};
use pce_common::Members;

// An end of a link says its Open.
fn begin_one<M: Members>(
    _members: &M,
    traffic: &mut Traffic,
    at: As,
    to: As,
) -> Result<(), NoMemory>
    ensures { OnOk result (Goes (λ n. deeds.begin_end M.Pin M.Key wire n M.show 0 at to) (here (M.stands _members.now) (flow_of traffic.old)) (here (M.stands _members.now) (flow_of traffic.new))) }
{
    traffic.reserve(at, Peer::Inner(to), 0, 0)?;
    traffic.reserve_said(1, OWN_LENGTH)?;
    traffic.begin_end(at, to, 0);
    Ok(())
}

// Both ends, the lower first.
fn begin_both<M: Members>(
    members: &M,
    traffic: &mut Traffic,
    lower: As,
    upper: As,
) -> Result<(), NoMemory>
    ensures { OnOk result (Goes (λ n. deeds.begin_adjacency M.Pin M.Key wire n M.show 0 (record { lower = lower; upper = upper })) (here (M.stands members.now) (flow_of traffic.old)) (here (M.stands members.now) (flow_of traffic.new))) }
{
    begin_one(members, traffic, lower, upper)?;
    begin_one(members, traffic, upper, lower)?;
    Ok(())
}

// All links, in their order.
fn begin_all<M: Members>(members: &M, traffic: &mut Traffic) -> Result<(), NoMemory>
    ensures { OnOk result (Goes (λ n. events.begin_adjacencies M.Pin M.Key wire n M.show (flow_of traffic.old).adjacencies) (here (M.stands members.now) (flow_of traffic.old)) (here (M.stands members.now) (flow_of traffic.new))) }
{
    for k in 0..traffic.adjacencies() {
        let Some((lower, upper)) = traffic.adjacency_at(k) else {
            unreachable!()
        };
        begin_both(members, traffic, lower, upper)?;
    }
    Ok(())
}

// Each queue of a link keeps room for what its session says of itself.
fn keep_all(traffic: &mut Traffic) -> Result<(), NoMemory>
    ensures grows { OnlyGrows (flow_of traffic.old) (flow_of traffic.new) }
    ensures keeps { OnOk result ((a b : As) → has_adjacency a b (flow_of traffic.old).adjacencies ≡ true → KeepsRoomAt a (Inner b) 0 0 (flow_of traffic.new)) }
{
    for k in 0..traffic.adjacencies() {
        let Some((lower, upper)) = traffic.adjacency_at(k) else {
            unreachable!()
        };
        traffic.reserve(lower, Peer::Inner(upper), 0, 0)?;
        traffic.reserve(upper, Peer::Inner(lower), 0, 0)?;
    }
    Ok(())
}

/// All inner links begin, in their order: each end says its Open. It is for members without requests, right after
/// their traffic was made; after it the room that a network keeps between events is there.
pub fn begin_links<M: Members>(members: &M, traffic: &mut Traffic) -> Result<(), NoMemory>
    requires bare { IsBare (adjacencies (M.stands members.now).network) (length (M.stands members.now).network.peers) (flow_of traffic.old) }
    requires nothing { (at : As) (p : Peer) → owed at p (M.stands members.now).seen ≡ 0 }
    requires empty { pending_in (elements_of (M.stands members.now).network.elements) (M.stands members.now).seen ≡ 0 }
    ensures of { OnOk result (IsOf (M.stands members.now).network (flow_of traffic.new)) }
    ensures clock { OnOk result ((flow_of traffic.new).clock ≡ 0) }
    ensures said { OnOk result ((flow_of traffic.new).said ≡ []) }
    ensures state { OnOk result (state_of (M.stands members.now).seen (flow_of traffic.new) ≡ (events.begin_adjacencies M.Pin M.Key wire (M.stands members.now).network M.show (adjacencies (M.stands members.now).network) (events.idle M.Pin M.Key wire (M.stands members.now).network M.show (state_of (M.stands members.now).seen (flow_of traffic.old)))).state) }
    ensures room { OnOk result (IsRoomy (M.stands members.now).network (M.stands members.now).seen (flow_of traffic.new)) }
{
    begin_all(members, traffic)?;
    traffic.clear_said();
    keep_all(traffic)?;
    reserve_words(members, traffic, NOTHING, 0)?;
    Ok(())
}
