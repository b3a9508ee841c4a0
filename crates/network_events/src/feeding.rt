//! Bytes that an outside peer feeds, and bytes that are handed out to it.
ghost use Rattle.std.specs.Prelude.{◌≡◌, true};
ghost use Rattle.pce_common.specs.plant_model.RealWire.{wire};
ghost use Rattle.pce_common.specs.plant_model.Events as events;
ghost use Rattle.network_links.specs.Carried.{flow_of};
ghost use Rattle.network_events.specs.Moving.{IsSound, Moves, OrLacks};
ghost use Rattle.network_events.specs.Standing.{here};

use dom_base::Bytes;
use network_links::Traffic;
use pce_common::Members;
use pce_common::model::{Outcome, Refused};

/// An outside peer feeds bytes. A refused feed changes nothing but room; memory cannot run out where nothing is taken.
pub fn feed<M: Members>(
    _members: &M,
    traffic: &mut Traffic,
    peer: u32,
    piece: Bytes,
) -> Result<Outcome, Refused>
    requires sound { IsSound (here (M.stands _members.now) (flow_of traffic.old)) }
    ensures { Moves (OrLacks M.show (λ s. events.takes_feed (s.accesses peer).connection) (λ n s. events.feed M.Pin M.Key wire n M.show peer piece s)) (here (M.stands _members.now) (flow_of traffic.old)) result (here (M.stands _members.now) (flow_of traffic.new)) }
{
    traffic.feed(peer, piece.as_slice())?;
    traffic.clear_said();
    Ok(Outcome::Done)
}

/// What waits for an outside peer is handed out to the holder of its connection. A refused drain changes nothing but
/// room.
pub fn drain<M: Members>(
    _members: &M,
    traffic: &mut Traffic,
    peer: u32,
    holder: u32,
) -> Result<Outcome, Refused>
    requires sound { IsSound (here (M.stands _members.now) (flow_of traffic.old)) }
    ensures { Moves (OrLacks M.show (λ s. true) (λ n s. events.drain M.Pin M.Key wire n M.show peer holder s)) (here (M.stands _members.now) (flow_of traffic.old)) result (here (M.stands _members.now) (flow_of traffic.new)) }
{
    let drained = traffic.drain(peer, holder)?;
    traffic.clear_said();
    Ok(Outcome::Drained {
        bytes: drained.bytes,
        ended: drained.ended,
    })
}
