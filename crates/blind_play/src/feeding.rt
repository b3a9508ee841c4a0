//! Bytes that a peer feeds, and the messages that are taken from them.
ghost use Rattle.std.specs.Prelude.{◌≡◌, ◌++◌, OnOk};
ghost use Rattle.plant_network.specs.Blind.{whole};
ghost use Rattle.blind_play.specs.Due.{IsDueTake};
ghost use Rattle.blind_play.specs.Making.{Does, DoesAll};
ghost use Rattle.blind_play.specs.Playing.{PlaysFeed};

use crate::events::play_event;
use dom_base::{Bytes, NoMemory};
use plant_network::BlindPlant;
use plant_network::model::BlindEvent;
use std::alloc::Global;

// Takes what is in the inbox of a peer.
fn take_all(
    alloc: Global,
    plant: &mut BlindPlant,
    line: u32,
    peer: u32,
    into: &mut Vec<u8>,
) -> Result<(), NoMemory>
    ensures { OnOk result (DoesAll line (IsDueTake peer) (whole plant.old) (whole plant.new) into.old.items into.new.items) }
{
    let mut taken = true;
    while taken {
        taken = play_event(alloc, plant, line, BlindEvent::Take(peer), into)?;
    }
    Ok(())
}

/// Feeds bytes, and takes what is in the inbox then.
pub(crate) fn feed(
    alloc: Global,
    plant: &mut BlindPlant,
    line: u32,
    peer: u32,
    bytes: Bytes,
    into: &mut Vec<u8>,
) -> Result<(), NoMemory>
    ensures { OnOk result (Does line (PlaysFeed peer bytes) (whole plant.old) (whole plant.new) into.old.items into.new.items) }
{
    let accepted = play_event(alloc, plant, line, BlindEvent::Feed(peer, bytes), into)?;
    if accepted {
        take_all(alloc, plant, line, peer, into)
    } else {
        Ok(())
    }
}
