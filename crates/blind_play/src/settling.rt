//! Messages are carried until none is on its way.
ghost use Rattle.std.specs.Prelude.{◌≡◌, ◌++◌, MatchOption, OnOk};
ghost use Rattle.plant_network.specs.Due.{IsLeast, IsSettled};
ghost use Rattle.plant_network.specs.Blind.{whole};
ghost use Rattle.blind_play.specs.Due.{AreAllDue, IsDueCarry};
ghost use Rattle.blind_play.specs.Making.{Does};

use crate::events::play_event;
use dom_base::{As, NoMemory};
use plant_network::BlindPlant;
use plant_network::model::BlindEvent;
use std::alloc::Global;

// The least pair between which a message is on its way.
fn next_way(plant: &BlindPlant) -> Option<(As, As)>
    ensures { MatchOption result (IsSettled (whole plant.now).network (whole plant.now).state) (IsLeast (whole plant.now).network (whole plant.now).state) }
{
    plant.waiting()
}

/// Carries the message of the least pair until none is on its way.
pub(crate) fn settle(
    alloc: Global,
    plant: &mut BlindPlant,
    line: u32,
    into: &mut Vec<u8>,
) -> Result<(), NoMemory>
    ensures { OnOk result (Does line (AreAllDue IsDueCarry) (whole plant.old) (whole plant.new) into.old.items into.new.items) }
{
    for _ in 0..u64::MAX {
        let Some((from, to)) = next_way(plant) else {
            return Ok(());
        };
        play_event(alloc, plant, line, BlindEvent::Carry(from, to), into)?;
    }
    Err(NoMemory)
}
