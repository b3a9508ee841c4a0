//! Bytes that a peer feeds, and the messages that are taken from them.
ghost use Rattle.std.specs.Prelude.{◌≡◌, IfErr, IfOk, OnOk};
ghost use Rattle.network_files.specs.Reading.{IsWant};
ghost use Rattle.plant_network.specs.Topologies.{whole};
ghost use Rattle.plant_play.specs.Due.{IsDueTake};
ghost use Rattle.plant_play.specs.Making.{DoesAll, DoesLine, playing};
ghost use Rattle.plant_play.specs.Playing.{PlaysFeed};

use crate::PlayError;
use crate::events::{Answer, Due, done, make_due};
use crate::log::{Log, write_answer};
use crate::showing::Modes;
use dom_base::Bytes;
use plant_network::Plant;
use plant_network::model::Event;
use std::alloc::Global;

// Takes what is in the inbox of a peer.
fn take_all(
    alloc: Global,
    plant: &mut Plant,
    modes: Modes,
    line: u32,
    peer: u32,
    into: &mut Log,
) -> Result<(), PlayError>
    ensures plays { OnOk result (DoesAll line modes (IsDueTake peer) (whole plant.old) (whole plant.new) into.old into.new) }
    ensures refused { IfErr result IsWant }
{
    let mut taken = true;
    while taken {
        taken = make_due(alloc, plant, modes, line, Due::Take(peer), into)?;
    }
    Ok(())
}

/// Feeds bytes, and takes what is then in the inbox. Where the feed is refused, nothing is told but its answer.
pub(crate) fn feed(
    alloc: Global,
    plant: &mut Plant,
    modes: Modes,
    line: u32,
    peer: u32,
    bytes: Bytes,
    into: &mut Log,
) -> Result<Answer, PlayError>
    ensures plays { IfOk result (DoesLine (whole plant.old) (PlaysFeed line (playing modes (whole plant.old)) peer bytes) (whole plant.new) into.old into.new) }
    ensures refused { IfErr result IsWant }
{
    let answer = done(plant, Event::Feed(peer, bytes))?;
    if answer.is_err() {
        write_answer(alloc, line, &answer, into)?;
        return Ok(answer);
    }
    take_all(alloc, plant, modes, line, peer, into)?;
    write_answer(alloc, line, &answer, into)?;
    Ok(answer)
}
