//! A line is played by its kind.
ghost use Rattle.std.specs.Prelude.{◌≡◌, ◌++◌, OnOk};
ghost use Rattle.std.specs.Option.{option_map};
ghost use Rattle.plant_network.specs.plant_model.Blind.{IsBlindGiven};
ghost use Rattle.run_laws.specs.Given.{IsBlindLine};
ghost use Rattle.plant_network.specs.Blind.{whole};
ghost use Rattle.blind_play.specs.Making.{Does, IsGivenIfAny};
ghost use Rattle.blind_play.specs.Playing.{Plays, PlaysFeedAt, PlaysNamed, PlaysOne};

use crate::events::play_event;
use crate::feeding::feed;
use crate::settling::settle;
use dom_base::{Bytes, NoMemory};
use plant_network::BlindPlant;
use plant_network::model::BlindEvent;
use plant_text::LineEvent;
use std::alloc::Global;

// One event.
fn play_one(
    alloc: Global,
    plant: &mut BlindPlant,
    line: u32,
    event: BlindEvent,
    into: &mut Vec<u8>,
) -> Result<(), NoMemory>
    requires { IsBlindGiven event }
    ensures { OnOk result (Does line (PlaysOne event) (whole plant.old) (whole plant.new) into.old.items into.new.items) }
{
    let _accepted = play_event(alloc, plant, line, event, into)?;
    Ok(())
}

// The event of a peer that a line names, if it is one of the settings.
fn play_named(
    alloc: Global,
    plant: &mut BlindPlant,
    line: u32,
    event: Option<BlindEvent>,
    into: &mut Vec<u8>,
) -> Result<(), NoMemory>
    requires { IsGivenIfAny event }
    ensures { OnOk result (Does line (PlaysNamed event) (whole plant.old) (whole plant.new) into.old.items into.new.items) }
{
    match event {
        Some(event) => play_one(alloc, plant, line, event, into),
        None => Ok(()),
    }
}

fn feed_named(
    alloc: Global,
    plant: &mut BlindPlant,
    line: u32,
    peer: Option<u32>,
    bytes: Bytes,
    into: &mut Vec<u8>,
) -> Result<(), NoMemory>
    ensures { OnOk result (Does line (PlaysFeedAt peer bytes) (whole plant.old) (whole plant.new) into.old.items into.new.items) }
{
    match peer {
        Some(peer) => feed(alloc, plant, line, peer, bytes, into),
        None => Ok(()),
    }
}

fn open_event(peer: Option<u32>, holder: u32) -> Option<BlindEvent>
    ensures { result ≡ option_map (λ i. BlindEvent.Open i holder) peer }
{
    peer.map(|peer| BlindEvent::Open(peer, holder))
}

fn shut_event(peer: Option<u32>) -> Option<BlindEvent>
    ensures { result ≡ option_map (λ i. BlindEvent.Shut i) peer }
{
    peer.map(|peer| BlindEvent::Shut(peer))
}

fn receive_event(peer: Option<u32>, bytes: Bytes) -> Option<BlindEvent>
    ensures { result ≡ option_map (λ i. BlindEvent.Feed i bytes) peer }
{
    match peer {
        Some(peer) => Some(BlindEvent::Feed(peer, bytes)),
        None => None,
    }
}

fn take_event(peer: Option<u32>) -> Option<BlindEvent>
    ensures { result ≡ option_map (λ i. BlindEvent.Take i) peer }
{
    peer.map(|peer| BlindEvent::Take(peer))
}

fn drain_event(peer: Option<u32>, holder: u32) -> Option<BlindEvent>
    ensures { result ≡ option_map (λ i. BlindEvent.Drain i holder) peer }
{
    peer.map(|peer| BlindEvent::Drain(peer, holder))
}

/// Plays a line by its kind.
pub(crate) fn play_line(
    alloc: Global,
    plant: &mut BlindPlant,
    line: u32,
    event: LineEvent,
    into: &mut Vec<u8>,
) -> Result<(), NoMemory>
    requires { IsBlindLine event }
    ensures { OnOk result (Does line (Plays event) (whole plant.old) (whole plant.new) into.old.items into.new.items) }
{
    match event {
        LineEvent::Open(peer, holder) => {
            play_named(alloc, plant, line, open_event(peer, holder), into)
        }
        LineEvent::Shut(peer) => play_named(alloc, plant, line, shut_event(peer), into),
        LineEvent::Feed(peer, bytes) => feed_named(alloc, plant, line, peer, bytes, into),
        LineEvent::Receive(peer, bytes) => {
            play_named(alloc, plant, line, receive_event(peer, bytes), into)
        }
        LineEvent::Take(peer) => play_named(alloc, plant, line, take_event(peer), into),
        LineEvent::Carry(from, to) => {
            play_one(alloc, plant, line, BlindEvent::Carry(from, to), into)
        }
        LineEvent::Break(a, b) => play_one(alloc, plant, line, BlindEvent::Break(a, b), into),
        LineEvent::Solve(at, number, rows) => {
            play_one(
                alloc,
                plant,
                line,
                BlindEvent::Solve(at, number, rows),
                into,
            )
        }
        LineEvent::Tick(now) => play_one(alloc, plant, line, BlindEvent::Tick(now), into),
        LineEvent::Drain(peer, holder) => {
            play_named(alloc, plant, line, drain_event(peer, holder), into)
        }
        LineEvent::Settle => settle(alloc, plant, line, into),
        LineEvent::Load(_, _) => unreachable!(),
        LineEvent::Change(_, _) => unreachable!(),
        LineEvent::Finish => unreachable!(),
        LineEvent::CertifyOn => unreachable!(),
        LineEvent::DiscloseOn => unreachable!(),
    }
}
