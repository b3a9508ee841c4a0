//! A line is played by its kind.
ghost use Rattle.std.specs.Prelude.{◌≡◌, ◌≤◌, length, Err, IfErr, IfOk};
ghost use Rattle.std.specs.Option.{option_map};
ghost use Rattle.te_deltas.specs.ChangeText.{change_file_most};
ghost use Rattle.plant_network.specs.plant_model.declared.outcome.Refused.TheVariants.{NoSuchPeer};
ghost use Rattle.plant_network.specs.Topologies.{whole};
ghost use Rattle.plant_network.specs.Whole.{IsOwnLoad};
ghost use Rattle.network_files.specs.Reading.{IsWant};
ghost use Rattle.plant_play.specs.Making.{AreNoLoads, DoesLine, playing};
ghost use Rattle.plant_play.specs.Playing.{IsWhyNot, Plays, PlaysChange, PlaysFeedAt, PlaysLoad, PlaysNamed, PlaysNone, WhyNotChanged, WhyNotLoaded, modes_after};

use crate::PlayError;
use crate::events::{Answer, play_event};
use crate::feeding::feed;
use crate::going::{Until, go_on};
use crate::log::{Log, write_answer};
use crate::showing::Modes;
use dom_base::{As, Bytes};
use network_files::{changed_of, changes_of, topology_of};
use plant_network::Plant;
use plant_network::model::{Event, Outcome, Refused};
use plant_text::LineEvent;
use std::alloc::Global;

// A line without an event.
fn play_none(
    alloc: Global,
    _plant: &Plant,
    _modes: Modes,
    line: u32,
    fixed: Answer,
    into: &mut Log,
) -> Result<Answer, PlayError>
    ensures plays { IfOk result (DoesLine (whole _plant.now) (PlaysNone line (playing _modes (whole _plant.now)) fixed) (whole _plant.now) into.old into.new) }
    ensures refused { IfErr result IsWant }
{
    write_answer(alloc, line, &fixed, into)?;
    Ok(fixed)
}

// The event of a peer that a line names, if it is one of the settings.
fn play_named(
    alloc: Global,
    plant: &mut Plant,
    modes: Modes,
    line: u32,
    event: Option<Event>,
    into: &mut Log,
) -> Result<Answer, PlayError>
    requires { AreNoLoads event }
    ensures plays { IfOk result (DoesLine (whole plant.old) (PlaysNamed line (playing modes (whole plant.old)) event) (whole plant.new) into.old into.new) }
    ensures refused { IfErr result IsWant }
{
    match event {
        Some(event) => play_event(alloc, plant, modes, line, event, into),
        None => play_none(alloc, plant, modes, line, Err(Refused::NoSuchPeer), into),
    }
}

fn feed_named(
    alloc: Global,
    plant: &mut Plant,
    modes: Modes,
    line: u32,
    peer: Option<u32>,
    bytes: Bytes,
    into: &mut Log,
) -> Result<Answer, PlayError>
    ensures plays { IfOk result (DoesLine (whole plant.old) (PlaysFeedAt line (playing modes (whole plant.old)) peer bytes) (whole plant.new) into.old into.new) }
    ensures refused { IfErr result IsWant }
{
    match peer {
        Some(peer) => feed(alloc, plant, modes, line, peer, bytes, into),
        None => play_none(alloc, plant, modes, line, Err(Refused::NoSuchPeer), into),
    }
}

fn load(
    alloc: Global,
    plant: &mut Plant,
    modes: Modes,
    line: u32,
    at: As,
    file: &[u8],
    into: &mut Log,
) -> Result<Answer, PlayError>
    requires { length file.now ≤ change_file_most }
    ensures plays { IfOk result (DoesLine (whole plant.old) (PlaysLoad line (playing modes (whole plant.old)) at file.now) (whole plant.new) into.old into.new) }
    ensures refused { IfErr result (WhyNotLoaded at file.now (playing modes (whole plant.old)) (playing modes (whole plant.new))) }
{
    let topology = topology_of(alloc, at, file)?;
    play_event(alloc, plant, modes, line, Event::Load(at, topology), into)
}

fn change(
    alloc: Global,
    plant: &mut Plant,
    modes: Modes,
    line: u32,
    at: As,
    file: &[u8],
    into: &mut Log,
) -> Result<Answer, PlayError>
    requires { length file.now ≤ change_file_most }
    ensures plays { IfOk result (DoesLine (whole plant.old) (PlaysChange line (playing modes (whole plant.old)) at file.now) (whole plant.new) into.old into.new) }
    ensures refused { IfErr result (WhyNotChanged at file.now (playing modes (whole plant.old)) (playing modes (whole plant.new))) }
{
    let changes = changes_of(alloc, file)?;
    let Some((_number, topology)) = plant.topology(at)? else {
        return play_none(alloc, plant, modes, line, Err(Refused::NoSuchPeer), into);
    };
    let changed = changed_of(alloc, at, &topology, changes.as_slice(), file)?;
    play_event(alloc, plant, modes, line, Event::Load(at, changed), into)
}

fn open_event(peer: Option<u32>, holder: u32) -> Option<Event>
    ensures { result ≡ option_map (λ i. Event.Open i holder) peer }
{
    peer.map(|peer| Event::Open(peer, holder))
}

fn shut_event(peer: Option<u32>) -> Option<Event>
    ensures { result ≡ option_map (λ i. Event.Shut i) peer }
{
    peer.map(|peer| Event::Shut(peer))
}

fn receive_event(peer: Option<u32>, bytes: Bytes) -> Option<Event>
    ensures { result ≡ option_map (λ i. Event.Feed i bytes) peer }
{
    match peer {
        Some(peer) => Some(Event::Feed(peer, bytes)),
        None => None,
    }
}

fn take_event(peer: Option<u32>) -> Option<Event>
    ensures { result ≡ option_map (λ i. Event.Take i) peer }
{
    peer.map(|peer| Event::Take(peer))
}

fn drain_event(peer: Option<u32>, holder: u32) -> Option<Event>
    ensures { result ≡ option_map (λ i. Event.Drain i holder) peer }
{
    peer.map(|peer| Event::Drain(peer, holder))
}

/// What is shown after a line.
pub(crate) fn modes_after(event: &LineEvent, modes: Modes) -> Modes
    ensures { result ≡ modes_after event.now modes }
{
    match event {
        LineEvent::CertifyOn => Modes {
            certify: true,
            disclose: modes.disclose,
        },
        LineEvent::DiscloseOn => Modes {
            certify: modes.certify,
            disclose: true,
        },
        _other => modes,
    }
}

/// Plays a line by its kind; gives its answer.
pub(crate) fn play_line(
    alloc: Global,
    plant: &mut Plant,
    modes: Modes,
    line: u32,
    event: LineEvent,
    file: &[u8],
    into: &mut Log,
) -> Result<Answer, PlayError>
    requires { length file.now ≤ change_file_most }
    ensures plays { IfOk result (DoesLine (whole plant.old) (Plays line (playing modes (whole plant.old)) event file.now) (whole plant.new) into.old into.new) }
    ensures refused { IfErr result (IsWhyNot event file.now (playing modes (whole plant.old)) (playing modes (whole plant.new))) }
{
    match event {
        LineEvent::Load(at, _name) => load(alloc, plant, modes, line, at, file, into),
        LineEvent::Change(at, _name) => change(alloc, plant, modes, line, at, file, into),
        LineEvent::Open(peer, holder) => {
            play_named(alloc, plant, modes, line, open_event(peer, holder), into)
        }
        LineEvent::Shut(peer) => play_named(alloc, plant, modes, line, shut_event(peer), into),
        LineEvent::Feed(peer, bytes) => feed_named(alloc, plant, modes, line, peer, bytes, into),
        LineEvent::Receive(peer, bytes) => {
            play_named(alloc, plant, modes, line, receive_event(peer, bytes), into)
        }
        LineEvent::Take(peer) => play_named(alloc, plant, modes, line, take_event(peer), into),
        LineEvent::Carry(from, to) => {
            play_event(alloc, plant, modes, line, Event::Carry(from, to), into)
        }
        LineEvent::Break(a, b) => play_event(alloc, plant, modes, line, Event::Break(a, b), into),
        LineEvent::Solve(at, number, _rows) => {
            play_event(alloc, plant, modes, line, Event::Solve(at, number), into)
        }
        LineEvent::Tick(now) => play_event(alloc, plant, modes, line, Event::Tick(now), into),
        LineEvent::Drain(peer, holder) => {
            play_named(alloc, plant, modes, line, drain_event(peer, holder), into)
        }
        LineEvent::Settle => go_on(alloc, plant, modes, Until::Settled, line, into),
        LineEvent::Finish => go_on(alloc, plant, modes, Until::Finished, line, into),
        LineEvent::CertifyOn => play_none(alloc, plant, modes, line, Ok(Outcome::Done), into),
        LineEvent::DiscloseOn => play_none(alloc, plant, modes, line, Ok(Outcome::Done), into),
    }
}
