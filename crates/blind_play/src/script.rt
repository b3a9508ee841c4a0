//! All lines of a script, one after the other.
ghost use Rattle.std.specs.Prelude.{◌≡◌, ◌≤◌, false, length, IfErr, IfOk, OnOk};
ghost use Rattle.line_text.specs.Lines.{is_skipped};
ghost use Rattle.transcript.specs.Stops.{IsTooLarge, input_name, numbered, script_most};
ghost use Rattle.run_laws.specs.Given.{IsBlindLine};
ghost use Rattle.blind_play.specs.Playing.{IsNewNetwork, played_network};
ghost use Rattle.blind_play.specs.WholeScripts.{HasEvent, IsNoEvent, IsWhole, LinePlays, LineStops, ScriptStops, WroteAll};

use crate::player::BlindPlayer;
use dom_base::{NoMemory, Text};
use dom_edge::{Sink, write_all};
use line_text::Lines;
use plant_text::{LineError, LineEvent, Network, read_blind_line};
use std::alloc::Global;
use transcript::{LINE_MAX, Stop};

// A line above its limit.
fn too_large(alloc: Global) -> Stop
    ensures { IsTooLarge input_name result }
{
    match Text::copy_of(alloc, "input") {
        Ok(name) => Stop::TooLarge(name),
        Err(NoMemory) => Stop::NoMemory,
    }
}

// The event of a line that is neither blank nor a comment.
fn event_of(alloc: Global, network: &Network, number: u32, text: &[u8]) -> Result<LineEvent, Stop>
    requires told { is_skipped text.now ≡ false }
    ensures event { IfOk result (HasEvent network.now (numbered number text.now)) }
    ensures given { IfOk result IsBlindLine }
    ensures none { IfErr result (IsNoEvent network.now (numbered number text.now)) }
{
    if text.len() > LINE_MAX {
        return Err(too_large(alloc));
    }
    match read_blind_line(alloc, text, network) {
        Ok(Some(event)) => Ok(event),
        Ok(None) => unreachable!(),
        Err(LineError::Outside) => Err(Stop::BadLine(number)),
        Err(LineError::NoMemory) => Err(Stop::NoMemory),
    }
}

// Plays a line, and writes its transcript.
fn play_line<K: Sink>(
    alloc: Global,
    player: &mut BlindPlayer,
    number: u32,
    text: &[u8],
    out: &mut K,
) -> Result<(), Stop>
    requires told { is_skipped text.now ≡ false }
    ensures plays { OnOk result (LinePlays (played_network player.old).network (numbered number text.now) (played_network player.old) (played_network player.new) (WroteAll (K.written out.old, K.written out.new))) }
    ensures stops { IfErr result (LineStops (K.written out.old, K.written out.new) (K.faults out.old, K.faults out.new) (played_network player.old).network (numbered number text.now) (played_network player.old) (played_network player.new)) }
    ensures after { K.faults out.old ≤ K.faults out.new }
{
    let event = event_of(alloc, player.network(), number, text)?;
    let told = player.play(number, event)?;
    match write_all(out, &told) {
        Ok(()) => Ok(()),
        Err(_) => Err(Stop::WriteFault),
    }
}

// Plays the lines on a network that has just been made.
fn play_lines<K: Sink>(
    alloc: Global,
    player: &mut BlindPlayer,
    script: &[u8],
    out: &mut K,
) -> Result<(), Stop>
    requires within { length script.now ≤ script_most }
    requires new { IsNewNetwork (played_network player.old).network (played_network player.old) }
    ensures whole { OnOk result (IsWhole (K.written out.old, K.written out.new) (played_network player.old).network script.now) }
    ensures stops { IfErr result (ScriptStops (K.written out.old, K.written out.new) (K.faults out.old, K.faults out.new) (played_network player.old).network script.now) }
{
    let mut lines = Lines::new(script);
    while let Some(line) = lines.next_line() {
        play_line(alloc, player, line.number, line.text, out)?;
    }
    Ok(())
}

/// Plays the lines of a script one after the other on a new network of these settings, which has no topologies, and writes
/// what closed peers hear of each before the next is read. Blank lines and lines that begin with `#` are no events, but
/// they count. Of the lines before one that stops the script all is written.
pub fn play_blind_script<K: Sink>(
    alloc: Global,
    network: Network,
    script: &[u8],
    out: &mut K,
) -> Result<(), Stop>
    requires within { length script.now ≤ script_most }
    ensures whole { OnOk result (IsWhole (K.written out.old, K.written out.new) network script.now) }
    ensures stops { IfErr result (ScriptStops (K.written out.old, K.written out.new) (K.faults out.old, K.faults out.new) network script.now) }
{
    let mut player = BlindPlayer::new(alloc, network)?;
    play_lines(alloc, &mut player, script, out)
}
