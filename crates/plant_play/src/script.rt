//! All lines of a script, one after the other.
ghost use Rattle.std.specs.Prelude.{◌≡◌, ◌≤◌, false, length, IfErr, IfOk, OnOk};
ghost use Rattle.line_text.specs.Lines.{is_skipped};
ghost use Rattle.plant_play.specs.Playing.{IsNewNetwork, played_network};
ghost use Rattle.transcript.specs.Stops.{numbered, script_most};
ghost use Rattle.plant_play.specs.WholeScripts.{HasEvent, IsNoEvent, IsWhole, LinePlays, LineStops, ScriptStops, WroteAll, around};

use crate::cue::{play_cue, too_large};
use crate::log::Log;
use crate::player::Player;
use dom_edge::{Sink, Store, write_all};
use line_text::{Line, Lines};
use plant_text::{LineError, LineEvent, Network, read_line};
use std::alloc::Global;
use transcript::{LINE_MAX, Stop};

/// How many bytes a script may have.
pub const SCRIPT_MAX: usize = 67_108_864;

// The event of a line that is neither blank nor a comment.
fn event_of(alloc: Global, network: &Network, number: u32, text: &[u8]) -> Result<LineEvent, Stop>
    requires told { is_skipped text.now ≡ false }
    ensures event { IfOk result (HasEvent network.now (numbered number text.now)) }
    ensures none { IfErr result (IsNoEvent network.now (numbered number text.now)) }
{
    if text.len() > LINE_MAX {
        return Err(too_large(alloc, "input"));
    }
    match read_line(alloc, text, network) {
        Ok(Some(event)) => Ok(event),
        Ok(None) => unreachable!(),
        Err(LineError::Outside) => Err(Stop::BadLine(number)),
        Err(LineError::NoMemory) => Err(Stop::NoMemory),
    }
}

// Plays a line, and writes its transcript.
fn play_line<S: Store, K: Sink>(
    alloc: Global,
    store: &mut S,
    player: &mut Player,
    number: u32,
    text: &[u8],
    out: &mut K,
) -> Result<(), Stop>
    requires told { is_skipped text.now ≡ false }
    ensures plays { OnOk result (LinePlays (S.files store.old) (played_network player.old).network (numbered number text.now) (played_network player.old) (played_network player.new) (WroteAll (around (S.files store.old) (K.written out.old, K.written out.new) (S.faults store.old, S.faults store.new) (K.faults out.old, K.faults out.new) (S.failed_at store.new)))) }
    ensures stops { IfErr result (LineStops (around (S.files store.old) (K.written out.old, K.written out.new) (S.faults store.old, S.faults store.new) (K.faults out.old, K.faults out.new) (S.failed_at store.new)) (played_network player.old).network (numbered number text.now) (played_network player.old) (played_network player.new)) }
    ensures files { S.files store.new ≡ S.files store.old }
    ensures later { S.faults store.old ≤ S.faults store.new }
    ensures after { K.faults out.old ≤ K.faults out.new }
{
    let event = event_of(alloc, player.network(), number, text)?;
    let (_answer, told) = play_cue(alloc, store, player, number, event, Log::kept(alloc))?;
    match write_all(out, told.text()) {
        Ok(()) => Ok(()),
        Err(_) => Err(Stop::WriteFault),
    }
}

// Plays the lines on a network that has just been made.
fn play_lines<S: Store, K: Sink>(
    alloc: Global,
    store: &mut S,
    player: &mut Player,
    script: &[u8],
    out: &mut K,
) -> Result<(), Stop>
    requires within { length script.now ≤ script_most }
    requires new { IsNewNetwork (played_network player.old).network (played_network player.old) }
    ensures whole { OnOk result (IsWhole (around (S.files store.old) (K.written out.old, K.written out.new) (S.faults store.old, S.faults store.new) (K.faults out.old, K.faults out.new) (S.failed_at store.new)) (played_network player.old).network script.now) }
    ensures stops { IfErr result (ScriptStops (around (S.files store.old) (K.written out.old, K.written out.new) (S.faults store.old, S.faults store.new) (K.faults out.old, K.faults out.new) (S.failed_at store.new)) (played_network player.old).network script.now) }
    ensures files { S.files store.new ≡ S.files store.old }
    ensures later { S.faults store.old ≤ S.faults store.new }
{
    let mut lines = Lines::new(script);
    while let Some(line) = lines.next_line() {
        play_line(alloc, store, player, line.number, line.text, out)?;
    }
    Ok(())
}

/// Plays the lines of a script one after the other on a new network of these settings, and writes the transcript of each
/// before the next is read: its number, its answer, and what else it brought about. Blank lines and lines that begin
/// with `#` are no events, but they count. A line reads the file that it names when its turn comes. Of the lines
/// before one that stops the script all is written.
pub fn play_script<S: Store, K: Sink>(
    alloc: Global,
    store: &mut S,
    network: Network,
    script: &[u8],
    out: &mut K,
) -> Result<(), Stop>
    requires within { length script.now ≤ script_most }
    ensures whole { OnOk result (IsWhole (around (S.files store.old) (K.written out.old, K.written out.new) (S.faults store.old, S.faults store.new) (K.faults out.old, K.faults out.new) (S.failed_at store.new)) network script.now) }
    ensures stops { IfErr result (ScriptStops (around (S.files store.old) (K.written out.old, K.written out.new) (S.faults store.old, S.faults store.new) (K.faults out.old, K.faults out.new) (S.failed_at store.new)) network script.now) }
    ensures files { S.files store.new ≡ S.files store.old }
    ensures later { S.faults store.old ≤ S.faults store.new }
{
    let mut player = Player::new(alloc, network)?;
    play_lines(alloc, store, &mut player, script, out)
}
