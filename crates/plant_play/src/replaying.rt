//! A script that comes in pieces: each line is played when it has come whole, and the script is never held.
ghost use Rattle.std.specs.Prelude.{◌≡◌, ◌≤◌, ℕ, List, length, IfErr, IfOk, OnOk};
ghost use Rattle.std.specs.Str.Lines.{strip_carriage_return};
ghost use Rattle.plant_play.specs.Playing.{IsNewNetwork, played_network};
ghost use Rattle.plant_play.specs.Replays.{DoesLine, IsReplayed, LineEnds, ReplayStops, is_told};
ghost use Rattle.transcript.specs.Stops.{line_most, numbered};
ghost use Rattle.plant_play.specs.Logs.{untold};
ghost use Rattle.plant_play.specs.WholeScripts.{HasEvent, around};

use crate::cue::play_cue;
use crate::log::Log;
use crate::player::Player;
use crate::reel::Reel;
use dom_edge::{Sink, Source, Store, write_all};
use plant_text::{LineError, LineEvent, Network, read_line};
use std::alloc::Global;
use transcript::Stop;

/// Lines that are told: those from the first of these numbers to the last.
#[derive(Clone, Copy)]
pub struct Span {
    pub from: u32,
    pub to: u32,
}

// Whether a line is told.
fn is_told(span: Option<Span>, number: u32) -> bool
    ensures { result ≡ is_told span number }
{
    match span {
        Some(span) => span.from <= number && number <= span.to,
        None => true,
    }
}

// A line without the CR before its end.
fn without_return(line: &[u8]) -> &[u8]
    ensures { result.now ≡ strip_carriage_return line.now }
{
    match line {
        [front @ .., b'\r'] => front,
        _ => line,
    }
}

// The log of a line, by whether it is told.
fn log_of(alloc: Global, is_told: bool) -> Log
    ensures { result ≡ untold is_told }
{
    if is_told {
        Log::kept(alloc)
    } else {
        Log::unseen(alloc)
    }
}

// Plays an event, and writes what is told of it.
fn play_event<S: Store, K: Sink>(
    alloc: Global,
    store: &mut S,
    player: &mut Player,
    span: Option<Span>,
    number: u32,
    event: LineEvent,
    out: &mut K,
) -> Result<(), Stop>
    ensures does { OnOk result ((text : List ℕ) → HasEvent (played_network player.old).network (numbered number text) event → DoesLine span (around (S.files store.old) (K.written out.old, K.written out.new) (S.faults store.old, S.faults store.new) (K.faults out.old, K.faults out.new) (S.failed_at store.new)) (played_network player.old).network number text (played_network player.old) (played_network player.new)) }
    ensures ends { IfErr result (λ why. (text : List ℕ) → HasEvent (played_network player.old).network (numbered number text) event → LineEnds span (around (S.files store.old) (K.written out.old, K.written out.new) (S.faults store.old, S.faults store.new) (K.faults out.old, K.faults out.new) (S.failed_at store.new)) (played_network player.old).network number text (played_network player.old) (played_network player.new) why) }
    ensures files { S.files store.new ≡ S.files store.old }
    ensures later { S.faults store.old ≤ S.faults store.new }
    ensures after { K.faults out.old ≤ K.faults out.new }
{
    let log = log_of(alloc, is_told(span, number));
    let (_answer, told) = play_cue(alloc, store, player, number, event, log)?;
    match write_all(out, told.text()) {
        Ok(()) => Ok(()),
        Err(_) => Err(Stop::WriteFault),
    }
}

// Plays a line, unless it is blank or a comment, and writes what is told of it.
fn play_text<S: Store, K: Sink>(
    alloc: Global,
    store: &mut S,
    player: &mut Player,
    span: Option<Span>,
    number: u32,
    text: &[u8],
    out: &mut K,
) -> Result<(), Stop>
    requires within { length text.now ≤ line_most }
    ensures does { OnOk result (DoesLine span (around (S.files store.old) (K.written out.old, K.written out.new) (S.faults store.old, S.faults store.new) (K.faults out.old, K.faults out.new) (S.failed_at store.new)) (played_network player.old).network number text.now (played_network player.old) (played_network player.new)) }
    ensures ends { IfErr result (LineEnds span (around (S.files store.old) (K.written out.old, K.written out.new) (S.faults store.old, S.faults store.new) (K.faults out.old, K.faults out.new) (S.failed_at store.new)) (played_network player.old).network number text.now (played_network player.old) (played_network player.new)) }
    ensures files { S.files store.new ≡ S.files store.old }
    ensures later { S.faults store.old ≤ S.faults store.new }
    ensures after { K.faults out.old ≤ K.faults out.new }
{
    match read_line(alloc, text, player.network()) {
        Ok(Some(event)) => play_event(alloc, store, player, span, number, event, out),
        Ok(None) => Ok(()),
        Err(LineError::Outside) => Err(Stop::BadLine(number)),
        Err(LineError::NoMemory) => Err(Stop::NoMemory),
    }
}

// Plays the lines on a network that has just been made.
fn play_lines<S: Store, I: Source, K: Sink>(
    alloc: Global,
    store: &mut S,
    player: &mut Player,
    input: &mut I,
    span: Option<Span>,
    out: &mut K,
) -> Result<(), Stop>
    requires new { IsNewNetwork (played_network player.old).network (played_network player.old) }
    ensures whole { OnOk result (IsReplayed span (around (S.files store.old) (K.written out.old, K.written out.new) (S.faults store.old, S.faults store.new) (K.faults out.old, K.faults out.new) (S.failed_at store.new)) (played_network player.old).network (I.left input.old)) }
    ensures stops { IfErr result (ReplayStops span (around (S.files store.old) (K.written out.old, K.written out.new) (S.faults store.old, S.faults store.new) (K.faults out.old, K.faults out.new) (S.failed_at store.new)) (played_network player.old).network (I.left input.old) (I.faults input.old, I.faults input.new)) }
    ensures files { S.files store.new ≡ S.files store.old }
    ensures later { S.faults store.old ≤ S.faults store.new }
{
    let mut reel = Reel::new(alloc)?;
    for before in 0..u32::MAX {
        if !reel.next_line(alloc, input)? {
            return Ok(());
        }
        let text = without_return(reel.line());
        play_text(alloc, store, player, span, before + 1, text, out)?;
    }
    Err(Stop::NoMemory)
}

/// Plays the lines of a script one after the other as they come, on a new network of these settings, as `play_script` does. Where `span`
/// is given, only its lines are told. Bytes behind the last line end are no line: a script that was cut off is played up to its last
/// whole line. A line of too many bytes stops it, whatever it says. So does the end of the numbers of lines, of which there are
/// 2^32 - 1, as want of memory.
pub fn replay<S: Store, I: Source, K: Sink>(
    alloc: Global,
    store: &mut S,
    network: Network,
    input: &mut I,
    span: Option<Span>,
    out: &mut K,
) -> Result<(), Stop>
    ensures whole { OnOk result (IsReplayed span (around (S.files store.old) (K.written out.old, K.written out.new) (S.faults store.old, S.faults store.new) (K.faults out.old, K.faults out.new) (S.failed_at store.new)) network (I.left input.old)) }
    ensures stops { IfErr result (ReplayStops span (around (S.files store.old) (K.written out.old, K.written out.new) (S.faults store.old, S.faults store.new) (K.faults out.old, K.faults out.new) (S.failed_at store.new)) network (I.left input.old) (I.faults input.old, I.faults input.new)) }
    ensures files { S.files store.new ≡ S.files store.old }
    ensures later { S.faults store.old ≤ S.faults store.new }
{
    let mut player = Player::new(alloc, network)?;
    play_lines(alloc, store, &mut player, input, span, out)
}
