//! One line of a script: the file that it names is read, and then it is played.
ghost use Rattle.std.specs.Prelude.{◌≡◌, ◌≤◌, length, IfErr, IfOk, MatchOption, None, Some};
ghost use Rattle.plant_play.specs.Playing.{played_network};
ghost use Rattle.transcript.specs.Stops.{IsTooLarge};
ghost use Rattle.plant_play.specs.Cues.{HasText, IsBadAt, IsCueStop, IsFileStop, IsNoFile, PlaysCue, file_name};

use crate::events::Answer;
use crate::log::Log;
use crate::player::Player;
use dom_base::{Bytes, NoMemory, Text};
use dom_edge::{Store, StoreError};
use network_files::FileError as PlayError;
use plant_text::{LineEvent, NetFault};
use std::alloc::Global;
use transcript::Stop;

/// How many bytes a file that a line names may have.
pub const FILE_MAX: usize = 4_194_304;

// The name of the file of a line.
fn file_name(event: &LineEvent) -> Option<&Text>
    ensures { MatchOption result (file_name event.now ≡ None) (λ name. file_name event.now ≡ Some name.now) }
{
    match event {
        LineEvent::Load(_, name) | LineEvent::Change(_, name) => Some(name),
        _other => None,
    }
}

// A copy of that name.
fn name_of(alloc: Global, event: &LineEvent) -> Result<Option<Text>, NoMemory>
    ensures { IfOk result (λ name. name ≡ file_name event.now) }
{
    match file_name(event) {
        Some(name) => Ok(Some(Text::copy_of(alloc, name.as_str())?)),
        None => Ok(None),
    }
}

// A file above its limit.
pub(crate) fn too_large(alloc: Global, name: &str) -> Stop
    ensures { IsTooLarge name.now result }
{
    match Text::copy_of(alloc, name) {
        Ok(file) => Stop::TooLarge(file),
        Err(NoMemory) => Stop::NoMemory,
    }
}

// A file that is refused at a line.
fn bad_network(alloc: Global, name: &str, line: u32, fault: NetFault) -> Stop
    ensures { IsBadAt name.now line fault result }
{
    match Text::copy_of(alloc, name) {
        Ok(file) => Stop::BadNetwork { file, line, fault },
        Err(NoMemory) => Stop::NoMemory,
    }
}

// The bytes of a file.
fn read_file<S: Store>(alloc: Global, store: &mut S, name: &str) -> Result<Bytes, Stop>
    ensures has { IfOk result (HasText (S.files store.old) (Some name.now)) }
    ensures err { IfErr result (IsNoFile (S.files store.old) name.now (S.faults store.old, S.faults store.new) (S.failed_at store.new)) }
    ensures files { S.files store.new ≡ S.files store.old }
    ensures later { S.faults store.old ≤ S.faults store.new }
{
    match store.read(alloc, name, FILE_MAX) {
        Ok(bytes) => Ok(bytes),
        Err(StoreError::TooLong) => Err(too_large(alloc, name)),
        Err(StoreError::Failed) => Err(Stop::ReadFault),
        Err(StoreError::NoMemory) => Err(Stop::NoMemory),
    }
}

// A line that names a file.
fn play_with<S: Store>(
    alloc: Global,
    store: &mut S,
    player: &mut Player,
    number: u32,
    event: LineEvent,
    name: &str,
    log: Log,
) -> Result<(Answer, Log), Stop>
    requires named { file_name event ≡ Some name.now }
    ensures plays { IfOk result (λ told. PlaysCue (S.files store.old) number event told.0 (played_network player.old) (played_network player.new) log told.1) }
    ensures refused { IfErr result (IsFileStop (S.files store.old) name.now event (played_network player.old) (played_network player.new) (S.faults store.old, S.faults store.new) (S.failed_at store.new)) }
    ensures files { S.files store.new ≡ S.files store.old }
    ensures later { S.faults store.old ≤ S.faults store.new }
{
    let file = read_file(alloc, store, name)?;
    match player.play(number, event, file.as_slice(), log) {
        Ok(told) => Ok(told),
        Err(PlayError::BadFile(line, fault)) => Err(bad_network(alloc, name, line, fault)),
        Err(PlayError::NoMemory) => Err(Stop::NoMemory),
    }
}

// A line that names no file.
fn play_alone(
    player: &mut Player,
    number: u32,
    event: LineEvent,
    log: Log,
) -> Result<(Answer, Log), Stop>
    requires named { file_name event ≡ None }
    ensures plays { IfOk result (λ told. PlaysCue None number event told.0 (played_network player.old) (played_network player.new) log told.1) }
    ensures refused { IfErr result (λ why. why ≡ Stop.NoMemory) }
{
    match player.play(number, event, &[], log) {
        Ok(told) => Ok(told),
        Err(PlayError::BadFile(_, _)) => unreachable!(),
        Err(PlayError::NoMemory) => Err(Stop::NoMemory),
    }
}

/// Plays a line of this number, with the text of the file that it names, and appends its transcript to a log; returns the
/// answer of the line, and the log. After an error nothing is told, and the log is gone. A file that is refused leaves
/// the network as it was; after `NoMemory` what the line did up to there stays done.
pub fn play_cue<S: Store>(
    alloc: Global,
    store: &mut S,
    player: &mut Player,
    number: u32,
    event: LineEvent,
    log: Log,
) -> Result<(Answer, Log), Stop>
    ensures plays { IfOk result (λ told. PlaysCue (S.files store.old) number event told.0 (played_network player.old) (played_network player.new) log told.1) }
    ensures refused { IfErr result (IsCueStop (S.files store.old) (file_name event) event (played_network player.old) (played_network player.new) (S.faults store.old, S.faults store.new) (S.failed_at store.new)) }
    ensures files { S.files store.new ≡ S.files store.old }
    ensures later { S.faults store.old ≤ S.faults store.new }
{
    match name_of(alloc, &event)? {
        Some(name) => play_with(alloc, store, player, number, event, name.as_str(), log),
        None => play_alone(player, number, event, log),
    }
}
