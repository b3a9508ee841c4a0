//! `play`: the lines of a script, played on a network.
ghost use Rattle.std.specs.Prelude.{◌≡◌, ◌≤◌, IfErr, IfOk, length};
ghost use Rattle.pce_tool.specs.Networks.{HasScript, IsPlayStatus, IsScriptStatus, PlayEnds, status_of};
ghost use Rattle.plant_client.specs.plant_play.transcript.Stops.{script_most};
ghost use Rattle.plant_client.specs.plant_play.WholeScripts.{around};
ghost use Rattle.pce_tool.specs.Worlds.{world};

use crate::files::load_network;
use crate::status::Status;
use dom_base::Text;
use dom_edge::{ReadError, Sink, Source, Store, read_all};
use plant_client::{SCRIPT_MAX, Stop, play_script};
use plant_text::Network;
use std::alloc::Global;

/// The script in the input.
pub(crate) fn read_script<I: Source>(alloc: Global, input: &mut I) -> Result<Vec<u8>, Status>
    ensures ok { IfOk result (λ script. HasScript (I.left input.old) script.items) }
    ensures err { IfErr result (IsScriptStatus (I.left input.old) (I.faults input.old, I.faults input.new)) }
{
    match read_all(alloc, input, SCRIPT_MAX) {
        Ok(script) => Ok(script),
        Err(ReadError::Failed) => Err(Status::ReadFault),
        Err(ReadError::TooLarge) => match Text::copy_of(alloc, "input") {
            Ok(name) => Err(Status::TooLarge(name)),
            Err(_) => Err(Status::NoMemory),
        },
        Err(ReadError::NoMemory) => Err(Status::NoMemory),
    }
}

/// The status of a run whose script stopped.
pub(crate) fn status_of(stop: Stop) -> Status
    ensures { result ≡ status_of stop }
{
    match stop {
        Stop::ReadFault => Status::ReadFault,
        Stop::WriteFault => Status::WriteFault,
        Stop::BadNetwork { file, line, fault } => Status::BadNetwork { file, line, fault },
        Stop::BadLine(line) => Status::BadLine(line),
        Stop::TooLarge(name) => Status::TooLarge(name),
        Stop::NoMemory => Status::NoMemory,
    }
}

// Plays the script.
fn play<S: Store, K: Sink>(
    alloc: Global,
    store: &mut S,
    network: Network,
    script: &[u8],
    out: &mut K,
) -> Status
    requires within { length script.now ≤ script_most }
    ensures ends { IsPlayStatus (around (S.files store.old) (K.written out.old, K.written out.new) (S.faults store.old, S.faults store.new) (K.faults out.old, K.faults out.new) (S.failed_at store.new)) network script.now result }
    ensures later { S.faults store.old ≤ S.faults store.new }
{
    match play_script(alloc, store, network, script, out) {
        Ok(()) => Status::Ok,
        Err(stop) => status_of(stop),
    }
}

/// Plays the script in the input on a new network of the settings in a file, and writes the transcript of each line.
pub(crate) fn run<S: Store, I: Source, K: Sink>(
    alloc: Global,
    name: &str,
    store: &mut S,
    input: &mut I,
    out: &mut K,
) -> Status
    ensures { PlayEnds (world (S.files store.old) (I.left input.old) (K.written out.old, K.written out.new) (S.faults store.old, S.faults store.new) (I.faults input.old, I.faults input.new) (K.faults out.old, K.faults out.new) (S.failed_at store.new)) name.now result }
{
    let network = match load_network(alloc, store, name) {
        Ok(network) => network,
        Err(status) => return status,
    };
    let script = match read_script(alloc, input) {
        Ok(script) => script,
        Err(status) => return status,
    };
    play(alloc, store, network, &script, out)
}
