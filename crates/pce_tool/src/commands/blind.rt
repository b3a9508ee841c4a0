//! `blind`: the lines of a script, played on a network without topologies.
ghost use Rattle.std.specs.Prelude.{◌≡◌, ◌≤◌, length};
ghost use Rattle.plant_client.specs.plant_play.transcript.Stops.{script_most};
ghost use Rattle.pce_tool.specs.Networks.{BlindEnds, IsBlindStatus};
ghost use Rattle.pce_tool.specs.Worlds.{world};

use crate::commands::play::{read_script, status_of};
use crate::files::load_network;
use crate::status::Status;
use blind_play::play_blind_script;
use dom_edge::{Sink, Source, Store};
use plant_text::Network;
use std::alloc::Global;

// Plays the script.
fn play<K: Sink>(alloc: Global, network: Network, script: &[u8], out: &mut K) -> Status
    requires within { length script.now ≤ script_most }
    ensures { IsBlindStatus (K.written out.old, K.written out.new) (K.faults out.old, K.faults out.new) network script.now result }
{
    match play_blind_script(alloc, network, script, out) {
        Ok(()) => Status::Ok,
        Err(stop) => status_of(stop),
    }
}

/// Plays the script in the input on a new network of the settings in a file, which has no topologies, and writes what
/// closed peers hear of each line.
pub(crate) fn run<S: Store, I: Source, K: Sink>(
    alloc: Global,
    name: &str,
    store: &mut S,
    input: &mut I,
    out: &mut K,
) -> Status
    ensures { BlindEnds (world (S.files store.old) (I.left input.old) (K.written out.old, K.written out.new) (S.faults store.old, S.faults store.new) (I.faults input.old, I.faults input.new) (K.faults out.old, K.faults out.new) (S.failed_at store.new)) name.now result }
{
    let network = match load_network(alloc, store, name) {
        Ok(network) => network,
        Err(status) => return status,
    };
    let script = match read_script(alloc, input) {
        Ok(script) => script,
        Err(status) => return status,
    };
    play(alloc, network, &script, out)
}
