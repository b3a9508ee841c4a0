//! `path`: a client asks a network for a path.
ghost use Rattle.std.specs.Prelude.{◌≡◌, ◌≤◌, ℕ, List, length, true, IfErr, IfOk, OnOk};
ghost use Rattle.plant_client.specs.Asking.{Asks};
ghost use Rattle.plant_client.specs.Questions.{sequence_most};
ghost use Rattle.plant_client.specs.Telling.{told_text};
ghost use Rattle.plant_text.specs.Networks.{with_path};
ghost use Rattle.plant_text.specs.Settings.{is_element};
ghost use Rattle.pce_tool.specs.Networks.{IsNoClientStatus, IsStopStatus, PathEnds};
ghost use Rattle.pce_tool.specs.Worlds.{world};

use crate::commands::play::status_of;
use crate::files::{bad_settings, load_network};
use crate::output::finish;
use crate::route::Route;
use crate::status::Status;
use dom_base::As;
use dom_edge::{Sink, Source, Store};
use plant_client::{Question, ask, tell};
use plant_text::{NetError, Network};
use std::alloc::Global;

// The settings with the client that asks.
fn with_client(alloc: Global, name: &str, network: Network, at: As) -> Result<Network, Status>
    ensures ok { IfOk result (λ n. n ≡ with_path network at) }
    ensures element { OnOk result (is_element network at ≡ true) }
    ensures err { IfErr result (IsNoClientStatus name.now network at) }
{
    match network.with_client(alloc, at) {
        Ok(network) => Ok(network),
        Err(NetError::Fault(fault)) => Err(bad_settings(alloc, name, fault)),
        Err(NetError::NoMemory) => Err(Status::NoMemory),
    }
}

// What the client receives, as a text.
fn answered<S: Store>(
    alloc: Global,
    store: &mut S,
    network: Network,
    client: u32,
    question: &Question,
) -> Result<Vec<u8>, Status>
    requires few { length question.now.sequence ≤ sequence_most }
    ensures ok { IfOk result (λ text. (received : List ℕ) × Asks (S.files store.old) network client question.now received × (text.items ≡ told_text received)) }
    ensures err { IfErr result (IsStopStatus (S.files store.old) network (S.faults store.old, S.faults store.new) (S.failed_at store.new)) }
    ensures later { S.faults store.old ≤ S.faults store.new }
{
    let received = match ask(alloc, store, network, client, question) {
        Ok(received) => received,
        Err(stop) => return Err(status_of(stop)),
    };
    match tell(alloc, received.as_slice()) {
        Ok(text) => Ok(text),
        Err(_) => Err(Status::NoMemory),
    }
}

/// Loads the topologies that the settings in a file name, asks as a client, and writes what it is told. The input is not
/// read.
pub(crate) fn run<S: Store, I: Source, K: Sink>(
    alloc: Global,
    name: &str,
    route: Route,
    store: &mut S,
    _input: &mut I,
    out: &mut K,
) -> Status
    requires few { length route.sequence ≤ sequence_most }
    ensures ends { PathEnds (world (S.files store.old) (I.left _input.old) (K.written out.old, K.written out.new) (S.faults store.old, S.faults store.new) (I.faults _input.old, I.faults _input.new) (K.faults out.old, K.faults out.new) (S.failed_at store.new)) name.now route result }
    ensures unread { _input.new ≡ _input.old }
{
    let network = match load_network(alloc, store, name) {
        Ok(network) => network,
        Err(status) => return status,
    };
    let client = network.parts().peers.len() as u32;
    let network = match with_client(alloc, name, network, route.at) {
        Ok(network) => network,
        Err(status) => return status,
    };
    let question = Question {
        id: 1,
        source: route.source,
        target: route.target,
        bandwidth: None,
        sequence: route.sequence,
    };
    match answered(alloc, store, network, client, &question) {
        Ok(text) => finish(out, &text),
        Err(status) => status,
    }
}
