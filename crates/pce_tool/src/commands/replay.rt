//! `replay`: the lines of a record, played on a network as they come.
ghost use Rattle.std.specs.Prelude.{◌≡◌};
ghost use Rattle.pce_tool.specs.Replays.{ReplayEnds};
ghost use Rattle.pce_tool.specs.Worlds.{world};

use crate::commands::play::status_of;
use crate::files::load_network;
use crate::status::Status;
use dom_edge::{Sink, Source, Store};
use plant_client::{Span, replay};
use std::alloc::Global;

/// Plays the script in the input, as it comes and up to its last whole line, on a new network of the settings in a file, and writes the
/// transcript of each line, or of those in `span`.
pub(crate) fn run<S: Store, I: Source, K: Sink>(
    alloc: Global,
    name: &str,
    span: Option<Span>,
    store: &mut S,
    input: &mut I,
    out: &mut K,
) -> Status
    ensures { ReplayEnds (world (S.files store.old) (I.left input.old) (K.written out.old, K.written out.new) (S.faults store.old, S.faults store.new) (I.faults input.old, I.faults input.new) (K.faults out.old, K.faults out.new) (S.failed_at store.new)) name.now span result }
{
    let network = match load_network(alloc, store, name) {
        Ok(network) => network,
        Err(status) => return status,
    };
    match replay(alloc, store, network, input, span, out) {
        Ok(()) => Status::Ok,
        Err(stop) => status_of(stop),
    }
}
