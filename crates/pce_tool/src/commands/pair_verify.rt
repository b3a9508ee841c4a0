//! `pair-verify`: whether a certificate of a pair holds.
ghost use Rattle.pce_tool.specs.Run.{Ends, PairVerify};
ghost use Rattle.pce_tool.specs.Worlds.{world};

use crate::files::{load_pair_certificate, load_topology};
use crate::input::load_pair_request;
use crate::output::finish;
use crate::status::Status;
use diverse_pairs::{PairVerdict, check_pair};
use dom_edge::{Sink, Source, Store};
use std::alloc::Global;

/// Checks a certificate of a pair, whoever made it.
pub(crate) fn run<S: Store, I: Source, K: Sink>(
    alloc: Global,
    topology: &str,
    certificate: &str,
    store: &mut S,
    input: &mut I,
    out: &mut K,
) -> Status
    ensures { Ends (world (S.files store.old) (I.left input.old) (K.written out.old, K.written out.new) (S.faults store.old, S.faults store.new) (I.faults input.old, I.faults input.new) (K.faults out.old, K.faults out.new) (S.failed_at store.new)) (PairVerify topology.now certificate.now) result }
{
    let topology = match load_topology(alloc, store, topology) {
        Ok(topology) => topology,
        Err(status) => return status,
    };
    let certificate = match load_pair_certificate(alloc, store, certificate, &topology) {
        Ok(certificate) => certificate,
        Err(status) => return status,
    };
    let request = match load_pair_request(alloc, input, topology.own()) {
        Ok(request) => request,
        Err(status) => return status,
    };
    let wanted = &request.wanted;
    match check_pair(
        &topology,
        &wanted.query,
        wanted.source,
        wanted.target,
        &certificate,
    ) {
        PairVerdict::Holds => finish(out, b"holds\n"),
        PairVerdict::Fails(place) => Status::Refuted(place),
    }
}
