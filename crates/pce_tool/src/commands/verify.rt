//! `verify`: whether a certificate of a request holds.
ghost use Rattle.pce_tool.specs.Run.{Verify, Ends};
ghost use Rattle.pce_tool.specs.Worlds.{world};

use crate::files::{load_certificate, load_topology};
use crate::input::load_request;
use crate::output::finish;
use crate::status::Status;
use dom_edge::{Sink, Source, Store};
use one_domain::seeds_of;
use path_certificate::{Verdict, check};
use std::alloc::Global;

/// Checks a certificate of a request, whoever made it.
pub(crate) fn run<S: Store, I: Source, K: Sink>(
    alloc: Global,
    topology: &str,
    certificate: &str,
    store: &mut S,
    input: &mut I,
    out: &mut K,
) -> Status
    ensures { Ends (world (S.files store.old) (I.left input.old) (K.written out.old, K.written out.new) (S.faults store.old, S.faults store.new) (I.faults input.old, I.faults input.new) (K.faults out.old, K.faults out.new) (S.failed_at store.new)) (Verify topology.now certificate.now) result }
{
    let topology = match load_topology(alloc, store, topology) {
        Ok(topology) => topology,
        Err(status) => return status,
    };
    let certificate = match load_certificate(alloc, store, certificate, &topology) {
        Ok(certificate) => certificate,
        Err(status) => return status,
    };
    let request = match load_request(alloc, input, topology.own()) {
        Ok(request) => request,
        Err(status) => return status,
    };
    let wanted = &request.wanted;
    let seeds = seeds_of(wanted.target);
    match check(
        &topology,
        &wanted.query,
        &seeds,
        wanted.source,
        &certificate,
    ) {
        Verdict::Holds => finish(out, b"holds\n"),
        Verdict::Fails { place, .. } => Status::Refuted(place),
    }
}
