//! `pair-certify`: the certificate of the chosen pair.
ghost use Rattle.std.specs.Prelude.{IfOk};
ghost use Rattle.pce_tool.specs.Commands.PairCertify.{IsPairCertifiedText};
ghost use Rattle.pce_tool.specs.Run.{PairCertify, Ends};
ghost use Rattle.pce_tool.specs.Worlds.{world};

use crate::files::load_topology;
use crate::input::load_pair_request;
use crate::output::finish;
use crate::pair_reading::PairRequest;
use crate::status::Status;
use diverse_pairs::{solve_pair, write_pair};
use dom_base::{Bytes, NoMemory};
use dom_edge::{Sink, Source, Store};
use std::alloc::Global;
use te_links::Topology;

// The text of the certificate of the pair that is asked for.
fn certificate_text(
    alloc: Global,
    topology: &Topology,
    request: &PairRequest,
) -> Result<Bytes, NoMemory>
    ensures { IfOk result (IsPairCertifiedText topology.now request.now) }
{
    let wanted = &request.wanted;
    let certificate = solve_pair(alloc, topology, &wanted.query, wanted.source, wanted.target)?;
    write_pair(alloc, &certificate)
}

/// Writes the certificate of the chosen pair, or of a cut where there is none.
pub(crate) fn run<S: Store, I: Source, K: Sink>(
    alloc: Global,
    topology: &str,
    store: &mut S,
    input: &mut I,
    out: &mut K,
) -> Status
    ensures { Ends (world (S.files store.old) (I.left input.old) (K.written out.old, K.written out.new) (S.faults store.old, S.faults store.new) (I.faults input.old, I.faults input.new) (K.faults out.old, K.faults out.new) (S.failed_at store.new)) (PairCertify topology.now) result }
{
    let topology = match load_topology(alloc, store, topology) {
        Ok(topology) => topology,
        Err(status) => return status,
    };
    let request = match load_pair_request(alloc, input, topology.own()) {
        Ok(request) => request,
        Err(status) => return status,
    };
    match certificate_text(alloc, &topology, &request) {
        Ok(text) => finish(out, text.as_slice()),
        Err(_) => Status::NoMemory,
    }
}
