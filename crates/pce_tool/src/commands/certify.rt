//! `certify`: the certificate of a request.
ghost use Rattle.std.specs.Prelude.{IfOk};
ghost use Rattle.pce_tool.specs.Commands.Certify.{IsCertifiedText};
ghost use Rattle.pce_tool.specs.Run.{Certify, Ends};
ghost use Rattle.pce_tool.specs.Worlds.{world};

use crate::files::load_topology;
use crate::input::load_request;
use crate::output::finish;
use crate::status::Status;
use dom_base::{Bytes, NoMemory};
use dom_edge::{Sink, Source, Store};
use one_domain::certificate_of;
use path_certificate::write_certificate;
use pcep_messages::Wanted;
use std::alloc::Global;
use te_links::Topology;

// The text of the certificate of a request.
fn certificate_text(alloc: Global, topology: &Topology, wanted: &Wanted) -> Result<Bytes, NoMemory>
    ensures { IfOk result (IsCertifiedText topology.now wanted.now) }
{
    let certificate = certificate_of(alloc, topology, wanted)?;
    write_certificate(alloc, &certificate)
}

/// Writes the certificate of a request: the least labels and the chosen path.
pub(crate) fn run<S: Store, I: Source, K: Sink>(
    alloc: Global,
    topology: &str,
    store: &mut S,
    input: &mut I,
    out: &mut K,
) -> Status
    ensures { Ends (world (S.files store.old) (I.left input.old) (K.written out.old, K.written out.new) (S.faults store.old, S.faults store.new) (I.faults input.old, I.faults input.new) (K.faults out.old, K.faults out.new) (S.failed_at store.new)) (Certify topology.now) result }
{
    let topology = match load_topology(alloc, store, topology) {
        Ok(topology) => topology,
        Err(status) => return status,
    };
    let request = match load_request(alloc, input, topology.own()) {
        Ok(request) => request,
        Err(status) => return status,
    };
    match certificate_text(alloc, &topology, &request.wanted) {
        Ok(text) => finish(out, text.as_slice()),
        Err(_) => Status::NoMemory,
    }
}
