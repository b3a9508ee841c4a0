//! `check`: what is to be told of a network's files before it is served.
ghost use Rattle.std.specs.Prelude.{◌≡◌};
ghost use Rattle.pce_tool.specs.Networks.{CheckEnds, IsReported};
ghost use Rattle.pce_tool.specs.Worlds.{world};

use crate::output::finish;
use crate::status::Status;
use dom_edge::{Sink, Source, Store};
use network_check::{Report, check};
use std::alloc::Global;

// Writes what is told.
#[tactic(auto, using(crate::proofs::NetworkEnds::report_cut))]
fn write<K: Sink>(out: &mut K, report: &Report) -> Status
    ensures { IsReported (K.written out.old) (K.written out.new) (K.faults out.old, K.faults out.new) report.now result }
{
    match finish(out, report.text.as_slice()) {
        Status::Ok => {
            if report.is_faulty {
                Status::Faulty
            } else {
                Status::Ok
            }
        }
        cut => cut,
    }
}

/// Checks the settings in a file and the topologies that they name, and writes what is told of them. No input is read.
pub(crate) fn run<S: Store, I: Source, K: Sink>(
    alloc: Global,
    name: &str,
    store: &mut S,
    _input: &mut I,
    out: &mut K,
) -> Status
    ensures ends { CheckEnds (world (S.files store.old) (I.left _input.old) (K.written out.old, K.written out.new) (S.faults store.old, S.faults store.new) (I.faults _input.old, I.faults _input.new) (K.faults out.old, K.faults out.new) (S.failed_at store.new)) name.now result }
    ensures unread { _input.new ≡ _input.old }
{
    match check(alloc, store, name) {
        Ok(report) => write(out, &report),
        Err(_) => Status::NoMemory,
    }
}
