//! `bulk`: many requests over a large network, both drawn pseudorandomly.
ghost use Rattle.std.specs.Prelude.{◌≡◌, ◌≤◌, IfOk};
ghost use Rattle.plant_client.specs.declared.tally.Tally.{Tally};
ghost use Rattle.plant_client.specs.Requests.{requests_most};
ghost use Rattle.plant_client.specs.TallyText.{tally_text};
ghost use Rattle.pce_tool.specs.Networks.{BulkEnds, IsCounted};
ghost use Rattle.pce_tool.specs.Worlds.{world};

use crate::output::finish;
use crate::status::Status;
use dom_base::NoMemory;
use dom_edge::{Sink, Source, Store};
use plant_client::{Demand, play, tell_tally};
use std::alloc::Global;

// The tally of the answers, as a text.
fn counted(alloc: Global, count: u16) -> Result<Vec<u8>, NoMemory>
    requires few { count ≤ requests_most }
    ensures { IfOk result (λ text. (tally : Tally) × IsCounted count tally × (text.items ≡ tally_text count tally)) }
{
    let tally = play(alloc, Demand::One, count)?;
    tell_tally(alloc, count, tally)
}

/// Draws a network and so many requests, puts them, and writes the tally of the answers. No file and no input is read.
pub(crate) fn run<S: Store, I: Source, K: Sink>(
    alloc: Global,
    count: u16,
    _store: &mut S,
    _input: &mut I,
    out: &mut K,
) -> Status
    requires few { count ≤ requests_most }
    ensures ends { BulkEnds (world (S.files _store.old) (I.left _input.old) (K.written out.old, K.written out.new) (S.faults _store.old, S.faults _store.new) (I.faults _input.old, I.faults _input.new) (K.faults out.old, K.faults out.new) (S.failed_at _store.new)) count result }
    ensures unread { _input.new ≡ _input.old }
{
    match counted(alloc, count) {
        Ok(text) => finish(out, &text),
        Err(_) => Status::NoMemory,
    }
}
