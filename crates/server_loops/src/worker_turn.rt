//! One turn of a worker.
ghost use Rattle.std.specs.Prelude.{◌≡◌, ℕ, Contains, Some, Ok};
ghost use Rattle.dom_base.specs.declared.names.As.{As};
ghost use Rattle.server_loops.specs.Benches.{Look, IsGiven};
ghost use Rattle.server_loops.specs.Sites.{Stays};
ghost use Rattle.server_loops.specs.WorkerSteps.{AreSound, IsLive, IsFound, IsFinished, IsTurned};

use crate::benches::{Bench, Finished};
use crate::gates::Gate;
use crate::solving::solve;
use crate::unkept::Unkept;
use cost_cache::Cache;
use dom_base::{As, NoMemory};
use pce_parent::Work;
use std::alloc::Global;

// The ready job at the worker's place, and the first where there is none.
fn find<B: Bench>(bench: &mut B, index: u32) -> Option<(As, u64)>
    ensures found { IsFound index (B.benched bench.old) (B.benched bench.new) result }
    ensures stays { Stays B.is_at bench.old bench.new }
{
    match bench.ready(index as usize) {
        Some(job) => Some(job),
        None => bench.ready(0),
    }
}

// Solves a job that a look gave, and hands the solution back.
fn finish<B: Bench>(
    alloc: Global,
    bench: &mut B,
    cache: &mut Cache,
    unkept: &mut Unkept,
    work: Work,
    _at: As,
    _number: u64,
) -> Result<(), NoMemory>
    requires looked { Contains (B.benched bench.old).calls (Look _at _number (Ok (Some work))) }
    requires given { IsGiven (B.benched bench.old) work }
    requires live { IsLive (B.benched bench.old) }
    requires sound { AreSound (B.benched bench.old).topologies cache.old unkept.old.last }
    ensures finished { IsFinished work result (B.benched bench.old) (B.benched bench.new) unkept.old.last cache.new unkept.new.last }
    ensures stays { Stays B.is_at bench.old bench.new }
{
    let done = solve(alloc, cache, unkept, &work)?;
    match bench.finish(done) {
        Finished::NoMemory => Err(NoMemory),
        Finished::Kept | Finished::Stranger => {
            unkept.finished(work);
            Ok(())
        }
    }
}

/// One turn: a job that is ready is looked at, and one that is given passes the gate, is solved and
/// finished.
pub(crate) fn turn<B: Bench, G: Gate>(
    alloc: Global,
    bench: &mut B,
    gate: &mut G,
    cache: &mut Cache,
    unkept: &mut Unkept,
    index: u32,
) -> Result<(), NoMemory>
    requires { AreSound (B.benched bench.old).topologies cache.old unkept.old.last }
    ensures turned { IsTurned index result (B.benched bench.old) (B.benched bench.new) (G.passed gate.old) (G.passed gate.new) unkept.old.last cache.new unkept.new.last }
    ensures stays { Stays B.is_at bench.old bench.new }
{
    let Some((at, number)) = find(bench, index) else {
        return Ok(());
    };
    let Some(work) = bench.look(at, number)? else {
        return Ok(());
    };
    gate.before(at, number);
    finish(alloc, bench, cache, unkept, work, at, number)
}
