//! The turns of a worker.
ghost use Rattle.std.specs.Prelude.{◌≡◌, ◌≢◌, ◌↔◌, [], ℕ, MatchResult};
ghost use Rattle.server_loops.specs.Sites.{Stays};
ghost use Rattle.server_loops.specs.WorkerSteps.{IsRunning};
ghost use Rattle.server_loops.specs.WorkerTurns.{Runs};
ghost use Rattle.server_loops.specs.declared.working.Worked.TheVariants.{NoMemory as WantOfMemory, Spent as SpentAt};

use crate::benches::Bench;
use crate::gates::Gate;
use crate::unkept::Unkept;
use crate::worker_turn::turn;
use cost_cache::Cache;
use dom_base::NoMemory;
use std::alloc::Global;

/// How a worker ended: after all its turns, where the bench was spent, or when memory ran out.
#[derive(Clone, Copy)]
pub enum Worked {
    Turns,
    Spent(u64),
    NoMemory,
}

// Makes so many turns, or fewer where the bench is spent.
fn make_turns<B: Bench, G: Gate>(
    alloc: Global,
    bench: &mut B,
    gate: &mut G,
    cache: &mut Cache,
    unkept: &mut Unkept,
    index: u32,
    turns: u64,
) -> Result<(), NoMemory>
    requires new { cache.old.entries ≡ [] }
    requires none { unkept.old.last ≡ None }
    ensures made { MatchResult result (λ _. IsRunning index turns (B.benched bench.old) (B.benched bench.new) (G.passed gate.old) (G.passed gate.new) cache.new unkept.new.last) (λ _. Runs index turns WantOfMemory (B.benched bench.old) (B.benched bench.new) (G.passed gate.old) (G.passed gate.new) cache.new) }
    ensures stays { Stays B.is_at bench.old bench.new }
{
    for _turn in 0..turns {
        if let Some(_number) = bench.spent() {
            return Ok(());
        }
        if let Err(NoMemory) = turn(alloc, bench, gate, cache, unkept, index) {
            return Err(NoMemory);
        }
    }
    Ok(())
}

/// Makes so many turns. In each it asks the bench for the ready job at the worker's place, and for
/// the first where there is none; looks at the job; passes the gate; solves it; and finishes it. A
/// domain's job is answered by the cache, which is new, where its key was asked for before. At the
/// end the cache has the last job's costs.
pub fn work<B: Bench, G: Gate>(
    alloc: Global,
    bench: &mut B,
    gate: &mut G,
    cache: &mut Cache,
    index: u32,
    turns: u64,
) -> Worked
    requires { cache.old.entries ≡ [] }
    ensures runs { Runs index turns result (B.benched bench.old) (B.benched bench.new) (G.passed gate.old) (G.passed gate.new) cache.new }
    ensures stays { Stays B.is_at bench.old bench.new }
    ensures spent { result ≢ WantOfMemory → (t : ℕ) → (result ≡ SpentAt t) ↔ ((B.benched bench.new).spent ≡ Some t) }
{
    let Ok(mut unkept) = Unkept::new(alloc) else {
        return Worked::NoMemory;
    };
    if let Err(NoMemory) = make_turns(alloc, bench, gate, cache, &mut unkept, index, turns) {
        return Worked::NoMemory;
    }
    if let Err(NoMemory) = unkept.keep(cache) {
        return Worked::NoMemory;
    }
    match bench.spent() {
        Some(number) => Worked::Spent(number),
        None => Worked::Turns,
    }
}
