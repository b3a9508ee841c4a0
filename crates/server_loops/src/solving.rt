//! A job solved, outside every call of a bench.
ghost use Rattle.std.specs.Prelude.{◌≡◌, Some, IfOk, OnOk};
ghost use Rattle.std.specs.Arc.{arc_value};
ghost use Rattle.cost_cache.specs.Keys.{key_of};
ghost use Rattle.cost_cache.specs.Entries.{Has, IsGood};
ghost use Rattle.server_loops.specs.Benches.{IsOf};
ghost use Rattle.server_loops.specs.WorkerSteps.{Known, AreRight, CanSolve, IsAsked, KeepsRight, LeavesCache};

use crate::unkept::Unkept;
use border_costs::{Job, Solved, solve as solve_alone};
use cost_cache::Cache;
use dom_base::NoMemory;
use pce_parent::{Done, Work, solve_border};
use std::alloc::Global;
use te_links::Counted;

// A domain's job, by what the cache keeps.
fn solve_kept(cache: &mut Cache, job: &Job) -> Result<Solved, NoMemory>
    requires good { IsGood job.now.ask.at job.now.ask.generation (arc_value job.now.topology) cache.old }
    ensures of { IfOk result (λ solved. (solved.ask ≡ job.now.ask) × (solved.topology ≡ arc_value job.now.topology)) }
    ensures has { OnOk result (Has cache.new (key_of job.now.ask)) }
    ensures right { (known : Known) → known job.now.ask.at job.now.ask.generation ≡ Some (arc_value job.now.topology) → AreRight known cache.old → AreRight known cache.new }
{
    let mut links = Counted::new(&job.topology);
    let rows = cache.solve(&job.ask, &mut links)?;
    Solved::of(job, rows)
}

// A domain's job: the first under a key alone, which is quicker, and each further one by what the cache keeps.
fn solve_domain(
    alloc: Global,
    cache: &mut Cache,
    unkept: &mut Unkept,
    job: &Job,
) -> Result<Solved, NoMemory>
    requires good { IsGood job.now.ask.at job.now.ask.generation (arc_value job.now.topology) cache.old }
    ensures of { IfOk result (λ solved. (solved.ask ≡ job.now.ask) × (solved.topology ≡ arc_value job.now.topology)) }
    ensures first { (¬ IsAsked unkept.old.keys (key_of job.now.ask)) → cache.new ≡ cache.old }
    ensures second { IsAsked unkept.old.keys (key_of job.now.ask) → OnOk result (Has cache.new (key_of job.now.ask)) }
    ensures right { (known : Known) → known job.now.ask.at job.now.ask.generation ≡ Some (arc_value job.now.topology) → AreRight known cache.old → AreRight known cache.new }
    ensures last { unkept.new.last ≡ unkept.old.last }
{
    if unkept.was_asked(alloc, &job.ask)? {
        solve_kept(cache, job)
    } else {
        solve_alone(alloc, job)
    }
}

/// A job solved: a domain's by the cache where its key was asked for before, and each other by itself.
pub(crate) fn solve(
    alloc: Global,
    cache: &mut Cache,
    unkept: &mut Unkept,
    work: &Work,
) -> Result<Done, NoMemory>
    requires can { CanSolve cache.old work.now }
    ensures of { IfOk result (λ done. IsOf done work.now) }
    ensures first { LeavesCache unkept.old.keys work.now cache.old cache.new }
    ensures right { KeepsRight work.now cache.old cache.new }
    ensures last { unkept.new.last ≡ unkept.old.last }
{
    match work {
        Work::Domain(job) => Ok(Done::Domain(solve_domain(alloc, cache, unkept, job)?)),
        Work::Border(job) => Ok(Done::Border(solve_border(alloc, job)?)),
    }
}
