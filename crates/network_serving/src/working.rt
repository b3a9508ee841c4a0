//! A worker that goes on after memory ran out.
ghost use Rattle.std.specs.Prelude.{◌≡◌, ◌≢◌, ◌↔◌, [], ℕ, Some, true};
ghost use Rattle.server_loops.specs.declared.working.Worked.TheVariants.{NoMemory as OutOfMemory, Spent as SpentAt};
ghost use Rattle.turn_desk.specs.Desks.{IsStill};
ghost use Rattle.turn_desk.specs.WorkBenches.{bench_of, desk_of};
ghost use Rattle.network_serving.specs.Working.{IsTry, WorksOn};

use crate::gates::OpenGate;
use crate::planning::CACHE_CAPACITY;
use cost_cache::Cache;
use server_loops::{Bench, Worked, work};
use std::alloc::Global;
use std::sync::Wait;
use std::time::Clock;
use turn_desk::WorkBench;

// Whether the cache is new now. One that is not is replaced, behind a rest.
fn renew<R: Wait + Clock>(
    alloc: Global,
    bench: &WorkBench<R>,
    cache: &mut Cache,
    is_new: bool,
) -> bool
    requires new { is_new ≡ true → cache.old.entries ≡ [] }
    ensures new { result ≡ true → cache.new.entries ≡ [] }
{
    if is_new {
        return true;
    }
    bench.rest();
    match Cache::new(alloc, CACHE_CAPACITY) {
        Ok(fresh) => {
            *cache = fresh;
            true
        }
        Err(_) => false,
    }
}

// A run over a cache that is new, where there is memory for one.
#[tactic(auto, using(crate::proofs::Workings::one_run, crate::proofs::Workings::no_run))]
fn try_once<R: Wait + Clock>(
    alloc: Global,
    bench: &mut WorkBench<R>,
    cache: &mut Cache,
    is_new: bool,
    index: u32,
    turns: u64,
) -> Worked
    requires new { is_new ≡ true → cache.old.entries ≡ [] }
    ensures tries { IsTry index turns result (bench_of bench.old) (bench_of bench.new) cache.new }
    ensures stays { IsStill (desk_of bench.old) (desk_of bench.new) }
    ensures spent { result ≢ OutOfMemory → (t : ℕ) → (result ≡ SpentAt t) ↔ ((bench_of bench.new).spent ≡ Some t) }
{
    if !renew(alloc, bench, cache, is_new) {
        return Worked::NoMemory;
    }
    let worked = work(alloc, bench, &mut OpenGate::new(), cache, index, turns);
    bench.let_go();
    worked
}

/// Makes so many turns. Where memory ran out the worker rests and begins anew, with a cache that is new, so many times at most.
#[tactic(auto, using(crate::proofs::Workings::none_lacked, crate::proofs::Workings::one_lacked, crate::proofs::Workings::works_by, crate::proofs::Workings::works_out))]
pub(crate) fn work_on<R: Wait + Clock>(
    alloc: Global,
    bench: &mut WorkBench<R>,
    cache: &mut Cache,
    index: u32,
    turns: u64,
) -> Worked
    requires new { cache.old.entries ≡ [] }
    ensures works { WorksOn index turns turns result (bench_of bench.old) (bench_of bench.new) cache.new }
    ensures spent { (t : ℕ) → (result ≡ SpentAt t) ↔ ((bench_of bench.new).spent ≡ Some t) }
    ensures lasts { result ≢ OutOfMemory }
    ensures stays { IsStill (desk_of bench.old) (desk_of bench.new) }
{
    for run in 0..turns {
        match try_once(alloc, bench, cache, run == 0, index, turns) {
            Worked::NoMemory => {}
            end => return end,
        }
    }
    match bench.spent() {
        Some(number) => Worked::Spent(number),
        None => Worked::Turns,
    }
}
