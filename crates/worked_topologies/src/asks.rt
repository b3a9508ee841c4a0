//! Asks of small domains: the answers to each by a search, by a cache, and in its border table.
mod answers;
mod reading;
mod tables;

ghost use Rattle.std.specs.Prelude.{◌≤◌};
ghost use Rattle.std.specs.Arc.{arc_value};
ghost use Rattle.cost_cache.specs.Entries.{IsGoodForAll};

use crate::texts::{goes_to_a_thread, topology_of};
use answers::{put_answer, put_labels, put_number, put_table};
use border_costs::{Job, Solved, seeds_of, solve, solve_labelled};
use cost_cache::Cache;
use dom_base::NoMemory;
use line_text::{Lines, line_count};
use path_search::search;
use reading::{ask_in, cut};
use std::alloc::Global;
use std::sync::Arc;
use std::test::Fail;
use tables::{FAR_EXIT, FULL, LINE, NEAR_EXIT, ROW, SOURCE, TARGET, TRANSIT};
use te_links::{Counted, Topology};

// The solution of a job by a cache, and how many links were read for it.
fn solve_by(cache: &mut Cache, job: &Job) -> Result<(Solved, u64), NoMemory>
    requires { IsGoodForAll (arc_value job.now.topology) cache.old }
    ensures { IsGoodForAll (arc_value job.now.topology) cache.new }
{
    let mut links = Counted::new(&job.topology);
    let rows = cache.solve(&job.ask, &mut links)?;
    let reads = links.reads();
    Ok((Solved::of(job, rows)?, reads))
}

// How many links a search reads for a job.
fn reads_of(alloc: Global, job: &Job) -> Result<u64, NoMemory> {
    let mut links = Counted::new(&job.topology);
    let seeds = seeds_of(alloc, &job.ask, &links)?;
    let _labels = search(alloc, &mut links, &job.ask.query, &seeds)?;
    Ok(links.reads())
}

// Puts what a cache says of a job; how many links were read for it.
fn put_solution(cache: &mut Cache, job: &Job, text: &mut Vec<u8>) -> Result<u64, NoMemory>
    requires { IsGoodForAll (arc_value job.now.topology) cache.old }
    ensures { IsGoodForAll (arc_value job.now.topology) cache.new }
{
    let (solved, reads) = solve_by(cache, job)?;
    put_answer(&solved, text)?;
    Ok(reads)
}

// Whether a solution says the same.
fn is_said(alloc: Global, solved: &Solved, text: &[u8]) -> Result<bool, NoMemory> {
    let mut anew = Vec::new(alloc);
    put_answer(solved, &mut anew)?;
    Ok(anew.as_slice() == text)
}

// Puts the labels of all nodes; whether the search that gives them says the same for a job.
fn put_labelled(alloc: Global, job: &Job, text: &mut Vec<u8>) -> Result<bool, NoMemory> {
    let (solved, certificate) = solve_labelled(alloc, job)?;
    let is_same = is_said(alloc, &solved, text.as_slice())?;
    put_labels(&certificate, text)?;
    Ok(is_same)
}

// Puts how many links a search reads for a job, whether the cache read none, and the job's border table.
fn put_reads(alloc: Global, job: &Job, reads: u64, text: &mut Vec<u8>) -> Result<(), NoMemory> {
    text.extend_from_slice(b"\nsearch")?;
    put_number(reads_of(alloc, job)?, text)?;
    if reads == 0 {
        text.extend_from_slice(b" unread")?;
    }
    put_table(alloc, job, text)
}

// The answer to a job: its solution, which the cache, a search that ends early and one that gives
// all labels give alike, these labels, and what `put_reads` puts.
fn said(alloc: Global, cache: &mut Cache, job: &Job) -> Result<Vec<u8>, Fail>
    requires { IsGoodForAll (arc_value job.now.topology) cache.old }
    ensures { IsGoodForAll (arc_value job.now.topology) cache.new }
{
    let mut text = Vec::new(alloc);
    let reads = put_solution(cache, job, &mut text)?;
    if !is_said(alloc, &solve(alloc, job)?, text.as_slice())? {
        return Err("something else without the cache")?;
    }
    if !put_labelled(alloc, job, &mut text)? {
        return Err("something else with the labels of all nodes")?;
    }
    put_reads(alloc, job, reads, &mut text)?;
    Ok(text)
}

// The answer to the ask in a line.
fn line_said(
    alloc: Global,
    cache: &mut Cache,
    topology: &Arc<Topology>,
    line: &[u8],
) -> Result<Vec<u8>, Fail>
    requires { IsGoodForAll (arc_value topology.now) cache.old }
    ensures { IsGoodForAll (arc_value topology.now) cache.new }
{
    let topology = topology.clone()?;
    let ask = ask_in(alloc, topology.own(), line)?;
    said(alloc, cache, &Job { ask, topology })
}

// The rest of a table behind a line and its answer; none where something else stands there.
fn behind<'a>(rest: &'a [u8], line: &[u8], said: &[u8]) -> Option<&'a [u8]> {
    rest.strip_prefix(b"\n".as_slice())?
        .strip_prefix(line)?
        .strip_prefix(said)
}

// The line of the first ask with another answer, one behind the other on one cache; 0 where
// more is in the table.
fn first_odd(
    alloc: Global,
    cache: &mut Cache,
    topology: &Arc<Topology>,
    asks: &[u8],
) -> Result<Option<u32>, Fail>
    requires { IsGoodForAll (arc_value topology.now) cache.old }
{
    if line_count(asks) > 1000 {
        return Err("too long")?;
    }
    let mut lines = Lines::new(asks);
    let mut rest = asks;
    while let Some(line) = lines.next_line() {
        if line.text.starts_with(b"ask ") {
            let said = line_said(alloc, cache, topology, line.text)?;
            match behind(rest, line.text, said.as_slice()) {
                Some(next) => rest = next,
                None => return Ok(Some(line.number)),
            }
        }
    }
    Ok(if rest.is_empty() { None } else { Some(0) })
}

// The same of a whole table, on a cache that has kept nothing.
fn odd_in(alloc: Global, capacity: usize, table: &[u8]) -> Result<Option<u32>, Fail>
    requires { 1 ≤ capacity }
{
    let (rows, asks) = cut(table)?;
    let topology = Arc::new(alloc, topology_of(alloc, rows)?)?;
    let mut cache = Cache::new(alloc, capacity)?;
    first_odd(alloc, &mut cache, &topology, asks)
}

#[test]
fn asks_are_answered(rt: HostRuntime) -> Result<(), Fail> {
    for table in [SOURCE, TRANSIT, NEAR_EXIT, FAR_EXIT, TARGET, ROW, LINE] {
        assert_eq!(rt; odd_in(rt.alloc(), 64, table)?, None);
    }
    Ok(())
}

#[test]
fn a_full_cache_drops_what_was_used_longest_ago(rt: HostRuntime) -> Result<(), Fail> {
    assert_eq!(rt; odd_in(rt.alloc(), 2, FULL)?, None);
    Ok(())
}

// Jobs are solved by threads, each with a cache, which hand out what they solved.
fn crosses(job: &Job, solved: &Solved, cache: &Cache) {
    goes_to_a_thread(job);
    goes_to_a_thread(solved);
    goes_to_a_thread(cache);
}
