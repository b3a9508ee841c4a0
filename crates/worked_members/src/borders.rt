//! Solutions of border graphs.
mod graphs;

use crate::parts::{cost, is_at, link, row, solved};
use crate::words::{addr, domain, lines_of, number, word};
use dom_base::{Addr, As, Excluded, Exclusion, List, Metric, Query};
use graphs::{DRAWN, WORKED};
use line_text::{Words, line_count};
use pce_parent::BorderSolved;
use pcep_subobjects::Hop;
use plant_model::BorderJob;
use std::alloc::Global;
use std::test::Fail;

fn metric(words: &mut Words<'_>) -> Result<Metric, Fail> {
    match word(words)? {
        b"te" => Ok(Metric::Te),
        b"hops" => Ok(Metric::Hops),
        _ => Err(Fail::from("no metric")),
    }
}

fn excluded(words: &mut Words<'_>) -> Result<Excluded, Fail> {
    match word(words)? {
        b"domain" => Ok(Excluded::AsNumber(domain(words)?)),
        b"address" => Ok(Excluded::Prefix {
            addr: addr(words)?,
            length: 32,
            attribute: 0,
        }),
        b"risk" => Ok(Excluded::Srlg(number(words)?)),
        _ => Err(Fail::from("nothing excluded")),
    }
}

// The job of the first words, without rows, links and exclusions.
fn bare_job(alloc: Global, words: &mut Words<'_>) -> Result<BorderJob, Fail> {
    let metric = metric(words)?;
    let start = domain(words)?;
    let source = addr(words)?;
    let target = addr(words)?;
    let cap = cost(words)?;
    let query = Query {
        own: As(0),
        metric,
        cap,
        bandwidth: 0,
        exclude_any: 0,
        include_any: 0,
        include_all: 0,
        exclusions: List::new(alloc),
    };
    Ok(BorderJob {
        number: 7,
        start,
        source,
        target,
        query,
        rows: List::new(alloc),
        links: List::new(alloc),
    })
}

// Puts what the next words tell into the job, and whether they tell a cost behind it, or none.
fn fill(alloc: Global, job: &mut BorderJob, words: &mut Words<'_>) -> Result<bool, Fail> {
    for _k in 0..100 {
        match word(words)? {
            b"row" => job.rows.push(row(alloc, words)?)?,
            b"link" => job.links.push(link(alloc, words)?)?,
            b"bar" => job.query.exclusions.push(Exclusion {
                avoid: false,
                what: excluded(words)?,
            })?,
            b"cost" => return Ok(true),
            b"none" => return Ok(false),
            _ => return Err(Fail::from("no part of a graph")),
        }
    }
    Err(Fail::from("a large graph"))
}

// The solution of the job of the words, and whether a cost is told behind it.
fn solved_as_told(alloc: Global, words: &mut Words<'_>) -> Result<(BorderSolved, bool), Fail> {
    let mut job = bare_job(alloc, words)?;
    let found = fill(alloc, &mut job, words)?;
    Ok((solved(alloc, &job)?, found))
}

// Whether hops are at the addresses of the other words.
fn are_at(hops: &[Hop], words: &mut Words<'_>) -> Result<bool, Fail> {
    for hop in hops {
        if !is_at(hop, number(words)?) {
            return Ok(false);
        }
    }
    Ok(words.next_word().is_none())
}

// Whether this is the answer that the other words tell.
fn is_answer(solved: &BorderSolved, found: bool, words: &mut Words<'_>) -> Result<bool, Fail> {
    match solved.answer() {
        None => Ok(!found && words.next_word().is_none()),
        Some((cost, hops)) => { Ok(found && number(words)? == cost.get() && are_at(hops, words)?) }
    }
}

fn holds(alloc: Global, line: &[u8]) -> Result<bool, Fail> {
    let mut words = Words::new(line);
    let (solved, found) = solved_as_told(alloc, &mut words)?;
    Ok(solved.number() == 7 && is_answer(&solved, found, &mut words)?)
}

// The number of the first line that does not hold.
fn first_wrong(alloc: Global, text: &[u8]) -> Result<Option<u32>, Fail> {
    let mut lines = lines_of(text)?;
    for _k in 0..line_count(text) {
        let Some(line) = lines.next_line() else {
            break;
        };
        if !holds(alloc, line.text)? {
            return Ok(Some(line.number));
        }
    }
    Ok(None)
}

#[test]
fn border_graphs_have_these_answers(rt: HostRuntime) -> Result<(), Fail> {
    for table in [WORKED, DRAWN] {
        assert_eq!(rt;
            first_wrong(rt.alloc(), table)?,
            None,
            "the line that does not hold"
        );
    }
    Ok(())
}
