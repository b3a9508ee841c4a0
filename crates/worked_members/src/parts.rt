//! The rows and the links of border graphs, as words tell them.
ghost use Rattle.std.specs.Prelude.{All, IsTrue};
ghost use Rattle.pce_parent.specs.Solution.{IsWeighed};

use crate::words::{addr, domain, number, spot};
use dom_base::{Addr, Cost, Link, List, ParentLink};
use line_text::Words;
use pce_parent::{BorderSolved, solve_border};
use pcep_subobjects::{Hop, strict_hop};
use plant_model::{BorderJob, ChildRow};
use std::alloc::Global;
use std::test::Fail;
use te_links::METRIC_MAX;

pub(crate) fn cost(words: &mut Words<'_>) -> Result<Cost, Fail> {
    match Cost::of(number(words)?) {
        Some(cost) => Ok(cost),
        None => Err(Fail::from("no cost")),
    }
}

/// A row of a domain: its entry, its target, its cost, and the one address of its hops.
pub(crate) fn row(alloc: Global, words: &mut Words<'_>) -> Result<ChildRow, Fail> {
    let at = domain(words)?;
    let entry = addr(words)?;
    let target = addr(words)?;
    let cost = cost(words)?;
    let hop = strict_hop(addr(words)?);
    let mut hops = List::new(alloc);
    hops.push(hop)?;
    Ok(ChildRow {
        at,
        entry,
        target,
        cost,
        hops,
    })
}

/// A link from a node of a domain to a node of another: its far address and its weight. The near address is
/// greater by 1000, and the shared risk has the far address as its number.
pub(crate) fn link(alloc: Global, words: &mut Words<'_>) -> Result<ParentLink, Fail> {
    let from_as = domain(words)?;
    let from = addr(words)?;
    let to_as = domain(words)?;
    let to = addr(words)?;
    let far = spot(words)?;
    let te = number(words)?;
    let mut srlgs = List::new(alloc);
    srlgs.push(far)?;
    Ok(ParentLink {
        from_as,
        to_as,
        link: Link {
            from,
            to,
            near: Addr::V4(far.wrapping_add(1000)),
            far: Addr::V4(far),
            igp: 1,
            te,
            bytes_per_second: 1000,
            colour: 0,
            srlgs,
        },
    })
}

fn is_weighed(link: &ParentLink) -> bool
    ensures { IsTrue result → IsWeighed link.now }
{
    let (igp, te) = (link.link.igp, link.link.te);
    1 <= igp && igp <= METRIC_MAX && 1 <= te && te <= METRIC_MAX
}

/// Whether all metrics are within their limits.
pub(crate) fn are_weighed(links: &[ParentLink]) -> bool
    ensures { IsTrue result → All IsWeighed links.now }
{
    for link in links {
        if !is_weighed(link) {
            return false;
        }
    }
    true
}

pub(crate) fn is_at(hop: &Hop, number: u32) -> bool {
    match *hop {
        Hop::Prefix {
            loose: false,
            addr: Addr::V4(at),
            length: 32,
        } => at == number,
        _ => false,
    }
}

/// The solution of a job whose links are weighed.
pub(crate) fn solved(alloc: Global, job: &BorderJob) -> Result<BorderSolved, Fail> {
    if !are_weighed(job.links.as_slice()) {
        return Err(Fail::from("a metric out of its limits"));
    }
    Ok(solve_border(alloc, job)?)
}
