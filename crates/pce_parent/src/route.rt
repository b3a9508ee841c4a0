//! The chosen walk of least cost, as hops.
ghost use Rattle.std.specs.Prelude.{◌≤◌, IfOk};
ghost use Rattle.pce_parent.specs.Tight.{AreChosen};
ghost use Rattle.pce_parent.specs.Routes.{AreLeast, StandsIn, StandsOut, GoesOver, StandsInHeavier, IsRoute};

use crate::arcs::Arc;
use crate::costs::cost_of;
use crate::spot::Spot;
use crate::tight::{next_arc, next_arcs};
use dom_base::{Cost, List, NoMemory};
use pce_common::model::BorderJob;
use pcep_subobjects::{Hop, append_hops, strict_hop};
use std::alloc::Global;

/// The place of a vertex, and the least cost from there.
#[derive(Drop)]
pub struct Stand {
    pub place: usize,
    pub rest: Cost,
}

// Goes through a domain by its chosen row.
fn over_row(
    alloc: Global,
    job: &BorderJob,
    _spots: &[Spot],
    rows: &[Arc],
    _links: &[Arc],
    costs: &[Option<Cost>],
    next: &[Option<Arc>],
    at: &Stand,
    hops: &mut List<Hop>,
) -> Result<Stand, NoMemory>
    requires least { AreLeast job.now _spots.now rows.now _links.now costs.now }
    requires next { AreChosen rows.now costs.now next.now }
    requires stands { StandsIn _spots.now costs.now at.now }
    ensures stands { IfOk result (StandsOut _spots.now costs.now) }
    ensures goes { IfOk result (λ to. GoesOver job.now _spots.now at.now to hops.old hops.new) }
{
    let Some(arc) = next_arc(rows, costs, next, at.place, at.rest) else {
        unreachable!()
    };
    let Some(rest) = cost_of(costs, arc.to) else {
        unreachable!()
    };
    append_hops(alloc, hops, job.rows.as_slice()[arc.index].hops.as_slice())?;
    Ok(Stand {
        place: arc.to,
        rest,
    })
}

// Goes into the next domain by the chosen link.
fn over_link(
    job: &BorderJob,
    _spots: &[Spot],
    _rows: &[Arc],
    links: &[Arc],
    costs: &[Option<Cost>],
    next: &[Option<Arc>],
    at: &Stand,
    hops: &mut List<Hop>,
) -> Result<Stand, NoMemory>
    requires least { AreLeast job.now _spots.now _rows.now links.now costs.now }
    requires next { AreChosen links.now costs.now next.now }
    requires stands { StandsOut _spots.now costs.now at.now }
    requires more { 1 ≤ at.now.rest }
    ensures stands { IfOk result (StandsInHeavier _spots.now costs.now at.now) }
    ensures goes { IfOk result (λ to. GoesOver job.now _spots.now at.now to hops.old hops.new) }
{
    let Some(arc) = next_arc(links, costs, next, at.place, at.rest) else {
        unreachable!()
    };
    let Some(rest) = cost_of(costs, arc.to) else {
        unreachable!()
    };
    hops.push(strict_hop(arc.choice))?;
    Ok(Stand {
        place: arc.to,
        rest,
    })
}

/// The hops of the chosen walk from where a domain is entered, up to the first end.
pub fn chosen_hops(
    alloc: Global,
    job: &BorderJob,
    spots: &[Spot],
    rows: &[Arc],
    links: &[Arc],
    costs: &[Option<Cost>],
    start: Stand,
) -> Result<List<Hop>, NoMemory>
    requires least { AreLeast job.now spots.now rows.now links.now costs.now }
    requires stands { StandsIn spots.now costs.now start }
    ensures { IfOk result (IsRoute job.now spots.now start) }
{
    let by_row = next_arcs(alloc, rows, costs)?;
    let by_link = next_arcs(alloc, links, costs)?;
    let mut hops = List::new(alloc);
    let mut at = start;
    loop {
        let left = over_row(
            alloc, job, spots, rows, links, costs, &by_row, &at, &mut hops,
        )?;
        if left.rest.get() == 0 {
            return Ok(hops);
        }
        at = over_link(job, spots, rows, links, costs, &by_link, &left, &mut hops)?;
    }
}
