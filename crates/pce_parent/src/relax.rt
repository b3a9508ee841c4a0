//! Relaxation of costs over edges until none falls.
ghost use Rattle.std.specs.Prelude.{◌≡◌, All, MatchBool, OnOk};
ghost use Rattle.pce_parent.specs.Costs.{IsStep, IsRelaxed, AreReached, Falls};

use crate::arcs::Arc;
use crate::costs::cost_of;
use crate::order::relax_in_order;
use crate::spot::Spot;
use dom_base::{Cost, NoMemory};
use pce_common::model::BorderJob;
use std::alloc::Global;

/// Lowers the cost of the place that an edge leads from, where the way by the edge is better.
pub fn relax(job: &BorderJob, _spots: &[Spot], arc: &Arc, costs: &mut [Option<Cost>]) -> bool
    requires step { IsStep job.now _spots.now arc.now }
    requires reached { AreReached job.now _spots.now costs.old }
    ensures reached { AreReached job.now _spots.now costs.new }
    ensures passes { MatchBool result (Falls costs.old costs.new) ((costs.new ≡ costs.old) × IsRelaxed job.now.query.cap costs.old arc.now) }
{
    let Some(rest) = cost_of(costs, arc.to) else {
        return false;
    };
    let Some(found) = Cost::sum_within(job.query.cap, arc.cost, rest) else {
        return false;
    };
    if !found.is_less(&cost_of(costs, arc.from)) {
        return false;
    }
    costs[arc.from] = Some(found);
    true
}

// Goes over all edges once, and tells whether a cost changed.
fn relax_all(job: &BorderJob, spots: &[Spot], arcs: &[Arc], costs: &mut [Option<Cost>]) -> bool
    requires steps { All (IsStep job.now spots.now) arcs.now }
    requires reached { AreReached job.now spots.now costs.old }
    ensures reached { AreReached job.now spots.now costs.new }
    ensures passes { MatchBool result (Falls costs.old costs.new) ((costs.new ≡ costs.old) × All (IsRelaxed job.now.query.cap costs.new) arcs.now) }
{
    let mut changed = false;
    for arc in arcs {
        if relax(job, spots, arc, costs) {
            changed = true;
        }
    }
    changed
}

// Relaxes until nothing changes.
fn relax_to_end(
    job: &BorderJob,
    spots: &[Spot],
    rows: &[Arc],
    links: &[Arc],
    costs: &mut [Option<Cost>],
)
    requires row_steps { All (IsStep job.now spots.now) rows.now }
    requires link_steps { All (IsStep job.now spots.now) links.now }
    requires reached { AreReached job.now spots.now costs.old }
    ensures reached { AreReached job.now spots.now costs.new }
    ensures rows { All (IsRelaxed job.now.query.cap costs.new) rows.now }
    ensures links { All (IsRelaxed job.now.query.cap costs.new) links.now }
{
    loop {
        let by_rows = relax_all(job, spots, rows, costs);
        let by_links = relax_all(job, spots, links, costs);
        if !by_rows && !by_links {
            return;
        }
    }
}

/// Relaxes in the order of costs, and then until nothing changes, which is once over all edges.
pub fn settle(
    alloc: Global,
    job: &BorderJob,
    spots: &[Spot],
    rows: &[Arc],
    links: &[Arc],
    costs: &mut [Option<Cost>],
) -> Result<(), NoMemory>
    requires row_steps { All (IsStep job.now spots.now) rows.now }
    requires link_steps { All (IsStep job.now spots.now) links.now }
    requires reached { AreReached job.now spots.now costs.old }
    ensures reached { OnOk result (AreReached job.now spots.now costs.new) }
    ensures rows { OnOk result (All (IsRelaxed job.now.query.cap costs.new) rows.now) }
    ensures links { OnOk result (All (IsRelaxed job.now.query.cap costs.new) links.now) }
{
    relax_in_order(alloc, job, spots, rows, links, costs)?;
    relax_to_end(job, spots, rows, links, costs);
    Ok(())
}
