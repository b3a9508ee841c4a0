//! Relaxation in the order of costs: the place with the least cost that waits goes first (Dijkstra). The
//! result is tested again by `relax`, so that no contract here speaks of the order.
ghost use Rattle.std.specs.Prelude.{◌≡◌, ◌<◌, length, All, IfSome};
ghost use Rattle.pce_parent.specs.Costs.{IsStep, AreReached};

use crate::arcs::Arc;
use crate::relax::relax;
use crate::spot::Spot;
use dom_base::{Cost, NoMemory};
use pce_common::model::BorderJob;
use std::alloc::Global;

// The edges into each place, by their place in the list.
fn edges_into(alloc: Global, arcs: &[Arc], places: usize) -> Result<Vec<Vec<usize>>, NoMemory> {
    let mut into = Vec::new(alloc);
    for _place in 0..places {
        into.push(Vec::new(alloc))?;
    }
    for (index, arc) in arcs.iter().enumerate() {
        if let Some(edges) = into.get_mut(arc.to) {
            edges.push(index)?;
        }
    }
    Ok(into)
}

// The cost of a place that waits, and a number above all costs for another.
fn waiting_cost(cost: Option<Cost>, is_settled: bool) -> u32 {
    match cost {
        Some(cost) => { if is_settled { u32::MAX } else { cost.get() } }
        None => u32::MAX,
    }
}

// The place with the least cost among those that wait.
fn least_waiting(costs: &[Option<Cost>], settled: &[bool]) -> Option<usize> {
    let mut found = None;
    let mut least = u32::MAX;
    for (place, (cost, is_settled)) in costs.iter().zip(settled).enumerate() {
        let waiting = waiting_cost(*cost, *is_settled);
        if waiting < least {
            least = waiting;
            found = Some(place);
        }
    }
    found
}

// Relaxes the edges into a place.
fn relax_into(
    job: &BorderJob,
    spots: &[Spot],
    arcs: &[Arc],
    into: &[Vec<usize>],
    place: usize,
    costs: &mut [Option<Cost>],
)
    requires steps { All (IsStep job.now spots.now) arcs.now }
    requires reached { AreReached job.now spots.now costs.old }
    ensures { AreReached job.now spots.now costs.new }
{
    let Some(edges) = into.get(place) else {
        return;
    };
    for index in edges {
        if let Some(arc) = arcs.get(*index) {
            relax(job, spots, arc, costs);
        }
    }
}

/// Relaxes the edges into each place, the least cost first.
pub fn relax_in_order(
    alloc: Global,
    job: &BorderJob,
    spots: &[Spot],
    rows: &[Arc],
    links: &[Arc],
    costs: &mut [Option<Cost>],
) -> Result<(), NoMemory>
    requires row_steps { All (IsStep job.now spots.now) rows.now }
    requires link_steps { All (IsStep job.now spots.now) links.now }
    requires reached { AreReached job.now spots.now costs.old }
    ensures { AreReached job.now spots.now costs.new }
{
    let by_rows = edges_into(alloc, rows, spots.len())?;
    let by_links = edges_into(alloc, links, spots.len())?;
    let mut settled = vec![in alloc; false; spots.len()]?;
    for _turn in 0..spots.len() {
        let Some(place) = least_waiting(costs, &settled) else {
            return Ok(());
        };
        if let Some(is_settled) = settled.get_mut(place) {
            *is_settled = true;
        }
        relax_into(job, spots, rows, &by_rows, place, costs);
        relax_into(job, spots, links, &by_links, place, costs);
    }
    Ok(())
}
