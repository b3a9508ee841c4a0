//! The edges of the border graph between vertices that have a place.
ghost use Rattle.std.specs.Prelude.{◌≡◌, ◌↔◌, IsTrue, All, slice_get, length, ◌<◌, IfOk, MatchOption};
ghost use Rattle.pce_common.specs.plant_model.BorderGraph.{ExcludesAs};
ghost use Rattle.pce_parent.specs.Arcs.{IsOpenLink, IsRowArc, IsNoRowArc, AreRowArcs, IsLinkArc, IsNoLinkArc, AreLinkArcs, NamesDomain};
ghost use Rattle.pce_parent.specs.Solution.{IsWeighed};

use crate::places::place_at;
use crate::spot::{Spot, entering, leaving};
use dom_base::{Addr, As, Excluded, Exclusion, NoMemory, ParentLink, Query};
use indexmap::IndexSet;
use path_constraints::{allows, weight};
use pce_common::model::{BorderJob, ChildRow};
use std::alloc::Global;

/// An edge between the places of two vertices: its cost, the address that ties are broken by, and its
/// place among the rows or the links.
#[derive(Clone, Copy)]
pub struct Arc {
    pub from: usize,
    pub to: usize,
    pub cost: u32,
    pub choice: Addr,
    pub index: usize,
}

fn names_domain(exclusion: &Exclusion, own: As) -> bool
    ensures { IsTrue result ↔ NamesDomain exclusion.now own }
{
    match exclusion.what {
        Excluded::AsNumber(number) => !exclusion.avoid && number == own,
        _ => false,
    }
}

fn excludes(query: &Query, own: As) -> bool
    ensures { IsTrue result ↔ ExcludesAs query.now own }
{
    for exclusion in query.exclusions.as_slice() {
        if names_domain(exclusion, own) {
            return true;
        }
    }
    false
}

fn arc_of_row(job: &BorderJob, spots: &IndexSet<Spot>, index: usize, row: &ChildRow) -> Option<Arc>
    ensures { MatchOption result (IsNoRowArc job.now spots.now.keys row.now) (IsRowArc job.now spots.now.keys index row.now) }
{
    let from = place_at(spots, entering(row.at, row.entry))?;
    let to = place_at(spots, leaving(row.at, row.target))?;
    if excludes(&job.query, row.at) {
        return None;
    }
    Some(Arc {
        from,
        to,
        cost: row.cost.get(),
        choice: row.target,
        index,
    })
}

/// The edges of the rows.
pub fn row_arcs(
    alloc: Global,
    job: &BorderJob,
    spots: &IndexSet<Spot>,
) -> Result<Vec<Arc>, NoMemory>
    ensures { IfOk result (λ arcs. AreRowArcs job.now spots.now.keys (length job.now.rows) arcs.items) }
{
    let mut arcs = Vec::new(alloc);
    for (index, row) in job.rows.as_slice().iter().enumerate() {
        if let Some(arc) = arc_of_row(job, spots, index, row) {
            arcs.push(arc)?;
        }
    }
    Ok(arcs)
}

fn is_open(query: &Query, link: &ParentLink) -> bool
    ensures { IsTrue result ↔ IsOpenLink query.now link.now }
{
    allows(query, &link.link) && !excludes(query, link.from_as) && !excludes(query, link.to_as)
}

fn arc_of_link(
    job: &BorderJob,
    spots: &IndexSet<Spot>,
    index: usize,
    link: &ParentLink,
) -> Option<Arc>
    requires { IsWeighed link.now }
    ensures { MatchOption result (IsNoLinkArc job.now spots.now.keys link.now) (IsLinkArc job.now spots.now.keys index link.now) }
{
    if !is_open(&job.query, link) {
        return None;
    }
    Some(Arc {
        from: place_at(spots, leaving(link.from_as, link.link.from))?,
        to: place_at(spots, entering(link.to_as, link.link.to))?,
        cost: weight(&link.link, job.query.metric),
        choice: link.link.far,
        index,
    })
}

/// The edges of the links.
pub fn link_arcs(
    alloc: Global,
    job: &BorderJob,
    spots: &IndexSet<Spot>,
) -> Result<Vec<Arc>, NoMemory>
    requires { All IsWeighed job.now.links }
    ensures { IfOk result (λ arcs. AreLinkArcs job.now spots.now.keys (length job.now.links) arcs.items) }
{
    let mut arcs = Vec::new(alloc);
    for (index, link) in job.links.as_slice().iter().enumerate() {
        if let Some(arc) = arc_of_link(job, spots, index, link) {
            arcs.push(arc)?;
        }
    }
    Ok(arcs)
}
