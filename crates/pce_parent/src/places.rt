//! The vertices of the border graph that a walk can pass, each with a place of its own.
ghost use Rattle.std.specs.Prelude.{◌≡◌, ◌<◌, length, All, IfOk, OnOk, MatchOption};
ghost use Rattle.pce_parent.specs.Places.{Adds, AreVertices, HasLink, HasEnd, Holds, place_of};

use crate::spot::{Spot, entering, leaving};
use dom_base::{NoMemory, ParentLink};
use indexmap::IndexSet;
use pce_common::model::{BorderJob, ChildRow};
use std::alloc::Global;

fn add(spots: &mut IndexSet<Spot>, spot: Spot) -> Result<(), NoMemory>
    ensures { OnOk result (Adds spots.old.keys spot spots.new.keys) }
{
    spots.insert_full(spot)?;
    Ok(())
}

fn add_link(spots: &mut IndexSet<Spot>, link: &ParentLink) -> Result<(), NoMemory>
    ensures { OnOk result (Holds spots.old.keys spots.new.keys × HasLink spots.new.keys link.now) }
{
    add(spots, leaving(link.from_as, link.link.from))?;
    add(spots, entering(link.to_as, link.link.to))?;
    Ok(())
}

// A row that leads to the destination has an end of the graph as its target.
fn add_end(spots: &mut IndexSet<Spot>, job: &BorderJob, row: &ChildRow) -> Result<(), NoMemory>
    ensures { OnOk result (Holds spots.old.keys spots.new.keys × HasEnd job.now spots.new.keys row.now) }
{
    if row.target == job.target {
        add(spots, leaving(row.at, row.target))?;
    }
    Ok(())
}

/// The start, both ends of each link, and the destination in each domain with a row to it.
pub fn places_of(alloc: Global, job: &BorderJob) -> Result<IndexSet<Spot>, NoMemory>
    ensures { IfOk result (λ spots. AreVertices job.now spots.keys) }
{
    let mut spots = IndexSet::new(alloc);
    add(&mut spots, entering(job.start, job.source))?;
    for link in job.links.as_slice() {
        add_link(&mut spots, link)?;
    }
    for row in job.rows.as_slice() {
        add_end(&mut spots, job, row)?;
    }
    Ok(spots)
}

/// The place of a vertex.
pub fn place_at(spots: &IndexSet<Spot>, spot: Spot) -> Option<usize>
    ensures place { result ≡ place_of spots.now.keys spot }
{
    spots.get_index_of(&spot)
}
