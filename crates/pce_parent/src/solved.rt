//! The solution of a job of the parent.
ghost use Rattle.std.specs.Prelude.{◌≡◌, All, IfOk};
ghost use Rattle.std.specs.Option.{option_map};
ghost use Rattle.pce_common.specs.plant_model.BorderGraph.{SolvesBorder};
ghost use Rattle.pce_parent.specs.Solution.{IsWeighed};
ghost use Rattle.pce_parent.specs.Routes.{AreLeast};
ghost use Rattle.pce_parent.specs.Fields.{found_of, shown_of};

use crate::arcs::{Arc, link_arcs, row_arcs};
use crate::costs::cost_of;
use crate::places::{place_at, places_of};
use crate::relax::settle;
use crate::route::{Stand, chosen_hops};
use crate::spot::{Spot, entering};
use crate::starts::starts_of;
use dom_base::{Cost, List, NoMemory};
use indexmap::IndexSet;
use pce_common::model::BorderJob;
use pcep_subobjects::Hop;
use std::alloc::Global;
use std::marker::Model;
use std::snapshot::Snapshot;

// A walk, by its cost and its hops.
#[derive(Drop)]
struct Walk {
    cost: Cost,
    hops: List<Hop>,
}

/// A solved job: the chosen walk of least cost in the border graph of this very job, or that none is within
/// the cap.
pub struct BorderSolved {
    job: Snapshot<BorderJob>,
    number: u64,
    found: Option<Walk>,
}

// Written, so that it is proved in this crate alone.
impl Drop for BorderSolved {
    fn drop(self) {
        let BorderSolved {
            job: _,
            number: _,
            found: _,
        } = self;
    }
}

impl Model for BorderSolved {
    ghost use Rattle.pce_parent.specs.Solution.{BorderSolution};

    ghost Value = { BorderSolution };

    ghost use Rattle.pce_parent.specs.Fields.{solution_of, IsRight};

    ghost view = { solution_of };

    ghost invariant = { IsRight };
}

impl BorderSolved {
    /// The number of the request.
    pub fn number(&self) -> u64
        ensures number { result ≡ self.now.job.number }
        ensures right { SolvesBorder self.now.job self.now.answer }
    {
        self.number
    }

    /// The least cost and the hops, or None where there is no walk within the cap.
    pub fn answer(&self) -> Option<(Cost, &[Hop])>
        ensures { option_map shown_of result ≡ self.now.answer }
    {
        match &self.found {
            Some(found) => Some((found.cost, found.hops.as_slice())),
            None => None,
        }
    }
}

fn walk_of(
    alloc: Global,
    job: &BorderJob,
    spots: &IndexSet<Spot>,
    rows: &[Arc],
    links: &[Arc],
    costs: &[Option<Cost>],
) -> Result<Option<Walk>, NoMemory>
    requires { AreLeast job.now spots.now.keys rows.now links.now costs.now }
    ensures { IfOk result (λ found. SolvesBorder job.now (option_map found_of found)) }
{
    let Some(place) = place_at(spots, entering(job.start, job.source)) else {
        unreachable!()
    };
    let Some(cost) = cost_of(costs, place) else {
        return Ok(None);
    };
    let start = Stand { place, rest: cost };
    let hops = chosen_hops(alloc, job, spots.as_slice(), rows, links, costs, start)?;
    Ok(Some(Walk { cost, hops }))
}

/// Solves a job over its own border graph. It waits for nobody.
pub fn solve_border(alloc: Global, job: &BorderJob) -> Result<BorderSolved, NoMemory>
    requires weighed { All IsWeighed job.now.links }
    ensures job { IfOk result (λ solved. solved.job ≡ job.now) }
    ensures answer { IfOk result (λ solved. SolvesBorder job.now solved.answer) }
{
    let spots = places_of(alloc, job)?;
    let rows = row_arcs(alloc, job, &spots)?;
    let links = link_arcs(alloc, job, &spots)?;
    let mut costs = starts_of(alloc, job, spots.as_slice())?;
    settle(alloc, job, spots.as_slice(), &rows, &links, &mut costs)?;
    let found = walk_of(alloc, job, &spots, &rows, &links, &costs)?;
    Ok(BorderSolved {
        job: Snapshot::of(job),
        number: job.number,
        found,
    })
}
