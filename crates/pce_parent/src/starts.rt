//! The costs of walks without an edge.
ghost use Rattle.std.specs.Prelude.{◌≡◌, IfOk};
ghost use Rattle.pce_parent.specs.Costs.{start_cost, AreReached};

use crate::spot::{Spot, leaving};
use dom_base::{Addr, Cost, NoMemory};
use pce_common::model::BorderJob;
use std::alloc::Global;

fn start_at(target: Addr, spot: &Spot) -> Option<Cost>
    ensures { result ≡ start_cost target spot.now }
{
    if *spot == leaving(spot.own, target) {
        Some(Cost::zero())
    } else {
        None
    }
}

/// Nothing at the destination, in any domain, and no cost elsewhere.
pub fn starts_of(
    alloc: Global,
    job: &BorderJob,
    spots: &[Spot],
) -> Result<Vec<Option<Cost>>, NoMemory>
    ensures { IfOk result (λ costs. AreReached job.now spots.now costs.items) }
{
    let mut costs = Vec::new(alloc);
    for spot in spots {
        costs.push(start_at(job.target, spot))?;
    }
    Ok(costs)
}
