//! The nodes that wait to be settled, the least first.
ghost use Rattle.std.specs.Prelude.{◌≡◌, ◌<◌, ◌^◌, length, map, replicate, slice_set, None, IfOk};
ghost use Rattle.path_search.specs.Front.{cost_of, HoldsLeast};
ghost use Rattle.path_search.specs.declared.blocks.TheConstants.{NOTHING};

use crate::blocks::{BLOCK, NOTHING, least_place, set_cost};
use crate::labels::Labels;
use dom_base::{Cost, NoMemory};
use std::alloc::Global;
use std::marker::Model;

fn no_costs(alloc: Global, count: usize) -> Result<Vec<u32>, NoMemory>
    ensures { IfOk result (λ costs. costs.items ≡ replicate count NOTHING) }
{
    Ok(vec![in alloc; NOTHING; count]?)
}

/// The costs of the nodes that wait to be settled, by their places, in blocks that each know their
/// least. Exits do not matter here: each link costs something, so nodes of one cost do not lower
/// one another.
#[derive(Drop)]
pub(crate) struct Waiting {
    costs: Vec<u32>,
    least: Vec<u32>,
}

impl Model for Waiting {
    ghost use Rattle.std.specs.Prelude.{List, ℕ};
    ghost use Rattle.std.specs.declared.option.Option.{Option};

    ghost Value = { List (Option ℕ) };

    ghost use Rattle.path_search.specs.Blocks.{costs_of, HoldsBlocks};

    ghost view = { costs_of };

    ghost invariant = { HoldsBlocks };
}

impl Waiting {
    fn none(alloc: Global, nodes: usize) -> Result<Waiting, NoMemory>
        requires { nodes < 2 ^ 31 }
        ensures { IfOk result (λ waiting. waiting ≡ replicate nodes None) }
    {
        let costs = no_costs(alloc, nodes)?;
        let least = no_costs(alloc, nodes / BLOCK + 1)?;
        Ok(Waiting { costs, least })
    }

    pub(crate) fn of(alloc: Global, labels: &Labels) -> Result<Waiting, NoMemory>
        requires { length labels.now < 2 ^ 31 }
        ensures { IfOk result (λ waiting. waiting ≡ map cost_of labels.now) }
    {
        let mut waiting = Waiting::none(alloc, labels.len())?;
        for i in 0..labels.len() as u32 {
            if let Some(cost) = labels.cost_at(i) {
                waiting.put(i, Some(cost));
            }
        }
        Ok(waiting)
    }

    /// Puts a cost at a place.
    pub(crate) fn put(&mut self, place: u32, cost: Option<Cost>)
        requires { place < length self.old }
        ensures { self.new ≡ slice_set self.old place cost }
    {
        set_cost(&mut self.costs, &mut self.least, place as usize, &cost);
    }

    /// The place of a least cost.
    pub(crate) fn least(&self) -> Option<u32>
        ensures { HoldsLeast self.now result }
    {
        least_place(&self.costs, &self.least)
    }
}
