//! A world without topologies.
ghost use Rattle.std.specs.Prelude.{[]};

use crate::world::World;
use dom_base::{As, List, NoMemory};
use pcep_subobjects::Hop;
use std::alloc::Global;
use vspt_tree::Best;

/// A world of which nothing is known: its pins and segments are units. The rows that answer a job come
/// from outside.
#[derive(Drop)]
pub struct Blind;

impl World for Blind {
    ghost use Rattle.pce_common.specs.plant_model.Blind.{show_nothing};
    ghost use Rattle.pce_element.specs.Blind.{stands_for_nothing};

    type Pin = ();

    type Segment = ();

    type Solved = ();

    ghost first = { λ own. tt };

    ghost current = { λ world. tt };

    ghost Keeps = { λ world pins. Unit {0} };

    ghost stands = { stands_for_nothing };

    ghost show = { show_nothing };

    fn begin(_alloc: Global, _own: As) -> Result<Blind, NoMemory> {
        Ok(Blind)
    }

    fn pin(&mut self) {}

    fn release(&mut self, _pin: ()) {}

    fn segment(_alloc: Global, _best: &Best) -> Result<(), NoMemory> {
        Ok(())
    }

    fn hops(alloc: Global, _segment: &()) -> Result<List<Hop>, NoMemory> {
        Ok(List::new(alloc))
    }
}
