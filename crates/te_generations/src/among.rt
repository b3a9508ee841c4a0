//! The older generations, by number.
ghost use Rattle.std.specs.Prelude.{◌≡◌, ◌≤◌, ◌<◌, ℕ, Some, IfOk, map, length};
ghost use Rattle.std.specs.Arc.{arc_value};
ghost use Rattle.te_generations.specs.Shelf.{pins_among, topology_among, released_among};
ghost use Rattle.te_generations.specs.Live.{generation_of, IsFirst};

use crate::live::Live;
use dom_base::NoMemory;
use std::sync::Arc;
use te_links::Topology;

// The place of a pinned generation.
fn place_of(older: &Vec<Live>, number: u64) -> usize
    requires { 1 ≤ pins_among number (map generation_of older.now.items) }
    ensures within { result < length older.now.items }
    ensures first { IsFirst number result older.now.items }
{
    for i in 0..older.len() {
        if older[i].number == number {
            return i;
        }
    }
    unreachable!()
}

/// Takes a pin of a generation away, and the generation with its last pin.
pub(crate) fn release_among(older: &mut Vec<Live>, number: u64)
    requires { 1 ≤ pins_among number (map generation_of older.old.items) }
    ensures { map generation_of older.new.items ≡ released_among number (map generation_of older.old.items) }
{
    let i = place_of(older, number);
    let pins = older[i].pins;
    if pins == 1 {
        let _ = older.remove(i);
    } else {
        older[i].pins = pins - 1;
    }
}

/// A further owner of the topology of a pinned generation.
pub(crate) fn shared_among(older: &Vec<Live>, number: u64) -> Result<Arc<Topology>, NoMemory>
    requires { 1 ≤ pins_among number (map generation_of older.now.items) }
    ensures { IfOk result (λ topology. topology_among number (map generation_of older.now.items) ≡ Some (arc_value topology)) }
{
    let i = place_of(older, number);
    Ok(older[i].topology.clone()?)
}

/// The topology of a pinned generation.
pub(crate) fn topology_in(older: &Vec<Live>, number: u64) -> &Topology
    requires { 1 ≤ pins_among number (map generation_of older.now.items) }
    ensures { topology_among number (map generation_of older.now.items) ≡ Some result.now }
{
    let i = place_of(older, number);
    &*older[i].topology
}
