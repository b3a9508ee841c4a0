//! Paths, potentials and cuts as they stand in a certificate.
ghost use Rattle.std.specs.Prelude.{◌≡◌, ◌∷◌, ◌<◌, ℕ, All, List, length, map, IfOk};
ghost use Rattle.dom_base.specs.declared.link.Link.{Link};
ghost use Rattle.path_search.specs.Segments.{AreAt};
ghost use Rattle.diverse_pairs.specs.Shown.{IsTop, ArePotentials, AreCutOff};

use crate::arcs::UNREACHED;
use dom_base::{Addr, NoMemory};
use std::alloc::Global;
use te_links::Topology;

/// The source, and then the far addresses of the links at these places.
pub(crate) fn far_addresses(
    alloc: Global,
    topology: &Topology,
    source: Addr,
    places: &[usize],
) -> Result<Vec<Addr>, NoMemory>
    requires { All (λ i. i < length topology.now.links) places.now }
    ensures { IfOk result (λ shown. (ls : List Link) → AreAt topology.now.links places.now ls → shown.items ≡ source ∷ map (λ l. l.far) ls) }
{
    // A topology obeys the rules, so a place fits.
    let _own = topology.own();
    let mut shown = Vec::new(alloc);
    shown.push(source)?;
    for place in places {
        shown.push(topology.link_at(*place as u32).far)?;
    }
    Ok(shown)
}

// The greatest height of a node that has one.
fn greatest(heights: &[u64]) -> u64
    ensures { IsTop heights.now result }
{
    let mut top = 0;
    for height in heights {
        if *height != UNREACHED && *height > top {
            top = *height;
        }
    }
    top
}

/// The potential of each node that has a height: how far it is below the greatest.
pub(crate) fn potentials(
    alloc: Global,
    topology: &Topology,
    heights: &[u64],
) -> Result<Vec<(Addr, u64)>, NoMemory>
    requires { length heights.now ≡ length topology.now.nodes }
    ensures { IfOk result (λ rows. (top : ℕ) × ArePotentials topology.now heights.now top rows.items) }
{
    let top = greatest(heights);
    let mut rows = Vec::with_capacity(alloc, heights.len())?;
    for place in 0..topology.node_count() {
        let height = heights[place as usize];
        if height != UNREACHED {
            rows.push((topology.node_at(place), top - height))?;
        }
    }
    Ok(rows)
}

/// The nodes without a distance.
pub(crate) fn cut_off(
    alloc: Global,
    topology: &Topology,
    distances: &[u64],
) -> Result<Vec<Addr>, NoMemory>
    requires { length distances.now ≡ length topology.now.nodes }
    ensures { IfOk result (λ nodes. AreCutOff topology.now distances.now nodes.items) }
{
    let mut nodes = Vec::new(alloc);
    for place in 0..topology.node_count() {
        if distances[place as usize] == UNREACHED {
            nodes.push(topology.node_at(place))?;
        }
    }
    Ok(nodes)
}
