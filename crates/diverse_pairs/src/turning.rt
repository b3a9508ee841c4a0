//! Arcs that are put into use and taken out of use along a path.
ghost use Rattle.std.specs.Prelude.{◌≡◌, ◌<◌, List, Bool, length, All, IfOk};
ghost use Rattle.diverse_pairs.specs.declared.arcs.TheConstants.{UNREACHED as unreached};
ghost use Rattle.diverse_pairs.specs.Along.{AreAlong};
ghost use Rattle.diverse_pairs.specs.Arcs.{at, AreAmong};
ghost use Rattle.diverse_pairs.specs.Listed.{listed, Fits};
ghost use Rattle.diverse_pairs.specs.Distances.{AreDistances};
ghost use Rattle.diverse_pairs.specs.Paths.{turned, LeadsOn, Falling, TurnsTight, TakesPath};

use crate::arcs::Arc;
use crate::lowest::lowest_path;
use crate::residual::Arcs;
use crate::tight::Use;
use dom_base::NoMemory;
use std::alloc::Global;
use te_links::Topology;

/// A path, and what is left in use without it.
#[derive(Drop)]
pub struct Taken {
    pub path: Vec<usize>,
    pub in_use: Vec<bool>,
}

/// Puts each arc of a path into use, or takes it out of use.
pub(crate) fn turn(mut in_use: Vec<bool>, path: &[usize]) -> Vec<bool>
    requires within { All (λ i. i < length in_use.items) path.now }
    ensures turned { result.items ≡ turned in_use.items path.now }
{
    for arc in path {
        in_use[*arc] = !in_use[*arc];
    }
    in_use
}

/// The path between two nodes that takes at each node the first tight arc.
pub(crate) fn tight_path(
    alloc: Global,
    topology: &Topology,
    arcs: &Arcs<'_>,
    distances: &[u64],
    source: usize,
    target: usize,
) -> Result<Vec<usize>, NoMemory>
    requires fits { Fits arcs.now }
    requires along { AreAlong topology.now (listed arcs.now) }
    requires among { AreAmong (length distances.now) (listed arcs.now) }
    requires distances { AreDistances (listed arcs.now) target distances.now }
    requires source { source < length distances.now }
    requires reached { at distances.now source < unreached }
    ensures within { IfOk result (λ path. All (λ i. i < length (listed arcs.now)) path.items) }
    ensures turns { IfOk result (λ path. (old : List Bool) → TurnsTight (listed arcs.now) distances.now source target old (turned old path.items)) }
{
    let tight = Use::Tight(distances);
    lowest_path(alloc, topology, arcs, &tight, distances, source, target)
}

/// Takes the arcs of the path by the first arcs in use out of use.
pub(crate) fn take_path(
    alloc: Global,
    topology: &Topology,
    arcs: &[Option<Arc>],
    in_use: Vec<bool>,
    heights: &[u64],
    source: usize,
    target: usize,
) -> Result<Taken, NoMemory>
    requires along { AreAlong topology.now arcs.now }
    requires long { length in_use.items ≡ length arcs.now }
    requires leads { LeadsOn arcs.now in_use.items source target }
    requires falling { Falling arcs.now in_use.items heights.now }
    ensures taken { IfOk result (λ taken. TakesPath arcs.now source target in_use.items taken.in_use.items taken.path.items) }
{
    let marked = Use::Marked(in_use.as_slice());
    let whole = Arcs::Whole(arcs);
    let path = lowest_path(alloc, topology, &whole, &marked, heights, source, target)?;
    let in_use = turn(in_use, path.as_slice());
    Ok(Taken { path, in_use })
}
