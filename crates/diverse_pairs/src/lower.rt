//! Distances to a target: nodes are settled one after another, the nearest first, and the arcs into
//! each lower the distances where they begin.
ghost use Rattle.std.specs.Prelude.{◌≡◌, ◌≤◌, ◌<◌, ◌∷◌, [], All, length, IfOk, MatchBool};
ghost use Rattle.diverse_pairs.specs.Arcs.{IsAmong, AreAmong};
ghost use Rattle.diverse_pairs.specs.Along.{AreAlong};
ghost use Rattle.diverse_pairs.specs.Listed.{listed, Fits};
ghost use Rattle.diverse_pairs.specs.Distances.{IsLow, Lowers, AreMade, AreDistances};
ghost use Rattle.diverse_pairs.specs.Settling.{Spreads, Settles, IsFarAlone};

use crate::arcs::{Arc, UNREACHED};
use crate::residual::{Arcs, arc_into};
use crate::waiting::Waiting;
use dom_base::NoMemory;
use std::alloc::Global;
use te_links::Topology;

// Lowers the distance of an arc's tail, where the way over the arc is shorter.
fn lower(arc: &Arc, distances: &mut [u64]) -> bool
    requires among { IsAmong (length distances.old) arc.now }
    ensures lowers { MatchBool result (Lowers arc.now distances.old distances.new) ((distances.new ≡ distances.old) × IsLow distances.old arc.now) }
{
    let sum = distances[arc.head].saturating_add(arc.weight);
    if sum < distances[arc.tail] {
        distances[arc.tail] = sum;
        true
    } else {
        false
    }
}

// Lowers over the arc at a place, if it leads to the node. A node whose distance fell waits.
fn spread_arc(
    arcs: &Arcs<'_>,
    _target: usize,
    node: usize,
    place: usize,
    distances: &mut [u64],
    waiting: &mut Waiting,
)
    requires fits { Fits arcs.now }
    requires among { AreAmong (length distances.old) (listed arcs.now) }
    requires place { place < length (listed arcs.now) }
    requires as_long { length waiting.old ≡ length distances.old }
    ensures spreads { Spreads (listed arcs.now) _target node (place ∷ []) distances.old distances.new waiting.old waiting.new }
{
    let Some(arc) = arc_into(arcs, place, node) else {
        return;
    };
    if lower(&arc, distances) {
        waiting.put(arc.tail, distances[arc.tail]);
    }
}

// Lowers over those of the arcs at some places that lead to the node.
fn spread(
    arcs: &Arcs<'_>,
    _target: usize,
    node: usize,
    places: &[u32],
    distances: &mut [u64],
    waiting: &mut Waiting,
)
    requires fits { Fits arcs.now }
    requires among { AreAmong (length distances.old) (listed arcs.now) }
    requires places { All (λ i. i < length (listed arcs.now)) places.now }
    requires as_long { length waiting.old ≡ length distances.old }
    ensures spreads { Spreads (listed arcs.now) _target node places.now distances.old distances.new waiting.old waiting.new }
{
    for place in places {
        spread_arc(arcs, _target, node, *place as usize, distances, waiting);
    }
}

// Settles a node: lowers over all arcs that lead to it.
fn settle(
    topology: &Topology,
    arcs: &Arcs<'_>,
    _target: usize,
    node: usize,
    distances: &mut [u64],
    waiting: &mut Waiting,
)
    requires fits { Fits arcs.now }
    requires along { AreAlong topology.now (listed arcs.now) }
    requires node { node < length topology.now.nodes }
    requires long { length distances.old ≡ length topology.now.nodes }
    requires as_long { length waiting.old ≡ length distances.old }
    ensures settles { Settles (listed arcs.now) _target node distances.old distances.new waiting.old waiting.new }
{
    // A topology obeys the rules, so a place fits.
    let _own = topology.own();
    let into = topology.links_into(node as u32);
    spread(arcs, _target, node, into, distances, waiting);
    let from = topology.links_from(node as u32);
    spread(arcs, _target, node, from, distances, waiting);
}

// The target alone has a distance.
fn at_target(alloc: Global, nodes: usize, target: usize) -> Result<Vec<u64>, NoMemory>
    requires { target < nodes }
    ensures { IfOk result (λ distances. IsFarAlone nodes target distances.items) }
{
    let mut distances = vec![in alloc; UNREACHED; nodes]?;
    distances[target] = 0;
    Ok(distances)
}

/// The distance of each node to the target, over arcs.
pub(crate) fn distances(
    alloc: Global,
    topology: &Topology,
    arcs: &Arcs<'_>,
    target: usize,
) -> Result<Vec<u64>, NoMemory>
    requires fits { Fits arcs.now }
    requires along { AreAlong topology.now (listed arcs.now) }
    requires target { target < length topology.now.nodes }
    ensures long { IfOk result (λ d. length d.items ≡ length topology.now.nodes) }
    ensures distances { IfOk result (λ d. AreDistances (listed arcs.now) target d.items) }
{
    let nodes = topology.node_count() as usize;
    let mut distances = at_target(alloc, nodes, target)?;
    let mut waiting = Waiting::none(alloc, nodes)?;
    waiting.put(target, 0);
    while let Some(node) = waiting.nearest() {
        waiting.put(node, UNREACHED);
        settle(topology, arcs, target, node, &mut distances, &mut waiting);
    }
    Ok(distances)
}
