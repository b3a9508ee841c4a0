//! The nodes that wait to be settled, the nearest first.
ghost use Rattle.std.specs.Prelude.{◌≡◌, ◌<◌, ◌≤◌, ◌*◌, ℕ, length, replicate, slice_set, IfOk, MatchOption};
ghost use Rattle.te_links.specs.declared.limits.TheConstants.{NODES_MAX};
ghost use Rattle.diverse_pairs.specs.declared.arcs.TheConstants.{UNREACHED as unreached};
ghost use Rattle.diverse_pairs.specs.Arcs.{at};
ghost use Rattle.diverse_pairs.specs.Blocks.{AreNearest, IsNearestIn, AreFirstPlaces};

use crate::arcs::UNREACHED;
use dom_base::NoMemory;
use std::alloc::Global;
use std::marker::Model;

// The number of nodes in a block.
const BLOCK: usize = 8;

// The number of blocks in a group.
const BLOCKS: usize = 8;

// The number of nodes in a group.
const GROUP: usize = 64;

fn no_distances(alloc: Global, nodes: usize) -> Result<Vec<u64>, NoMemory>
    ensures { IfOk result (λ distances. distances.items ≡ replicate nodes unreached) }
{
    Ok(vec![in alloc; UNREACHED; nodes]?)
}

// The place of the first node of each block.
fn first_places(alloc: Global, nodes: usize) -> Result<Vec<usize>, NoMemory>
    requires { nodes ≤ NODES_MAX }
    ensures { IfOk result (λ places. AreFirstPlaces nodes places.items) }
{
    let mut places = Vec::new(alloc);
    for block in 0..nodes.div_ceil(BLOCK) {
        places.push(block * BLOCK)?;
    }
    Ok(places)
}

// The place of a least distance among those of a block.
fn nearest_in(distances: &[u64], block: usize) -> usize
    requires short { length distances.now ≤ NODES_MAX }
    requires block { block * 8 < length distances.now }
    ensures { IsNearestIn 8 distances.now block result }
{
    let start = block * BLOCK;
    let end = (start + BLOCK).min(distances.len());
    let mut nearest = start;
    for place in start..end {
        if distances[place] < distances[nearest] {
            nearest = place;
        }
    }
    nearest
}

// Puts a distance at a place.
fn set_distance(distances: &mut [u64], nearest: &mut [usize], place: usize, distance: u64)
    requires short { length distances.old ≤ NODES_MAX }
    requires nearest { AreNearest 8 distances.old nearest.old }
    requires place { place < length distances.old }
    ensures nearest { AreNearest 8 distances.new nearest.new }
    ensures set { distances.new ≡ slice_set distances.old place distance }
{
    let block = place / BLOCK;
    distances[place] = distance;
    let was = nearest[block];
    if was == place {
        nearest[block] = nearest_in(distances, block);
    } else if distance < distances[was] {
        nearest[block] = place;
    }
}

// The place of a least distance among those of a group: the least of its blocks has it.
fn nearest_among(distances: &[u64], nearest: &[usize], group: usize) -> usize
    requires short { length distances.now ≤ NODES_MAX }
    requires nearest { AreNearest 8 distances.now nearest.now }
    requires group { group * 64 < length distances.now }
    ensures { IsNearestIn 64 distances.now group result }
{
    let start = group * BLOCKS;
    let end = (start + BLOCKS).min(nearest.len());
    let mut found = nearest[start];
    for block in start..end {
        let place = nearest[block];
        if distances[place] < distances[found] {
            found = place;
        }
    }
    found
}

// The place of a least distance in each group.
fn groups_of(alloc: Global, distances: &[u64], nearest: &[usize]) -> Result<Vec<usize>, NoMemory>
    requires short { length distances.now ≤ NODES_MAX }
    requires nearest { AreNearest 8 distances.now nearest.now }
    ensures { IfOk result (λ groups. AreNearest 64 distances.now groups.items) }
{
    let mut groups = Vec::new(alloc);
    for group in 0..distances.len().div_ceil(GROUP) {
        groups.push(nearest_among(distances, nearest, group))?;
    }
    Ok(groups)
}

// Puts a distance at a place, in its block and its group.
fn put_distance(
    distances: &mut [u64],
    nearest: &mut [usize],
    groups: &mut [usize],
    place: usize,
    distance: u64,
)
    requires short { length distances.old ≤ NODES_MAX }
    requires nearest { AreNearest 8 distances.old nearest.old }
    requires groups { AreNearest 64 distances.old groups.old }
    requires place { place < length distances.old }
    ensures nearest { AreNearest 8 distances.new nearest.new }
    ensures groups { AreNearest 64 distances.new groups.new }
    ensures set { distances.new ≡ slice_set distances.old place distance }
{
    set_distance(distances, nearest, place, distance);
    let group = place / GROUP;
    let was = groups[group];
    if was == place {
        groups[group] = nearest_among(distances, nearest, group);
    } else if distance < distances[was] {
        groups[group] = place;
    }
}

// The place of a least distance, if there is one.
fn nearest_of(distances: &[u64], nearest: &[usize]) -> Option<usize>
    requires { AreNearest 64 distances.now nearest.now }
    ensures { MatchOption result
        ((i : ℕ) → i < length distances.now → unreached ≤ at distances.now i)
        (λ i. (i < length distances.now) × (at distances.now i < unreached)) }
{
    let mut least = UNREACHED;
    let mut found = None;
    for place in nearest {
        let distance = distances[*place];
        if distance < least {
            least = distance;
            found = Some(*place);
        }
    }
    found
}

/// The distances of the nodes that wait to be settled, by their places, in blocks and groups that
/// each know where their least stands. A node that does not wait has none.
#[derive(Drop)]
pub(crate) struct Waiting {
    distances: Vec<u64>,
    nearest: Vec<usize>,
    groups: Vec<usize>,
}

impl Model for Waiting {
    ghost use Rattle.std.specs.Prelude.{List, ℕ};
    ghost use Rattle.diverse_pairs.specs.Blocks.{waiting_of, HoldsNearest};

    ghost Value = { List ℕ };

    ghost view = { waiting_of };

    ghost invariant = { HoldsNearest };
}

impl Waiting {
    /// No node waits.
    pub(crate) fn none(alloc: Global, nodes: usize) -> Result<Waiting, NoMemory>
        requires { nodes ≤ NODES_MAX }
        ensures { IfOk result (λ waiting. waiting ≡ replicate nodes unreached) }
    {
        let distances = no_distances(alloc, nodes)?;
        let nearest = first_places(alloc, nodes)?;
        let groups = groups_of(alloc, &distances, &nearest)?;
        Ok(Waiting {
            distances,
            nearest,
            groups,
        })
    }

    /// Puts a distance at a place.
    pub(crate) fn put(&mut self, place: usize, distance: u64)
        requires { place < length self.old }
        ensures { self.new ≡ slice_set self.old place distance }
    {
        put_distance(
            &mut self.distances,
            &mut self.nearest,
            &mut self.groups,
            place,
            distance,
        );
    }

    /// The place of a node that waits, which has the least distance; none where no node waits.
    pub(crate) fn nearest(&self) -> Option<usize>
        ensures { MatchOption result
            ((i : ℕ) → i < length self.now → unreached ≤ at self.now i)
            (λ i. (i < length self.now) × (at self.now i < unreached)) }
    {
        nearest_of(&self.distances, &self.groups)
    }
}
