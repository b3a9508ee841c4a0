//! What a walk leaves for a second one: the arcs beside it, and its own turned round.
ghost use Rattle.std.specs.Prelude.{◌≡◌, ◌<◌, ◌≤◌, ℕ, Some, length, IfOk, MatchOption};
ghost use Rattle.te_links.specs.declared.limits.TheConstants.{METRIC_MAX};
ghost use Rattle.diverse_pairs.specs.declared.arcs.TheConstants.{UNREACHED as unreached};
ghost use Rattle.diverse_pairs.specs.Arcs.{at, IsAmong};
ghost use Rattle.diverse_pairs.specs.Distances.{IsLow, IsNear, AreNear};
ghost use Rattle.diverse_pairs.specs.Residual.{residual_of, end_with, left_arcs, height_of, AreHeights};
ghost use Rattle.diverse_pairs.specs.Listed.{listed, Fits, FitsWalk, LeadsTo, LeadsElsewhere, BeginsAt, BeginsElsewhere};

use crate::arcs::{Arc, UNREACHED};
use dom_base::NoMemory;
use std::alloc::Global;

/// One unit of cost weighs as much as this many arcs, which is more than a path has.
pub const SCALE: u64 = 2048;

fn residual_arc(arc: &Arc, distances: &[u64], used: bool) -> Option<Arc>
    requires among { IsAmong (length distances.now) arc.now }
    requires low { IsLow distances.now arc.now }
    requires light { arc.now.weight ≤ METRIC_MAX }
    requires near { AreNear distances.now }
    ensures { result ≡ residual_of distances.now used (Some arc.now) }
{
    let rest = distances[arc.head];
    if rest == UNREACHED {
        return None;
    }
    let weight = (arc.weight + rest - distances[arc.tail]) * SCALE + 1;
    Some(if used {
        Arc {
            tail: arc.head,
            head: arc.tail,
            weight,
        }
    } else {
        Arc {
            tail: arc.tail,
            head: arc.head,
            weight,
        }
    })
}

/// The arcs that a search goes over: those of all links, or what a walk leaves of them for a second
/// one, worked out where it is read. Its distances tell what each arc weighs, and those in use by it
/// are turned round.
#[derive(Clone, Copy)]
pub enum Arcs<'a> {
    Whole(&'a [Option<Arc>]),
    Left {
        arcs: &'a [Option<Arc>],
        distances: &'a [u64],
        in_use: &'a [bool],
    },
}

// The arc at a place, if it leads to the node.
fn whole_into(arcs: &[Option<Arc>], place: usize, node: usize) -> Option<Arc>
    requires { place < length arcs.now }
    ensures { MatchOption result (LeadsElsewhere arcs.now place node) (LeadsTo arcs.now place node) }
{
    let Some(arc) = arcs[place] else {
        return None;
    };
    if arc.head != node {
        return None;
    }
    Some(arc)
}

// Where an arc ends, or one that is turned round.
fn end_of(arc: &Arc, turned: bool) -> usize
    ensures { result ≡ end_with turned arc.now }
{
    if turned { arc.tail } else { arc.head }
}

// What a walk leaves at a place, if it leads to the node. Where it does not, no distance is read.
fn left_into(
    arcs: &[Option<Arc>],
    distances: &[u64],
    in_use: &[bool],
    place: usize,
    node: usize,
) -> Option<Arc>
    requires fits { FitsWalk arcs.now distances.now in_use.now }
    requires place { place < length arcs.now }
    ensures { MatchOption result (LeadsElsewhere (left_arcs distances.now in_use.now arcs.now) place node) (LeadsTo (left_arcs distances.now in_use.now arcs.now) place node) }
{
    let Some(arc) = &arcs[place] else {
        return None;
    };
    let used = in_use[place];
    if end_of(arc, used) != node {
        return None;
    }
    residual_arc(arc, distances, used)
}

/// The arc at a place, if it leads to the node.
#[tactic(auto, using(crate::proofs::Listed::left_inside))]
pub(crate) fn arc_into(arcs: &Arcs<'_>, place: usize, node: usize) -> Option<Arc>
    requires fits { Fits arcs.now }
    requires place { place < length (listed arcs.now) }
    ensures { MatchOption result (LeadsElsewhere (listed arcs.now) place node) (LeadsTo (listed arcs.now) place node) }
{
    match arcs {
        Arcs::Whole(arcs) => whole_into(arcs, place, node),
        Arcs::Left {
            arcs,
            distances,
            in_use,
        } => left_into(arcs, distances, in_use, place, node),
    }
}

// The arc at a place, if it begins at the node.
fn whole_from(arcs: &[Option<Arc>], place: usize, node: usize) -> Option<Arc>
    requires { place < length arcs.now }
    ensures { MatchOption result (BeginsElsewhere arcs.now place node) (BeginsAt arcs.now place node) }
{
    let Some(arc) = arcs[place] else {
        return None;
    };
    if arc.tail != node {
        return None;
    }
    Some(arc)
}

// What a walk leaves at a place, if it begins at the node. Where it does not, no distance is read.
fn left_from(
    arcs: &[Option<Arc>],
    distances: &[u64],
    in_use: &[bool],
    place: usize,
    node: usize,
) -> Option<Arc>
    requires fits { FitsWalk arcs.now distances.now in_use.now }
    requires place { place < length arcs.now }
    ensures { MatchOption result (BeginsElsewhere (left_arcs distances.now in_use.now arcs.now) place node) (BeginsAt (left_arcs distances.now in_use.now arcs.now) place node) }
{
    let Some(arc) = &arcs[place] else {
        return None;
    };
    let used = in_use[place];
    if end_of(arc, !used) != node {
        return None;
    }
    residual_arc(arc, distances, used)
}

/// The arc at a place, if it begins at the node.
#[tactic(auto, using(crate::proofs::Listed::left_inside))]
pub(crate) fn arc_from(arcs: &Arcs<'_>, place: usize, node: usize) -> Option<Arc>
    requires fits { Fits arcs.now }
    requires place { place < length (listed arcs.now) }
    ensures { MatchOption result (BeginsElsewhere (listed arcs.now) place node) (BeginsAt (listed arcs.now) place node) }
{
    match arcs {
        Arcs::Whole(arcs) => whole_from(arcs, place, node),
        Arcs::Left {
            arcs,
            distances,
            in_use,
        } => left_from(arcs, distances, in_use, place, node),
    }
}

fn height(first: u64, second: u64) -> u64
    requires near { IsNear first }
    requires reached { second < unreached → first < unreached }
    ensures { result ≡ height_of first second }
{
    if second == UNREACHED {
        UNREACHED
    } else {
        second / SCALE + first
    }
}

/// The distance of each node over what a walk leaves, as costs.
pub(crate) fn heights(alloc: Global, first: &[u64], second: &[u64]) -> Result<Vec<u64>, NoMemory>
    requires long { length second.now ≡ length first.now }
    requires near { AreNear first.now }
    requires reached { (n : ℕ) → at second.now n < unreached → at first.now n < unreached }
    ensures { IfOk result (λ heights. AreHeights first.now second.now heights.items) }
{
    let mut heights = Vec::with_capacity(alloc, first.len())?;
    for node in 0..first.len() {
        heights.push(height(first[node], second[node]))?;
    }
    Ok(heights)
}
