//! The path that takes the first arc at each node, of those in use.
ghost use Rattle.std.specs.Prelude.{◌<◌, length, All, AllPairs, IfOk, MatchOption};
ghost use Rattle.diverse_pairs.specs.Along.{AreAlong};
ghost use Rattle.diverse_pairs.specs.Arcs.{HasArcFrom};
ghost use Rattle.diverse_pairs.specs.Listed.{listed, Fits};
ghost use Rattle.diverse_pairs.specs.Paths.{IsFirstFrom, IsFirstAmong, HasNoneAmong, Goes, LeadsOn, Falling};
ghost use Rattle.diverse_pairs.specs.Uses.{Suits, marks_of};

use crate::residual::Arcs;
use crate::tight::{Use, used_arc};
use dom_base::NoMemory;
use std::alloc::Global;
use te_links::Topology;

// An arc and where it leads.
#[derive(Clone, Copy)]
struct Step {
    arc: usize,
    head: usize,
}

// The first arc in use from a node, of those at some places.
fn first_among(arcs: &Arcs<'_>, uses: &Use<'_>, places: &[u32], from: usize) -> Option<Step>
    requires fits { Fits arcs.now }
    requires suits { Suits (listed arcs.now) uses.now }
    requires places { All (λ i. i < length (listed arcs.now)) places.now }
    requires rising { AllPairs (λ i j. i < j) places.now }
    ensures { MatchOption result (HasNoneAmong (listed arcs.now) (marks_of uses.now (listed arcs.now)) from places.now) (λ step. IsFirstAmong (listed arcs.now) (marks_of uses.now (listed arcs.now)) from places.now step.arc step.head) }
{
    for place in places {
        let index = *place as usize;
        if let Some(arc) = used_arc(arcs, uses, index, from) {
            return Some(Step {
                arc: index,
                head: arc.head,
            });
        }
    }
    None
}

// The first arc in use from a node. It runs along a link that begins or ends there.
fn first_from(topology: &Topology, arcs: &Arcs<'_>, uses: &Use<'_>, from: usize) -> Step
    requires fits { Fits arcs.now }
    requires along { AreAlong topology.now (listed arcs.now) }
    requires suits { Suits (listed arcs.now) uses.now }
    requires some { HasArcFrom (listed arcs.now) (marks_of uses.now (listed arcs.now)) from }
    ensures { IsFirstFrom (listed arcs.now) (marks_of uses.now (listed arcs.now)) from result.arc result.head }
{
    // A topology obeys the rules, so a place fits.
    let _own = topology.own();
    let onward = first_among(arcs, uses, topology.links_from(from as u32), from);
    let back = first_among(arcs, uses, topology.links_into(from as u32), from);
    match (onward, back) {
        (Some(one), Some(other)) => { if other.arc < one.arc { other } else { one } }
        (Some(one), None) => one,
        (None, Some(other)) => other,
        (None, None) => unreachable!(),
    }
}

/// The path between two nodes that takes at each node the first arc in use.
pub(crate) fn lowest_path(
    alloc: Global,
    topology: &Topology,
    arcs: &Arcs<'_>,
    uses: &Use<'_>,
    _heights: &[u64],
    source: usize,
    target: usize,
) -> Result<Vec<usize>, NoMemory>
    requires fits { Fits arcs.now }
    requires along { AreAlong topology.now (listed arcs.now) }
    requires suits { Suits (listed arcs.now) uses.now }
    requires leads { LeadsOn (listed arcs.now) (marks_of uses.now (listed arcs.now)) source target }
    requires falling { Falling (listed arcs.now) (marks_of uses.now (listed arcs.now)) _heights.now }
    ensures { IfOk result (λ path. Goes (listed arcs.now) (marks_of uses.now (listed arcs.now)) source path.items target) }
{
    let mut path = Vec::new(alloc);
    let mut here = source;
    while here != target {
        let step = first_from(topology, arcs, uses, here);
        path.push(step.arc)?;
        here = step.head;
    }
    Ok(path)
}
