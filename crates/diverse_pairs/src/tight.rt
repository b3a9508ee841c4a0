//! Which arcs a path may take: those that are marked, or those over which the distance falls by just
//! their weight.
ghost use Rattle.std.specs.Prelude.{◌≡◌, ◌↔◌, ◌<◌, length, IsTrue, MatchOption};
ghost use Rattle.diverse_pairs.specs.Arcs.{AreAmong, IsAmong};
ghost use Rattle.diverse_pairs.specs.Distances.{IsTight};
ghost use Rattle.diverse_pairs.specs.Listed.{listed, Fits};
ghost use Rattle.diverse_pairs.specs.Uses.{Suits, marks_of, tight_marks, HasNoneAt, IsUsedAt};

use crate::arcs::{Arc, UNREACHED};
use crate::residual::{Arcs, arc_from};

/// The arcs in use: those with a mark, or those that are tight by distances.
#[derive(Clone, Copy)]
pub enum Use<'a> {
    Marked(&'a [bool]),
    Tight(&'a [u64]),
}

fn is_tight(arc: &Arc, distances: &[u64]) -> bool
    requires among { IsAmong (length distances.now) arc.now }
    ensures { IsTrue result ↔ IsTight distances.now arc.now }
{
    let from = distances[arc.tail];
    let to = distances[arc.head];
    from < UNREACHED && to <= from && from - to == arc.weight
}

// The arc at a place, if it has a mark and begins at the node. One without is not read.
fn marked_arc(arcs: &Arcs<'_>, marks: &[bool], index: usize, from: usize) -> Option<Arc>
    requires fits { Fits arcs.now }
    requires long { length marks.now ≡ length (listed arcs.now) }
    requires within { index < length (listed arcs.now) }
    ensures { MatchOption result (HasNoneAt (listed arcs.now) marks.now from index) (IsUsedAt (listed arcs.now) marks.now from index) }
{
    if !marks[index] {
        return None;
    }
    let Some(arc) = arc_from(arcs, index, from) else {
        return None;
    };
    Some(arc)
}

// The arc at a place, if it is tight and begins at the node.
fn tight_arc(arcs: &Arcs<'_>, distances: &[u64], index: usize, from: usize) -> Option<Arc>
    requires fits { Fits arcs.now }
    requires among { AreAmong (length distances.now) (listed arcs.now) }
    requires within { index < length (listed arcs.now) }
    ensures { MatchOption result (HasNoneAt (listed arcs.now) (tight_marks distances.now (listed arcs.now)) from index) (IsUsedAt (listed arcs.now) (tight_marks distances.now (listed arcs.now)) from index) }
{
    let Some(arc) = arc_from(arcs, index, from) else {
        return None;
    };
    if !is_tight(&arc, distances) {
        return None;
    }
    Some(arc)
}

/// The arc at a place, if it is in use and begins at the node.
pub(crate) fn used_arc(arcs: &Arcs<'_>, uses: &Use<'_>, index: usize, from: usize) -> Option<Arc>
    requires fits { Fits arcs.now }
    requires suits { Suits (listed arcs.now) uses.now }
    requires within { index < length (listed arcs.now) }
    ensures { MatchOption result (HasNoneAt (listed arcs.now) (marks_of uses.now (listed arcs.now)) from index) (IsUsedAt (listed arcs.now) (marks_of uses.now (listed arcs.now)) from index) }
{
    match uses {
        Use::Marked(marks) => marked_arc(arcs, marks, index, from),
        Use::Tight(distances) => tight_arc(arcs, distances, index, from),
    }
}
