//! A search that stops once the nodes that it was to reach have their labels.
ghost use Rattle.std.specs.Prelude.{◌≡◌, ◌<◌, ◌≤◌, ◌+◌, ℕ, length, map, false, All, IsTrue, MatchOption};
ghost use Rattle.te_links.specs.Rows.{IsTopology};
ghost use Rattle.path_search.specs.Arcs.{IsWithin, label_at};
ghost use Rattle.path_search.specs.Asked.{IsAsked};
ghost use Rattle.path_search.specs.Early.{IsReached, IsBetween, StopsAt, FindsLabelsTo};
ghost use Rattle.path_search.specs.Front.{cost_of, is_done};
ghost use Rattle.path_search.specs.Reached.{ReadsReached};

use crate::asked::Asked;
use crate::labels::Labels;
use crate::spread::spread_node;
use crate::waiting::Waiting;
use dom_base::{Cost, Query};
use te_links::Links;

// Whether a node has a label that costs at most this.
fn is_reached(labels: &Labels, node: u32, reach: Cost) -> bool
    requires { node < length labels.now }
    ensures { IsTrue result → IsReached reach (label_at labels.now node) }
{
    match labels.cost_at(node) {
        Some(cost) => cost.get() <= reach.get(),
        None => false,
    }
}

// Whether each stop has one.
fn are_reached(labels: &Labels, stops: &[u32], reach: Cost) -> bool
    requires { All (λ i. i < length labels.now) stops.now }
    ensures { IsTrue result → All (λ i. IsReached reach (label_at labels.now i)) stops.now }
{
    for stop in stops {
        if !is_reached(labels, *stop, reach) {
            return false;
        }
    }
    true
}

// The place of the first stop, from this one on, that has none.
fn first_unreached(labels: &Labels, stops: &[u32], from: usize, reach: Cost) -> usize
    requires { All (λ i. i < length labels.now) stops.now }
{
    for k in from..stops.len() {
        if !is_reached(labels, stops[k], reach) {
            return k;
        }
    }
    stops.len()
}

// The cost right below the least that waits, if that costs more than what was settled last.
fn cost_between(settled: &Option<Cost>, least: &Option<Cost>) -> Option<Cost>
    ensures { MatchOption result (Unit {0}) (IsBetween settled.now least.now) }
{
    let Some(settled) = settled else {
        return None;
    };
    let Some(least) = least else {
        return None;
    };
    if settled.get() < least.get() {
        Cost::of(least.get() - 1)
    } else {
        None
    }
}

// Up to which cost all labels stand and each stop is reached, if that is so; the node at the place is
// the least that waits. Stops before `seen` were reached before, and are looked at once more only
// when all others are reached too.
fn reach_at(
    labels: &Labels,
    stops: &[u32],
    seen: &mut usize,
    settled: &Option<Cost>,
    place: u32,
) -> Option<Cost>
    requires stops { All (λ i. i < length labels.now) stops.now }
    requires place { place < length labels.now }
    ensures { MatchOption result (Unit {0}) (StopsAt labels.now stops.now settled.now place) }
{
    let least = labels.cost_at(place);
    let Some(reach) = cost_between(settled, &least) else {
        return None;
    };
    *seen = first_unreached(labels, stops, *seen, reach);
    if *seen >= stops.len() && are_reached(labels, stops, reach) {
        Some(reach)
    } else {
        None
    }
}

/// Settles one node after another, the least first, until none waits, or each stop has a label that
/// costs less than all that waits. Labels that cost more than the cost that is told are dropped.
pub(crate) fn settle_to<'a, G: Links<'a>>(
    links: &mut G,
    query: &Query,
    asked: &Asked<'_>,
    stops: &[u32],
    labels: &mut Labels,
    waiting: &mut Waiting,
    done: &mut [bool],
) -> Cost
    requires rules { IsTopology (G.rows links.old) }
    requires asked { IsAsked (G.rows links.old) query.now asked.now }
    requires stops { All (λ i. i < length labels.old) stops.now }
    requires labels { length labels.old ≡ length (G.rows links.old).nodes }
    requires within { All (IsWithin query.now.cap) labels.old }
    requires all_wait { waiting.old ≡ map cost_of labels.old }
    requires places { length done.old ≡ length labels.old }
    requires none_done { (i : ℕ) → is_done done.old i ≡ false }
    ensures labels { FindsLabelsTo (G.rows links.old) query.now stops.now labels.old labels.new result }
    ensures long { length labels.new ≡ length labels.old }
    ensures same { G.rows links.new ≡ G.rows links.old }
    ensures reads { G.reads links.new ≤ G.reads links.old + length (G.rows links.old).links }
    ensures reached { ReadsReached (G.rows links.old) labels.new (G.reads links.old) (G.reads links.new) }
{
    let mut seen = 0;
    let mut settled: Option<Cost> = None;
    while let Some(place) = waiting.least() {
        if let Some(reach) = reach_at(labels, stops, &mut seen, &settled, place) {
            labels.cut(reach);
            return reach;
        }
        waiting.put(place, None);
        done[place as usize] = true;
        spread_node(links, query, asked, place, labels, waiting);
        settled = labels.cost_at(place);
    }
    query.cap
}
