//! Nodes are settled one after another, and the links into each are read.
ghost use Rattle.std.specs.Prelude.{◌≡◌, ◌<◌, ◌≤◌, ◌+◌, ℕ, length, map, slice_index_or, false, All};
ghost use Rattle.te_links.specs.Rows.{IsTopology};
ghost use Rattle.te_links.specs.Arrivals.{AreArrivals};
ghost use Rattle.path_search.specs.Arcs.{IsArcAmong, IsWithin};
ghost use Rattle.path_search.specs.Asked.{IsAsked};
ghost use Rattle.path_search.specs.Front.{cost_of, is_done, Spreads};
ghost use Rattle.path_search.specs.Reached.{ReadsReached};
ghost use Rattle.path_search.specs.Reading.{SpreadsLink, SpreadsNode, FindsLabels};

use crate::arc::Arc;
use crate::arrive::arc_of;
use crate::asked::Asked;
use crate::labels::Labels;
use crate::waiting::Waiting;
use dom_base::{Cost, Query};
use te_links::{Arrivals, Links};

// Relaxes an arc. A node whose label is lowered waits.
fn spread_arc(cap: Cost, arc: Arc, labels: &mut Labels, waiting: &mut Waiting)
    requires among { IsArcAmong (length labels.old) arc }
    requires as_long { length waiting.old ≡ length labels.old }
    ensures spreads { Spreads cap arc labels.old labels.new waiting.old waiting.new }
    ensures labels { length labels.new ≡ length labels.old }
    ensures waiting { length waiting.new ≡ length waiting.old }
{
    if labels.relax(cap, arc) {
        waiting.put(arc.tail, labels.cost_at(arc.tail));
    }
}

// Relaxes the arc of a link into the node at a place, if the link is admitted.
fn spread_link<'a, G: Links<'a>>(
    links: &G,
    arrivals: &Arrivals<'a>,
    query: &Query,
    asked: &Asked<'_>,
    head: u32,
    k: usize,
    labels: &mut Labels,
    waiting: &mut Waiting,
)
    requires rules { IsTopology (G.rows links.now) }
    requires asked { IsAsked (G.rows links.now) query.now asked.now }
    requires arrivals { AreArrivals (G.rows links.now) head arrivals.now }
    requires inside { k < length arrivals.now.places }
    requires labels { length labels.old ≡ length (G.rows links.now).nodes }
    requires as_long { length waiting.old ≡ length labels.old }
    ensures spreads { SpreadsLink (G.rows links.now) query.now (slice_index_or arrivals.now.places k 0) labels.old labels.new waiting.old waiting.new }
    ensures labels { length labels.new ≡ length labels.old }
    ensures waiting { length waiting.new ≡ length waiting.old }
{
    if let Some(arc) = arc_of(links, arrivals, query, asked, labels, head, k) {
        spread_arc(query.cap, arc, labels, waiting);
    }
}

/// Reads the links into a node that was just settled, and relaxes their arcs.
pub(crate) fn spread_node<'a, G: Links<'a>>(
    links: &mut G,
    query: &Query,
    asked: &Asked<'_>,
    place: u32,
    labels: &mut Labels,
    waiting: &mut Waiting,
)
    requires rules { IsTopology (G.rows links.old) }
    requires asked { IsAsked (G.rows links.old) query.now asked.now }
    requires place { place < length (G.rows links.old).nodes }
    requires labels { length labels.old ≡ length (G.rows links.old).nodes }
    requires as_long { length waiting.old ≡ length labels.old }
    ensures spreads { SpreadsNode (G.rows links.old) query.now place labels.old labels.new waiting.old waiting.new (G.reads links.old) (G.reads links.new) }
    ensures labels { length labels.new ≡ length labels.old }
    ensures waiting { length waiting.new ≡ length waiting.old }
    ensures same { G.rows links.new ≡ G.rows links.old }
{
    let arrivals = links.read_into(place);
    for k in 0..arrivals.len() {
        spread_link(links, &arrivals, query, asked, place, k, labels, waiting);
    }
}

/// Settles one node after another, the least first, until none waits.
pub(crate) fn settle_all<'a, G: Links<'a>>(
    links: &mut G,
    query: &Query,
    asked: &Asked<'_>,
    labels: &mut Labels,
    waiting: &mut Waiting,
    done: &mut [bool],
)
    requires rules { IsTopology (G.rows links.old) }
    requires asked { IsAsked (G.rows links.old) query.now asked.now }
    requires labels { length labels.old ≡ length (G.rows links.old).nodes }
    requires within { All (IsWithin query.now.cap) labels.old }
    requires all_wait { waiting.old ≡ map cost_of labels.old }
    requires places { length done.old ≡ length labels.old }
    requires none_done { (i : ℕ) → is_done done.old i ≡ false }
    ensures labels { FindsLabels (G.rows links.old) query.now labels.old labels.new }
    ensures long { length labels.new ≡ length labels.old }
    ensures same { G.rows links.new ≡ G.rows links.old }
    ensures reads { G.reads links.new ≤ G.reads links.old + length (G.rows links.old).links }
    ensures reached { ReadsReached (G.rows links.old) labels.new (G.reads links.old) (G.reads links.new) }
{
    while let Some(place) = waiting.least() {
        waiting.put(place, None);
        done[place as usize] = true;
        spread_node(links, query, asked, place, labels, waiting);
    }
}
