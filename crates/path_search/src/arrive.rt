//! The arcs of the links into a node, which are read all at once.
ghost use Rattle.std.specs.Prelude.{◌≡◌, ◌<◌, length, slice_index_or, MatchOption};
ghost use Rattle.dom_base.specs.Admission.{weight};
ghost use Rattle.dom_base.specs.declared.link.Link.{Link};
ghost use Rattle.te_links.specs.Rows.{IsTopology};
ghost use Rattle.te_links.specs.Arrivals.{AreArrivals};
ghost use Rattle.path_search.specs.Asked.{IsAsked};
ghost use Rattle.path_search.specs.Reading.{IsArcAt};
ghost use Rattle.path_search.specs.Search.{IsArcOf, IsIdle};

use crate::arc::Arc;
use crate::asked::{Asked, allows_link, bars_ends};
use crate::labels::Labels;
use dom_base::{Metric, Query};
use te_links::{Arrivals, Links};

// What a link weighs, by the metrics that are read with it.
fn weight_of(read: te_links::Arc, metric: Metric) -> u32
    ensures { (l : Link) → read.igp ≡ l.igp → read.te ≡ l.te → result ≡ weight metric l }
{
    match metric {
        Metric::Igp => read.igp,
        Metric::Te => read.te,
        Metric::Hops => 1,
    }
}

// The arc of a link into the node at a place, admitted or not.
fn arc_at<'a, G: Links<'a>>(
    _links: &G,
    arrivals: &Arrivals<'a>,
    metric: Metric,
    head: u32,
    k: usize,
) -> Arc
    requires arrivals { AreArrivals (G.rows _links.now) head arrivals.now }
    requires inside { k < length arrivals.now.places }
    ensures { IsArcAt (G.rows _links.now) metric (slice_index_or arrivals.now.places k 0) result }
{
    let read = arrivals.arc(k);
    Arc {
        tail: read.tail,
        head,
        weight: weight_of(read, metric),
        link: arrivals.place(k),
    }
}

/// The arc of a link into the node at a place, if it lowers a label and the link is admitted. Most
/// arcs lower none: for those the row of the link, which takes a cache line of its own, is not
/// looked at.
pub(crate) fn arc_of<'a, G: Links<'a>>(
    links: &G,
    arrivals: &Arrivals<'a>,
    query: &Query,
    asked: &Asked<'_>,
    labels: &Labels,
    head: u32,
    k: usize,
) -> Option<Arc>
    requires rules { IsTopology (G.rows links.now) }
    requires asked { IsAsked (G.rows links.now) query.now asked.now }
    requires arrivals { AreArrivals (G.rows links.now) head arrivals.now }
    requires inside { k < length arrivals.now.places }
    requires labels { length labels.now ≡ length (G.rows links.now).nodes }
    ensures { let index = slice_index_or arrivals.now.places k 0 in MatchOption result (IsIdle (G.rows links.now) query.now labels.now index) (IsArcOf (G.rows links.now) query.now index) }
{
    let arc = arc_at(links, arrivals, query.metric, head, k);
    if !labels.lowers(query.cap, arc) {
        return None;
    }
    if !allows_link(asked, arrivals.row(k)) || bars_ends(asked, arc.tail, arc.head) {
        return None;
    }
    Some(arc)
}
