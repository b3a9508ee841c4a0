//! Which nodes have a label that a link makes.
ghost use Rattle.std.specs.Prelude.{◌≡◌, ◌<◌, ◌≤◌, ℕ, Bool, false, All, length, MatchOption};
ghost use Rattle.te_links.specs.Rows.{IsTopology};
ghost use Rattle.path_certificate.specs.Rows.{label_in, AreLabelRows};
ghost use Rattle.path_certificate.specs.Offers.{MakesNode, AreMarks};

use crate::look_up::label_of;
use crate::offers::offer_of;
use dom_base::{Addr, Label, Query};
use te_links::Topology;

// The place of the node whose label the link at a place makes.
fn node_made(
    topology: &Topology,
    query: &Query,
    rows: &[(Addr, Option<Label>)],
    index: u32,
) -> Option<u32>
    requires rules { IsTopology topology.now }
    requires rows { AreLabelRows topology.now.nodes rows.now }
    requires index { index < length topology.now.links }
    ensures { MatchOption result
        ((place : ℕ) → ¬ MakesNode topology.now query.now (label_in rows.now) index place)
        (MakesNode topology.now query.now (label_in rows.now) index) }
{
    let offer = offer_of(topology, query, rows, index)?;
    let told = label_of(rows, offer.from)?;
    if offer.is(&told) {
        topology.find_node(offer.from)
    } else {
        None
    }
}

/// Marks the nodes whose label a link makes. Each link is looked at once.
pub(crate) fn mark_made(
    topology: &Topology,
    query: &Query,
    rows: &[(Addr, Option<Label>)],
    marks: &mut [bool],
)
    requires rows { AreLabelRows topology.now.nodes rows.now }
    requires room { length topology.now.nodes ≤ length marks.old }
    requires blank { All (λ mark. mark ≡ false) marks.old }
    ensures { AreMarks topology.now query.now (label_in rows.now) (length topology.now.links) marks.new }
{
    for index in 0..topology.link_count() {
        if let Some(place) = node_made(topology, query, rows, index) {
            marks[place as usize] = true;
        }
    }
}
