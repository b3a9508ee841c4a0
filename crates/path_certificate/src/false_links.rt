//! The first false condition at a link.
ghost use Rattle.std.specs.Prelude.{◌≡◌, ◌<◌, ℕ, Some, slice_get, length, MatchOption};
ghost use Rattle.te_links.specs.Rows.{IsTopology, IsInOrder};
ghost use Rattle.path_certificate.specs.Rows.{label_in, AreLabelRows};
ghost use Rattle.path_certificate.specs.Claims.{LinkHoldsAt, link_told, link_bound};
ghost use Rattle.path_certificate.specs.Offers.{IsBroken, IsFirstBroken};

use crate::broken::Broken;
use crate::look_up::label_of;
use crate::offers::offer_of;
use crate::ordered::is_at_most;
use dom_base::{Addr, Cost, Label, Query};
use te_links::Topology;

// The fault at a link. What the link offers within the cap is a bound on the label of its beginning.
fn broken_link(
    topology: &Topology,
    query: &Query,
    rows: &[(Addr, Option<Label>)],
    index: u32,
) -> Option<Broken>
    requires rules { IsTopology topology.now }
    requires rows { AreLabelRows topology.now.nodes rows.now }
    requires index { index < length topology.now.links }
    ensures { MatchOption result
        (LinkHoldsAt topology.now query.now (label_in rows.now) index)
        (IsBroken (LinkHoldsAt topology.now query.now (label_in rows.now)) (link_told topology.now (label_in rows.now)) (link_bound topology.now query.now (label_in rows.now)) index) }
{
    let offer = offer_of(topology, query, rows, index)?;
    let Some(cost) = Cost::within(query.cap, offer.cost) else {
        return None;
    };
    let bound = Label {
        cost,
        exit: offer.rest.exit,
    };
    let told = label_of(rows, offer.from);
    if is_at_most(&told, &bound) {
        return None;
    }
    Some(Broken {
        index,
        told,
        bound: Some(bound),
    })
}

/// The first link whose condition is false.
pub(crate) fn false_link(
    topology: &Topology,
    query: &Query,
    rows: &[(Addr, Option<Label>)],
) -> Option<Broken>
    requires rows { AreLabelRows topology.now.nodes rows.now }
    ensures first { MatchOption result
        ((i : ℕ) → LinkHoldsAt topology.now query.now (label_in rows.now) i)
        (IsFirstBroken (LinkHoldsAt topology.now query.now (label_in rows.now)) (link_told topology.now (label_in rows.now)) (link_bound topology.now query.now (label_in rows.now))) }
    ensures rules { IsTopology topology.now }
    ensures order { IsInOrder topology.now }
{
    for index in 0..topology.link_count() {
        if let Some(broken) = broken_link(topology, query, rows, index) {
            return Some(broken);
        }
    }
    None
}
