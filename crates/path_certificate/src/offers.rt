//! What a link offers the node that it begins at.
ghost use Rattle.std.specs.Prelude.{◌≡◌, ◌<◌, ◌↔◌, ℕ, length, slice_get, Some, IsTrue, MatchOption};
ghost use Rattle.te_links.specs.Rows.{IsTopology};
ghost use Rattle.walk_laws.specs.Walks.{AdmitsNode, AdmitsLink};
ghost use Rattle.path_certificate.specs.Rows.{label_in, AreLabelRows};
ghost use Rattle.path_certificate.specs.Offers.{IsAdmittedAt, IsOffer, IsNoOffer};

use crate::look_up::label_of;
use dom_base::{Addr, Label, Link, Query};
use path_constraints::{allows, bars_node, weight};
use te_links::Topology;

/// What an admitted link offers its beginning: `rest`, the label of its end, at `cost`, the sum of
/// that label's cost and the link's weight.
#[derive(Drop)]
pub struct Offer {
    pub from: Addr,
    pub to: Addr,
    pub rest: Label,
    pub cost: u32,
}

impl Offer {
    ghost use Rattle.path_certificate.specs.Offers.{offered};

    /// Whether the label is what is offered.
    pub fn is(&self, label: &Label) -> bool
        ensures { IsTrue result ↔ (label.now ≡ offered self.now) }
    {
        label.cost.get() == self.cost && label.exit == self.rest.exit
    }
}

/// Whether the query admits a node.
pub fn admits_node(topology: &Topology, query: &Query, node: Addr) -> bool
    ensures { IsTrue result ↔ AdmitsNode topology.now query.now node }
{
    topology.find_node(node).is_some() && !bars_node(query, node)
}

/// The link at a place, if the query admits it. Its ends are nodes, by the rules of a topology.
pub fn admitted_link<'a>(topology: &'a Topology, query: &Query, index: u32) -> Option<&'a Link>
    requires rules { IsTopology topology.now }
    requires index { index < length topology.now.links }
    ensures { MatchOption result ((l : Link) → ¬ IsAdmittedAt topology.now query.now index l) (λ l. IsAdmittedAt topology.now query.now index l.now) }
{
    let link = topology.link_at(index);
    if allows(query, link) && !bars_node(query, link.from) && !bars_node(query, link.to) {
        Some(link)
    } else {
        None
    }
}

/// What the link at a place offers: nothing where it isn't admitted, or its end has no label.
pub(crate) fn offer_of(
    topology: &Topology,
    query: &Query,
    rows: &[(Addr, Option<Label>)],
    index: u32,
) -> Option<Offer>
    requires rules { IsTopology topology.now }
    requires rows { AreLabelRows topology.now.nodes rows.now }
    requires index { index < length topology.now.links }
    ensures { MatchOption result (IsNoOffer topology.now query.now (label_in rows.now) index) (IsOffer topology.now query.now (label_in rows.now) index) }
{
    let link = admitted_link(topology, query, index)?;
    let rest = label_of(rows, link.to)?;
    let cost = weight(link, query.metric) + rest.cost.get();
    Some(Offer {
        from: link.from,
        to: link.to,
        rest,
        cost,
    })
}
