//! The arcs of the links that a query admits.
ghost use Rattle.std.specs.Prelude.{◌<◌, length, IfOk, MatchOption};
ghost use Rattle.dom_base.specs.declared.link.Link.{Link};
ghost use Rattle.te_links.specs.Rows.{IsTopology};
ghost use Rattle.path_certificate.specs.Offers.{IsAdmittedAt};
ghost use Rattle.diverse_pairs.specs.Network.{IsArcOf, AreArcs};

use crate::arcs::Arc;
use dom_base::{NoMemory, Query};
use path_certificate::admitted_link;
use path_constraints::weight;
use std::alloc::Global;
use te_links::Topology;

// The arc of the link at a place, if the query admits it.
fn arc_of(topology: &Topology, query: &Query, index: u32) -> Option<Arc>
    requires rules { IsTopology topology.now }
    requires index { index < length topology.now.links }
    ensures { MatchOption result ((l : Link) → ¬ IsAdmittedAt topology.now query.now index l) (IsArcOf topology.now query.now index) }
{
    let Some(link) = admitted_link(topology, query, index) else {
        return None;
    };
    Some(Arc {
        tail: topology.tail_of(index) as usize,
        head: topology.head_of(index) as usize,
        weight: u64::from(weight(link, query.metric)),
    })
}

/// The arcs of all links, by the places of the links.
pub(crate) fn arcs_of(
    alloc: Global,
    topology: &Topology,
    query: &Query,
) -> Result<Vec<Option<Arc>>, NoMemory>
    ensures { IfOk result (λ arcs. AreArcs topology.now query.now arcs.items) }
{
    let mut arcs = Vec::with_capacity(alloc, topology.link_count() as usize)?;
    for index in 0..topology.link_count() {
        arcs.push(arc_of(topology, query, index))?;
    }
    Ok(arcs)
}
