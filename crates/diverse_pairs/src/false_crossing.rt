//! The second link that leaves a cut.
ghost use Rattle.std.specs.Prelude.{◌<◌, ◌↔◌, ℕ, length, IsTrue, MatchOption};
ghost use Rattle.te_links.specs.Rows.{IsTopology};
ghost use Rattle.diverse_pairs.specs.Conditions.{IsOnlyToLeave, Leaves};
ghost use Rattle.diverse_pairs.specs.Steps.{IsFirstNot};

use dom_base::{Addr, Query, stands};
use path_certificate::admitted_link;
use te_links::Topology;

// Whether the link at a place is admitted and leaves the nodes.
fn leaves(topology: &Topology, query: &Query, nodes: &[Addr], index: u32) -> bool
    requires rules { IsTopology topology.now }
    requires index { index < length topology.now.links }
    ensures { IsTrue result ↔ Leaves topology.now query.now nodes.now index }
{
    let Some(link) = admitted_link(topology, query, index) else {
        return false;
    };
    let starts_inside = stands(nodes, link.from);
    let ends_inside = stands(nodes, link.to);
    starts_inside && !ends_inside
}

/// The second link that is admitted and leaves the nodes.
pub(crate) fn second_to_leave(topology: &Topology, query: &Query, nodes: &[Addr]) -> Option<u32>
    ensures { MatchOption result
        ((i : ℕ) → IsOnlyToLeave topology.now query.now nodes.now i)
        (IsFirstNot (IsOnlyToLeave topology.now query.now nodes.now)) }
{
    let mut seen = false;
    for index in 0..topology.link_count() {
        if !leaves(topology, query, nodes, index) {
            continue;
        }
        if seen {
            return Some(index);
        }
        seen = true;
    }
    None
}
