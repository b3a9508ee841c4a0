//! The first false condition at a node.
ghost use Rattle.std.specs.Prelude.{◌≡◌, ◌<◌, ◌≤◌, ◌⊎◌, ◌↔◌, ℕ, None, length, IsTrue, MatchOption};
ghost use Rattle.dom_base.specs.Admission.{BarsNode};
ghost use Rattle.walk_laws.specs.Labels.{EndsAt};
ghost use Rattle.path_certificate.specs.Rows.{label_in, AreLabelRows};
ghost use Rattle.path_certificate.specs.Claims.{NodeHoldsAt, node_told};
ghost use Rattle.path_certificate.specs.Offers.{MakesNode, IsBroken, IsFirstBroken};

use crate::broken::Broken;
use crate::look_up::label_of;
use crate::marks::mark_made;
use dom_base::{Addr, Label, Query, Seed, ends_at};
use path_constraints::bars_node;
use te_links::{NODES_MAX, Topology};

// Whether a node may have its label. `made` tells whether a link makes it.
fn may_have(query: &Query, seeds: &[Seed], node: Addr, label: &Label, made: bool) -> bool
    ensures { IsTrue result ↔ ((¬ BarsNode query.now node) × (label.now.cost ≤ query.now.cap) × (EndsAt seeds.now node label.now ⊎ IsTrue made)) }
{
    !bars_node(query, node)
        && label.cost.get() <= query.cap.get()
        && (made || ends_at(seeds, node, label))
}

// The fault at a node with a label.
fn broken_node(
    topology: &Topology,
    query: &Query,
    seeds: &[Seed],
    rows: &[(Addr, Option<Label>)],
    index: u32,
    made: bool,
) -> Option<Broken>
    requires rows { AreLabelRows topology.now.nodes rows.now }
    requires index { index < length topology.now.nodes }
    requires made { IsTrue made ↔ ((i : ℕ) × MakesNode topology.now query.now (label_in rows.now) i index) }
    ensures { MatchOption result
        (NodeHoldsAt topology.now query.now seeds.now (label_in rows.now) index)
        (IsBroken (NodeHoldsAt topology.now query.now seeds.now (label_in rows.now)) (node_told topology.now (label_in rows.now)) (λ _. None) index) }
{
    let node = topology.node_at(index);
    let label = label_of(rows, node)?;
    if may_have(query, seeds, node, &label, made) {
        return None;
    }
    Some(Broken {
        index,
        told: Some(label),
        bound: None,
    })
}

/// The first node whose condition is false.
pub(crate) fn false_node(
    topology: &Topology,
    query: &Query,
    seeds: &[Seed],
    rows: &[(Addr, Option<Label>)],
) -> Option<Broken>
    requires rows { AreLabelRows topology.now.nodes rows.now }
    ensures { MatchOption result
        ((i : ℕ) → NodeHoldsAt topology.now query.now seeds.now (label_in rows.now) i)
        (IsFirstBroken (NodeHoldsAt topology.now query.now seeds.now (label_in rows.now)) (node_told topology.now (label_in rows.now)) (λ _. None)) }
{
    let count = topology.node_count();
    let mut marks = [false; NODES_MAX];
    mark_made(topology, query, rows, &mut marks);
    for index in 0..count {
        let made = marks[index as usize];
        if let Some(broken) = broken_node(topology, query, seeds, rows, index, made) {
            return Some(broken);
        }
    }
    None
}
