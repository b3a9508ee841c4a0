//! The search: its starts, and the settling of nodes, the least first, all or until some have labels.
ghost use Rattle.std.specs.Prelude.{◌≡◌, ◌<◌, ◌≤◌, ◌+◌, false, replicate, length, All, IfOk};
ghost use Rattle.path_search.specs.Early.{AreLabelsTo};
ghost use Rattle.path_search.specs.Reached.{ReadsReached};
ghost use Rattle.path_search.specs.Search.{AreLabels};

use crate::asked::asked_by;
use crate::labels::Labels;
use crate::spread::settle_all;
use crate::starts::starts_of;
use crate::stopping::settle_to;
use crate::waiting::Waiting;
use dom_base::{Cost, NoMemory, Query, Seed};
use std::alloc::Global;
use te_links::Links;

// No node is settled.
fn none_settled(alloc: Global, nodes: usize) -> Result<Vec<bool>, NoMemory>
    ensures { IfOk result (λ done. done.items ≡ replicate nodes false) }
{
    Ok(vec![in alloc; false; nodes]?)
}

/// The label of each node: the least pair of cost and exit over all admitted walks from it to a
/// seed, within the query's cap; none where there is no such walk. Nodes are settled in the order of
/// their labels, and a link is read when the node at its end is settled: no link into a node that
/// has no label is read, and none twice.
pub fn search<'a, G: Links<'a>>(
    alloc: Global,
    links: &mut G,
    query: &Query,
    seeds: &[Seed],
) -> Result<Labels, NoMemory>
    ensures labels { IfOk result (AreLabels (G.rows links.old) query.now seeds.now) }
    ensures same { G.rows links.new ≡ G.rows links.old }
    ensures reads { G.reads links.new ≤ G.reads links.old + length (G.rows links.old).links }
    ensures reached { IfOk result (λ labels. ReadsReached (G.rows links.old) labels (G.reads links.old) (G.reads links.new)) }
{
    let mut labels = starts_of(alloc, links, query, seeds)?;
    let asked = asked_by(alloc, links, query)?;
    let mut waiting = Waiting::of(alloc, &labels)?;
    let mut done = none_settled(alloc, labels.len())?;
    settle_all(links, query, &asked, &mut labels, &mut waiting, &mut done);
    Ok(labels)
}

/// The labels of all nodes up to a cost: a node whose label costs more has none here.
#[derive(Drop)]
pub struct LabelsTo {
    pub labels: Labels,
    pub reach: Cost,
}

/// The labels of the stops, which are places of nodes, and with them all labels up to a cost: as
/// `search`, but it ends as soon as each stop has its label and all that waits costs more. A stop
/// without a label has none in `search` either.
pub fn search_to<'a, G: Links<'a>>(
    alloc: Global,
    links: &mut G,
    query: &Query,
    seeds: &[Seed],
    stops: &[u32],
) -> Result<LabelsTo, NoMemory>
    requires { All (λ i. i < length (G.rows links.old).nodes) stops.now }
    ensures labels { IfOk result (λ found. AreLabelsTo (G.rows links.old) query.now seeds.now stops.now found.labels found.reach) }
    ensures same { G.rows links.new ≡ G.rows links.old }
    ensures reads { G.reads links.new ≤ G.reads links.old + length (G.rows links.old).links }
    ensures reached { IfOk result (λ found. ReadsReached (G.rows links.old) found.labels (G.reads links.old) (G.reads links.new)) }
{
    let mut labels = starts_of(alloc, links, query, seeds)?;
    let asked = asked_by(alloc, links, query)?;
    let mut waiting = Waiting::of(alloc, &labels)?;
    let mut done = none_settled(alloc, labels.len())?;
    let reach = settle_to(
        links,
        query,
        &asked,
        stops,
        &mut labels,
        &mut waiting,
        &mut done,
    );
    Ok(LabelsTo { labels, reach })
}
