//! The nodes at which a segment ends.
ghost use Rattle.std.specs.Prelude.{◌≡◌, ◌<◌, ℕ, length, false, true, replicate, slice_set, IfOk, MatchOption};
ghost use Rattle.te_links.specs.Rows.{IsTopology};
ghost use Rattle.cost_cache.specs.Hops.{IsEndBy, AreEnds};

use dom_base::{NoMemory, Seed};
use path_search::Labels;
use std::alloc::Global;
use te_links::Links;

// The place of a seed's node, if the seed equals the label of the node.
fn end_by<'a, G: Links<'a>>(links: &G, labels: &Labels, seed: &Seed) -> Option<u32>
    requires rules { IsTopology (G.rows links.now) }
    requires labels { length labels.now ≡ length (G.rows links.now).nodes }
    ensures { MatchOption result ((i : ℕ) → ¬ IsEndBy (G.rows links.now) labels.now seed.now i) (IsEndBy (G.rows links.now) labels.now seed.now) }
{
    let Some(place) = links.find_node(seed.node) else {
        return None;
    };
    let Some(label) = labels.at(place) else {
        return None;
    };
    if label.cost == seed.cost && label.exit == seed.exit {
        Some(place)
    } else {
        None
    }
}

fn no_ends(alloc: Global, nodes: usize) -> Result<Vec<bool>, NoMemory>
    ensures { IfOk result (λ ends. ends.items ≡ replicate nodes false) }
{
    Ok(vec![in alloc; false; nodes]?)
}

fn mark(ends: &mut Vec<bool>, place: u32)
    requires { place < length ends.old.items }
    ensures { ends.new.items ≡ slice_set ends.old.items place true }
{
    ends[place as usize] = true;
}

/// For each node with a label whether a seed equals the label, so that a segment ends there. Each
/// seed is looked at once.
pub(crate) fn ends_of<'a, G: Links<'a>>(
    alloc: Global,
    links: &G,
    seeds: &[Seed],
    labels: &Labels,
) -> Result<Vec<bool>, NoMemory>
    requires labels { length labels.now ≡ length (G.rows links.now).nodes }
    ensures { IfOk result (λ ends. AreEnds (G.rows links.now) seeds.now labels.now ends.items) }
{
    let mut ends = no_ends(alloc, links.node_count() as usize)?;
    for seed in seeds {
        if let Some(place) = end_by(links, labels, seed) {
            mark(&mut ends, place);
        }
    }
    Ok(ends)
}
