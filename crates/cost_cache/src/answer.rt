//! The rows of an ask: what the cache keeps of it, and the answer from what is kept.
ghost use Rattle.std.specs.Prelude.{◌≡◌, IfOk};
ghost use Rattle.te_links.specs.Rows.{IsTopology};
ghost use Rattle.border_costs.specs.Solutions.{AreRows};
ghost use Rattle.cost_cache.specs.Entries.{IsKept};
ghost use Rattle.cost_cache.specs.Keys.{key_of};

use crate::best::best_rows;
use crate::kept::Kept;
use crate::nexts::nexts_of;
use border_costs::{Answer, Ask, is_node, knows_target, seeds_of};
use dom_base::{List, NoMemory};
use path_search::search;
use std::alloc::Global;
use te_links::Links;

/// What is kept of an ask: one search from all its seeds, and the next link of each node.
pub(crate) fn keep<'a, G: Links<'a>>(
    alloc: Global,
    ask: &Ask,
    links: &mut G,
) -> Result<Kept, NoMemory>
    ensures kept { IfOk result (IsKept (G.rows links.old) (key_of ask.now)) }
    ensures same { G.rows links.new ≡ G.rows links.old }
{
    let seeds = seeds_of(alloc, ask, links)?;
    let labels = search(alloc, links, &ask.query, &seeds)?;
    let nexts = nexts_of(alloc, links, &ask.query, &seeds, &labels)?;
    Ok(Kept {
        labels,
        nexts: List::from_vec(nexts),
    })
}

// The rules of a topology, which the contract of each count of its rows states.
fn obeys_rules<'a, G: Links<'a>>(links: &G)
    ensures { IsTopology (G.rows links.now) }
{
    let _nodes = links.node_count();
}

/// The rows of an ask, from what is kept under its key. No link is read.
pub(crate) fn answer<'a, G: Links<'a>>(
    alloc: Global,
    ask: &Ask,
    links: &G,
    kept: &Kept,
) -> Result<Answer, NoMemory>
    requires { IsKept (G.rows links.now) (key_of ask.now) kept.now }
    ensures { IfOk result (AreRows (G.rows links.now) ask.now) }
{
    obeys_rules(links);
    let best = best_rows(alloc, ask, links, kept)?;
    Ok(Answer {
        best: List::from_vec(best),
        source_known: is_node(links, ask.source),
        target_known: knows_target(links, ask.target),
    })
}
