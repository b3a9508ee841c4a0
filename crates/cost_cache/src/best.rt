//! The best way from each entry, from what is kept.
ghost use Rattle.std.specs.Prelude.{IfOk, MatchOption};
ghost use Rattle.te_links.specs.Rows.{IsTopology};
ghost use Rattle.border_costs.specs.Asks.{HasNoPair};
ghost use Rattle.border_costs.specs.Solutions.{IsBest, AreBest};
ghost use Rattle.cost_cache.specs.Entries.{IsKept};
ghost use Rattle.cost_cache.specs.Keys.{key_of};
ghost use Rattle.cost_cache.specs.Shown.{OverSeeds};

use crate::kept::Kept;
use crate::shown::shown_from;
use border_costs::{Ask, Target, head_of};
use dom_base::{Addr, List, NoMemory};
use std::alloc::Global;
use te_links::Links;
use vspt_tree::Best;

// The best way from an entry, if there is one.
fn best_of<'a, G: Links<'a>>(
    alloc: Global,
    ask: &Ask,
    links: &G,
    kept: &Kept,
    entry: Addr,
) -> Result<Option<Best>, NoMemory>
    requires rules { IsTopology (G.rows links.now) }
    requires kept { IsKept (G.rows links.now) (key_of ask.now) kept.now }
    ensures { IfOk result (λ best. OverSeeds (G.rows links.now) ask.now kept.now (λ seeds. MatchOption best (HasNoPair (G.rows links.now) ask.now entry) (IsBest (G.rows links.now) ask.now seeds entry))) }
{
    let Some(from) = links.find_node(entry) else {
        return Ok(None);
    };
    let Some(label) = kept.labels.at(from) else {
        return Ok(None);
    };
    let head = match ask.target {
        Target::Node(_target) => None,
        Target::Next(_next) => head_of(links, label.exit),
    };
    let shown = shown_from(alloc, ask, links, kept, entry, from)?;
    Ok(Some(Best {
        entry,
        cost: label.cost,
        exit: label.exit,
        head,
        segment: List::from_vec(shown),
    }))
}

/// The best way from each entry of the ask that has one, in their order. No link is read.
pub(crate) fn best_rows<'a, G: Links<'a>>(
    alloc: Global,
    ask: &Ask,
    links: &G,
    kept: &Kept,
) -> Result<Vec<Best>, NoMemory>
    requires rules { IsTopology (G.rows links.now) }
    requires kept { IsKept (G.rows links.now) (key_of ask.now) kept.now }
    ensures { IfOk result (λ rows. OverSeeds (G.rows links.now) ask.now kept.now (λ seeds. AreBest (G.rows links.now) ask.now seeds ask.now.entries rows.items)) }
{
    let mut rows = Vec::new(alloc);
    for entry in ask.entries.as_slice() {
        if let Some(best) = best_of(alloc, ask, links, kept, *entry)? {
            rows.push(best)?;
        }
    }
    Ok(rows)
}
