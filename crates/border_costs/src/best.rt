//! The best way from each entry.
ghost use Rattle.std.specs.Prelude.{◌≡◌, Contains, IfOk, MatchOption};
ghost use Rattle.te_links.specs.Rows.{IsInOrder};
ghost use Rattle.border_costs.specs.Asks.{AreSeeds, HasNoPair};
ghost use Rattle.border_costs.specs.Solutions.{IsHeadOf, HasNoOut, IsBest, AreBest, TellEntries};

use crate::job::{Ask, Target};
use dom_base::{Addr, List, NoMemory, Seed};
use path_search::{LabelsTo, open_segment, segment_to};
use std::alloc::Global;
use te_links::Links;
use vspt_tree::Best;

/// The node beyond the out link with this far address; none where there is no such link.
pub fn head_of<'a, G: Links<'a>>(links: &G, far: Addr) -> Option<Addr>
    ensures head { MatchOption result (HasNoOut (G.rows links.now) far) (IsHeadOf (G.rows links.now) far) }
    ensures order { IsInOrder (G.rows links.now) }
{
    for index in 0..links.out_count() {
        let out = links.out_at(index);
        if out.link.far == far {
            return Some(out.link.to);
        }
    }
    None
}

// The best way from an entry, if there is one.
fn best_of<'a, G: Links<'a>>(
    alloc: Global,
    ask: &Ask,
    links: &mut G,
    seeds: &[Seed],
    found: &LabelsTo,
    entry: Addr,
) -> Result<Option<Best>, NoMemory>
    requires seeds { AreSeeds (G.rows links.old) ask.now seeds.now }
    requires labels { TellEntries (G.rows links.old) ask.now seeds.now found.now }
    requires entry { Contains ask.now.entries entry }
    ensures best { IfOk result (λ best. MatchOption best (HasNoPair (G.rows links.old) ask.now entry) (IsBest (G.rows links.old) ask.now seeds.now entry)) }
    ensures same { G.rows links.new ≡ G.rows links.old }
{
    let Some(from) = links.find_node(entry) else {
        return Ok(None);
    };
    let Some(places) = segment_to(alloc, links, &ask.query, seeds, found, from)? else {
        return Ok(None);
    };
    let Some(label) = found.labels.at(from) else {
        unreachable!()
    };
    let head = match ask.target {
        Target::Node(_target) => None,
        Target::Next(_next) => head_of(links, label.exit),
    };
    let shown = open_segment(alloc, links, entry, places.as_slice())?;
    Ok(Some(Best {
        entry,
        cost: label.cost,
        exit: label.exit,
        head,
        segment: List::from_vec(shown),
    }))
}

/// The best way from each entry of the ask that has one, in their order.
pub(crate) fn best_rows<'a, G: Links<'a>>(
    alloc: Global,
    ask: &Ask,
    links: &mut G,
    seeds: &[Seed],
    found: &LabelsTo,
) -> Result<Vec<Best>, NoMemory>
    requires seeds { AreSeeds (G.rows links.old) ask.now seeds.now }
    requires labels { TellEntries (G.rows links.old) ask.now seeds.now found.now }
    ensures best { IfOk result (λ rows. AreBest (G.rows links.old) ask.now seeds.now ask.now.entries rows.items) }
    ensures same { G.rows links.new ≡ G.rows links.old }
{
    let mut rows = Vec::new(alloc);
    for entry in ask.entries.as_slice() {
        if let Some(best) = best_of(alloc, ask, links, seeds, found, *entry)? {
            rows.push(best)?;
        }
    }
    Ok(rows)
}
