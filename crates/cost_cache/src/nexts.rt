//! The next link of the chosen segment of each node.
ghost use Rattle.std.specs.Prelude.{◌≡◌, ◌<◌, length, IfOk, MatchOption, Some, slice_get};
ghost use Rattle.te_links.specs.Rows.{IsTopology, IsInOrder};
ghost use Rattle.te_links.specs.Index.{LinkBeginsAt};
ghost use Rattle.walk_laws.specs.Walks.{AdmitsNode};
ghost use Rattle.path_search.specs.Search.{AreLabels};
ghost use Rattle.path_search.specs.Segments.{AreOpen, IsLoose};
ghost use Rattle.cost_cache.specs.Entries.{AreNexts};
ghost use Rattle.cost_cache.specs.Hops.{AreEnds, IsTightNext, IsFirstNext, IsNextAt};

use crate::ends::ends_of;
use crate::kept::Next;
use dom_base::{Addr, Label, NoMemory, Query, Seed};
use path_constraints::{Prepared, weight};
use path_search::Labels;
use std::alloc::Global;
use te_links::Links;

// Where a link from a node leads, if it is tight: its weight and the label of its end make up the
// node's label. Most links are ruled out by the label of their end alone.
fn tight_next<'a, G: Links<'a>>(
    links: &mut G,
    prepared: &Prepared<'_>,
    labels: &Labels,
    place: u32,
    _node: Addr,
    label: &Label,
    index: u32,
) -> Option<Next>
    requires rules { IsTopology (G.rows links.old) }
    requires labels { AreOpen (G.rows links.old) prepared.now labels.now }
    requires node { AdmitsNode (G.rows links.old) prepared.now _node }
    requires place { slice_get (G.rows links.old).nodes place ≡ Some _node }
    requires begins { LinkBeginsAt (G.rows links.old).nodes (G.rows links.old).links place index }
    ensures next { MatchOption result (IsLoose (G.rows links.old) prepared.now labels.now _node label.now index) (IsTightNext (G.rows links.old) prepared.now labels.now _node label.now index) }
    ensures same { G.rows links.new ≡ G.rows links.old }
{
    let query = prepared.query();
    let (link, head) = links.link_with_head(index);
    let Some(rest) = labels.at(head) else {
        return None;
    };
    let whole = label.cost.get();
    let part = rest.cost.get();
    if part < whole
        && rest.exit == label.exit
        && whole - part == weight(link, query.metric)
        && prepared.allows(link)
    {
        Some(Next {
            far: link.far,
            end: head,
        })
    } else {
        None
    }
}

// The first tight link from the node at a place.
fn first_next<'a, G: Links<'a>>(
    links: &mut G,
    prepared: &Prepared<'_>,
    labels: &Labels,
    place: u32,
    node: Addr,
    label: &Label,
) -> Option<Next>
    requires labels { AreOpen (G.rows links.old) prepared.now labels.now }
    requires node { AdmitsNode (G.rows links.old) prepared.now node }
    requires place { slice_get (G.rows links.old).nodes place ≡ Some node }
    ensures next { IsFirstNext (G.rows links.old) prepared.now labels.now node label.now result }
    ensures same { G.rows links.new ≡ G.rows links.old }
    ensures order { IsInOrder (G.rows links.old) }
{
    let leaving = links.links_from(place);
    for index in leaving {
        if let Some(next) = tight_next(links, prepared, labels, place, node, label, *index) {
            return Some(next);
        }
    }
    None
}

// The next link of the node at a place, if it has a label and its segment goes on.
fn next_of<'a, G: Links<'a>>(
    links: &mut G,
    prepared: &Prepared<'_>,
    _seeds: &[Seed],
    labels: &Labels,
    ends: &[bool],
    place: u32,
) -> Option<Next>
    requires labels { AreLabels (G.rows links.old) prepared.now _seeds.now labels.now }
    requires ends { AreEnds (G.rows links.old) _seeds.now labels.now ends.now }
    requires place { place < length (G.rows links.old).nodes }
    ensures next { IsNextAt (G.rows links.old) prepared.now _seeds.now labels.now place result }
    ensures same { G.rows links.new ≡ G.rows links.old }
{
    if ends[place as usize] {
        return None;
    }
    let Some(label) = labels.at(place) else {
        return None;
    };
    let node = links.node_at(place);
    first_next(links, prepared, labels, place, node, &label)
}

/// The next link of the chosen segment of each node with a label: of the links from the node, each
/// is read at most once.
pub(crate) fn nexts_of<'a, G: Links<'a>>(
    alloc: Global,
    links: &mut G,
    query: &Query,
    seeds: &[Seed],
    labels: &Labels,
) -> Result<Vec<Option<Next>>, NoMemory>
    requires labels { AreLabels (G.rows links.old) query.now seeds.now labels.now }
    ensures nexts { IfOk result (λ nexts. AreNexts (G.rows links.old) query.now seeds.now labels.now nexts.items) }
    ensures same { G.rows links.new ≡ G.rows links.old }
{
    let ends = ends_of(alloc, links, seeds, labels)?;
    let prepared = Prepared::of(alloc, query)?;
    let mut nexts = Vec::new(alloc);
    for place in 0..links.node_count() {
        nexts.push(next_of(links, &prepared, seeds, labels, &ends, place))?;
    }
    Ok(nexts)
}
