//! What a query asks of nodes and links, looked up once for a whole search.
ghost use Rattle.std.specs.Prelude.{◌≡◌, ◌⊎◌, ◌↔◌, true, length, IsTrue, IfOk};
ghost use Rattle.path_search.specs.Asked.{is_barred, AreBarred, IsAsked};
ghost use Rattle.dom_base.specs.Admission.{Allows};
ghost use Rattle.dom_base.specs.declared.link.Link.{Link};

use dom_base::{Link, NoMemory, Query};
use path_constraints::{Prepared, asks_nothing};
use std::alloc::Global;
use te_links::Links;

/// What a query asks: whether nothing is asked of links, which nodes it bars, by their places, and the
/// query with its exclusions in order. A place past the end is not barred.
#[derive(Drop)]
pub(crate) struct Asked<'q> {
    pub(crate) free: bool,
    pub(crate) barred: Vec<bool>,
    pub(crate) prepared: Prepared<'q>,
}

// Where nothing is excluded, no node is barred.
fn none_barred<'a, G: Links<'a>>(alloc: Global, _links: &G, _query: &Query) -> Vec<bool>
    requires { length _query.now.exclusions ≡ 0 }
    ensures { AreBarred (G.rows _links.now) _query.now result.items }
{
    Vec::new(alloc)
}

// For each node, by its place, whether the query bars it.
#[tactic(auto, using(crate::proofs::Barring::all_barred))]
fn barred_nodes<'a, G: Links<'a>>(
    alloc: Global,
    links: &G,
    prepared: &Prepared<'_>,
) -> Result<Vec<bool>, NoMemory>
    ensures { IfOk result (λ barred. AreBarred (G.rows links.now) prepared.now barred.items) }
{
    let query = prepared.query();
    if query.exclusions.is_empty() {
        return Ok(none_barred(alloc, links, query));
    }
    let mut barred = Vec::with_capacity(alloc, links.node_count() as usize)?;
    for i in 0..links.node_count() {
        barred.push(prepared.bars_node(links.node_at(i)))?;
    }
    Ok(barred)
}

/// What the query asks of the nodes and links of a topology.
pub(crate) fn asked_by<'a, 'q, G: Links<'a>>(
    alloc: Global,
    links: &G,
    query: &'q Query,
) -> Result<Asked<'q>, NoMemory>
    ensures { IfOk result (IsAsked (G.rows links.now) query.now) }
{
    let prepared = Prepared::of(alloc, query)?;
    let barred = barred_nodes(alloc, links, &prepared)?;
    Ok(Asked {
        free: asks_nothing(query),
        barred,
        prepared,
    })
}

/// Whether the query allows a link: its row is looked at only where something is asked.
pub(crate) fn allows_link(asked: &Asked<'_>, link: &Link) -> bool
    requires { asked.now.free ≡ true → (l : Link) → Allows asked.now.prepared l }
    ensures { IsTrue result ↔ Allows asked.now.prepared link.now }
{
    asked.free || asked.prepared.allows(link)
}

// Whether the node at a place is barred.
fn is_node_barred(asked: &Asked<'_>, node: u32) -> bool
    ensures { result ≡ is_barred asked.now.barred.items node }
{
    match asked.barred.get(node as usize) {
        Some(bars) => *bars,
        None => false,
    }
}

/// Whether a link begins or ends at a node that is barred.
pub(crate) fn bars_ends(asked: &Asked<'_>, tail: u32, head: u32) -> bool
    ensures { IsTrue result ↔ ((is_barred asked.now.barred.items tail ≡ true) ⊎ (is_barred asked.now.barred.items head ≡ true)) }
{
    is_node_barred(asked, tail) || is_node_barred(asked, head)
}
