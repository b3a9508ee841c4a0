//! The rows of an ask, by one search: alone, or with the labels of all nodes.
ghost use Rattle.std.specs.Prelude.{◌≡◌, ◌↔◌, Contains, IfOk, IsTrue};
ghost use Rattle.border_costs.specs.Solutions.{AreRows, AreLabelledRows, IsKnownTarget};

use crate::answer::{Answer, LabelledAnswer};
use crate::best::best_rows;
use crate::job::{Ask, Target};
use crate::labelled::certificate_of;
use crate::places::places_of;
use crate::seeds::seeds_of;
use dom_base::{Addr, List, NoMemory};
use path_search::{LabelsTo, search, search_to};
use std::alloc::Global;
use te_links::Links;

/// Whether the address is a node of the domain.
pub fn is_node<'a, G: Links<'a>>(links: &G, node: Addr) -> bool
    ensures { IsTrue result ↔ Contains (G.rows links.now).nodes node }
{
    links.find_node(node).is_some()
}

/// Whether the target is a node of the domain, or lies beyond it.
pub fn knows_target<'a, G: Links<'a>>(links: &G, target: Target) -> bool
    ensures { IsTrue result ↔ IsKnownTarget (G.rows links.now) target }
{
    match target {
        Target::Node(node) => is_node(links, node),
        Target::Next(_next) => true,
    }
}

/// The rows of an ask over the topology of `links`: one search from all exits at once, whose labels
/// at the entries are the least costs, each with the exit of least far address among equals. It ends
/// as soon as the label of each entry is known.
pub fn solve_rows<'a, G: Links<'a>>(
    alloc: Global,
    ask: &Ask,
    links: &mut G,
) -> Result<Answer, NoMemory>
    ensures rows { IfOk result (AreRows (G.rows links.old) ask.now) }
    ensures same { G.rows links.new ≡ G.rows links.old }
{
    let seeds = seeds_of(alloc, ask, links)?;
    let stops = places_of(alloc, links, ask.entries.as_slice())?;
    let found = search_to(alloc, links, &ask.query, &seeds, &stops)?;
    let best = best_rows(alloc, ask, links, &seeds, &found)?;
    Ok(Answer {
        best: List::from_vec(best),
        source_known: is_node(links, ask.source),
        target_known: knows_target(links, ask.target),
    })
}

/// The rows of an ask, with the labels of all nodes, by a search that gives each node its label.
pub fn solve_labelled_rows<'a, G: Links<'a>>(
    alloc: Global,
    ask: &Ask,
    links: &mut G,
) -> Result<LabelledAnswer, NoMemory>
    ensures rows { IfOk result (AreLabelledRows (G.rows links.old) ask.now) }
    ensures same { G.rows links.new ≡ G.rows links.old }
{
    let seeds = seeds_of(alloc, ask, links)?;
    let labels = search(alloc, links, &ask.query, &seeds)?;
    let reach = ask.query.cap;
    let found = LabelsTo { labels, reach };
    let best = best_rows(alloc, ask, links, &seeds, &found)?;
    let certificate = certificate_of(alloc, ask, links, &seeds, &found.labels)?;
    let rows = Answer {
        best: List::from_vec(best),
        source_known: is_node(links, ask.source),
        target_known: knows_target(links, ask.target),
    };
    Ok(LabelledAnswer { rows, certificate })
}
