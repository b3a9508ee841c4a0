//! The rows of a topology in one list, and back.
ghost use Rattle.std.specs.Prelude.{◌≡◌, ◌++◌, IfOk, OnOk, map};
ghost use Rattle.te_links.specs.Faults.{rows_of_parts};
ghost use Rattle.te_text.specs.TopologyText.{rows_in_order};
ghost use Rattle.te_deltas.specs.Gathered.{no_parts, with_last};

use crate::copy::{copy_link, copy_out};
use dom_base::{As, List, NoMemory};
use std::alloc::Global;
use te_links::{Parts, Topology};
use te_text::TextRow;

fn push_nodes(topology: &Topology, into: &mut Vec<TextRow>) -> Result<(), NoMemory>
    ensures { OnOk result (into.new.items ≡ into.old.items ++ map (λ n. TextRow.Node n) topology.now.nodes) }
{
    for i in 0..topology.node_count() {
        into.push(TextRow::Node(topology.node_at(i)))?;
    }
    Ok(())
}

fn push_links(alloc: Global, topology: &Topology, into: &mut Vec<TextRow>) -> Result<(), NoMemory>
    ensures { OnOk result (into.new.items ≡ into.old.items ++ map (λ l. TextRow.Link l) topology.now.links) }
{
    for i in 0..topology.link_count() {
        let copy = copy_link(alloc, topology.link_at(i))?;
        into.push(TextRow::Link(copy))?;
    }
    Ok(())
}

fn push_outs(alloc: Global, topology: &Topology, into: &mut Vec<TextRow>) -> Result<(), NoMemory>
    ensures { OnOk result (into.new.items ≡ into.old.items ++ map (λ o. TextRow.Out o) topology.now.outs) }
{
    for i in 0..topology.out_count() {
        let copy = copy_out(alloc, topology.out_at(i))?;
        into.push(TextRow::Out(copy))?;
    }
    Ok(())
}

fn push_entries(topology: &Topology, into: &mut Vec<TextRow>) -> Result<(), NoMemory>
    ensures { OnOk result (into.new.items ≡ into.old.items ++ map (λ e. TextRow.Entry e) topology.now.entries) }
{
    for i in 0..topology.entry_count() {
        into.push(TextRow::Entry(topology.entry_at(i)))?;
    }
    Ok(())
}

/// Copies of the rows of a topology, in its order.
pub(crate) fn rows_of_topology(alloc: Global, topology: &Topology) -> Result<Vec<TextRow>, NoMemory>
    ensures { IfOk result (λ rows. rows.items ≡ rows_in_order topology.now) }
{
    let mut rows = Vec::new(alloc);
    push_nodes(topology, &mut rows)?;
    push_links(alloc, topology, &mut rows)?;
    push_outs(alloc, topology, &mut rows)?;
    push_entries(topology, &mut rows)?;
    Ok(rows)
}

/// No rows of a domain.
pub(crate) fn empty_parts(alloc: Global, own: As) -> Parts
    ensures { rows_of_parts result ≡ no_parts own }
{
    Parts {
        own,
        nodes: List::new(alloc),
        links: List::new(alloc),
        outs: List::new(alloc),
        entries: List::new(alloc),
    }
}

/// A further row behind those of its kind.
pub(crate) fn push_row(parts: &mut Parts, row: TextRow) -> Result<(), NoMemory>
    ensures { OnOk result (rows_of_parts parts.new ≡ with_last (rows_of_parts parts.old) row) }
{
    match row {
        TextRow::Node(node) => parts.nodes.push(node)?,
        TextRow::Link(link) => parts.links.push(link)?,
        TextRow::Out(out) => parts.outs.push(out)?,
        TextRow::Entry(entry) => parts.entries.push(entry)?,
    }
    Ok(())
}
