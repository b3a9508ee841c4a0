//! The text of a topology.
ghost use Rattle.std.specs.Prelude.{◌≡◌, ◌++◌, ℕ, IfOk, OnOk, All};
ghost use Rattle.std.specs.List.{flat_map};
ghost use Rattle.line_text.specs.Spelling.{line_text};
ghost use Rattle.te_links.specs.Rows.{Rows, IsInOrder};
ghost use Rattle.te_text.specs.TopologyText.{header_words, topology_text, IsWritten, IsWrittenHeader};
ghost use Rattle.te_text.specs.Spelled.{row_text};
ghost use Rattle.te_text.specs.Reads.{Reads};

use crate::row::TextRow;
use crate::words::{push_addr, push_ends, push_number, push_srlgs, push_traits};
use dom_base::{Addr, As, Bytes, Link, List, NoMemory};
use std::alloc::Global;
use te_links::{Entry, OutLink, Topology};

fn write_header(own: As, into: &mut Vec<u8>) -> Result<(), NoMemory>
    ensures ok { OnOk result (into.new.items ≡ into.old.items ++ line_text (header_words own)) }
    ensures again { OnOk result (IsWrittenHeader own) }
{
    into.extend_from_slice(b"topology")?;
    push_number(u64::from(own.0), into)?;
    into.push(b'\n')?;
    Ok(())
}

fn write_node(node: Addr, into: &mut Vec<u8>) -> Result<(), NoMemory>
    ensures ok { OnOk result (into.new.items ≡ into.old.items ++ row_text (TextRow.Node node)) }
    ensures again { OnOk result (IsWritten (TextRow.Node node)) }
{
    into.extend_from_slice(b"node")?;
    push_addr(node, into)?;
    into.push(b'\n')?;
    Ok(())
}

fn write_link(link: &Link, into: &mut Vec<u8>) -> Result<(), NoMemory>
    ensures ok { OnOk result (into.new.items ≡ into.old.items ++ row_text (TextRow.Link link.now)) }
    ensures again { OnOk result (IsWritten (TextRow.Link link.now)) }
{
    into.extend_from_slice(b"link")?;
    push_ends(link, into)?;
    push_traits(link, into)?;
    push_srlgs(link.srlgs.as_slice(), into)?;
    into.push(b'\n')?;
    Ok(())
}

fn write_out(out: &OutLink, into: &mut Vec<u8>) -> Result<(), NoMemory>
    ensures ok { OnOk result (into.new.items ≡ into.old.items ++ row_text (TextRow.Out out.now)) }
    ensures again { OnOk result (IsWritten (TextRow.Out out.now)) }
{
    into.extend_from_slice(b"out")?;
    push_ends(&out.link, into)?;
    push_number(u64::from(out.to_as.0), into)?;
    push_traits(&out.link, into)?;
    push_srlgs(out.link.srlgs.as_slice(), into)?;
    into.push(b'\n')?;
    Ok(())
}

fn write_entry(entry: Entry, into: &mut Vec<u8>) -> Result<(), NoMemory>
    ensures ok { OnOk result (into.new.items ≡ into.old.items ++ row_text (TextRow.Entry entry)) }
    ensures again { OnOk result (IsWritten (TextRow.Entry entry)) }
{
    into.extend_from_slice(b"entry")?;
    push_addr(entry.node, into)?;
    push_number(u64::from(entry.from_as.0), into)?;
    into.push(b'\n')?;
    Ok(())
}

fn write_nodes(topology: &Topology, into: &mut Vec<u8>) -> Result<(), NoMemory>
    ensures ok { OnOk result (into.new.items ≡ into.old.items ++ flat_map (λ n. row_text (TextRow.Node n)) topology.now.nodes) }
    ensures again { OnOk result (All (λ n. IsWritten (TextRow.Node n)) topology.now.nodes) }
{
    for i in 0..topology.node_count() {
        write_node(topology.node_at(i), into)?;
    }
    Ok(())
}

fn write_links(topology: &Topology, into: &mut Vec<u8>) -> Result<(), NoMemory>
    ensures ok { OnOk result (into.new.items ≡ into.old.items ++ flat_map (λ l. row_text (TextRow.Link l)) topology.now.links) }
    ensures again { OnOk result (All (λ l. IsWritten (TextRow.Link l)) topology.now.links) }
{
    for i in 0..topology.link_count() {
        write_link(topology.link_at(i), into)?;
    }
    Ok(())
}

fn write_outs(topology: &Topology, into: &mut Vec<u8>) -> Result<(), NoMemory>
    ensures ok { OnOk result (into.new.items ≡ into.old.items ++ flat_map (λ o. row_text (TextRow.Out o)) topology.now.outs) }
    ensures again { OnOk result (All (λ o. IsWritten (TextRow.Out o)) topology.now.outs) }
{
    for i in 0..topology.out_count() {
        write_out(topology.out_at(i), into)?;
    }
    Ok(())
}

fn write_entries(topology: &Topology, into: &mut Vec<u8>) -> Result<(), NoMemory>
    ensures ok { OnOk result (into.new.items ≡ into.old.items ++ flat_map (λ e. row_text (TextRow.Entry e)) topology.now.entries) }
    ensures again { OnOk result (All (λ e. IsWritten (TextRow.Entry e)) topology.now.entries) }
{
    for i in 0..topology.entry_count() {
        write_entry(topology.entry_at(i), into)?;
    }
    Ok(())
}

/// The text of a topology: its header, then nodes, links, out links and entries in the topology's
/// order, with single blanks between words and LF at the end of each line. It is read again as
/// this topology, and as no other.
pub fn write_topology(alloc: Global, topology: &Topology) -> Result<Bytes, NoMemory>
    ensures text { IfOk result (λ bytes. bytes ≡ topology_text topology.now) }
    ensures again { OnOk result (Reads (topology_text topology.now) topology.now) }
    ensures only { OnOk result ((u : Rows) → IsInOrder u → Reads (topology_text topology.now) u → u ≡ topology.now) }
{
    let mut into = Vec::new(alloc);
    write_header(topology.own(), &mut into)?;
    write_nodes(topology, &mut into)?;
    write_links(topology, &mut into)?;
    write_outs(topology, &mut into)?;
    write_entries(topology, &mut into)?;
    Ok(List::from_vec(into))
}
