//! What no rule of one topology sees: out links and entries to which the other domain has none.
ghost use Rattle.std.specs.Prelude.{◌≡◌, ◌++◌, ◌<◌, ◌^◌, All, OnOk, Some, length, option_map};
ghost use Rattle.std.specs.List.{list_any};
ghost use Rattle.std.specs.Str.Lines.{lines as lines_of};
ghost use Rattle.line_text.specs.Lines.{told_lines};
ghost use Rattle.network_check.specs.declared.looks.Seen.{Seen};
ghost use Rattle.network_check.specs.Compare.{IsShort, breach_text, breaches_text, chart_at as first_chart, entry_warning, is_entry as is_entry_of, is_out as is_out_of, is_refused, lacks_entry as no_entry, lacks_out as no_out, line_warnings, lines_warnings, out_warning, row_warning, topologies_text, topology_text};

use crate::breaches::Breach;
use crate::forms::tell_form;
use crate::looks::{Chart, Look, Seen};
use crate::told::{Piece, tell, tell_if};
use dom_base::{Addr, As, NoMemory};
use line_text::{Line, Lines, Words};
use network_files::fault_words;
use std::alloc::Global;
use te_links::{Entry, OutLink, Topology};
use te_text::{RowError, TextRow, read_row};

// ---- the other side

// The topology of a domain, where it was read.
fn chart_at(seen: &[Seen], at: As) -> Option<&Topology>
    ensures { option_map (λ t. t.now) result ≡ first_chart at seen.now }
{
    for one in seen {
        if one.at.0 == at.0
            && let Look::Read(chart) = &one.look
        {
            return Some(&chart.topology);
        }
    }
    None
}

fn is_entry(entry: Entry, node: Addr, from: As) -> bool
    ensures { result ≡ is_entry_of node from entry }
{
    entry.node == node && entry.from_as.0 == from.0
}

// Whether a topology has such an entry.
fn has_entry(topology: &Topology, node: Addr, from: As) -> bool
    ensures { result ≡ list_any (is_entry_of node from) topology.now.entries }
{
    for i in 0..topology.entry_count() {
        if is_entry(topology.entry_at(i), node, from) {
            return true;
        }
    }
    false
}

fn is_out(out: &OutLink, node: Addr, to: As) -> bool
    ensures { result ≡ is_out_of node to out.now }
{
    out.link.to == node && out.to_as.0 == to.0
}

// Whether a topology has an out link to such an entry.
fn has_out(topology: &Topology, node: Addr, to: As) -> bool
    ensures { result ≡ list_any (is_out_of node to) topology.now.outs }
{
    for i in 0..topology.out_count() {
        if is_out(topology.out_at(i), node, to) {
            return true;
        }
    }
    false
}

// ---- rows

fn lacks_entry(seen: &[Seen], at: As, head: Addr, to: As) -> bool
    ensures { result ≡ no_entry seen.now at head to }
{
    match chart_at(seen, to) {
        Some(topology) => !has_entry(topology, head, at),
        None => false,
    }
}

fn lacks_out(seen: &[Seen], at: As, node: Addr, from: As) -> bool
    ensures { result ≡ no_out seen.now at node from }
{
    match chart_at(seen, from) {
        Some(topology) => !has_out(topology, node, at),
        None => false,
    }
}

fn warn_of_out(
    seen: &[Seen],
    one: &Seen,
    line: u32,
    out: &OutLink,
    into: &mut Vec<u8>,
) -> Result<(), NoMemory>
    ensures { OnOk result (into.new.items ≡ into.old.items ++ out_warning seen.now one.now line out.now) }
{
    let head = out.link.to;
    tell_if(
        lacks_entry(seen, one.at, head, out.to_as),
        one.file.as_str().as_bytes(),
        line,
        &[
            Piece::Text(b"warning "),
            Piece::Address(head),
            Piece::Text(b" is no entry of domain "),
            Piece::Number(u64::from(out.to_as.0)),
            Piece::Text(b" from "),
            Piece::Number(u64::from(one.at.0)),
        ],
        into,
    )
}

fn warn_of_entry(
    seen: &[Seen],
    one: &Seen,
    line: u32,
    entry: Entry,
    into: &mut Vec<u8>,
) -> Result<(), NoMemory>
    ensures { OnOk result (into.new.items ≡ into.old.items ++ entry_warning seen.now one.now line entry) }
{
    tell_if(
        lacks_out(seen, one.at, entry.node, entry.from_as),
        one.file.as_str().as_bytes(),
        line,
        &[
            Piece::Text(b"warning no out link of domain "),
            Piece::Number(u64::from(entry.from_as.0)),
            Piece::Text(b" leads to the entry "),
            Piece::Address(entry.node),
        ],
        into,
    )
}

fn warn_of_row(
    seen: &[Seen],
    one: &Seen,
    line: u32,
    row: &TextRow,
    into: &mut Vec<u8>,
) -> Result<(), NoMemory>
    ensures { OnOk result (into.new.items ≡ into.old.items ++ row_warning seen.now one.now line (Some row.now)) }
{
    match row {
        TextRow::Out(out) => warn_of_out(seen, one, line, out, into),
        TextRow::Entry(entry) => warn_of_entry(seen, one, line, *entry, into),
        TextRow::Node(_) | TextRow::Link(_) => Ok(()),
    }
}

fn warn_of_line(
    alloc: Global,
    seen: &[Seen],
    one: &Seen,
    line: &Line<'_>,
    into: &mut Vec<u8>,
) -> Result<(), NoMemory>
    ensures { OnOk result (into.new.items ≡ into.old.items ++ line_warnings seen.now one.now (record { number = line.now.number; text = line.now.text.now })) }
{
    let mut words = Words::new(line.text);
    match read_row(alloc, &mut words) {
        Ok(row) => warn_of_row(seen, one, line.number, &row, into),
        Err(RowError::Syntax) => Ok(()),
        Err(RowError::NoMemory) => Err(NoMemory),
    }
}

fn warn_of_lines(
    alloc: Global,
    seen: &[Seen],
    one: &Seen,
    text: &[u8],
    into: &mut Vec<u8>,
) -> Result<(), NoMemory>
    requires short { length (lines_of text.now) < 2 ^ 32 }
    ensures { OnOk result (into.new.items ≡ into.old.items ++ lines_warnings seen.now one.now (told_lines text.now)) }
{
    let mut lines = Lines::new(text);
    while let Some(line) = lines.next_line() {
        warn_of_line(alloc, seen, one, &line, into)?;
    }
    Ok(())
}

// ---- files

fn tell_breach(file: &[u8], breach: &Breach, into: &mut Vec<u8>) -> Result<(), NoMemory>
    ensures { OnOk result (into.new.items ≡ into.old.items ++ breach_text file.now breach.now) }
{
    tell(
        file,
        breach.line,
        &[Piece::Text(fault_words(&breach.fault))],
        into,
    )
}

fn tell_breaches(file: &[u8], breaches: &[Breach], into: &mut Vec<u8>) -> Result<(), NoMemory>
    ensures { OnOk result (into.new.items ≡ into.old.items ++ breaches_text file.now breaches.now) }
{
    for breach in breaches {
        tell_breach(file, breach, into)?;
    }
    Ok(())
}

fn tell_of(alloc: Global, seen: &[Seen], one: &Seen, into: &mut Vec<u8>) -> Result<(), NoMemory>
    requires short { IsShort one.now.look }
    ensures { OnOk result (into.new.items ≡ into.old.items ++ topology_text seen.now one.now) }
{
    let file = one.file.as_str().as_bytes();
    match &one.look {
        Look::Read(chart) => warn_of_lines(alloc, seen, one, chart.text.as_slice(), into),
        Look::Malformed(text) => tell_form(alloc, file, text.as_slice(), into),
        Look::Refused(breaches) => tell_breaches(file, breaches.as_slice(), into),
        Look::Unread => tell(file, 0, &[Piece::Text(b"read fault")], into),
        Look::TooLong => tell(file, 0, &[Piece::Text(b"too large")], into),
    }
}

/// Tells of the topologies: each fault, and what the other domains lack.
pub(crate) fn tell_of_topologies(
    alloc: Global,
    seen: &[Seen],
    into: &mut Vec<u8>,
) -> Result<(), NoMemory>
    requires short { All (λ (s : Seen). IsShort s.look) seen.now }
    ensures { OnOk result (into.new.items ≡ into.old.items ++ topologies_text seen.now seen.now) }
{
    for i in 0..seen.len() {
        tell_of(alloc, seen, &seen[i], into)?;
    }
    Ok(())
}

fn is_fault(look: &Look) -> bool
    ensures { result ≡ is_refused look.now }
{
    match look {
        Look::Read(_) => false,
        Look::Malformed(_) | Look::Refused(_) | Look::Unread | Look::TooLong => true,
    }
}

/// Whether one of the files is at fault.
pub(crate) fn has_fault(seen: &[Seen]) -> bool
    ensures { result ≡ list_any (λ (s : Seen). is_refused s.look) seen.now }
{
    seen.iter().any(|one| is_fault(&one.look))
}
