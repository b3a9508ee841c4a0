//! The rows of a domain that is drawn pseudorandomly.
ghost use Rattle.std.specs.Prelude.{◌≡◌, ◌≤◌, ◌+◌, ◌*◌, ◌++◌, ◌∷◌, [], cond, length, IfOk, OnOk};
ghost use Rattle.network_files.specs.Draws.{draws_most};
ghost use Rattle.network_files.specs.DrawnRows.{are_joined, drawn_link, drawn_links, entries_of, is_far, is_next, node, nodes_of, out_address, out_link, outs_of, parts_of, side, span, spans, spans_to};

use crate::draws::Draws;
use dom_base::{Addr, As, Link, List, NoMemory};
use std::alloc::Global;
use te_links::{Entry, OutLink, Parts};

/// How many domains there are, in a row.
pub(crate) const DOMAINS: u8 = 4;

/// How many nodes a domain has.
pub(crate) const NODES: u8 = 50;

/// The numbers of the nodes between which a link goes.
#[derive(Clone, Copy)]
pub struct Span {
    pub from: u8,
    pub to: u8,
}

fn address(domain: u8, third: u8, last: u8) -> Addr
    ensures { result ≡ Addr.V4 (167772160 + domain * 65536 + third * 256 + last) }
{
    Addr::V4(
        0x0a00_0000 + u32::from(domain) * 0x1_0000 + u32::from(third) * 0x100 + u32::from(last),
    )
}

/// A node of a domain.
pub(crate) fn node(domain: u8, number: u8) -> Addr
    ensures { result ≡ node domain number }
{
    address(domain, 0, number)
}

// ---- which nodes are joined

fn is_next(a: u8, b: u8) -> bool
    requires { a ≤ 50 }
    ensures { result ≡ is_next a b }
{
    a + 1 == b
}

fn is_far(a: u8, b: u8) -> bool
    requires { a ≤ 50 }
    ensures { result ≡ is_far a b }
{
    matches!(a, 1 | 11 | 21 | 31) && a + 10 == b
}

fn are_joined(a: u8, b: u8) -> bool
    requires a_within { a ≤ 50 }
    requires b_within { b ≤ 50 }
    ensures { result ≡ are_joined a b }
{
    is_next(a, b) || is_next(b, a) || is_far(a, b) || is_far(b, a)
}

// Puts the span behind others, if it is one.
fn add_span(from: u8, to: u8, into: &mut Vec<Span>) -> Result<(), NoMemory>
    requires from_within { from ≤ 50 }
    requires to_within { to ≤ 50 }
    ensures { OnOk result (into.new.items ≡ into.old.items ++ cond (are_joined from to) (span to from ∷ []) []) }
{
    if are_joined(from, to) {
        into.push(Span { from, to })?;
    }
    Ok(())
}

// Puts the spans that end at a node behind others.
fn add_spans(to: u8, into: &mut Vec<Span>) -> Result<(), NoMemory>
    requires { to ≤ 50 }
    ensures { OnOk result (into.new.items ≡ into.old.items ++ spans_to to) }
{
    for from in 1..NODES + 1 {
        add_span(from, to, into)?;
    }
    Ok(())
}

// The spans of all inner links, in the order of their far addresses.
fn spans(alloc: Global) -> Result<Vec<Span>, NoMemory>
    ensures { IfOk result (λ found. found.items ≡ spans) }
{
    let mut found = Vec::new(alloc);
    for to in 1..NODES + 1 {
        add_spans(to, &mut found)?;
    }
    Ok(found)
}

// ---- links

// The end of a link at its first node.
fn side(domain: u8, at: u8, other: u8) -> Addr
    requires { domain ≤ 4 }
    ensures { result ≡ side domain at other }
{
    address(100 + domain, at, other)
}

// The next two draws are its metric and its bandwidth.
fn draw_link(alloc: Global, domain: u8, span: Span, draws: &mut Draws) -> Link
    requires domain { domain ≤ 4 }
    requires left { draws.old + 2 ≤ draws_most }
    ensures link { result ≡ drawn_link domain draws.old span }
    ensures drawn { draws.new ≡ draws.old + 2 }
{
    let te = 10 + draws.next() % 991;
    let bytes_per_second = draws.next() % 4;
    Link {
        from: node(domain, span.from),
        to: node(domain, span.to),
        near: side(domain, span.from, span.to),
        far: side(domain, span.to, span.from),
        igp: 1,
        te: te as u32,
        bytes_per_second,
        colour: 0,
        srlgs: List::new(alloc),
    }
}

fn draw_links(
    alloc: Global,
    domain: u8,
    spans: &[Span],
    draws: &mut Draws,
) -> Result<List<Link>, NoMemory>
    requires domain { domain ≤ 4 }
    requires left { draws.old + 2 * length spans.now ≤ draws_most }
    ensures links { IfOk result (λ links. links ≡ drawn_links domain draws.old spans.now) }
    ensures drawn { OnOk result (draws.new ≡ draws.old + 2 * length spans.now) }
{
    let mut links = Vec::new(alloc);
    for span in spans {
        links.push(draw_link(alloc, domain, *span, draws))?;
    }
    Ok(List::from_vec(links))
}

// ---- other rows

fn nodes_of(alloc: Global, domain: u8) -> Result<List<Addr>, NoMemory>
    ensures { IfOk result (λ nodes. nodes ≡ nodes_of domain) }
{
    let mut nodes = Vec::new(alloc);
    for number in 1..NODES + 1 {
        nodes.push(node(domain, number))?;
    }
    Ok(List::from_vec(nodes))
}

// An end of the link to the next domain.
fn out_address(domain: u8, last: u8) -> Addr
    ensures { result ≡ out_address domain last }
{
    address(200, domain, last)
}

fn out_link(alloc: Global, domain: u8) -> OutLink
    requires { domain ≤ 4 }
    ensures { result ≡ out_link domain }
{
    let link = Link {
        from: node(domain, NODES),
        to: node(domain + 1, 1),
        near: out_address(domain, 1),
        far: out_address(domain, 2),
        igp: 1,
        te: 1000,
        bytes_per_second: 1_000_000,
        colour: 0,
        srlgs: List::new(alloc),
    };
    OutLink {
        link,
        to_as: As(u16::from(domain) + 1),
    }
}

// The link to the next domain, where there is one.
fn outs_of(alloc: Global, domain: u8) -> Result<List<OutLink>, NoMemory>
    requires { domain ≤ 4 }
    ensures { IfOk result (λ outs. outs ≡ outs_of domain) }
{
    let mut outs = List::new(alloc);
    if domain < DOMAINS {
        outs.push(out_link(alloc, domain))?;
    }
    Ok(outs)
}

// The entry from the domain before, where there is one.
fn entries_of(alloc: Global, domain: u8) -> Result<List<Entry>, NoMemory>
    ensures { IfOk result (λ entries. entries ≡ entries_of domain) }
{
    let mut entries = List::new(alloc);
    if domain > 1 {
        entries.push(Entry {
            from_as: As(u16::from(domain) - 1),
            node: node(domain, 1),
        })?;
    }
    Ok(entries)
}

/// The rows of a domain: each inner link takes two draws, in the order of far addresses.
pub(crate) fn draw_rows(alloc: Global, domain: u8, draws: &mut Draws) -> Result<Parts, NoMemory>
    requires domain { domain ≤ 4 }
    requires left { draws.old + 212 ≤ draws_most }
    ensures rows { IfOk result (λ parts. parts ≡ parts_of domain draws.old) }
    ensures drawn { OnOk result (draws.new ≡ draws.old + 212) }
{
    let spans = spans(alloc)?;
    let links = draw_links(alloc, domain, &spans, draws)?;
    Ok(Parts {
        own: As(u16::from(domain)),
        nodes: nodes_of(alloc, domain)?,
        links,
        outs: outs_of(alloc, domain)?,
        entries: entries_of(alloc, domain)?,
    })
}
