//! Spans of addresses in order, in which an address is found by halves.
ghost use Rattle.std.specs.Prelude.{◌≡◌, ◌⊎◌, ◌↔◌, ◌<◌, ◌≤◌, ◌-◌, ◌^◌, length, slice_index_or, IfOk, IsTrue, OnOk};
ghost use Rattle.std.specs.List.Sorted.{IsNonDecreasingBy};
ghost use Rattle.dom_base.specs.Admission.{LiesIn};
ghost use Rattle.dom_base.specs.AddrOrder.{rank};
ghost use Rattle.dom_base.specs.declared.addr.Addr.{Addr};
ghost use Rattle.dom_base.specs.declared.addr.Addr.TheVariants.{V4, V6};
ghost use Rattle.path_constraints.specs.Spans.{IsWithin, Covers, AreRising, IsPlaceOf, LeadsTo};

use dom_base::{Addr, NoMemory};
use std::alloc::Global;

/// From the first address to the last.
pub(crate) type Span = (Addr, Addr);

// The bits of an IPv4 address that a prefix of the length leaves open, as ones.
fn open_bits(length: u8) -> u32
    ensures { result ≡ 2 ^ (32 - length) - 1 }
{
    if length < 32 { u32::MAX >> length } else { 0 }
}

// The same of an IPv6 address.
fn open_bits_longer(length: u8) -> u128
    ensures { result ≡ 2 ^ (128 - length) - 1 }
{
    if length < 128 { u128::MAX >> length } else { 0 }
}

fn span_v4(prefix: u32, length: u8) -> Span
    ensures { (a : Addr) → IsWithin a result ↔ LiesIn a (V4 prefix) length }
{
    let open = open_bits(length);
    let first = prefix - (prefix & open);
    (Addr::V4(first), Addr::V4(first.saturating_add(open)))
}

fn span_v6(prefix: u128, length: u8) -> Span
    ensures { (a : Addr) → IsWithin a result ↔ LiesIn a (V6 prefix) length }
{
    let open = open_bits_longer(length);
    let first = prefix - (prefix & open);
    (Addr::V6(first), Addr::V6(first.saturating_add(open)))
}

/// The addresses of a prefix.
pub(crate) fn span_of(prefix: Addr, length: u8) -> Span
    ensures { (a : Addr) → IsWithin a result ↔ LiesIn a prefix length }
{
    match prefix {
        Addr::V4(prefix) => span_v4(prefix, length),
        Addr::V6(prefix) => span_v6(prefix, length),
    }
}

// One more span, unless it ends no later than the last one.
fn add_span(spans: &mut Vec<Span>, span: Span) -> Result<(), NoMemory>
    requires rising { AreRising spans.old.items }
    requires leads { LeadsTo spans.old.items span }
    ensures rising { OnOk result (AreRising spans.new.items) }
    ensures leads { OnOk result (LeadsTo spans.new.items span) }
    ensures covers { (a : Addr) → OnOk result (Covers spans.new.items a ↔ (Covers spans.old.items a ⊎ IsWithin a span)) }
{
    let count = spans.len();
    if count > 0 && span.1 <= spans[count - 1].1 {
        return Ok(());
    }
    spans.push(span)?;
    Ok(())
}

// The spans in order of their first addresses.
fn sorted(mut spans: Vec<Span>) -> Vec<Span>
    ensures firsts { IsNonDecreasingBy (λ span. rank span.0) result.items }
    ensures covers { (a : Addr) → Covers result.items a ↔ Covers spans.items a }
{
    spans.sort_unstable();
    spans
}

// Those that end later than all in front of them: they have the same addresses.
fn thinned(alloc: Global, spans: &[Span]) -> Result<Vec<Span>, NoMemory>
    requires { IsNonDecreasingBy (λ span. rank span.0) spans.now }
    ensures rising { IfOk result (λ kept. AreRising kept.items) }
    ensures covers { IfOk result (λ kept. (a : Addr) → Covers kept.items a ↔ Covers spans.now a) }
{
    let mut kept = Vec::with_capacity(alloc, spans.len())?;
    for span in spans {
        add_span(&mut kept, *span)?;
    }
    Ok(kept)
}

/// Spans with the same addresses, in order: their first and their last addresses rise.
pub(crate) fn in_order(alloc: Global, spans: Vec<Span>) -> Result<Vec<Span>, NoMemory>
    ensures rising { IfOk result (λ kept. AreRising kept.items) }
    ensures covers { IfOk result (λ kept. (a : Addr) → Covers kept.items a ↔ Covers spans.items a) }
{
    thinned(alloc, sorted(spans).as_slice())
}

// How many of the spans begin at the address or before it.
fn place_of(spans: &[Span], addr: Addr) -> usize
    ensures { IsPlaceOf spans.now addr result }
{
    let mut low = 0;
    let mut high = spans.len();
    while low < high {
        let middle = low + (high - low) / 2;
        if spans[middle].0 <= addr {
            low = middle + 1;
        } else {
            high = middle;
        }
    }
    low
}

/// Whether an address lies in one of the spans.
pub(crate) fn covers(spans: &[Span], addr: Addr) -> bool
    requires { AreRising spans.now }
    ensures { IsTrue result ↔ Covers spans.now addr }
{
    let place = place_of(spans, addr);
    place > 0 && addr <= spans[place - 1].1
}
