//! Tables of a list of exclusions.
ghost use Rattle.std.specs.Prelude.{◌≡◌, ◌⊎◌, ◌↔◌, ℕ, true, Contains, IfOk, IsTrue, MatchOption, OnOk};
ghost use Rattle.std.specs.BTreeSet.{contains};
ghost use Rattle.std.specs.Ordering.{nat_cmp};
ghost use Rattle.dom_base.specs.declared.addr.Addr.{Addr};
ghost use Rattle.path_constraints.specs.Spans.{IsWithin, Covers, AreRising};
ghost use Rattle.path_constraints.specs.Tables.{NamesAddr, NamesRisk, NamesDomain, Demands, SomeDemands};

use crate::spans::{Span, in_order, span_of};
use dom_base::{As, Excluded, Exclusion, NoMemory};
use std::alloc::Global;
use std::collections::BTreeSet;

// The span of a prefix with this attribute.
fn span_named(what: &Excluded, kind: u8) -> Option<Span>
    ensures { MatchOption result ((a : Addr) → NamesAddr kind a what.now → ⊥) (λ span. (a : Addr) → IsWithin a span ↔ NamesAddr kind a what.now) }
{
    match what {
        Excluded::Prefix {
            addr,
            length,
            attribute,
        } if *attribute == kind => Some(span_of(*addr, *length)),
        _ => None,
    }
}

fn add_span_of(spans: &mut Vec<Span>, exclusion: &Exclusion, kind: u8) -> Result<(), NoMemory>
    ensures { (a : Addr) → OnOk result (Covers spans.new.items a ↔ (Covers spans.old.items a ⊎ Demands (NamesAddr kind a) exclusion.now)) }
{
    if exclusion.avoid {
        return Ok(());
    }
    if let Some(span) = span_named(&exclusion.what, kind) {
        spans.push(span)?;
    }
    Ok(())
}

fn each_span(alloc: Global, list: &[Exclusion], kind: u8) -> Result<Vec<Span>, NoMemory>
    ensures { IfOk result (λ spans. (a : Addr) → Covers spans.items a ↔ SomeDemands (NamesAddr kind a) list.now) }
{
    let mut spans = Vec::new(alloc);
    for exclusion in list {
        add_span_of(&mut spans, exclusion, kind)?;
    }
    Ok(spans)
}

/// The addresses that demands exclude by prefixes with this attribute, as spans in order.
pub(crate) fn spans_of(alloc: Global, list: &[Exclusion], kind: u8) -> Result<Vec<Span>, NoMemory>
    ensures rising { IfOk result (λ spans. AreRising spans.items) }
    ensures covers { IfOk result (λ spans. (a : Addr) → Covers spans.items a ↔ SomeDemands (NamesAddr kind a) list.now) }
{
    in_order(alloc, each_span(alloc, list, kind)?)
}

fn add_risk(risks: &mut BTreeSet<u32>, exclusion: &Exclusion) -> Result<(), NoMemory>
    ensures { (n : ℕ) → OnOk result ((contains nat_cmp risks.new n ≡ true) ↔ ((contains nat_cmp risks.old n ≡ true) ⊎ Demands (NamesRisk n) exclusion.now)) }
{
    if exclusion.avoid {
        return Ok(());
    }
    if let Excluded::Srlg(number) = &exclusion.what {
        risks.insert(*number)?;
    }
    Ok(())
}

/// The shared risks that demands exclude.
pub(crate) fn risks_of(alloc: Global, list: &[Exclusion]) -> Result<BTreeSet<u32>, NoMemory>
    ensures { IfOk result (λ risks. (n : ℕ) → (contains nat_cmp risks n ≡ true) ↔ SomeDemands (NamesRisk n) list.now) }
{
    let mut risks = BTreeSet::new(alloc);
    for exclusion in list {
        add_risk(&mut risks, exclusion)?;
    }
    Ok(risks)
}

fn names_domain(exclusion: &Exclusion, own: As) -> bool
    ensures { IsTrue result ↔ Demands (NamesDomain own) exclusion.now }
{
    match exclusion.what {
        Excluded::AsNumber(number) => !exclusion.avoid && own == number,
        _ => false,
    }
}

/// Whether a demand excludes the domain.
pub(crate) fn excludes_domain(list: &[Exclusion], own: As) -> bool
    ensures { IsTrue result ↔ SomeDemands (NamesDomain own) list.now }
{
    for exclusion in list {
        if names_domain(exclusion, own) {
            return true;
        }
    }
    false
}

/// Whether one of the risks is among these.
pub(crate) fn has_risk(risks: &BTreeSet<u32>, numbers: &[u32]) -> bool
    ensures { IsTrue result ↔ ((n : ℕ) × (contains nat_cmp risks.now n ≡ true) × Contains numbers.now n) }
{
    for number in numbers {
        if risks.contains(number) {
            return true;
        }
    }
    false
}
