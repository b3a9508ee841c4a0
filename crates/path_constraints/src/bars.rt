//! Which links and nodes the exclusions of a query bar.
ghost use Rattle.std.specs.Prelude.{◌≡◌, ◌↔◌, ◌-◌, ◌/◌, ◌^◌, IsTrue};
ghost use Rattle.dom_base.specs.Admission.{LiesIn, NamesLink, NamesNode, BarsLink, BarsNode};

use dom_base::{Addr, As, Excluded, Link, Query};

// Whether the first `length` bits of two IPv4 addresses are the same.
fn begin_alike(a: u32, b: u32, length: u8) -> bool
    ensures { IsTrue result ↔ (a / 2 ^ (32 - length) ≡ b / 2 ^ (32 - length)) }
{
    let rest = 32u8.saturating_sub(length);
    rest == 32 || a >> rest == b >> rest
}

// The same of two IPv6 addresses.
fn begin_alike_longer(a: u128, b: u128, length: u8) -> bool
    ensures { IsTrue result ↔ (a / 2 ^ (128 - length) ≡ b / 2 ^ (128 - length)) }
{
    let rest = 128u8.saturating_sub(length);
    rest == 128 || a >> rest == b >> rest
}

// Whether an address is of the kind of a prefix and lies in it.
fn lies_in(addr: Addr, prefix: Addr, length: u8) -> bool
    ensures { IsTrue result ↔ LiesIn addr prefix length }
{
    match (addr, prefix) {
        (Addr::V4(a), Addr::V4(b)) => begin_alike(a, b, length),
        (Addr::V6(a), Addr::V6(b)) => begin_alike_longer(a, b, length),
        _ => false,
    }
}

// Never inlined, so that the test of each link stays short where nothing is excluded.
#[inline(never)]
fn names_link(what: &Excluded, link: &Link) -> bool
    ensures { IsTrue result ↔ NamesLink what.now link.now }
{
    match what {
        Excluded::Prefix {
            addr,
            length,
            attribute,
        } => *attribute == 0
            && (lies_in(link.near, *addr, *length) || lies_in(link.far, *addr, *length)),
        Excluded::Srlg(number) => link.srlgs.as_slice().contains(number),
        _ => false,
    }
}

fn names_node(what: &Excluded, own: As, node: Addr) -> bool
    ensures { IsTrue result ↔ NamesNode what.now own node }
{
    match what {
        Excluded::Prefix {
            addr,
            length,
            attribute,
        } => *attribute == 1 && lies_in(node, *addr, *length),
        Excluded::AsNumber(number) => own == *number,
        _ => false,
    }
}

/// Whether an exclusion of the query bars a link: an interface of it lies in a prefix with
/// attribute 0, or the link carries a shared risk (RFC 5521, section 2.1). Exclusions that are
/// only to be avoided bar nothing.
#[inline(always)]
pub fn bars_link(query: &Query, link: &Link) -> bool
    ensures { IsTrue result ↔ BarsLink query.now link.now }
{
    for exclusion in query.exclusions.as_slice() {
        if !exclusion.avoid && names_link(&exclusion.what, link) {
            return true;
        }
    }
    false
}

/// Whether an exclusion of the query bars a node: it lies in a prefix with attribute 1, or the
/// query's own domain is excluded.
pub fn bars_node(query: &Query, node: Addr) -> bool
    ensures { IsTrue result ↔ BarsNode query.now node }
{
    for exclusion in query.exclusions.as_slice() {
        if !exclusion.avoid && names_node(&exclusion.what, query.own, node) {
            return true;
        }
    }
    false
}
