//! Addresses of two kinds, and their order.
ghost use Rattle.std.specs.Prelude.{◌==◌, ◌≡◌};
ghost use Rattle.std.proofs.Common.{rules};
ghost use Rattle.std.specs.Cmp.{partial_equiv_from_equiv, partial_order_from_own_ties};
ghost use Rattle.std.specs.Cmp.Rules.{comparing};
ghost use Rattle.std.specs.Ordering.{nat_cmp, on, as_partial_cmp};
ghost use Rattle.dom_base.specs.AddrOrder.{rank};
ghost use Rattle.dom_base.specs.declared.addr.Addr.TheVariants.{V4, V6};

use std::cmp::Ordering;

/// An IPv4 or an IPv6 address, as an unsigned number. Every IPv4 address comes before every IPv6
/// address; inside a kind addresses are ordered as these numbers.
#[derive(Clone, Copy, Debug)]
pub enum Addr {
    V4(u32),
    V6(u128),
}

fn same(a: Addr, b: Addr) -> bool
    ensures { result ≡ (rank a == rank b) }
{
    match (a, b) {
        (Addr::V4(m), Addr::V4(n)) => m == n,
        (Addr::V6(m), Addr::V6(n)) => m == n,
        _ => false,
    }
}

// Whether an address comes before, with or behind another.
fn compare_v4(m: u32, n: u32) -> Ordering
    ensures { result ≡ nat_cmp (rank (V4 m)) (rank (V4 n)) }
{
    m.cmp(&n)
}

fn compare_v6(m: u128, n: u128) -> Ordering
    ensures { result ≡ nat_cmp (rank (V6 m)) (rank (V6 n)) }
{
    m.cmp(&n)
}

fn v4_with_v6(_m: u32, _n: u128) -> Ordering
    ensures { result ≡ nat_cmp (rank (V4 _m)) (rank (V6 _n)) }
{
    Ordering::Less
}

fn v6_with_v4(_m: u128, _n: u32) -> Ordering
    ensures { result ≡ nat_cmp (rank (V6 _m)) (rank (V4 _n)) }
{
    Ordering::Greater
}

fn compare(a: Addr, b: Addr) -> Ordering
    ensures { result ≡ nat_cmp (rank a) (rank b) }
{
    match (a, b) {
        (Addr::V4(m), Addr::V4(n)) => compare_v4(m, n),
        (Addr::V4(m), Addr::V6(n)) => v4_with_v6(m, n),
        (Addr::V6(m), Addr::V4(n)) => v6_with_v4(m, n),
        (Addr::V6(m), Addr::V6(n)) => compare_v6(m, n),
    }
}

// The comparisons are written out, and not derived, so that what they compute is the one order
// that contracts speak of.

impl PartialEq for Addr {
    ghost eq = { on rank ◌==◌ };

    ghost laws = { Prim.search (comparing, rules) };

    fn eq(&self, other: &Addr) -> bool {
        same(*self, *other)
    }
}

impl Eq for Addr {
    ghost laws = { Prim.search (comparing, rules) };
}

impl Ord for Addr {
    ghost cmp = { on rank nat_cmp };

    ghost total = { Prim.search (comparing, rules) };

    ghost matches_partial_cmp = { Prim.search (comparing, rules) };

    ghost matches_eq = { Prim.search (comparing, rules) };

    fn cmp(&self, other: &Addr) -> Ordering {
        compare(*self, *other)
    }
}

impl PartialOrd for Addr {
    ghost partial_cmp = { as_partial_cmp (on rank nat_cmp) };

    ghost laws = { partial_order_from_own_ties (Prim.search (comparing, rules)) (Prim.search (comparing, rules)) };

    fn partial_cmp(&self, other: &Addr) -> Option<Ordering> {
        Some(self.cmp(other))
    }
}
