//! Whom a listener heeds, by the address that a connection comes from.
ghost use Rattle.std.specs.Prelude.{◌≡◌, ◌↔◌, IsTrue};
ghost use Rattle.dom_edge.specs.Heeding.{canonical as value_canonical, IsHeeded};
ghost use Rattle.dom_base.specs.declared.addr.Addr.TheVariants.{V6};

use dom_base::Addr;

// What stands in front of the address of IPv4 in one of IPv6 that holds it.
const HOLDS_V4: u128 = 0xffff;

// The address of IPv4 that one of IPv6 holds, or itself.
fn canonical_v6(number: u128) -> Addr
    ensures { result ≡ value_canonical (V6 number) }
{
    if number / (1 << 32) == HOLDS_V4 {
        Addr::V4((number % (1 << 32)) as u32)
    } else {
        Addr::V6(number)
    }
}

/// The address of IPv4 that one of IPv6 holds; any other address as it is.
pub fn canonical(addr: Addr) -> Addr
    ensures { result ≡ value_canonical addr }
{
    match addr {
        Addr::V4(_) => addr,
        Addr::V6(number) => canonical_v6(number),
    }
}

// Whether a connection that comes from there is heeded.
pub(crate) fn is_heeded(heeds: Option<Addr>, from: Option<Addr>) -> bool
    ensures { IsTrue result ↔ IsHeeded heeds from }
{
    match (heeds, from) {
        (None, _) => true,
        (Some(_), None) => false,
        (Some(whom), Some(from)) => is_same(canonical(from), canonical(whom)),
    }
}

// Whether both are one address.
pub(crate) fn is_same(a: Addr, b: Addr) -> bool
    ensures { IsTrue result ↔ (a ≡ b) }
{
    a == b
}
