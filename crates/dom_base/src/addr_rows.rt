//! Look-ups in lists: the value of an address, and whether a list has an address or a seed.
ghost use Rattle.std.specs.Prelude.{◌≡◌, ◌<◌, ◌↔◌, AllPairs, Contains, IsTrue};
ghost use Rattle.dom_base.specs.AddrOrder.{rank};
ghost use Rattle.dom_base.specs.AddrRows.{said_of as value_said};

use crate::{Addr, Label, Seed};

/// The value of an address among rows in rising order of address; `nothing` where no row has the
/// address. Takes logarithmic time.
pub fn said_of<V: Copy>(rows: &[(Addr, V)], nothing: V, addr: Addr) -> V
    requires { AllPairs (λ a b. rank a.0 < rank b.0) rows.now }
    ensures { result ≡ value_said nothing rows.now addr }
{
    match rows.binary_search_by_key(&addr, |row| row.0) {
        Ok(place) => rows[place].1,
        Err(_) => nothing,
    }
}

/// Whether a list has an address.
pub fn stands(addrs: &[Addr], addr: Addr) -> bool
    ensures { IsTrue result ↔ Contains addrs.now addr }
{
    addrs.contains(&addr)
}

/// Whether a seed at the node equals the label: a walk of the label may then end there.
pub fn ends_at(seeds: &[Seed], node: Addr, label: &Label) -> bool
    ensures { IsTrue result ↔ Contains seeds.now (record { node = node; cost = label.now.cost; exit = label.now.exit }) }
{
    seeds.contains(&Seed {
        node,
        cost: label.cost,
        exit: label.exit,
    })
}
