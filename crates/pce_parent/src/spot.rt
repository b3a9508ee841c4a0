//! A vertex of the border graph, as it is looked up.
ghost use Rattle.std.specs.Prelude.{◌≡◌};
ghost use Rattle.pce_common.specs.plant_model.BorderGraph.{Enter, Leave};
ghost use Rattle.pce_parent.specs.Places.{spot_at, spot_of};

use dom_base::{Addr, As};

/// A vertex as plain numbers: whether a domain is left there, the domain, and the kind and the number of
/// the address.
#[derive(Clone, Copy, PartialEq, Eq, Hash)]
pub struct Spot {
    pub leaves: bool,
    pub own: As,
    pub wide: bool,
    pub number: u128,
}

fn spot_with(leaves: bool, own: As, node: Addr) -> Spot
    ensures { result ≡ spot_at leaves own node }
{
    match node {
        Addr::V4(number) => Spot {
            leaves,
            own,
            wide: false,
            number: number as u128,
        },
        Addr::V6(number) => Spot {
            leaves,
            own,
            wide: true,
            number,
        },
    }
}

/// Where a domain is entered at a node.
pub fn entering(own: As, node: Addr) -> Spot
    ensures { result ≡ spot_of (Enter own node) }
{
    spot_with(false, own, node)
}

/// Where a domain is left at a node.
pub fn leaving(own: As, node: Addr) -> Spot
    ensures { result ≡ spot_of (Leave own node) }
{
    spot_with(true, own, node)
}
