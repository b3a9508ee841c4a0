//! The places of an ask's entries among the nodes.
ghost use Rattle.std.specs.Prelude.{IfOk};
ghost use Rattle.border_costs.specs.Solutions.{ArePlaces};

use dom_base::{Addr, NoMemory};
use std::alloc::Global;
use te_links::Links;

/// The places of those addresses that are nodes.
pub(crate) fn places_of<'a, G: Links<'a>>(
    alloc: Global,
    links: &G,
    addresses: &[Addr],
) -> Result<Vec<u32>, NoMemory>
    ensures { IfOk result (λ places. ArePlaces (G.rows links.now) addresses.now places.items) }
{
    let most = addresses.len().min(links.node_count() as usize);
    let mut places = Vec::with_capacity(alloc, most)?;
    for address in addresses {
        if let Some(place) = links.find_node(*address) {
            places.push(place)?;
        }
    }
    Ok(places)
}
