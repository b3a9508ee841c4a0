//! To which outside peers an element sends requests for their domains.
ghost use Rattle.std.specs.Prelude.{◌≡◌, ◌<◌, ◌^◌, [], ◌∷◌, length, IfOk, MatchOption};
ghost use Rattle.plant_model.specs.Routes.{route_at, routes_from};

use disclosure::Class;
use dom_base::{As, List, NoMemory};
use plant_model::Route;
use plant_text::PeerRow;
use std::alloc::Global;

// By a peer of the domain's element, where paths may go on through it.
fn route_at(own: As, peer: u32, row: &PeerRow) -> Option<Route>
    ensures { MatchOption result (route_at own peer row.now ≡ []) (λ route. route_at own peer row.now ≡ route ∷ []) }
{
    if !row.down || row.at.0 != own.0 {
        return None;
    }
    match row.class {
        Class::Neighbour(next) => Some(Route { next, peer }),
        _ => None,
    }
}

/// The routes of a domain's element, in the order of their peers.
pub fn routes_of(alloc: Global, own: As, peers: &[PeerRow]) -> Result<List<Route>, NoMemory>
    requires { length peers.now < 2 ^ 32 }
    ensures { IfOk result (λ found. found ≡ routes_from own 0 peers.now) }
{
    let mut found = List::new(alloc);
    for i in 0..peers.len() {
        if let Some(route) = route_at(own, i as u32, &peers[i]) {
            found.push(route)?;
        }
    }
    Ok(found)
}
