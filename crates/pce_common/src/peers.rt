//! When two peers are one.
ghost use Rattle.std.specs.Prelude.{◌≡◌};
ghost use Rattle.request_table.specs.Pending.{same_peer};

use dom_base::Peer;

/// Whether two peers are one.
pub fn is_same_peer(one: Peer, other: Peer) -> bool
    ensures { result ≡ same_peer one other }
{
    match (one, other) {
        (Peer::Outside(a), Peer::Outside(b)) => a == b,
        (Peer::Inner(a), Peer::Inner(b)) => a.0 == b.0,
        _ => false,
    }
}
