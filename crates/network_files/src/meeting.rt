//! Peers that a server could not tell apart.
ghost use Rattle.std.specs.Prelude.{◌≡◌, ◌==◌};
ghost use Rattle.dom_base.specs.AddrOrder.{rank};
ghost use Rattle.network_files.specs.Meeting.{are_alike as are_alike_rows, comes_to as comes_to_port, is_one as is_one_address, share as share_port};

use dom_base::Addr;
use dom_edge::canonical;
use plant_text::{Comes, PeerRow};

fn is_same(a: Addr, b: Addr) -> bool
    ensures { result ≡ (rank a == rank b) }
{
    a == b
}

// Whether both are one address of a machine, where one of IPv6 may hold one of IPv4.
fn is_one(a: Addr, b: Addr) -> bool
    ensures { result ≡ is_one_address a b }
{
    is_same(canonical(a), canonical(b))
}

// Whether two peers at one port can't be told apart, or are dialled at one address.
fn share(a: Comes, b: Comes) -> bool
    ensures { result ≡ share_port a b }
{
    match a {
        Comes::Anyone => match b {
            Comes::Anyone | Comes::From(_) => true,
            Comes::Dialled(_) => false,
        },
        Comes::From(one) => match b {
            Comes::Anyone => true,
            Comes::From(other) => is_one(one, other),
            Comes::Dialled(_) => false,
        },
        Comes::Dialled(one) => match b {
            Comes::Anyone | Comes::From(_) => false,
            Comes::Dialled(other) => is_one(one, other),
        },
    }
}

/// Whether a server could not tell two peers apart.
pub fn are_alike(a: &PeerRow, b: &PeerRow) -> bool
    ensures { result ≡ are_alike_rows a.now b.now }
{
    a.port == b.port && share(a.comes, b.comes)
}

/// Whether a peer connects, at that port.
pub fn comes_to(row: &PeerRow, port: u16) -> bool
    ensures { result ≡ comes_to_port port row.now }
{
    row.port == port && share(row.comes, Comes::Anyone)
}
