//! The hops of a path that is kept.
ghost use Rattle.std.specs.Prelude.{◌≡◌};
ghost use Rattle.std.specs.List.{list_all};
ghost use Rattle.pcep_subobjects.specs.Addresses.{bits_of};
ghost use Rattle.outside_part.specs.Sifting.{is_plain, are_plain, entry_of};

use dom_base::Addr;
use pcep_subobjects::Hop;

fn bits_of(addr: Addr) -> u8
    ensures { result ≡ bits_of addr }
{
    match addr {
        Addr::V4(_) => 32,
        Addr::V6(_) => 128,
    }
}

// A strict hop to one address, or a strict path key.
fn is_plain(hop: &Hop) -> bool
    ensures { result ≡ is_plain hop.now }
{
    match *hop {
        Hop::Prefix {
            loose,
            addr,
            length,
        } => !loose && length == bits_of(addr),
        Hop::Key { loose, .. } => !loose,
        Hop::AsNumber { .. } | Hop::Other { .. } => false,
    }
}

fn all_plain(hops: &[Hop]) -> bool
    ensures { result ≡ list_all is_plain hops.now }
{
    hops.iter().all(|hop| is_plain(hop))
}

/// Whether there are few enough hops, and each is a strict hop to one address (RFC 3209, section
/// 4.3.3.1) or a strict path key (RFC 5520, section 3.1).
pub(crate) fn are_plain(hops: &[Hop], most: usize) -> bool
    ensures { result ≡ are_plain most hops.now }
{
    hops.len() <= most && all_plain(hops)
}

/// The address to which the first hop leads; None where it is no prefix, or there is none.
pub(crate) fn entry_of(hops: &[Hop]) -> Option<Addr>
    ensures { result ≡ entry_of hops.now }
{
    match hops {
        [Hop::Prefix { addr, .. }, ..] => Some(*addr),
        _ => None,
    }
}
