//! The hops that stand for a segment.
ghost use Rattle.std.specs.Prelude.{◌≡◌, IfOk};
ghost use Rattle.disclosure.specs.Shown.{open_of, closed_of};

use dom_base::{Addr, List, NoMemory};
use pcep_subobjects::{Hop, strict_hop};
use std::alloc::{AllocError, Global};

fn each_hop(alloc: Global, segment: &[Addr]) -> Result<Vec<Hop>, AllocError>
    ensures { IfOk result (λ v. v.items ≡ open_of segment.now) }
{
    segment.iter().map(|addr| strict_hop(*addr)).collect(alloc)
}

/// The hops of a segment that a client is shown: one for each address.
pub fn open_hops(alloc: Global, segment: &[Addr]) -> Result<List<Hop>, NoMemory>
    ensures { IfOk result (λ hops. hops ≡ open_of segment.now) }
{
    Ok(List::from_vec(each_hop(alloc, segment)?))
}

/// The hops of a segment that a closed peer is shown (RFC 5520, section 2.1): the entry, one key for
/// all that lies behind it in this domain, even where nothing does, and then `end`: where the path
/// enters the next domain, or its destination.
pub fn closed_hops(
    alloc: Global,
    entry: Addr,
    key: u16,
    pce: Addr,
    end: Option<Addr>,
) -> Result<List<Hop>, NoMemory>
    ensures { IfOk result (λ hops. hops ≡ closed_of entry key pce end) }
{
    let mut hops = List::new(alloc);
    hops.push(strict_hop(entry))?;
    let hidden = Hop::Key {
        loose: false,
        key,
        pce,
    };
    hops.push(hidden)?;
    if let Some(addr) = end {
        hops.push(strict_hop(addr))?;
    }
    Ok(hops)
}
