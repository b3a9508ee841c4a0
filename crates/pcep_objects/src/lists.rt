//! The subobjects in a body.
ghost use Rattle.std.specs.Prelude.{◌≡◌, is_ok};
ghost use Rattle.pcep_objects.specs.Objects.{GivesParts};
ghost use Rattle.pcep_subobjects.specs.Hops.{hops_of};

use crate::object::ObjectFault;
use dom_base::List;
use pcep_subobjects::{Hop, HopFault, check_hops, read_hops};
use std::alloc::Global;

/// The hops that a body is.
pub(crate) fn hops(alloc: Global, content: &[u8]) -> Result<List<Hop>, ObjectFault>
    ensures { GivesParts result (hops_of content.now) }
{
    match read_hops(alloc, content) {
        Ok(hops) => Ok(hops),
        Err(HopFault::NoMemory) => Err(ObjectFault::NoMemory),
        Err(_) => Err(ObjectFault::BadBody),
    }
}

/// Whether a body is hops; takes no memory.
pub(crate) fn are_hops(content: &[u8]) -> bool
    ensures { result ≡ is_ok (hops_of content.now) }
{
    check_hops(content).is_ok()
}
