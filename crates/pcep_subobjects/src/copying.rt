//! Copies of hops.
ghost use Rattle.std.specs.Prelude.{◌≡◌, ◌++◌, IfOk, OnOk};

use crate::hop::Hop;
use dom_base::{List, NoMemory};
use std::alloc::Global;

/// An equal hop in memory of its own.
pub(crate) fn copy_hop(alloc: Global, hop: &Hop) -> Result<Hop, NoMemory>
    ensures { IfOk result (λ copy. copy ≡ hop.now) }
{
    Ok(match *hop {
        Hop::Prefix {
            loose,
            addr,
            length,
        } => Hop::Prefix {
            loose,
            addr,
            length,
        },
        Hop::AsNumber { loose, number } => Hop::AsNumber { loose, number },
        Hop::Key { loose, key, pce } => Hop::Key { loose, key, pce },
        Hop::Other {
            loose,
            kind,
            ref body,
        } => Hop::Other {
            loose,
            kind,
            body: body.copy(alloc)?,
        },
    })
}

/// Appends copies of hops. On `NoMemory` some of them may stand there.
pub fn append_hops(alloc: Global, hops: &mut List<Hop>, more: &[Hop]) -> Result<(), NoMemory>
    ensures { OnOk result (hops.new ≡ hops.old ++ more.now) }
{
    for hop in more {
        hops.push(copy_hop(alloc, hop)?)?;
    }
    Ok(())
}

/// Equal hops in memory of their own.
pub fn copy_hops(alloc: Global, hops: &[Hop]) -> Result<List<Hop>, NoMemory>
    ensures { IfOk result (λ copies. copies ≡ hops.now) }
{
    let mut copies = List::from_vec(Vec::with_capacity(alloc, hops.len())?);
    append_hops(alloc, &mut copies, hops)?;
    Ok(copies)
}
