//! The branches of a domain over those of the next.
ghost use Rattle.std.specs.Prelude.{◌≡◌, ◌++◌, ◌∷◌, All, length, IfOk, IfSome, IsSomeAnd};
ghost use Rattle.pcep_subobjects.specs.Hops.{strict_hop};
ghost use Rattle.vspt_tree.specs.Branches.{HasBranchAt, IsFirstLeast, IsBranchOf, AreBranchesOf};

use crate::{Best, Branch};
use dom_base::{Addr, List, NoMemory};
use pcep_subobjects::{Hop, append_hops, copy_hops, strict_hop};
use std::alloc::Global;

fn first_least(down: &[Branch], node: Addr) -> Option<&Branch>
    requires { HasBranchAt down.now node }
    ensures { IsSomeAnd result (λ branch. IsFirstLeast down.now node branch.now) }
{
    down.iter()
        .filter(|branch| branch.entry == node)
        .min_by_key(|branch| branch.cost)
}

// Hops, the exit behind them, and the hops beyond it.
fn joined(alloc: Global, own: &[Hop], exit: Addr, beyond: &[Hop]) -> Result<List<Hop>, NoMemory>
    ensures { IfOk result (λ hops. hops ≡ own.now ++ strict_hop exit ∷ beyond.now) }
{
    let count = own.len().saturating_add(1).saturating_add(beyond.len());
    let mut hops = List::from_vec(Vec::with_capacity(alloc, count)?);
    append_hops(alloc, &mut hops, own)?;
    hops.push(strict_hop(exit))?;
    append_hops(alloc, &mut hops, beyond)?;
    Ok(hops)
}

fn branch_of(alloc: Global, row: &Best, own: &[Hop], down: &[Branch]) -> Result<Branch, NoMemory>
    requires { IfSome row.now.head (HasBranchAt down.now) }
    ensures { IfOk result (λ branch. IsBranchOf down.now row.now own.now branch) }
{
    let hops = match row.head {
        Some(head) => {
            let next = first_least(down, head).unwrap();
            joined(alloc, own, row.exit, next.hops.as_slice())?
        }
        None => copy_hops(alloc, own)?,
    };
    Ok(Branch {
        entry: row.entry,
        cost: row.cost,
        hops,
    })
}

/// The branches of a domain over those of the next (RFC 5441, section 4.2): one for each row, in
/// order, with the row's entry and cost. Its hops are the row's own part and, where the way goes on
/// beyond the domain, the exit as a strict hop and the hops of the branch that goes on from the node
/// there: of those that begin at it the first of least cost.
pub fn join(
    alloc: Global,
    best: &[Best],
    own: &[List<Hop>],
    down: &[Branch],
) -> Result<List<Branch>, NoMemory>
    requires one_part_each { length best.now ≡ length own.now }
    requires goes_on { All (λ row. IfSome row.head (HasBranchAt down.now)) best.now }
    ensures branches { IfOk result (AreBranchesOf down.now best.now own.now) }
{
    let mut branches = List::new(alloc);
    for (row, own) in best.iter().zip(own) {
        branches.push(branch_of(alloc, row, own.as_slice(), down)?)?;
    }
    Ok(branches)
}
