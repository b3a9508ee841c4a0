//! The branches of a reply (RFC 5441, section 5).
ghost use Rattle.std.specs.Prelude.{◌≡◌, IfOk};
ghost use Rattle.pce_common.specs.plant_model.Branches.{branches_in};
ghost use Rattle.pce_common.specs.plant_model.RealWire.{wire};

use dom_base::{List, Metric, NoMemory};
use pce_common::branch_of;
use pcep_messages::Path;
use std::alloc::Global;
use std::collections::VecDeque;
use vspt_tree::Branch;

/// The branches of a reply's paths.
pub(crate) fn branches_in(
    alloc: Global,
    metric: Metric,
    paths: List<Path>,
) -> Result<List<Branch>, NoMemory>
    ensures { IfOk result (λ branches. branches ≡ branches_in wire metric paths) }
{
    let mut left = VecDeque::from_vec(paths.into_vec());
    let mut branches = List::new(alloc);
    while let Some(path) = left.pop_front() {
        if let Some(branch) = branch_of(metric, path) {
            branches.push(branch)?;
        }
    }
    Ok(branches)
}
