//! The rows of a child's answer.
ghost use Rattle.std.specs.Prelude.{◌≡◌, IfOk};
ghost use Rattle.std.specs.Option.{option_to_list};
ghost use Rattle.pce_common.specs.plant_model.Branches.{branch_of, branches_in};
ghost use Rattle.pce_common.specs.plant_model.Parent.{rows_at};
ghost use Rattle.pce_common.specs.plant_model.RealWire.{wire};

use crate::wait::Wait;
use dom_base::{List, Metric, NoMemory};
use pce_common::branch_of;
use pce_common::model::ChildRow;
use pcep_messages::Path;
use std::alloc::Global;
use std::collections::VecDeque;

fn row_of(metric: Metric, wait: Wait, path: Path) -> Option<ChildRow>
    ensures { option_to_list result ≡ rows_at wait.child wait.target (branch_of wire metric path.hops path.metric) }
{
    let Some(branch) = branch_of(metric, path) else {
        return None;
    };
    Some(ChildRow {
        at: wait.child(),
        entry: branch.entry,
        target: wait.target(),
        cost: branch.cost,
        hops: branch.hops,
    })
}

/// The rows that the paths of an answer give to the request that waited so.
pub fn rows_of(
    alloc: Global,
    metric: Metric,
    wait: Wait,
    paths: List<Path>,
) -> Result<List<ChildRow>, NoMemory>
    ensures { IfOk result (λ rows. rows ≡ rows_at wait.child wait.target (branches_in wire metric paths)) }
{
    let mut rows = List::new(alloc);
    let mut left = VecDeque::from_vec(paths.into_vec());
    while let Some(path) = left.pop_front() {
        if let Some(row) = row_of(metric, wait, path) {
            rows.push(row)?;
        }
    }
    Ok(rows)
}
