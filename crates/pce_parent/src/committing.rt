//! A solved job is answered.
ghost use Rattle.std.specs.Prelude.{◌≡◌, None, Some, IfOk, IfErr, MatchOption};
ghost use Rattle.pce_common.specs.Refusals.{IsWhyNot};
ghost use Rattle.pce_parent.specs.Commits.{IsReadyRow, answer_of, outputs_for};
ghost use Rattle.pce_parent.specs.Pendings.{row_of};
ghost use Rattle.pce_parent.specs.Seen.{committed, job_at};

use crate::change::{Change, Draft};
use crate::parent::Parent;
use crate::pending::Row;
use crate::plan::BorderPlan;
use crate::solved::BorderSolved;
use dom_base::{List, Metric, NoMemory, Tick, word_of_cost};
use pce_common::model::{Output, Outputs, Refused};
use pce_common::{Refusal, Solvable, no_path, one, reply_message};
use pcep_messages::{Answer, Path, type_of_metric};
use pcep_subobjects::append_hops;
use std::alloc::Global;

// The path that was found, or that there is none.
fn answer_of(alloc: Global, metric: Metric, solved: &BorderSolved) -> Result<Answer, NoMemory>
    ensures { IfOk result (λ answer. answer ≡ answer_of metric solved.now.answer) }
{
    let Some((cost, found)) = solved.answer() else {
        return Ok(no_path(true, true));
    };
    let mut hops = List::new(alloc);
    append_hops(alloc, &mut hops, found)?;
    let path = Path {
        hops,
        metric: Some((type_of_metric(metric), word_of_cost(cost))),
    };
    Ok(Answer::Paths(one(alloc, path)?))
}

fn outputs_of(alloc: Global, row: Row<'_>, solved: &BorderSolved) -> Result<Outputs, NoMemory>
    ensures { IfOk result (λ outputs. outputs ≡ outputs_for (row_of row.entry) solved.now.answer) }
{
    let answer = answer_of(alloc, row.item.wanted().query.metric, solved)?;
    let message = reply_message(alloc, row.item.flags(), row.key.id, answer)?;
    let to = row.key.peer;
    one(alloc, Output { to, message })
}

impl Parent {
    // The request of a number, where it can be solved.
    fn ready_row(&self, number: u64) -> Option<Row<'_>>
        ensures { MatchOption result (job_at self.now number ≡ None) (IsReadyRow self.now number) }
    {
        let Some(item) = self.requests.get(number) else {
            return None;
        };
        let Some(key) = self.requests.key(number) else {
            unreachable!()
        };
        if !item.is_ready() {
            return None;
        }
        Some(Row { number, key, item })
    }

    /// Plans the answer to the request of a solved job. Of the parent nothing changes.
    pub fn commit(
        &mut self,
        solved: BorderSolved,
        _now: Tick,
    ) -> Result<BorderPlan, Refusal<BorderSolved>>
        ensures same { self.new ≡ self.old }
        ensures from { IfOk result (λ plan. plan.from ≡ self.old) }
        ensures given { IfOk result (λ plan. committed solved self.old.losing.parent ≡ Some plan.given) }
        ensures solved { IfOk result (λ plan. plan.solved ≡ Some solved) }
        ensures why { IfErr result (λ refusal. IsWhyNot (job_at self.old solved.job.number) refusal.why) }
        ensures back { IfErr result (λ refusal. refusal.back ≡ solved) }
    {
        let Some(row) = self.ready_row(solved.number()) else {
            return Err(Refusal {
                why: Refused::NoSuchJob,
                back: solved,
            });
        };
        let Ok(outputs) = outputs_of(self.alloc, row, &solved) else {
            return Err(Refusal {
                why: Refused::NoMemory,
                back: solved,
            });
        };
        let change = Change::Solves(solved);
        Ok(BorderPlan::of(self, Draft { change, outputs }))
    }
}
