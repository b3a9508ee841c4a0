//! An element without topologies answers a job by the rows that are given for it.
ghost use Rattle.std.specs.Prelude.{◌≡◌, ◌≤◌, ◌+◌, All, length, IfOk, IfSome, MatchOption};
ghost use Rattle.path_keys.specs.Keys.{live_at, live_most};
ghost use Rattle.vspt_tree.specs.Branches.{HasBranchAt};
ghost use Rattle.pce_common.specs.plant_model.Blind.{AreGivenRows};
ghost use Rattle.pce_common.specs.plant_model.Element.{is_client};
ghost use Rattle.pce_element.specs.Blind.{AnswersBlindly, AreJoined, HasNoJob, IsSolvedBy};
ghost use Rattle.pce_element.specs.Seen.{SameButRoom};

use crate::accepted::Accepted;
use crate::answering::{Answered, Found};
use crate::blind::Blind;
use crate::element::Element;
use crate::jobs::target_along;
use crate::joining::join_rows;
use crate::plan::Plan;
use disclosure::Class;
use dom_base::{BorderRow, List, NoMemory, Tick};
use std::alloc::Global;
use vspt_tree::{Best, Branch};

fn is_client(class: Class) -> bool
    ensures { result ≡ is_client class }
{
    match class {
        Class::Client { .. } => true,
        Class::Neighbour(_) | Class::Parent => false,
    }
}

// What the rows of a request join to. A client's rows are not looked at, since no closed peer sees its answer.
fn best_of(
    alloc: Global,
    item: &Accepted<()>,
    rows: &[BorderRow],
    down: &[Branch],
) -> Result<List<Best>, NoMemory>
    requires { AreGivenRows rows.now }
    ensures joined { IfOk result (AreJoined item.now rows.now down.now) }
    ensures goes_on { IfOk result (All (λ row. IfSome row.head (HasBranchAt down.now))) }
{
    if is_client(item.class()) {
        return Ok(List::new(alloc));
    }
    let wanted = item.wanted();
    let target = target_along(item.sequence(), wanted.target);
    join_rows(alloc, wanted.query.cap, target, rows, down)
}

impl Element<Blind> {
    // The answer by given rows, where the request of the number can be solved.
    fn answer_by(
        &self,
        number: u64,
        rows: &[BorderRow],
        now: Tick,
    ) -> Result<Option<Answered<()>>, NoMemory>
        requires { AreGivenRows rows.now }
        ensures answers { IfOk result (λ a. MatchOption a (HasNoJob self.now number) (AnswersBlindly self.now number rows.now now.0)) }
        ensures few { IfOk result (λ a. IfSome a (λ a. length (live_at self.now.losing.element.keys now.0) + length a.segments ≤ live_most)) }
    {
        let Some(row) = self.requests().found(number) else {
            return Ok(None);
        };
        let Some(down) = row.item.ready() else {
            return Ok(None);
        };
        let down = down.as_slice();
        let best = best_of(self.alloc, row.item, rows, down)?;
        let found = Found {
            source_known: true,
            target_known: true,
            best: best.as_slice(),
        };
        Ok(Some(self.answer_to(&row, down, &found, now)?))
    }

    /// Plans the answer to the request of a number by the rows of its border table, and makes the room for
    /// it. A client's rows are not looked at, and it is answered that there is no path. None where the
    /// request can't be solved. `now` never falls from call to call.
    pub fn solve(
        &mut self,
        number: u64,
        rows: &[BorderRow],
        now: Tick,
    ) -> Result<Option<Plan<Blind>>, NoMemory>
        requires clock { self.old.losing.element.keys.clock ≤ now.0 }
        requires rows { AreGivenRows rows.now }
        ensures same { SameButRoom self.old self.new }
        ensures from { IfOk result (λ plan. IfSome plan (λ plan. plan.from ≡ self.new)) }
        ensures taken { IfOk result (λ plan. MatchOption plan (HasNoJob self.old number) (λ plan. IsSolvedBy self.old number rows.now now.0 plan.taken)) }
        ensures clock { IfOk result (λ plan. IfSome plan (λ plan. plan.taken.element.keys.clock ≤ now.0)) }
    {
        let Some(answered) = self.answer_by(number, rows, now)? else {
            return Ok(None);
        };
        match self.plan_answer(number, (), now, answered) {
            Ok(plan) => Ok(Some(plan)),
            Err(()) => Err(NoMemory),
        }
    }
}
