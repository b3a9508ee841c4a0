//! An element answers a job that was solved.
ghost use Rattle.std.specs.Prelude.{◌≡◌, ◌≢◌, ◌≤◌, ◌+◌, length, None, Some, IfErr, IfOk, IfSome, MatchOption, OnErr};
ghost use Rattle.path_keys.specs.Keys.{live_at, live_most};
ghost use Rattle.pce_common.specs.Refusals.{IsWhyNot};
ghost use Rattle.pce_element.specs.Committing.{AnswersFor, IsOwnJob, committed};
ghost use Rattle.pce_element.specs.Jobs.{job_at};
ghost use Rattle.pce_element.specs.Seen.{SameButRoom};

use crate::answering::{Answered, Found};
use crate::element::Element;
use crate::plan::Plan;
use crate::topologies::Topologies;
use border_costs::Solved;
use dom_base::{Addr, List, NoMemory, Tick};
use pce_common::Refusal;
use pce_common::model::Refused;

impl Element<Topologies> {
    // The answer to a solved job, where its request can be solved.
    fn answer_for(
        &self,
        solved: &Solved,
        now: Tick,
    ) -> Result<Option<Answered<List<Addr>>>, NoMemory>
        requires { IsOwnJob self.now solved.now }
        ensures answers { IfOk result (λ a. MatchOption a (committed self.now solved.now now.0 ≡ None) (AnswersFor self.now solved.now now.0)) }
        ensures few { IfOk result (λ a. IfSome a (λ a. length (live_at self.now.losing.element.keys now.0) + length a.segments ≤ live_most)) }
        ensures err { OnErr result (job_at self.now solved.now.ask.number ≢ None) }
    {
        let number = solved.number();
        let _at = solved.at();
        let Some(row) = self.requests().found(number) else {
            return Ok(None);
        };
        let Some(down) = row.item.ready() else {
            return Ok(None);
        };
        let found = Found {
            source_known: solved.source_known(),
            target_known: solved.target_known(),
            best: solved.best(),
        };
        Ok(Some(self.answer_to(&row, down.as_slice(), &found, now)?))
    }

    // The plan of an answer.
    fn plan_commit(
        &mut self,
        solved: Solved,
        now: Tick,
        answered: Answered<List<Addr>>,
    ) -> Result<Plan<Topologies>, Refusal<Solved>>
        requires clock { self.old.losing.element.keys.clock ≤ now.0 }
        requires answers { AnswersFor self.old solved now.0 answered }
        requires few { length (live_at self.old.losing.element.keys now.0) + length answered.segments ≤ live_most }
        ensures same { SameButRoom self.old self.new }
        ensures from { IfOk result (λ plan. plan.from ≡ self.new) }
        ensures taken { IfOk result (λ plan. committed self.old solved now.0 ≡ Some plan.taken) }
        ensures clock { IfOk result (λ plan. plan.taken.element.keys.clock ≤ now.0) }
        ensures solved { IfOk result (λ plan. plan.solved ≡ Some solved) }
        ensures why { IfErr result (λ refusal. refusal.why ≡ Refused.NoMemory) }
        ensures back { IfErr result (λ refusal. refusal.back ≡ solved) }
    {
        match self.plan_answer(solved.number(), solved, now, answered) {
            Ok(plan) => Ok(plan),
            Err(back) => Err(Refusal {
                why: Refused::NoMemory,
                back,
            }),
        }
    }

    /// Plans the answer to a job of this element that was solved, and makes the room for it. The plan has
    /// exactly one message. `now` never falls from call to call.
    pub fn commit(&mut self, solved: Solved, now: Tick) -> Result<Plan<Topologies>, Refusal<Solved>>
        requires clock { self.old.losing.element.keys.clock ≤ now.0 }
        requires own { IsOwnJob self.old solved }
        ensures same { SameButRoom self.old self.new }
        ensures from { IfOk result (λ plan. plan.from ≡ self.new) }
        ensures taken { IfOk result (λ plan. committed self.old solved now.0 ≡ Some plan.taken) }
        ensures one { IfOk result (λ plan. length plan.taken.outputs ≡ 1) }
        ensures clock { IfOk result (λ plan. plan.taken.element.keys.clock ≤ now.0) }
        ensures solved { IfOk result (λ plan. plan.solved ≡ Some solved) }
        ensures why { IfErr result (λ refusal. IsWhyNot (job_at self.old solved.ask.number) refusal.why) }
        ensures back { IfErr result (λ refusal. refusal.back ≡ solved) }
    {
        match self.answer_for(&solved, now) {
            Ok(Some(answered)) => self.plan_commit(solved, now, answered),
            Ok(None) => Err(Refusal {
                why: Refused::NoSuchJob,
                back: solved,
            }),
            Err(NoMemory) => Err(Refusal {
                why: Refused::NoMemory,
                back: solved,
            }),
        }
    }
}
