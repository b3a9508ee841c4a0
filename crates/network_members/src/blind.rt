//! Members without topologies answer requests by rows that come from outside.
ghost use Rattle.std.specs.Prelude.{◌≡◌, ◌≤◌, Some, IfErr, IfOk, IfSome, MatchOption, false, true};
ghost use Rattle.plant_text.specs.Names.{same_as, parent_as};
ghost use Rattle.plant_text.specs.Settings.{is_element};
ghost use Rattle.pce_common.specs.plant_model.Blind.{AreGivenRows};
ghost use Rattle.pce_common.specs.plant_model.BorderGraph.{SolvesBorder};
ghost use Rattle.pce_common.specs.plant_model.Events.{has_jobs};
ghost use Rattle.pce_common.specs.Membership.{KeysBefore};
ghost use Rattle.pce_element.specs.Blind.{HasNoJob, IsSolvedBy};
ghost use Rattle.pce_parent.specs.Seen.{job_at};
ghost use Rattle.network_members.specs.Becoming.{Becomes, HasElement, unchanged};
ghost use Rattle.network_members.specs.Blind.{IsUnsolved, Solves, nothing_first, told_below};
ghost use Rattle.network_members.specs.Elements.{at_domain};
ghost use Rattle.network_members.specs.Tiers.{members_of};

use crate::elements::Elements;
use crate::hierarchy::{Hierarchy, is_parent};
use crate::plan::MemberPlan;
use dom_base::{As, BorderRow, NoMemory, Tick};
use pce_common::model::Refused;
use pce_element::{Blind, Plan};
use pce_parent::{BorderSolved, Parent, solve_border};
use std::alloc::Global;

// What solves the job of a request of the parent.
fn solve_job(alloc: Global, parent: &Parent, number: u64) -> Result<BorderSolved, Refused>
    ensures job { IfOk result (λ solved. job_at parent.now number ≡ Some solved.job) }
    ensures answer { IfOk result (λ solved. SolvesBorder solved.job solved.answer) }
    ensures why { IfErr result (IsUnsolved (job_at parent.now number)) }
{
    let Ok(found) = parent.job(number) else {
        return Err(Refused::NoMemory);
    };
    let Some(job) = found else {
        return Err(Refused::NoSuchJob);
    };
    let Ok(solved) = solve_border(alloc, &job) else {
        return Err(Refused::NoMemory);
    };
    Ok(solved)
}

// The result of an element's answer, as that of a member.
fn told_below(
    at: As,
    answer: Result<Option<Plan<Blind>>, NoMemory>,
) -> Result<MemberPlan<Blind>, Refused>
    ensures { result ≡ told_below at answer }
{
    match answer {
        Ok(Some(plan)) => Ok(MemberPlan::Element { at, plan }),
        Ok(None) => Err(Refused::NoSuchJob),
        Err(NoMemory) => Err(Refused::NoMemory),
    }
}

impl Elements<Blind> {
    /// Plans the answer to a request of the element of a domain by the rows of its border table.
    pub fn solve(
        &mut self,
        at: As,
        number: u64,
        rows: &[BorderRow],
        now: Tick,
    ) -> Result<Option<Plan<Blind>>, NoMemory>
        requires there { HasElement at self.old }
        requires clock { IfSome (at_domain at self.old) (λ e. e.losing.element.keys.clock ≤ now.0) }
        requires rows { AreGivenRows rows.now }
        ensures same { Becomes at unchanged self.old self.new }
        ensures from { IfOk result (λ plan. IfSome plan (λ plan. at_domain at self.new ≡ Some plan.from)) }
        ensures taken { IfOk result (λ plan. IfSome (at_domain at self.old) (λ e. MatchOption plan (HasNoJob e number) (λ plan. IsSolvedBy e number rows.now now.0 plan.taken))) }
    {
        let i = self.place(at);
        self.items[i].solve(number, rows, now)
    }
}

impl Hierarchy<Blind> {
    fn solve_below(
        &mut self,
        at: As,
        number: u64,
        rows: &[BorderRow],
        now: Tick,
    ) -> Result<MemberPlan<Blind>, Refused>
        requires below { same_as at parent_as ≡ false }
        requires there { is_element self.old.network at ≡ true }
        requires clock { KeysBefore now.0 self.old.network (members_of nothing_first self.old) }
        requires rows { AreGivenRows rows.now }
        ensures { Solves at number rows.now now.0 self.old result self.new }
    {
        told_below(at, self.elements.solve(at, number, rows, now))
    }

    fn solve_above(
        &mut self,
        alloc: Global,
        at: As,
        number: u64,
        _rows: &[BorderRow],
        now: Tick,
    ) -> Result<MemberPlan<Blind>, Refused>
        requires above { same_as at parent_as ≡ true }
        requires there { has_jobs self.old.network at ≡ true }
        ensures { Solves at number _rows.now now.0 self.old result self.new }
    {
        let solved = solve_job(alloc, &self.parent, number)?;
        let plan = match self.parent.commit(solved, now) {
            Ok(plan) => plan,
            Err(refusal) => return Err(refusal.why),
        };
        Ok(MemberPlan::Parent(plan))
    }

    /// Plans the answer to a request of a member, which changes nothing yet: an element answers by the rows of
    /// its border table, the parent by the least walk in its border graph.
    pub fn solve(
        &mut self,
        alloc: Global,
        at: As,
        number: u64,
        rows: &[BorderRow],
        now: Tick,
    ) -> Result<MemberPlan<Blind>, Refused>
        requires clock { KeysBefore now.0 self.old.network (members_of nothing_first self.old) }
        requires rows { AreGivenRows rows.now }
        ensures { Solves at number rows.now now.0 self.old result self.new }
    {
        if !self.has_jobs(at) {
            return Err(Refused::NoSuchPeer);
        }
        if is_parent(at) {
            self.solve_above(alloc, at, number, rows, now)
        } else {
            self.solve_below(at, number, rows, now)
        }
    }
}
