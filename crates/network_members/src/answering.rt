//! A solved job is answered.
ghost use Rattle.std.specs.Prelude.{◌≡◌, ◌≤◌, length, Some, IfErr, IfOk, IfSome, false, true};
ghost use Rattle.plant_text.specs.Names.{same_as, parent_as};
ghost use Rattle.plant_text.specs.Settings.{is_element};
ghost use Rattle.pce_common.specs.plant_model.Events.{has_jobs};
ghost use Rattle.pce_common.specs.plant_model.Plant.{first_pin};
ghost use Rattle.pce_common.specs.Membership.{KeysBefore};
ghost use Rattle.pce_element.specs.Committing.{IsOwnJob, committed};
ghost use Rattle.network_members.specs.Answering.{Commits, IsBack, IsOwnDone, border_job};
ghost use Rattle.network_members.specs.Becoming.{Becomes, HasElement, unchanged};
ghost use Rattle.network_members.specs.Elements.{at_domain};
ghost use Rattle.network_members.specs.Tiers.{members_of};

use crate::elements::Elements;
use crate::hierarchy::Hierarchy;
use crate::plan::MemberPlan;
use border_costs::Solved;
use dom_base::{As, Tick};
use pce_common::model::Refused;
use pce_element::{Plan, Refusal, Topologies};
use pce_parent::{BorderSolved, Done};

impl Elements<Topologies> {
    /// Plans the answer to a job of the element of a domain that was solved.
    pub fn commit(
        &mut self,
        at: As,
        solved: Solved,
        now: Tick,
    ) -> Result<Plan<Topologies>, Refusal<Solved>>
        requires there { HasElement at self.old }
        requires clock { IfSome (at_domain at self.old) (λ e. e.losing.element.keys.clock ≤ now.0) }
        requires own { IfSome (at_domain at self.old) (λ e. IsOwnJob e solved) }
        ensures same { Becomes at unchanged self.old self.new }
        ensures from { IfOk result (λ plan. at_domain at self.new ≡ Some plan.from) }
        ensures taken { IfOk result (λ plan. IfSome (at_domain at self.old) (λ e. committed e solved now.0 ≡ Some plan.taken)) }
        ensures one { IfOk result (λ plan. length plan.taken.outputs ≡ 1) }
        ensures solved { IfOk result (λ plan. plan.solved ≡ Some solved) }
        ensures back { IfErr result (λ why. IfSome (at_domain at self.old) (λ e. IsBack e solved why)) }
    {
        let i = self.place(at);
        self.items[i].commit(solved, now)
    }
}

impl Hierarchy<Topologies> {
    fn commit_below(
        &mut self,
        at: As,
        solved: Solved,
        now: Tick,
    ) -> Result<MemberPlan<Topologies>, Refusal<Done>>
        requires below { same_as at parent_as ≡ false }
        requires there { is_element self.old.network at ≡ true }
        requires clock { KeysBefore now.0 self.old.network (members_of first_pin self.old) }
        requires own { IfSome (at_domain at self.old.elements) (λ e. IsOwnJob e solved) }
        ensures { Commits at now.0 (Done.Domain solved) self.old result self.new }
    {
        let _at = solved.at();
        let plan = match self.elements.commit(at, solved, now) {
            Ok(plan) => plan,
            Err(refusal) => {
                return Err(Refusal {
                    why: refusal.why,
                    back: Done::Domain(refusal.back),
                });
            }
        };
        Ok(MemberPlan::Element { at, plan })
    }

    fn commit_above(
        &mut self,
        at: As,
        solved: BorderSolved,
        now: Tick,
    ) -> Result<MemberPlan<Topologies>, Refusal<Done>>
        requires above { same_as at parent_as ≡ true }
        requires there { has_jobs self.old.network at ≡ true }
        requires own { IfSome (border_job self.old solved.job.number) (λ j. solved.job ≡ j) }
        ensures { Commits at now.0 (Done.Border solved) self.old result self.new }
    {
        let _number = solved.number();
        let plan = match self.parent.commit(solved, now) {
            Ok(plan) => plan,
            Err(refusal) => {
                return Err(Refusal {
                    why: refusal.why,
                    back: Done::Border(refusal.back),
                });
            }
        };
        Ok(MemberPlan::Parent(plan))
    }

    /// Plans the answer to a job of a member that was solved, which changes nothing yet.
    pub fn commit(
        &mut self,
        at: As,
        done: Done,
        now: Tick,
    ) -> Result<MemberPlan<Topologies>, Refusal<Done>>
        requires clock { KeysBefore now.0 self.old.network (members_of first_pin self.old) }
        requires own { IsOwnDone self.old at done }
        ensures { Commits at now.0 done self.old result self.new }
    {
        if !self.has_jobs(at) {
            return Err(Refusal {
                why: Refused::NoSuchPeer,
                back: done,
            });
        }
        match done {
            Done::Domain(solved) => self.commit_below(at, solved, now),
            Done::Border(solved) => self.commit_above(at, solved, now),
        }
    }
}
