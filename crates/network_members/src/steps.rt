//! One member goes on, and the others stay as they are.
ghost use Rattle.std.specs.Prelude.{◌≡◌, [], Some, false, true};
ghost use Rattle.std.specs.Bool.{OnTrue};
ghost use Rattle.plant_text.specs.Names.{same_as, parent_as};
ghost use Rattle.plant_text.specs.Settings.{is_element};
ghost use Rattle.pce_common.specs.plant_model.Names.{set_as};
ghost use Rattle.pce_common.specs.Membership.{fallen, lost_at, raised, with_element, with_parent, HandsOut};
ghost use Rattle.pce_element.specs.pce_common.Messages.{HasOnePart};
ghost use Rattle.network_members.specs.Elements.{at_domain};
ghost use Rattle.network_members.specs.Tiers.{Become, Takes, lost_in, members_of, planned_below};

use crate::hierarchy::Hierarchy;
use crate::plan::MemberPlan;
use dom_base::{As, NoMemory, Peer, Tick};
use network_links::class_of;
use pce_common::model::Lost;
use pce_element::{Plan, World};
use pce_parent::BorderPlan;
use pcep_messages::Message;

/// Whether a message has at most one request or reply.
pub(crate) fn has_one_part(message: &Message) -> bool
    ensures { OnTrue result (HasOnePart message.now) }
{
    match message {
        Message::PcReq(asks) => asks.len() <= 1,
        Message::PcRep(replies) => replies.len() <= 1,
        _other => true,
    }
}

// The plan of an element as that of a member.
fn planned_below<W: World>(
    at: As,
    plan: Result<Plan<W>, NoMemory>,
) -> Result<MemberPlan<W>, NoMemory>
    ensures { result ≡ planned_below at plan }
{
    match plan {
        Ok(plan) => Ok(MemberPlan::Element { at, plan }),
        Err(NoMemory) => Err(NoMemory),
    }
}

impl<W: World> Hierarchy<W> {
    pub(crate) fn take_below(
        &mut self,
        at: As,
        peer: Peer,
        message: Message,
        now: Tick,
    ) -> Result<MemberPlan<W>, NoMemory>
        requires below { same_as at parent_as ≡ false }
        requires there { is_element self.old.network at ≡ true }
        requires part { HasOnePart message }
        ensures { Takes W.first W.show at peer now.0 message self.old result self.new }
    {
        let class = class_of(self.network.parts(), peer);
        planned_below(at, self.elements.take(at, peer, class, message, now))
    }

    pub(crate) fn take_above(
        &mut self,
        at: As,
        peer: Peer,
        message: Message,
        now: Tick,
    ) -> Result<MemberPlan<W>, NoMemory>
        requires above { same_as at parent_as ≡ true }
        requires part { HasOnePart message }
        ensures { Takes W.first W.show at peer now.0 message self.old result self.new }
    {
        Ok(MemberPlan::Parent(self.parent.take(peer, message, now)?))
    }

    pub(crate) fn make_below(&mut self, at: As, plan: Plan<W>)
        requires below { same_as at parent_as ≡ false }
        requires from { at_domain at self.old.elements ≡ Some plan.from }
        ensures { Become W.first self.old (with_element at plan.taken.element (members_of W.first self.old)) (lost_in self.old) self.new }
    {
        self.elements.make(at, plan);
    }

    pub(crate) fn make_above(&mut self, plan: BorderPlan)
        requires { plan.from ≡ self.old.parent }
        ensures { Become W.first self.old (with_parent plan.given.parent (members_of W.first self.old)) (lost_in self.old) self.new }
    {
        self.parent.make(plan);
    }

    pub(crate) fn up_below(&mut self, at: As, peer: Peer)
        requires below { same_as at parent_as ≡ false }
        requires there { is_element self.old.network at ≡ true }
        ensures { Become W.first self.old (raised at peer (members_of W.first self.old)) (lost_in self.old) self.new }
    {
        self.elements.up(at, peer);
    }

    pub(crate) fn up_above(&mut self, at: As, peer: Peer)
        requires { same_as at parent_as ≡ true }
        ensures { Become W.first self.old (raised at peer (members_of W.first self.old)) (lost_in self.old) self.new }
    {
        self.parent.up(peer);
    }

    pub(crate) fn down_below(&mut self, at: As, peer: Peer)
        requires below { same_as at parent_as ≡ false }
        requires there { is_element self.old.network at ≡ true }
        requires none { lost_in self.old at ≡ [] }
        ensures { Become W.first self.old (fallen at peer (members_of W.first self.old)) (set_as at (lost_at at peer (members_of W.first self.old)) (lost_in self.old)) self.new }
    {
        self.elements.down(at, peer);
    }

    pub(crate) fn down_above(&mut self, at: As, peer: Peer)
        requires above { same_as at parent_as ≡ true }
        requires none { lost_in self.old at ≡ [] }
        ensures { Become W.first self.old (fallen at peer (members_of W.first self.old)) (set_as at (lost_at at peer (members_of W.first self.old)) (lost_in self.old)) self.new }
    {
        self.parent.down(peer);
    }

    pub(crate) fn next_lost_below(&mut self, at: As) -> Option<Lost>
        requires below { same_as at parent_as ≡ false }
        requires there { is_element self.old.network at ≡ true }
        ensures rest { Become W.first self.old (members_of W.first self.old) (lost_in self.new) self.new }
        ensures lost { HandsOut at (lost_in self.old) result (lost_in self.new) }
    {
        self.elements.next_lost(at)
    }

    pub(crate) fn next_lost_above(&mut self, at: As) -> Option<Lost>
        requires { same_as at parent_as ≡ true }
        ensures rest { Become W.first self.old (members_of W.first self.old) (lost_in self.new) self.new }
        ensures lost { HandsOut at (lost_in self.old) result (lost_in self.new) }
    {
        self.parent.next_lost()
    }
}
