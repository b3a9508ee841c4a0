//! A planned change of a member.
ghost use Rattle.std.specs.Prelude.{◌≡◌};
ghost use Rattle.network_members.specs.Answering.{back_of};

use dom_base::As;
use pce_element::{Plan, Topologies, World};
use pce_parent::{BorderPlan, Done};

/// A planned change of the element of a domain or of the parent, and the messages that are sent with it.
#[derive(Drop)]
pub enum MemberPlan<W: World> {
    Element { at: As, plan: Plan<W> },
    Parent(BorderPlan),
}

impl MemberPlan<Topologies> {
    /// Gives the plan up, and returns the solved job that it was planned for, if there is one; takes no memory.
    pub fn back(self) -> Option<Done>
        ensures { result ≡ back_of self }
    {
        match self {
            MemberPlan::Element { at: _at, plan } => plan.back().map(Done::Domain),
            MemberPlan::Parent(plan) => plan.back().map(Done::Border),
        }
    }
}
