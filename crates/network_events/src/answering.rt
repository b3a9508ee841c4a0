//! A member answers a pending request. All memory is taken before anything changes.
ghost use Rattle.std.specs.Prelude.{◌≡◌, true, IfErr, OnErr, OnOk};
ghost use Rattle.network_links.specs.Carried.{flow_of};
ghost use Rattle.pce_common.specs.Membership.{is_member};
ghost use Rattle.network_events.specs.Answering.{IsAnswer, Sends};
ghost use Rattle.network_events.specs.Giving.{OnlyGrows};
ghost use Rattle.network_events.specs.Moving.{IsKept};
ghost use Rattle.network_events.specs.Standing.{here};

use crate::giving::{perform, prepare_plan};
use dom_base::As;
use network_links::Traffic;
use pce_common::Members;
use std::alloc::Global;

/// Makes a plan that answers a pending request, and puts its message into the queue to the asker. Without
/// memory nothing changes but room, and the plan comes back.
pub fn answer<M: Members>(
    alloc: Global,
    members: &mut M,
    traffic: &mut Traffic,
    at: As,
    plan: M::Plan,
) -> Result<(), M::Plan>
    requires member { is_member (M.stands members.old).network at ≡ true }
    requires fits { M.fits members.old plan }
    requires answers { IsAnswer (M.stands members.old).network at (M.sends plan) (M.stands members.old).seen (M.next members.old plan) }
    requires kept { IsKept (here (M.stands members.old) (flow_of traffic.old)) }
    ensures kept { IsKept (here (M.stands members.new) (flow_of traffic.new)) }
    ensures next { OnOk result (M.stands members.new ≡ record (M.stands members.old) { seen = M.next members.old plan }) }
    ensures sends { OnOk result (Sends (M.stands members.old).network M.show at (M.sends plan) (M.stands members.new).seen (flow_of traffic.old) (flow_of traffic.new)) }
    ensures back { IfErr result (λ back. back ≡ plan) }
    ensures same { OnErr result (M.stands members.new ≡ M.stands members.old) }
    ensures grows { OnErr result (OnlyGrows (flow_of traffic.old) (flow_of traffic.new)) }
{
    match prepare_plan(alloc, members, traffic, at, plan) {
        Ok(prepared) => {
            traffic.clear_said();
            perform(members, traffic, prepared);
            Ok(())
        }
        Err(plan) => Err(plan),
    }
}
