//! An inner link that begins, and one that breaks.
ghost use Rattle.std.specs.Prelude.{◌≡◌, ◌≤◌, true, false, []};
ghost use Rattle.dom_base.specs.declared.names.Peer.TheVariants.{Inner};
ghost use Rattle.dom_base.specs.declared.names.As.{As};
ghost use Rattle.plant_text.specs.Names.{same_as};
ghost use Rattle.plant_text.specs.Settings.{adjacency};
ghost use Rattle.pce_common.specs.plant_model.RealWire.{wire};
ghost use Rattle.pce_common.specs.plant_model.Deeds as deeds;
ghost use Rattle.network_links.specs.Carried.{flow_of};
ghost use Rattle.pce_common.specs.Membership.{is_member, fallen, lost_at};
ghost use Rattle.network_events.specs.Standing.{Goes, here};
ghost use Rattle.network_events.specs.Breaking.{RoomToBreak};
ghost use Rattle.network_events.specs.Acting.{RoomToBreakAt};

use crate::deeds::fall;
use dom_base::{As, Peer};
use network_links::Traffic;
use pce_common::Members;

// The lower end of a link, and the upper.
fn adjacency_between(a: As, b: As) -> (As, As)
    ensures lower { result.0 ≡ (adjacency a b).lower }
    ensures upper { result.1 ≡ (adjacency a b).upper }
{
    if b.0 < a.0 { (b, a) } else { (a, b) }
}

// A link breaks: both ends go down, the lower first, both queues are emptied, and both sessions are
// begun anew.
fn break_adjacency<M: Members>(members: &mut M, traffic: &mut Traffic, lower: As, upper: As)
    requires lower { is_member (M.stands members.old).network lower ≡ true }
    requires upper { is_member (M.stands members.old).network upper ≡ true }
    requires apart { same_as lower upper ≡ false }
    requires none { (a : As) → (M.stands members.old).lost a ≡ [] }
    requires room { RoomToBreak lower upper (lost_at lower (Inner upper) (M.stands members.old).seen) (lost_at upper (Inner lower) (fallen lower (Inner upper) (M.stands members.old).seen)) (flow_of traffic.old) }
    ensures { Goes (λ n. deeds.break_adjacency M.Pin M.Key wire n M.show (record { lower = lower; upper = upper })) (here (M.stands members.old) (flow_of traffic.old)) (here (M.stands members.new) (flow_of traffic.new)) }
{
    let sid = traffic.next_sid(lower, upper);
    fall(members, traffic, lower, Peer::Inner(upper));
    fall(members, traffic, upper, Peer::Inner(lower));
    traffic.clear(lower, upper);
    traffic.begin_end(lower, upper, sid);
    traffic.begin_end(upper, lower, sid);
}

/// The link between two members breaks.
pub(crate) fn break_between<M: Members>(members: &mut M, traffic: &mut Traffic, a: As, b: As)
    requires here { is_member (M.stands members.old).network a ≡ true }
    requires there { is_member (M.stands members.old).network b ≡ true }
    requires apart { same_as a b ≡ false }
    requires none { (d : As) → (M.stands members.old).lost d ≡ [] }
    requires room { RoomToBreakAt b (Inner a) (M.stands members.old).seen (flow_of traffic.old) }
    ensures { Goes (λ n. deeds.break_adjacency M.Pin M.Key wire n M.show (adjacency a b)) (here (M.stands members.old) (flow_of traffic.old)) (here (M.stands members.new) (flow_of traffic.new)) }
{
    let (lower, upper) = adjacency_between(a, b);
    break_adjacency(members, traffic, lower, upper);
}
