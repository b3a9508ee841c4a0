//! The actions of a session of a member with a peer, outside or inside, where it passes nothing on.
ghost use Rattle.std.specs.Prelude.{◌≡◌, true, false, [], ◌∷◌, length, Some, MatchOption};
ghost use Rattle.dom_base.specs.declared.names.As.{As};
ghost use Rattle.pcep_session.specs.declared.session.Input.{Input};
ghost use Rattle.pcep_session.specs.declared.state.State.{State};
ghost use Rattle.pcep_session.specs.Listed.{listed};
ghost use Rattle.pcep_session.specs.Table.{turn_of};
ghost use Rattle.plant_queues.specs.Messages.{Covers};
ghost use Rattle.pce_common.specs.plant_model.Deeds as deeds;
ghost use Rattle.network_links.specs.Ends.{own_bytes};
ghost use Rattle.network_links.specs.Flow.{MaySet, room_at, session_at};
ghost use Rattle.network_links.specs.Carried.{flow_of};
ghost use Rattle.pce_common.specs.Membership.{is_member, lost_at};
ghost use Rattle.network_events.specs.Standing.{Goes, here};
ghost use Rattle.network_events.specs.Telling.{RoomToTell};
ghost use Rattle.network_events.specs.Peers.{IsAtEnd, act_at, acts_at, break_at, breaks_by, input_at};
ghost use Rattle.network_events.specs.Acting.{Fits, FitsInput, FitsTurn, LeavesOff, RoomFor, RoomToBreakAt, Spent};

use crate::deeds::{fall, rise, say};
use crate::links::break_between;
use dom_base::{As, Peer};
use network_links::{Traffic, any_fall};
use pce_common::Members;
use pcep_session::{Action, Actions, Input, Own, Reason, Session};

/// A message of the session's own is said, for which there is room, or left out at a tick.
pub(crate) fn say_own<M: Members>(
    _members: &M,
    traffic: &mut Traffic,
    at: As,
    to: Peer,
    ticks: bool,
    own: Own,
)
    requires there { Covers (room_at at to (flow_of traffic.old)) 1 (length (own_bytes own)) }
    requires said { Covers (flow_of traffic.old).room.said 1 (length (own_bytes own)) }
    ensures goes { Goes (λ n. act_at M.Pin M.Key n M.show at to ticks (Action.Send own)) (here (M.stands _members.now) (flow_of traffic.old)) (here (M.stands _members.now) (flow_of traffic.new)) }
    ensures spent { Spent at to (own_bytes own ∷ []) (flow_of traffic.old) (flow_of traffic.new) }
{
    if traffic.leaves_out(at, to, ticks, &own) {
        return;
    }
    say(traffic, at, to, own);
}

/// The session goes down. What has come from an outside peer is forgotten; a link breaks, which `step` does.
pub(crate) fn go_down<M: Members>(
    members: &mut M,
    traffic: &mut Traffic,
    at: As,
    to: Peer,
    _ticks: bool,
    _why: Reason,
)
    requires member { is_member (M.stands members.old).network at ≡ true }
    requires none { (a : As) → (M.stands members.old).lost a ≡ [] }
    requires room { RoomToTell at (lost_at at to (M.stands members.old).seen) (flow_of traffic.old) }
    ensures { Goes (λ n. act_at M.Pin M.Key n M.show at to _ticks (Action.Down _why)) (here (M.stands members.old) (flow_of traffic.old)) (here (M.stands members.new) (flow_of traffic.new)) }
{
    match to {
        Peer::Outside(peer) => {
            traffic.empty_inbox(peer);
            fall(members, traffic, at, to);
        }
        Peer::Inner(_) => {}
    }
}

// One action of the session, for which there is room. It passes nothing on.
fn act<M: Members>(
    members: &mut M,
    traffic: &mut Traffic,
    at: As,
    to: Peer,
    ticks: bool,
    action: Action,
)
    requires member { is_member (M.stands members.old).network at ≡ true }
    requires none { (a : As) → (M.stands members.old).lost a ≡ [] }
    requires room { RoomFor at to action (M.stands members.old).seen (flow_of traffic.old) }
    ensures leaves { LeavesOff at to action (M.stands members.old).seen (flow_of traffic.old) (M.stands members.new).seen (flow_of traffic.new) }
    ensures goes { Goes (λ n. act_at M.Pin M.Key n M.show at to ticks action) (here (M.stands members.old) (flow_of traffic.old)) (here (M.stands members.new) (flow_of traffic.new)) }
{
    match action {
        Action::Send(own) => say_own(members, traffic, at, to, ticks, own),
        Action::Up => rise(members, traffic, at, to),
        Action::Down(why) => go_down(members, traffic, at, to, ticks, why),
        Action::Pass(_) => {}
    }
}

// The first action, and those behind it.
fn split(actions: Actions) -> Option<(Action, Actions)>
    ensures { MatchOption result (listed actions ≡ []) (λ x. listed actions ≡ x.0 ∷ listed x.1) }
{
    let Actions {
        first,
        second,
        third,
    } = actions;
    match first {
        Some(action) => Some((
            action,
            Actions {
                first: second,
                second: third,
                third: None,
            },
        )),
        None => None,
    }
}

/// The actions of the session, none of which passes anything on.
pub(crate) fn acts<M: Members>(
    members: &mut M,
    traffic: &mut Traffic,
    at: As,
    to: Peer,
    ticks: bool,
    actions: Actions,
)
    requires member { is_member (M.stands members.old).network at ≡ true }
    requires none { (a : As) → (M.stands members.old).lost a ≡ [] }
    requires fits { Fits at to (listed actions) (M.stands members.old).seen (flow_of traffic.old) }
    ensures { Goes (λ n. acts_at M.Pin M.Key n M.show at to ticks (listed actions)) (here (M.stands members.old) (flow_of traffic.old)) (here (M.stands members.new) (flow_of traffic.new)) }
{
    let Some((action, rest)) = split(actions) else {
        return;
    };
    act(members, traffic, at, to, ticks, action);
    acts(members, traffic, at, to, ticks, rest);
}

// Whether a link breaks by these actions.
fn breaks(to: Peer, actions: &Actions) -> bool
    ensures { result ≡ breaks_by to (listed actions.now) }
{
    match to {
        Peer::Outside(_) => false,
        Peer::Inner(_) => any_fall(actions),
    }
}

// The link breaks, where the peer is inside.
fn break_end<M: Members>(members: &mut M, traffic: &mut Traffic, at: As, to: Peer)
    requires there { IsAtEnd at to (here (M.stands members.old) (flow_of traffic.old)) }
    requires room { RoomToBreakAt at to (M.stands members.old).seen (flow_of traffic.old) }
    ensures { Goes (λ n. break_at M.Pin M.Key n M.show at to) (here (M.stands members.old) (flow_of traffic.old)) (here (M.stands members.new) (flow_of traffic.new)) }
{
    match to {
        Peer::Outside(_) => {}
        Peer::Inner(other) => break_between(members, traffic, other, at),
    }
}

/// The session has this next state, and does what it then asks for. It passes nothing on; one of a link that
/// goes down breaks the link.
pub(crate) fn step<M: Members>(
    members: &mut M,
    traffic: &mut Traffic,
    at: As,
    to: Peer,
    ticks: bool,
    session: Session,
    actions: Actions,
)
    requires there { IsAtEnd at to (here (M.stands members.old) (flow_of traffic.old)) }
    requires sets { MaySet at to session (flow_of traffic.old) }
    requires fits { FitsTurn at to (listed actions) (M.stands members.old).seen (flow_of traffic.old) }
    ensures { (s : State) (input : Input) → session_at at to (flow_of traffic.old) ≡ Some s → listed actions ≡ (turn_of s input).actions → session ≡ (turn_of s input).next → ticks ≡ deeds.is_tick input
        → Goes (λ n. input_at M.Pin M.Key n M.show at to input) (here (M.stands members.old) (flow_of traffic.old)) (here (M.stands members.new) (flow_of traffic.new)) }
{
    if breaks(to, &actions) {
        break_end(members, traffic, at, to);
        return;
    }
    traffic.set_session(at, to, session);
    acts(members, traffic, at, to, ticks, actions);
}

/// An input to the session, which passes nothing on. Nothing happens where the peer is closed.
pub(crate) fn give_input<M: Members>(
    members: &mut M,
    traffic: &mut Traffic,
    at: As,
    to: Peer,
    input: Input,
    ticks: bool,
)
    requires ticks { ticks ≡ deeds.is_tick input }
    requires there { IsAtEnd at to (here (M.stands members.old) (flow_of traffic.old)) }
    requires fits { FitsInput at to input (session_at at to (flow_of traffic.old)) (M.stands members.old).seen (flow_of traffic.old) }
    ensures { Goes (λ n. input_at M.Pin M.Key n M.show at to input) (here (M.stands members.old) (flow_of traffic.old)) (here (M.stands members.new) (flow_of traffic.new)) }
{
    let Some(mut session) = traffic.session(at, to) else {
        return;
    };
    let actions = session.step(input);
    step(members, traffic, at, to, ticks, session, actions);
}
