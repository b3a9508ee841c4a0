//! A session is given the first item that waits for it. All memory is taken before anything changes.
ghost use Rattle.std.specs.Prelude.{◌≡◌, ◌⊎◌, ◌+◌, ◌*◌, true, false, [], ◌∷◌, Some, IfOk, IfErr, OnOk};
ghost use Rattle.dom_base.specs.declared.names.As.{As};
ghost use Rattle.dom_base.specs.declared.names.Peer.TheVariants.{Inner, Outside};
ghost use Rattle.pcep_session.specs.declared.actions.Action.TheVariants.{Pass};
ghost use Rattle.pcep_session.specs.Listed.{listed};
ghost use Rattle.pce_common.specs.plant_model.RealWire.{wire};
ghost use Rattle.pce_common.specs.plant_model.Events as events;
ghost use Rattle.network_links.specs.Carried.{flow_of};
ghost use Rattle.network_links.specs.Flow.{KeepsRoomAt};
ghost use Rattle.network_events.specs.Acting.{IsOwnTurn};
ghost use Rattle.network_events.specs.Giving.{OnlyGrows};
ghost use Rattle.network_events.specs.Moving.{IsKept, IsSound, Moves, OrLacks};
ghost use Rattle.pce_common.specs.Membership.{is_member};
ghost use Rattle.pce_common.specs.Owed.{owed};
ghost use Rattle.network_events.specs.Peers.{IsAtEnd, IsPlaced, heard_from, receive_at};
ghost use Rattle.network_events.specs.Standing.{here};
ghost use Rattle.network_events.specs.Stepping.{Receives, Steps};
ghost use Rattle.network_events.specs.Turns.{IsPass};

use crate::acting::step;
use crate::giving::{perform, prepare};
use dom_base::{As, NoMemory, Peer};
use network_links::{ANSWER_LENGTH, Traffic};
use pce_common::Members;
use pce_common::model::{Outcome, Refused};
use pcep_messages::Message;
use pcep_session::{Action, Actions, Session};
use std::alloc::Global;

// How long a message of a session's own is at most: an Open that speaks of stateful sessions.
const WORD_LENGTH: usize = 20;

// The message that a session passes on, or what else it asks for.
fn passed(actions: Actions) -> Result<Message, Actions>
    requires { IsOwnTurn (listed actions) ⊎ IsPass (listed actions) }
    ensures passes { IfOk result (λ message. listed actions ≡ Pass message ∷ []) }
    ensures acts { IfErr result (λ others. (listed others ≡ listed actions) × IsOwnTurn (listed actions)) }
{
    let Actions {
        first,
        second,
        third,
    } = actions;
    match first {
        Some(Action::Pass(message)) => Ok(message),
        first => Err(Actions {
            first,
            second,
            third,
        }),
    }
}

// Room in a queue for one more message of a session's own, besides all that is owed there.
fn reserve_word<M: Members>(
    members: &M,
    traffic: &mut Traffic,
    at: As,
    to: Peer,
) -> Result<(), NoMemory>
    requires { is_member (M.stands members.now).network at ≡ true }
    ensures grows { OnlyGrows (flow_of traffic.old) (flow_of traffic.new) }
    ensures keeps { OnOk result (KeepsRoomAt at to (1 + owed at to (M.stands members.now).seen) (WORD_LENGTH + ANSWER_LENGTH * owed at to (M.stands members.now).seen) (flow_of traffic.new)) }
{
    let answers = members.owed(at, to);
    let Some(messages) = answers.checked_add(1) else {
        return Err(NoMemory);
    };
    let Some(size) = answers.checked_mul(ANSWER_LENGTH) else {
        return Err(NoMemory);
    };
    let Some(bytes) = size.checked_add(WORD_LENGTH) else {
        return Err(NoMemory);
    };
    traffic.reserve(at, to, messages, bytes)
}

// What a member is given of a message that its session passes on: of an outside peer's message what the element heeds.
fn heard<M: Members>(members: &M, at: As, to: Peer, message: Message) -> Result<Message, NoMemory>
    ensures { IfOk result (λ heeded. heeded ≡ heard_from to ((M.stands members.now).seen.elements at).pending.rows message) }
{
    match to {
        Peer::Outside(peer) => members.heed(at, peer, message),
        Peer::Inner(_) => Ok(message),
    }
}

// The session passes this message on, and has then this state.
fn receive_passed<M: Members>(
    alloc: Global,
    members: &mut M,
    traffic: &mut Traffic,
    at: As,
    to: Peer,
    session: Session,
    message: Message,
) -> Result<(), NoMemory>
    requires there { IsAtEnd at to (here (M.stands members.old) (flow_of traffic.old)) }
    requires steps { Steps at to (Pass message ∷ []) session (flow_of traffic.old) }
    requires kept { IsKept (here (M.stands members.old) (flow_of traffic.old)) }
    ensures { Receives M.show at to result (here (M.stands members.old) (flow_of traffic.old)) (here (M.stands members.new) (flow_of traffic.new)) }
{
    let heeded = heard(members, at, to, message)?;
    let prepared = prepare(alloc, members, traffic, at, to, heeded)?;
    traffic.clear_said();
    traffic.drop_first(at, to);
    traffic.set_session(at, to, session);
    perform(members, traffic, prepared);
    Ok(())
}

// The session passes nothing on.
fn receive_acted<M: Members>(
    members: &mut M,
    traffic: &mut Traffic,
    at: As,
    to: Peer,
    session: Session,
    actions: Actions,
) -> Result<(), NoMemory>
    requires there { IsAtEnd at to (here (M.stands members.old) (flow_of traffic.old)) }
    requires steps { Steps at to (listed actions) session (flow_of traffic.old) }
    requires turn { IsOwnTurn (listed actions) }
    requires kept { IsKept (here (M.stands members.old) (flow_of traffic.old)) }
    ensures { Receives M.show at to result (here (M.stands members.old) (flow_of traffic.old)) (here (M.stands members.new) (flow_of traffic.new)) }
{
    reserve_word(members, traffic, at, to)?;
    traffic.clear_said();
    traffic.drop_first(at, to);
    step(members, traffic, at, to, false, session, actions);
    Ok(())
}

// The actions that the session asks for are done.
fn receive_step<M: Members>(
    alloc: Global,
    members: &mut M,
    traffic: &mut Traffic,
    at: As,
    to: Peer,
    session: Session,
    actions: Actions,
) -> Result<(), NoMemory>
    requires there { IsAtEnd at to (here (M.stands members.old) (flow_of traffic.old)) }
    requires steps { Steps at to (listed actions) session (flow_of traffic.old) }
    requires kept { IsKept (here (M.stands members.old) (flow_of traffic.old)) }
    ensures { Receives M.show at to result (here (M.stands members.old) (flow_of traffic.old)) (here (M.stands members.new) (flow_of traffic.new)) }
{
    match passed(actions) {
        Ok(message) => receive_passed(alloc, members, traffic, at, to, session, message),
        Err(others) => receive_acted(members, traffic, at, to, session, others),
    }
}

// The session of a member with a peer is given the first item that waits for it.
fn receive<M: Members>(
    alloc: Global,
    members: &mut M,
    traffic: &mut Traffic,
    at: As,
    to: Peer,
) -> Result<Outcome, Refused>
    requires sound { IsSound (here (M.stands members.old) (flow_of traffic.old)) }
    requires placed { IsPlaced (M.stands members.old).network at to }
    ensures { Moves (OrLacks M.show (λ s. true) (λ n s. receive_at M.Pin M.Key n M.show at to s)) (here (M.stands members.old) (flow_of traffic.old)) result (here (M.stands members.new) (flow_of traffic.new)) }
{
    let Some(mut session) = traffic.session(at, to) else {
        return Err(Refused::NoSuchPeer);
    };
    let Ok(first) = traffic.first_input(at, to) else {
        return Err(Refused::NoMemory);
    };
    let Some(input) = first else {
        return Err(Refused::NothingToCarry);
    };
    let actions = session.step(input);
    match receive_step(alloc, members, traffic, at, to, session, actions) {
        Ok(()) => Ok(Outcome::Done),
        Err(NoMemory) => Err(Refused::NoMemory),
    }
}

/// The session of an outside peer is given the first item of its inbox. An `Err` changes nothing but room.
pub fn take<M: Members>(
    alloc: Global,
    members: &mut M,
    traffic: &mut Traffic,
    peer: u32,
) -> Result<Outcome, Refused>
    requires sound { IsSound (here (M.stands members.old) (flow_of traffic.old)) }
    ensures { Moves (OrLacks M.show (λ s. true) (λ n s. events.take M.Pin M.Key wire n M.show peer s)) (here (M.stands members.old) (flow_of traffic.old)) result (here (M.stands members.new) (flow_of traffic.new)) }
{
    let at = members.element_of(peer);
    receive(alloc, members, traffic, at, Peer::Outside(peer))
}

/// The session at the end of a link to which a queue leads is given its first message. An `Err` changes
/// nothing but room.
pub fn carry<M: Members>(
    alloc: Global,
    members: &mut M,
    traffic: &mut Traffic,
    from: As,
    to: As,
) -> Result<Outcome, Refused>
    requires sound { IsSound (here (M.stands members.old) (flow_of traffic.old)) }
    ensures { Moves (OrLacks M.show (λ s. true) (λ n s. events.carry M.Pin M.Key wire n M.show from to s)) (here (M.stands members.old) (flow_of traffic.old)) result (here (M.stands members.new) (flow_of traffic.new)) }
{
    if !traffic.is_linked(from, to) {
        return Err(Refused::NoSuchPeer);
    }
    receive(alloc, members, traffic, to, Peer::Inner(from))
}
