//! Questions about sessions and their steps.
ghost use Rattle.std.specs.Prelude.{◌≡◌, ◌||◌};
ghost use Rattle.pcep_session.specs.Listed.{listed};
ghost use Rattle.pcep_session.specs.Table.{new_state, turn_of};
ghost use Rattle.plant_model.specs.Names.{is_empty};
ghost use Rattle.plant_model.specs.Deeds as deeds;
ghost use Rattle.plant_model.specs.Events as events;
ghost use Rattle.network_links.specs.Ends.{falls_at};

use crate::own::our_offer;
use dom_base::Tick;
use pcep_session::{Action, Actions, Input, Session};

/// The session with this number, once it has said its Open.
pub(crate) fn begun_session(sid: u8, now: Tick) -> Session
    ensures { result ≡ (turn_of (new_state (deeds.our_offer sid) now) Input.Begin).next }
{
    let mut session = Session::new(our_offer(sid), now);
    let _open = session.step(Input::Begin);
    session
}

fn is_quiet(actions: &Actions) -> bool
    ensures { result ≡ is_empty (listed actions.now) }
{
    match actions.first {
        Some(_) => false,
        None => true,
    }
}

// Whether a session takes no action on an input.
fn is_silent(session: &Session, input: Input) -> bool
    ensures { result ≡ is_empty (turn_of session.now input).actions }
{
    let mut copy = *session;
    let actions = copy.step(input);
    is_quiet(&actions)
}

/// Whether a session is over: it takes no action when it is begun, and none on bytes that cannot be read.
#[tactic(auto, using(crate::proofs::StepLemmas::over_is))]
pub(crate) fn is_over(session: &Session) -> bool
    ensures { result ≡ events.is_down session.now.phase }
{
    is_silent(session, Input::Begin) && is_silent(session, Input::Bad)
}

fn is_fall(action: &Option<Action>) -> bool
    ensures { result ≡ falls_at action.now }
{
    match action {
        Some(Action::Down(_)) => true,
        Some(Action::Send(_) | Action::Up | Action::Pass(_)) | None => false,
    }
}

/// Whether a session goes down by these actions.
pub fn any_fall(actions: &Actions) -> bool
    ensures { result ≡ deeds.any_fall (listed actions.now) }
{
    is_fall(&actions.first) || is_fall(&actions.second) || is_fall(&actions.third)
}
