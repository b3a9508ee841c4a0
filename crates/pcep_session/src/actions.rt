//! The actions that a step of a session asks for.
ghost use Rattle.std.specs.Prelude.{◌≡◌, [], ◌∷◌, IsSome};
ghost use Rattle.pcep_session.specs.Table.{error_of};

use pcep_messages::Message;
use pcep_objects::Offer;

/// A message of the session itself.
#[derive(Clone, Copy)]
pub enum Own {
    Open(Offer),
    Keepalive,
    /// The type and the value of an error (RFC 5440, section 7.15; RFC 8231, section 8.5).
    Error(u8, u8),
    /// The reason (RFC 5440, section 7.17).
    Close(u8),
}

/// Why a session went down.
#[derive(Clone, Copy)]
pub enum Reason {
    /// It did not open: the value of the error of type 1.
    Opening(u8),
    /// The peer's DeadTimer expired.
    Dead,
    /// The peer sent bytes that are no message.
    Malformed,
    /// The peer sent too many messages of unknown types.
    Unknown,
    /// The peer sent a message of a stateful session.
    Stateful,
    /// The peer ended it.
    Peer,
}

/// An action that a step of a session asks for.
#[derive(Drop)]
pub enum Action {
    Send(Own),
    /// The session is open.
    Up,
    /// The session is over.
    Down(Reason),
    /// The message is not the session's own.
    Pass(Message),
}

/// At most three actions, in order: no field behind an empty one has an action.
#[derive(Drop)]
pub struct Actions {
    pub first: Option<Action>,
    pub second: Option<Action>,
    pub third: Option<Action>,
    pub ghost second_behind_first: { IsSome second → IsSome first },
    pub ghost third_behind_second: { IsSome third → IsSome second },
}

/// Sends an error, by type and value.
pub(crate) fn send_error(error: (u8, u8)) -> Action
    ensures { result ≡ Action.Send (error_of error) }
{
    Action::Send(Own::Error(error.0, error.1))
}

impl Actions {
    ghost use Rattle.pcep_session.specs.Listed.{listed};

    /// Nothing is done.
    pub fn none() -> Actions
        ensures { listed result ≡ [] }
    {
        Actions {
            first: None,
            second: None,
            third: None,
        }
    }

    /// This alone is done.
    pub fn one(action: Action) -> Actions
        ensures { listed result ≡ action ∷ [] }
    {
        Actions {
            first: Some(action),
            second: None,
            third: None,
        }
    }

    /// These are done, in this order.
    pub fn two(first: Action, second: Action) -> Actions
        ensures { listed result ≡ first ∷ second ∷ [] }
    {
        Actions {
            first: Some(first),
            second: Some(second),
            third: None,
        }
    }

    /// These are done, in this order: no input asks for more.
    pub fn three(first: Action, second: Action, third: Action) -> Actions
        ensures { listed result ≡ first ∷ second ∷ third ∷ [] }
    {
        Actions {
            first: Some(first),
            second: Some(second),
            third: Some(third),
        }
    }
}
