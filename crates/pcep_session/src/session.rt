//! A session as a value, and its steps.
ghost use Rattle.std.specs.Prelude.{◌≡◌, ◌↔◌, IsTrue};
ghost use Rattle.pcep_session.specs.Listed.{listed};
ghost use Rattle.pcep_session.specs.Quiet.{after_quiet, is_quiet};
ghost use Rattle.pcep_session.specs.Table.{new_state, turn_of};

use crate::actions::Actions;
use crate::state::{Phase, State};
use dom_base::Tick;
use pcep_messages::Message;
use pcep_objects::Offer;
use std::marker::Model;

/// An input to a session.
#[derive(Drop)]
pub enum Input {
    /// The connection is open.
    Begin,
    /// The peer sent a message.
    Got(Message),
    /// The peer sent bytes that are no message.
    Bad,
    /// The moment.
    Tick(Tick),
}

/// One side of a session, which contracts see as its state. It is small and `Copy`, so a copy can be
/// stepped and kept or not.
#[derive(Clone, Copy)]
pub struct Session {
    state: State,
}

impl Model for Session {
    ghost use Rattle.pcep_session.specs.declared.state.State.{State};

    ghost Value = { State };

    ghost view = { λ s. s.state };

    ghost inverse = { λ state. record { state = state } };
}

impl Session {
    /// A session that has not begun; takes no memory.
    pub fn new(offer: Offer, now: Tick) -> Session
        ensures { result ≡ new_state offer now }
    {
        Session {
            state: State::new(offer, now),
        }
    }

    /// Whether the session is open; takes no memory.
    pub fn is_up(&self) -> bool
        ensures { IsTrue result ↔ (self.now.phase ≡ Phase.Up) }
    {
        match self.state.phase {
            Phase::Up => true,
            _ => false,
        }
    }

    /// The state of the session; takes no memory.
    pub fn phase(&self) -> Phase
        ensures { result ≡ self.now.phase }
    {
        self.state.phase
    }

    /// The moment at which it came into its state; takes no memory.
    pub fn since(&self) -> Tick
        ensures { result ≡ self.now.since }
    {
        self.state.since
    }

    /// One step of the session: the row of its table for this input; takes no memory. A tick that is
    /// earlier than the last one counts as that one.
    pub fn step(&mut self, input: Input) -> Actions
        ensures actions { listed result ≡ (turn_of self.old input).actions }
        ensures next { self.new ≡ (turn_of self.old input).next }
    {
        self.state.step(input)
    }

    /// A tick that may be silent: where the session has nothing to say or to do, its clock goes on and the
    /// answer is true; else the session stays as it was. Takes no memory, and makes no actions.
    pub fn tick_quietly(&mut self, now: Tick) -> bool
        ensures quiet { result ≡ is_quiet now self.old }
        ensures next { self.new ≡ after_quiet now self.old }
    {
        self.state.tick_quietly(now)
    }
}
