//! Laws of requests that are pending, and of deeds.
ghost use Rattle.std.specs.Prelude.{◌≡◌};
ghost use Rattle.network_events.specs.Laws.{MessageRaises};
ghost use Rattle.network_events.specs.Turns.{StepsAreTurns, TicksAreTurns};

/// A message raises how many requests of its sender are pending by at most as many as it asks for.
pub fn requests_are_counted()
    ensures { MessageRaises }
{}

/// A step of a session passes a message on and does nothing else, or passes none on. A tick passes none
/// on: it says nothing, a Keepalive, or its last messages.
pub fn steps_are_turns()
    ensures steps { StepsAreTurns }
    ensures ticks { TicksAreTurns }
{}
