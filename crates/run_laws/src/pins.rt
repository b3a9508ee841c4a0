//! Over a history two pins of an element with one number are of one topology. Laws, as the contracts of calls that do nothing.
ghost use Rattle.run_laws.specs.PinHistories.{HistoriesKnowPins, KnownStays, PinsAreOne};
ghost use Rattle.run_laws.specs.PinSteps.{StepsKnowPins, StepsMove};

/// In each step the number of an element's current topology rises by one with an accepted load there, and stays in every other
/// step. Where each pin is of the topology that is known of its element and number, and so is what the step loads, each pin is so
/// after the step.
pub fn steps_know_pins()
    ensures moves { StepsMove }
    ensures know { StepsKnowPins }
{}

/// Where a history begins with no pins but current ones, each pin is of the topology that the history tells of its element and
/// number, and what is told stays.
pub fn histories_know_pins()
    ensures know { HistoriesKnowPins }
    ensures stays { KnownStays }
{}

/// Where a history begins with no pins but current ones, two pins of an element with one number, each at any place of the
/// history, are of one topology.
pub fn pins_are_one()
    ensures { PinsAreOne }
{}
