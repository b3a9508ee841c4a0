//! Jobs get their turns in rounds. A law, as the contract of a call that does nothing.
ghost use Rattle.plant_network.specs.Rounds.{EachHasATurn};

/// Where jobs are asked for in rounds, each place has its turn: between two jobs of one member each other member with a job is given
/// one, where the members stand at these places; and between two jobs of one asker of a member each other asker with a job there is.
pub fn each_has_a_turn()
    ensures { EachHasATurn }
{}
