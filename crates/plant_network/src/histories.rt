//! What many turns make of a network: a law, as the contract of a call that does nothing.
ghost use Rattle.plant_network.specs.Histories.{HistoriesAreRuns};

/// A network that takes turns, by whichever threads, goes on in one run: its events are those of the turns, in their
/// order, where what is given with each is what its types say. So what holds of every run holds of what the threads do.
pub fn histories_are_runs()
    ensures { HistoriesAreRuns }
{}
