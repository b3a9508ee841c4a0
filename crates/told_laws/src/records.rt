//! What is told of runs, and played again.
ghost use Rattle.told_laws.specs.Playing.{PartsArePlayed, RecordsArePlayed, RunsAreOne};
ghost use Rattle.told_laws.specs.Saying.{ToldSaysAll};
ghost use Rattle.told_laws.specs.Telling.{ToldIsRun};

/// The accepted events of a run, without the drains that handed out nothing, are a run that ends in the same state.
pub fn told_is_a_run()
    ensures { ToldIsRun }
{}

/// Nothing that the run said is lost in it: the same messages were put on their way, and each outside peer was handed the same octets.
pub fn told_says_all()
    ensures { ToldSaysAll }
{}

/// Two runs in which the same events were accepted, and no other was asked for, have the same answers, deeds and state.
pub fn runs_are_one()
    ensures { RunsAreOne }
{}

/// So where a run accepts just the events that are told of another, in order, it is told the same answers, and says the same to
/// everybody.
pub fn records_are_played()
    ensures { RecordsArePlayed }
{}

/// Where it accepts the first of them, it says what the other had said at an earlier moment: so a record that was cut off, or whose
/// first lines alone are played, says the truth as far as it goes.
pub fn parts_are_played()
    ensures { PartsArePlayed }
{}
