//! Sample runs, worked out. Their outcomes show that the definitions mean what they should.
ghost use Rattle.plant_model.specs.SampleRuns.{ThreeDomains, BreakIsTold, LoadKeepsPin, KeysAreGuarded, IdsTellWhoSent, GoesOutside, NoPathTellsClients, ParentAnswers};

/// Runs of a network of three domains, of one that asks a neighbour outside, and of one with a parent, over the wire
/// of PCEP.
pub fn sample_runs()
    ensures path { ThreeDomains }
    ensures broken { BreakIsTold }
    ensures load { LoadKeepsPin }
    ensures keys { KeysAreGuarded }
    ensures ids { IdsTellWhoSent }
    ensures outside { GoesOutside }
    ensures no_path { NoPathTellsClients }
    ensures parent { ParentAnswers }
{}
