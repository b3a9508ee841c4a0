//! Lines of a script that are played one after the other are a run of the model. Laws, as the contracts of calls that
//! do nothing.
ghost use Rattle.client_laws.specs.Disclosing.{RunsDisclose, ShownFromTheFirst, ShownIsDisclosed};
ghost use Rattle.client_laws.specs.Headline.{ScriptsAreRight};
ghost use Rattle.client_laws.specs.Laws.{LinesAreGiven, LinesGoOn, RunsAreLoadable, ScriptsAreRuns, ScriptsGoOn, ScriptsKeepSettings};

/// In every run each element's current topology is one that may be loaded.
pub fn runs_are_loadable()
    ensures { RunsAreLoadable }
{}

/// Where that holds before a line is played, what the events of the line are given is what their types say; so a run goes
/// on by them.
pub fn lines_go_on()
    ensures given { LinesAreGiven }
    ensures go_on { LinesGoOn }
{}

/// So lines that are played one after the other are a run, from wherever a run has come to, and the whole run where the
/// network was new. The settings stay.
pub fn scripts_are_runs()
    ensures go_on { ScriptsGoOn }
    ensures from_start { ScriptsAreRuns }
    ensures settings { ScriptsKeepSettings }
{}

/// So what is proved of every run of the model holds of every script that is played: paths that clients are answered are
/// least, NO-PATH means that none exists, and closed peers hear what a network without topologies says. The first
/// two suppose that no id wraps around, which is so without a parent where no more octets are fed than there are ids.
pub fn scripts_are_right()
    ensures { ScriptsAreRight }
{}

/// Each run has a disclosed trace.
pub fn runs_disclose()
    ensures { RunsDisclose }
{}

/// While rows are shown, what is shown of each solve is what it discloses. So a transcript that shows rows from its first
/// line on has the disclosed trace of its run.
pub fn shown_is_disclosed()
    ensures go_on { ShownIsDisclosed }
    ensures from_start { ShownFromTheFirst }
{}
