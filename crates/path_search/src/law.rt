//! What the labels of a search that stops early are worth. The laws are the contracts of calls that do
//! nothing.
ghost use Rattle.path_search.specs.Early.{StopsAreLabelled, CutLabels};

/// A law: where a search stopped early, each node that it was to reach has its label.
pub fn stops_are_labelled()
    ensures { StopsAreLabelled }
{}

/// A law: labels without those that cost more than a lower cap are the labels under that cap.
pub fn cut_labels()
    ensures { CutLabels }
{}
