//! The law of the branch of least cost.
ghost use Rattle.vspt_tree.specs.Branches.{FirstLeastIsFound};

/// A law: the branch of least cost of a node as a function is the one that the relation says.
pub fn first_least_is_found()
    ensures { FirstLeastIsFound }
{}
