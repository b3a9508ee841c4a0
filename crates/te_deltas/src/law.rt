//! A law: rows build one topology.
ghost use Rattle.te_deltas.specs.Answers.{BuiltOnce};

/// Rows from which a topology is built make no other one, since a topology has its own order.
pub fn built_once()
    ensures { BuiltOnce }
{}
