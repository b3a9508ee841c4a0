//! What becomes of a pinned generation over all sequences of calls, as laws.
ghost use Rattle.te_links.specs.Rows.{Rows};
ghost use Rattle.te_generations.specs.Runs.{FullByNumbers, KeepsTopology, PinGivesCurrent};

/// Over all sequences of calls, a pin gives the topology that was current when it was made, through every
/// later load; and a generation that keeps a pin keeps its topology.
pub fn pins_keep_topologies()
    ensures pinned { PinGivesCurrent Rows }
    ensures keeps { KeepsTopology Rows }
{}

/// A load is refused where the current generation and the different pinned ones are 16, or the
/// number is the last.
pub fn full_by_numbers()
    ensures { FullByNumbers Rows }
{}
