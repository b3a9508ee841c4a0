//! A network and its tape as one value.
ghost use Rattle.std.specs.Prelude.{◌≡◌};

use event_tape::Tape;
use plant_network::Plant;
use std::alloc::Global;

/// A network, and the tape of what is told of its turns.
pub struct KeptPlant {
    pub(crate) alloc: Global,
    pub plant: Plant,
    pub tape: Tape,
}

// Written, so that it is proved in this crate alone.
impl Drop for KeptPlant {
    fn drop(self) {
        let KeptPlant {
            alloc: _,
            plant: _,
            tape: _,
        } = self;
    }
}

impl KeptPlant {
    /// A network, and a tape on which nothing of it stands yet. What is kept takes memory of this allocator.
    pub fn new(alloc: Global, plant: Plant, tape: Tape) -> KeptPlant
        ensures plant { result.plant ≡ plant }
        ensures tape { result.tape ≡ tape }
    {
        KeptPlant { alloc, plant, tape }
    }
}
