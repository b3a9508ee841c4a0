//! The generations of a topology, and the pins that keep older ones.
#![tactic(auto)]

mod among;
mod generations;
mod law;
mod live;

pub use generations::{Generations, LoadError, Pin};
pub use law::{full_by_numbers, pins_keep_topologies};

/// How many generations may be live.
pub const LIVE_MAX: usize = 16;
