//! What is told of a run of a network: that it is a run, the only one of its events, and says what the run said. So who
//! plays what was told is told again what was said. Laws, as the contracts of calls that do nothing.
#![tactic(auto)]

mod records;

pub use records::{
    parts_are_played, records_are_played, runs_are_one, told_is_a_run, told_says_all,
};
