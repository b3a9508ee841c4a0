//! The record of a server: the events of its one history, written as a script into the folder of a run.
//!
//! A run is a folder that is called by the moment at which it began. In it stand the settings, `net.toml`, the topology of each
//! load, `load-K.txt`, and the parts of the script, `000001.play` and on. A name is made once and never written over. The topology
//! that a line names was closed before the line is written.
#![tactic(auto)]

mod beginning;
mod desks;
mod ending;
mod fault;
mod files;
mod hands;
mod names;
mod parts;
mod recorded;
mod recording;
mod script;
#[cfg(test)]
mod tests;

pub use beginning::begin;
pub use desks::{Nap, Pause, TapeDesk};
pub use fault::Fault;
pub use recorded::Recorded;
pub use recording::record;
pub use script::Script;
