//! A tape of the events that a network did, as an operator is told of them: kept in their order, and handed out a list at a time.
#![tactic(auto)]

mod tape;
mod told;

pub use tape::{Handed, Tape, TapeEnd};
pub use told::Told;

/// How many octets the items of a tape may take in all.
pub const TAPE_ROOM: u64 = 67_108_864;

/// How many octets an item takes beside those that it received.
pub const ITEM_OCTETS: u64 = 64;
