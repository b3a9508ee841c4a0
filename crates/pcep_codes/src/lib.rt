//! The numbers of the protocol. The sections are those of RFC 5440, where no other standard is named.
#![tactic(auto)]

pub mod classes;
pub mod errors;
pub mod flags;
pub mod kinds;
mod law;
pub mod messages;
pub mod metrics;
pub mod no_paths;
pub mod notices;
pub mod reasons;
pub mod subobjects;
pub mod timers;
pub mod tlvs;

pub use law::codes_are_numbers;

/// The version of the protocol, in the header of each message and in an OPEN (sections 6.1 and 7.3).
pub const VERSION: u8 = 1;
