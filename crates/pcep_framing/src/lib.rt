//! The messages of a stream of bytes that comes in any pieces (RFC 5440, section 6.1).
#![tactic(auto)]

mod cut;
mod framer;
mod law;

pub use framer::{Fed, Framer, frame_all};
pub use law::{feeds_as_said, feeds_join, frames_are_one};

/// How long the header of a message is, in bytes.
pub const HEADER_LENGTH: usize = 4;
