//! The reasons of CLOSE (section 7.17).
/// No explanation.
pub const UNEXPLAINED: u8 = 1;

/// The DeadTimer expired.
pub const DEAD: u8 = 2;

/// A message that is malformed.
pub const MALFORMED: u8 = 3;

/// Too many messages of unknown types.
pub const UNKNOWN_MESSAGES: u8 = 5;
