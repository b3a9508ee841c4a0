//! What an OPEN offers.
/// What one end of a session offers in its OPEN object (RFC 5440, section 7.3; RFC 8231, section
/// 7.1.1).
#[derive(Clone, Copy)]
pub struct Offer {
    /// The longest time between two messages of this end, in seconds; 0 is no limit.
    pub keepalive: u8,
    /// After so many seconds without a message the other end may hold the session for dead; 0 is
    /// never.
    pub dead: u8,
    /// The number of the session.
    pub sid: u8,
    /// Whether this end is able to be stateful.
    pub stateful: bool,
}

/// What holds for one end of an open session.
#[derive(Clone, Copy)]
pub struct Agreed {
    /// The longest time between two messages that this end sends, in seconds; 0 is no limit.
    pub keepalive: u8,
    /// After so many seconds without a message from the other end the session is dead; 0 is never.
    pub dead: u8,
    /// Whether both ends are able to be stateful.
    pub stateful: bool,
}
