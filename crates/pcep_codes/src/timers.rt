//! Times of a session, in seconds.
/// The Keepalive that is offered (section 7.3).
pub const KEEPALIVE: u8 = 30;

/// The DeadTimer that is offered (section 7.3).
pub const DEAD: u8 = 120;

/// How long an Open or a Keepalive may take: OpenWait and KeepWait (appendix A).
pub const WAIT: u64 = 60;

/// Five unknown messages end a session where the first of them is at most so old (section 6.9).
pub const UNKNOWN_SPAN: u64 = 59;
