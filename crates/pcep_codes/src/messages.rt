//! The types of messages (section 6).
/// Section 6.2.
pub const OPEN: u8 = 1;

/// Section 6.3.
pub const KEEPALIVE: u8 = 2;

/// Section 6.4.
pub const PCREQ: u8 = 3;

/// Section 6.5.
pub const PCREP: u8 = 4;

/// Section 6.6.
pub const PCNTF: u8 = 5;

/// Section 6.7.
pub const PCERR: u8 = 6;

/// Section 6.8.
pub const CLOSE: u8 = 7;

/// RFC 8231, section 6.1.
pub const PCRPT: u8 = 10;

/// RFC 8231, section 6.2.
pub const PCUPD: u8 = 11;
