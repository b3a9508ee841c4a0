//! The classes of objects (section 7).
/// Section 7.3.
pub const OPEN: u8 = 1;

/// Section 7.4.
pub const RP: u8 = 2;

/// Section 7.5.
pub const NO_PATH: u8 = 3;

/// Section 7.6.
pub const END_POINTS: u8 = 4;

/// Section 7.7.
pub const BANDWIDTH: u8 = 5;

/// Section 7.8.
pub const METRIC: u8 = 6;

/// Section 7.9.
pub const ERO: u8 = 7;

/// Section 7.10.
pub const RRO: u8 = 8;

/// Section 7.11.
pub const LSPA: u8 = 9;

/// Section 7.12.
pub const IRO: u8 = 10;

/// Section 7.13.
pub const SVEC: u8 = 11;

/// Section 7.14.
pub const NOTIFICATION: u8 = 12;

/// Section 7.15.
pub const PCEP_ERROR: u8 = 13;

/// Section 7.16.
pub const LOAD_BALANCING: u8 = 14;

/// Section 7.17.
pub const CLOSE: u8 = 15;

/// RFC 5520, section 3.2.2.
pub const PATH_KEY: u8 = 16;

/// RFC 5521, section 2.1.
pub const XRO: u8 = 17;
