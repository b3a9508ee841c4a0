//! What a NO-PATH says: the nature of the issue, and the bits of its NO-PATH-VECTOR (section 7.5).
/// Nature: no path is found.
pub const NONE_FOUND: u8 = 0;

/// Nature: the chain of elements is broken.
pub const CHAIN_BROKEN: u8 = 1;

/// Bit 30: the target is not known.
pub const UNKNOWN_TARGET: u32 = 0x02;

/// Bit 29: the source is not known.
pub const UNKNOWN_SOURCE: u32 = 0x04;

/// Bit 28: the chain of elements is not available (RFC 5441, section 7).
pub const CHAIN_UNAVAILABLE: u32 = 0x08;

/// Bit 27: a path key stands for nothing that is told (RFC 5520, section 3.3).
pub const KEY_FAILED: u32 = 0x10;
