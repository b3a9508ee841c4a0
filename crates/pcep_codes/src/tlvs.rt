//! The types of TLVs.
/// NO-PATH-VECTOR (section 7.5).
pub const NO_PATH_VECTOR: u16 = 1;

/// The capability of a stateful element (RFC 8231, section 7.1.1).
pub const STATEFUL: u16 = 16;
