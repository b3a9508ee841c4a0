//! The types of subobjects of routes and of exclusions.
/// A prefix of IPv4 (RFC 3209, section 4.3.3.2).
pub const IPV4: u8 = 1;

/// A prefix of IPv6 (RFC 3209, section 4.3.3.3).
pub const IPV6: u8 = 2;

/// The number of a domain (RFC 3209, section 4.3.3.4).
pub const AS_NUMBER: u8 = 32;

/// A group of shared risk (RFC 5521, section 2.1).
pub const SRLG: u8 = 34;

/// A path key with the IPv4 address of its element (RFC 5520, section 3.1).
pub const PATH_KEY_IPV4: u8 = 64;

/// A path key with the IPv6 address of its element (RFC 5520, section 3.1).
pub const PATH_KEY_IPV6: u8 = 65;

/// The bit before the type: a loose hop (RFC 3209, section 4.3.3.1), an exclusion that is a wish (RFC
/// 5521, section 2.1).
pub const FIRST_BIT: u8 = 128;
