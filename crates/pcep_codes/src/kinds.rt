//! The types of objects within their classes (section 7).
/// The only type of most classes, and the first of each.
pub const FIRST: u8 = 1;

/// The bandwidth of a path that is there already (section 7.7).
pub const BANDWIDTH_IN_USE: u8 = 2;

/// END-POINTS of two addresses of IPv6 (section 7.6).
pub const END_POINTS_IPV6: u8 = 2;
