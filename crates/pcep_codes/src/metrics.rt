//! The types of METRIC (section 7.8).
pub const IGP: u8 = 1;

pub const TE: u8 = 2;

/// The count of hops.
pub const HOPS: u8 = 3;
