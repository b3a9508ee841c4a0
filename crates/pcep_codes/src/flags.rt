//! Flags of objects.
/// P, in the second octet of an object's header (section 7.2).
pub const MUST: u8 = 2;

/// B, of METRIC (section 7.8).
pub const BOUND: u8 = 1;

/// C, of METRIC (section 7.8).
pub const COMPUTED: u8 = 2;

/// R and B, of RP: a path that is there already, and one both ways (section 7.4.1).
pub const OTHER_PATH: u32 = 0x18;

/// V, of RP: the tree of shortest paths of several domains (RFC 5441, section 4.1).
pub const VSPT: u32 = 0x40;

/// P, of RP: what a path key stands for (RFC 5520, section 3.2.1).
pub const PATH_KEY: u32 = 0x100;
