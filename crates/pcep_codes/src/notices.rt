//! Types and values of NOTIFICATION (section 7.14).
/// The asker cancels requests.
pub const CANCELLED: (u8, u8) = (1, 1);

/// The element cancels requests.
pub const BUSY: (u8, u8) = (1, 2);
