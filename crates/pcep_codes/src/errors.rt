//! Types and values of PCEP-ERROR (section 7.15).
/// The type of errors while a session opens; their values follow.
pub const SESSION: u8 = 1;

/// An invalid Open, or another message in its place.
pub const INVALID_OPEN: u8 = 1;

/// No Open in time.
pub const OPEN_WAIT_EXPIRED: u8 = 2;

/// Other terms are asked for.
pub const NEGOTIABLE: u8 = 4;

/// Other terms were asked for again, or without saying which.
pub const NOT_NEGOTIABLE: u8 = 6;

/// No Keepalive in time.
pub const KEEP_WAIT_EXPIRED: u8 = 7;

/// Another version.
pub const OTHER_VERSION: u8 = 8;

/// A message of an unknown type.
pub const UNKNOWN_MESSAGE: (u8, u8) = (2, 0);

/// An object of an unknown class.
pub const UNKNOWN_CLASS: (u8, u8) = (3, 1);

/// An object of an unknown type of its class.
pub const UNKNOWN_KIND: (u8, u8) = (3, 2);

/// An object of a class that a request can't be served with.
pub const CLASS_NOT_SERVED: (u8, u8) = (4, 1);

/// An object of a type that a request can't be served with.
pub const KIND_NOT_SERVED: (u8, u8) = (4, 2);

/// A parameter that is not supported (RFC 5441).
pub const PARAMETER_NOT_SERVED: (u8, u8) = (4, 4);

/// No RP.
pub const RP_MISSING: (u8, u8) = (6, 1);

/// No END-POINTS.
pub const END_POINTS_MISSING: (u8, u8) = (6, 3);

/// A reply to no pending request.
pub const UNKNOWN_REQUEST: (u8, u8) = (8, 0);

/// A second Open.
pub const SECOND_OPEN: (u8, u8) = (9, 0);

/// An object that has to be taken into account, with P clear.
pub const P_CLEAR: (u8, u8) = (10, 1);

/// A chain of elements that can't do it (RFC 5441).
pub const CHAIN_FAILED: (u8, u8) = (13, 1);

/// An update without the capability of a stateful element (RFC 8231, section 8.5).
pub const UPDATE_NOT_OFFERED: (u8, u8) = (19, 2);

/// A report without it.
pub const REPORT_NOT_OFFERED: (u8, u8) = (19, 5);
