//! How much a certificate may have.
ghost use Rattle.path_certificate.specs.Limits.{LimitsAreNumbers};

/// How many seeds a check may have.
pub const SEEDS_MAX: usize = 256;

/// How many bytes the text of a certificate may have.
pub const CERTIFICATE_BYTES_MAX: usize = 1_048_576;

/// A law: the limits are the numbers that the definition says.
pub fn limits_are_numbers()
    ensures { LimitsAreNumbers }
{}
