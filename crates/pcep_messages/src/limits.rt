//! How much a request may name.
ghost use Rattle.pcep_messages.specs.Limits.{LimitsAreNumbers};

/// How many exclusions a request may have.
pub const EXCLUSIONS_MAX: usize = 256;

/// How many domains a request may name.
pub const SEQUENCE_MAX: usize = 16;

/// A law: the limits are the numbers that the definition says.
pub fn limits_are_numbers()
    ensures { LimitsAreNumbers }
{}
