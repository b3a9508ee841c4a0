//! How many bytes a run reads at most.

/// How many bytes a certificate file may have.
pub const CERTIFICATE_MAX: usize = 1_048_576;

/// How many bytes the input of a command may have.
pub const INPUT_MAX: usize = 262_144;
