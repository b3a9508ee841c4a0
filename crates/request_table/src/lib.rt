//! The requests that are not yet answered, by their numbers, and each by its peer and id.
#![tactic(auto)]

mod counts;
mod held;
mod law;
mod requests;
mod rows;

pub use held::{Held, RequestKey};
pub use law::{finds_after_close, finds_after_open, full_is_tested};
pub use requests::{OpenError, Requests};

/// How many requests an element may have pending.
pub const PENDING_MAX: usize = 1_024;
