//! The branches of a virtual shortest path tree, by which domains compute a path backward from its
//! destination (RFC 5441).
#![tactic(auto)]

mod branch;
mod law;
mod tree;

pub use branch::{Best, Branch};
pub use law::first_least_is_found;
pub use tree::join;
