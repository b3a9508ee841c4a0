//! The constraints on a path: which exclusions are supported, which links and nodes the exclusions of a query bar,
//! which links a query allows, and what a link weighs.
#![tactic(auto)]

mod admission;
mod bars;
mod prepared;
mod spans;
mod support;
mod tables;

pub use admission::{allows, asks_nothing, weight};
pub use bars::{bars_link, bars_node};
pub use prepared::Prepared;
pub use support::{ExclusionError, copies_of_demands, find_unsupported, supported};
