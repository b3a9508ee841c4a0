//! The model of a network of path computation elements: what an element, a parent and their sessions do, event
//! by event, with topologies and without; and the types that both worlds share.
#![tactic(auto)]

mod event;
mod law;
mod outcome;
mod output;
mod route;
mod sample;
mod upper;

pub use event::{BlindEvent, Event};
pub use law::{
    heeding_keeps, joins_what_was_told, model_meets_parts, routes_are_apart, routes_go_out,
    wire_is_codec,
};
pub use outcome::{Outcome, Refused};
pub use output::{Lost, Output, Outputs};
pub use route::Route;
pub use sample::sample_runs;
pub use upper::{BorderJob, ChildRow};

/// How many requests the parent may have pending.
pub const PARENT_PENDING_MAX: usize = 64;
