//! One path computation element: what it knows of its domain, the requests that it has accepted, its keys
//! and its neighbours.
#![tactic(auto)]

mod accepted;
mod answering;
mod asking;
mod blind;
mod branches;
mod change;
mod committing;
mod drafts;
mod element;
mod jobs;
mod joining;
mod law;
mod leaving;
mod looks;
mod making;
mod pinned;
mod plan;
mod replying;
mod searching;
mod solving;
mod taking;
mod tellers;
mod telling;
mod topologies;
mod world;

pub use blind::Blind;
pub use element::Element;
pub use law::jobs_last;
pub use pce_common::Refusal;
pub use plan::Plan;
pub use topologies::{PinnedTopology, Topologies};
pub use world::World;
