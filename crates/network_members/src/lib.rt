//! The elements of a network and the parent above them, each a member that takes messages and answers jobs (RFC 4655, RFC 6805).
#![tactic(auto)]

mod answering;
mod becoming;
mod blind;
mod counting;
mod elements;
mod fresh;
mod heeding;
mod hierarchy;
mod loading;
mod members;
mod plan;
mod ready;
mod steps;

pub use hierarchy::{Hierarchy, is_parent};
pub use pce_element::{Blind, Element, Refusal, Topologies};
pub use pce_parent::{Done, Parent, Work, solve_border};
pub use plan::MemberPlan;
