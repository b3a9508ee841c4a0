//! Jobs to solve, and solved jobs.
use crate::solved::BorderSolved;
use border_costs::{Job, Solved};
use pce_common::model::BorderJob;

/// A job of a domain or of the parent.
#[derive(Drop)]
pub enum Work {
    Domain(Job),
    Border(BorderJob),
}

/// A job that was solved.
#[derive(Drop)]
pub enum Done {
    Domain(Solved),
    Border(BorderSolved),
}
