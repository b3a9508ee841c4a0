//! A live generation.
use std::sync::Arc;
use te_links::Topology;

/// A generation that is live: its number, how many pins it has, and its topology.
#[derive(Drop)]
pub struct Live {
    pub number: u64,
    pub pins: u32,
    pub topology: Arc<Topology>,
}
