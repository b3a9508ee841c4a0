//! Asks of a domain, and jobs: asks with their topologies.
use dom_base::{Addr, As, Cost, List, Query};
use std::sync::Arc;
use te_links::Topology;

/// Where the paths of a job lead to.
#[derive(Clone, Copy, Debug, PartialEq, Eq)]
pub enum Target {
    /// A node of this domain, which is the last one.
    Node(Addr),
    /// The next domain.
    Next(As),
}

/// A row that the next domain told: the least cost from one of its entries to the destination. Of
/// several rows of a node the least counts.
#[derive(Clone, Copy, Debug, PartialEq, Eq)]
pub struct Down {
    pub node: Addr,
    pub cost: Cost,
}

/// An ask of a domain: the least costs from its entries. `number` and `generation` name the
/// request and the topology that it is computed in; no cost depends on them.
pub struct Ask {
    pub at: As,
    pub number: u64,
    pub generation: u64,
    pub query: Query,
    pub source: Addr,
    pub entries: List<Addr>,
    pub target: Target,
    pub down: List<Down>,
}

// Written, so that it is proved once: a derived one is proved anew in each crate that drops a value.
impl Drop for Ask {
    fn drop(self) {
        let Ask {
            at: _,
            number: _,
            generation: _,
            query: _,
            source: _,
            entries: _,
            target: _,
            down: _,
        } = self;
    }
}

/// An ask, with the topology that it is computed in.
pub struct Job {
    pub ask: Ask,
    pub topology: Arc<Topology>,
}

// Written, so that it is proved once: a derived one is proved anew in each crate that drops a value.
impl Drop for Job {
    fn drop(self) {
        let Job {
            ask: _,
            topology: _,
        } = self;
    }
}
