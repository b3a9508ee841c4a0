//! Arcs between places of nodes, one for each link that may be taken.

/// A link that may be taken, between the places of two nodes.
#[derive(Clone, Copy)]
pub struct Arc {
    pub tail: usize,
    pub head: usize,
    pub weight: u64,
}

/// The distance of a node that no path leads from.
pub const UNREACHED: u64 = 18_446_744_073_709_551_615;
