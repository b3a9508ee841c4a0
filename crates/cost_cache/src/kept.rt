//! The content of a cache entry.
use dom_base::{Addr, List};
use path_search::Labels;

/// The next link of a chosen segment: its far address, and the place of the node that it ends at.
#[derive(Clone, Copy)]
pub struct Next {
    pub far: Addr,
    pub end: u32,
}

/// What is kept of a search: the label of each node, and for each node with a label the next link
/// of its chosen segment, none where the segment ends at the node.
#[derive(Drop)]
pub struct Kept {
    pub labels: Labels,
    pub nexts: List<Option<Next>>,
}
