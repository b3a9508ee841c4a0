//! The best way of a domain, and a branch of the tree.
use dom_base::{Addr, Cost, List};
use pcep_subobjects::Hop;

/// The best way from an entry of a domain to the destination.
#[derive(Drop)]
pub struct Best {
    /// Where the way enters the domain.
    pub entry: Addr,
    /// The least cost from the entry to the destination, as a sum of link costs.
    pub cost: Cost,
    /// The far address of the link by which the way leaves the domain; without meaning where there
    /// is no `head`.
    pub exit: Addr,
    /// The node beyond the exit, which is an entry of the next domain; None in the last domain.
    pub head: Option<Addr>,
    /// The way inside the domain: the entry, and then the far address of each link.
    pub segment: List<Addr>,
}

/// A branch of a virtual shortest path tree: a path from an entry of a domain to the destination
/// (RFC 5441, section 4.2).
#[derive(Drop)]
pub struct Branch {
    /// Where the path begins.
    pub entry: Addr,
    /// The cost of the whole path, as a sum of link costs.
    pub cost: Cost,
    /// The hops of the path, in order.
    pub hops: List<Hop>,
}
