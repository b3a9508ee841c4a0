//! The rows that a topology is built from.
use dom_base::{Addr, As, Link, List};

/// A link to another domain; its `to` is a node there, its head.
pub struct OutLink {
    pub link: Link,
    pub to_as: As,
}

// Written by hand, so that it is proved once: a derived one would be proved again in each crate that drops a value.
impl Drop for OutLink {
    fn drop(self) {
        let OutLink { link: _, to_as: _ } = self;
    }
}

/// A node at which paths from another domain may enter. Entries are ordered by the domain, then
/// by the node.
#[derive(Clone, Copy, PartialEq, Eq, PartialOrd, Ord)]
pub struct Entry {
    pub from_as: As,
    pub node: Addr,
}

/// The rows that a topology is built from, each list in any order.
#[derive(Drop)]
pub struct Parts {
    pub own: As,
    pub nodes: List<Addr>,
    pub links: List<Link>,
    pub outs: List<OutLink>,
    pub entries: List<Entry>,
}
