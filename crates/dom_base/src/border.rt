//! Rows of border tables, and the links between domains that a parent knows.
use crate::{Addr, As, Cost, Link};

/// A row of a border table: the least cost from an entry over an out link. `far` is the link's
/// far address and `head` the node beyond it; for a target in this domain both are the target.
#[derive(Clone, Copy)]
pub struct BorderRow {
    pub entry: Addr,
    pub far: Addr,
    pub head: Addr,
    pub cost: Cost,
}

/// A link from one domain to another, as the parent knows it (RFC 6805, section 4.4).
pub struct ParentLink {
    pub from_as: As,
    pub to_as: As,
    pub link: Link,
}

// Written by hand, so that it is proved once: a derived one would be proved again in each crate that drops a value.
impl Drop for ParentLink {
    fn drop(self) {
        let ParentLink {
            from_as: _,
            to_as: _,
            link: _,
        } = self;
    }
}
