//! The verdict of a check.
use dom_base::Label;
use std::fmt::{self, Display, Formatter, Write};

/// Where a condition of a certificate stands: at a seed, at a link or a node in the topology's
/// order, or at an address of the path, each counted from 0.
#[derive(Clone, Copy)]
pub enum Place {
    Seed(u32),
    Link(u32),
    Node(u32),
    Path(u32),
}

impl Display for Place {
    fn fmt<W: Write>(&self, f: &mut Formatter<W>) -> fmt::Result {
        match self {
            Place::Seed(i) => write!(f, "seed {i}"),
            Place::Link(i) => write!(f, "link {i}"),
            Place::Node(i) => write!(f, "node {i}"),
            Place::Path(i) => write!(f, "path {i}"),
        }
    }
}

/// The verdict of a check: all conditions hold, or the first that is false. `told` is the label
/// at the seed's node, of the link's beginning or of the node; `bound` is the seed's label, or the
/// sum of the link's weight and the label of its end, with that label's exit. Both are absent for
/// the path.
#[derive(Clone, Copy)]
pub enum Verdict {
    Holds,
    Fails {
        place: Place,
        told: Option<Label>,
        bound: Option<Label>,
    },
}
