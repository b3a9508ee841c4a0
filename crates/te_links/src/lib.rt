//! The topology of one routing domain: its nodes, the links between them, the links to other
//! domains, and the nodes at which paths from other domains may enter.
#![tactic(auto)]

mod arrivals;
mod build;
mod checks;
mod counted;
mod fault;
mod groups;
mod index;
mod limits;
mod links;
mod places;
mod rows;
mod survey;
mod topology;

pub use arrivals::{Arc, Arrivals};
pub use counted::Counted;
pub use fault::{BuildError, Row, RowKind, TopoFault};
pub use limits::{
    ENTRIES_MAX, ENTRY_NODES_MAX, LINKS_MAX, METRIC_MAX, NODES_MAX, OUTS_MAX, SRLGS_MAX, TAILS_MAX,
    limits_are_numbers,
};
pub use links::Links;
pub use rows::{Entry, OutLink, Parts};
pub use topology::Topology;
