//! What a certificate claims.
use dom_base::{Addr, As, Label, List};

/// What is claimed of a domain: a label for each node that is named, and a path from a source, by
/// its address and then the far addresses of its links. A node that isn't named has no label.
#[derive(Drop)]
pub struct Certificate {
    pub own: As,
    pub labels: List<(Addr, Option<Label>)>,
    pub path: Option<List<Addr>>,
}
