//! What is claimed of a pair, and its proof.
use dom_base::{Addr, As, List};

/// What is claimed of a domain: a least pair of paths, or that there is none.
#[derive(Drop)]
pub struct PairCertificate {
    pub own: As,
    pub form: PairForm,
}

/// Two paths, each by its source and then the far addresses of its links, with potentials of nodes
/// (a node that isn't named has 0), which show that no pair has a smaller sum. Or the nodes on the
/// source's side of a cut that at most one link leaves, which show that there is no pair.
#[derive(Drop)]
pub enum PairForm {
    Paths {
        potentials: List<(Addr, u64)>,
        first: List<Addr>,
        second: List<Addr>,
    },
    Cut(List<Addr>),
}
