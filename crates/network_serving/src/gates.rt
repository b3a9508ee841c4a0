//! The gate of a worker that shares nothing with others.
ghost use Rattle.std.specs.Prelude.{◌≡◌, []};

use dom_base::As;
use dom_edge::Noted;
use server_loops::Gate;

/// A gate that is always open: it is passed at once. It has no bytes; which jobs passed it, proofs alone know.
#[derive(Drop)]
pub struct OpenGate {
    jobs: Noted<(As, u64)>,
}

impl OpenGate {
    /// A gate that no job has passed.
    pub fn new() -> Self
        ensures { result.jobs.items ≡ [] }
    {
        OpenGate { jobs: Noted::new() }
    }
}

impl Gate for OpenGate {
    ghost passed = { λ g. g.jobs.items };

    fn before(&mut self, at: As, number: u64) {
        self.jobs = self.jobs.and(&(at, number));
    }
}
