//! To which outside peers requests for other domains go.
use dom_base::As;

/// Requests for a domain go to an outside peer.
#[derive(Clone, Copy)]
pub struct Route {
    pub next: As,
    pub peer: u32,
}
