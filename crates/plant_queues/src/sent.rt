//! A message on its way.
use dom_base::{As, Bytes, Peer};

/// A message that a step put into a queue: from which element, to whom, and its bytes. `As(0)` is the
/// parent.
#[derive(Drop)]
pub struct Sent {
    pub from: As,
    pub to: Peer,
    pub bytes: Bytes,
}
