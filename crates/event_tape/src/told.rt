//! An event as it is told.
use dom_base::{As, Bytes, Tick};
use std::sync::Arc;
use te_links::Topology;

/// An event that was accepted. A topology is shared with the network that loaded it.
#[derive(Drop)]
pub enum Told {
    Load(As, Arc<Topology>),
    Open(u32, u32),
    Shut(u32),
    /// Octets came from an outside peer.
    Receive(u32, Bytes),
    Take(u32),
    Carry(As, As),
    Break(As, As),
    Solve(As, u64),
    Tick(Tick),
    Drain(u32, u32),
}
