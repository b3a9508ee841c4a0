//! The names of domains and peers, moments, and the error "out of memory".
use std::alloc::{AllocError, AllocFailed};

/// The number of a routing domain, an autonomous system (RFC 1930). 0 is no domain: it stands for
/// the parent.
#[derive(Clone, Copy, Debug, PartialEq, Eq, PartialOrd, Ord, Hash)]
pub struct As(pub u16);

/// A moment, in seconds.
#[derive(Clone, Copy, PartialEq, Eq, PartialOrd, Ord)]
pub struct Tick(pub u64);

/// Who is at the other end of a session: an outside peer by its number, or an element by its
/// domain. `Inner(As(0))` is the parent.
#[derive(Clone, Copy, PartialEq, Eq, Hash)]
pub enum Peer {
    Outside(u32),
    Inner(As),
}

/// Out of memory: the allocator refused a growth.
#[derive(Clone, Copy, Debug)]
pub struct NoMemory;

impl From<AllocError> for NoMemory {
    fn from(_: AllocError) -> Self {
        NoMemory
    }
}

impl<T: Drop> From<AllocFailed<T>> for NoMemory {
    fn from(_: AllocFailed<T>) -> Self {
        NoMemory
    }
}
