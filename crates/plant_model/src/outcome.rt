//! The outcome of an event.
use dom_base::Bytes;

/// The outcome of an accepted event.
#[derive(Drop)]
pub enum Outcome {
    Done,
    /// The number of the generation that was loaded.
    Loaded(u64),
    /// The bytes that were waiting for an outside peer, and whether its session is over.
    Drained { bytes: Bytes, ended: bool },
}

/// Why an event was refused. A refused event changes nothing.
#[derive(Clone, Copy)]
pub enum Refused {
    /// The element can hold no further generation.
    GenerationsFull,
    /// The element, the link or the peer is not configured, or its connection is not open, or is
    /// open already.
    NoSuchPeer,
    /// The connection is held by this other number.
    NotHolder(u32),
    /// The queue or the inbox is empty.
    NothingToCarry,
    /// The job is not ready.
    NoSuchJob,
    NoMemory,
}
