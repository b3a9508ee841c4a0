//! What is left to do for an outside peer behind a take.

/// How many octets may wait for an outside peer while more of its messages are taken.
pub(crate) const BACKLOG_MAX: usize = 1_048_576;

/// What a take leaves to do for an outside peer.
#[derive(Clone, Copy, Debug, PartialEq, Eq)]
pub enum Rest {
    /// None of its messages waits to be taken.
    Nothing,
    /// Another of its messages waits to be taken.
    Messages,
    /// Another one waits, and more than 1,048,576 octets wait to be handed out to the peer: these go first, so that what
    /// a peer is answered that does not read takes no more memory than that and one message.
    Backlog,
}
