//! A pending request, and its name.
use dom_base::Peer;

/// Who asked, and the id that it gave its request. No two pending requests have the same.
#[derive(Clone, Copy, PartialEq, Eq, Hash)]
pub struct RequestKey {
    pub peer: Peer,
    pub id: u32,
}

/// A request that is pending: whose it is, and what belongs to it.
#[derive(Drop)]
pub struct Held<T> {
    pub key: RequestKey,
    pub item: T,
}
