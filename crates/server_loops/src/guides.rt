//! What tells a carrier where a message may wait.

/// Tells which way is asked next. No clause speaks of it: where nothing waits a carry is refused, whichever way it was.
pub trait Guide {
    /// The place of the way that is asked next, of so many, behind the one that was asked last. It may wait until there is a reason
    /// to ask.
    fn next_way(&self, count: usize, last: usize) -> usize;

    /// A message was on the way at this place.
    fn found(&self, place: usize);
}
