//! What the slot of a turnstile holds, and what a seat knows.
use std::collections::LinkedList;
use std::snapshot::Snapshot;

/// What the slot holds: the value, or nothing while the value is turned. An entry is only told to
/// a step, and never stored.
#[derive(Drop)]
pub enum Slot<T, A, B> {
    Empty,
    Value(T),
    Entry(Snapshot<A>, Snapshot<B>),
}

/// Where a seat is in a turn.
pub enum SeatStage {
    /// In none.
    Idle,
    /// It has this ticket, which is not served yet.
    Waits(u64),
    /// This ticket is served, and the seat has the slot.
    Serves(u64),
}

/// What a seat knows of the turnstile. Contracts speak of it; no value of it is ever made.
pub struct View<T, A, B> {
    /// The value that the turnstile was opened with. None once the seat was joined to another.
    pub start: Option<T>,
    /// A beginning of the history: the entries that the seat has seen.
    pub seen: LinkedList<(A, B)>,
    /// A beginning of the history that the last seat which was joined to it had seen.
    pub told: LinkedList<(A, B)>,
    /// The places of its own entries in the history, from 0.
    pub places: LinkedList<u64>,
    pub shares: u64,
    /// The ticket word that it last met, 0 at first.
    pub met: u64,
    pub stage: SeatStage,
}

/// What the rule of the lock is told at the opening.
#[derive(Drop)]
pub struct Key<T> {
    pub value: Snapshot<T>,
    /// The shares of all seats together.
    pub seats: u32,
}
