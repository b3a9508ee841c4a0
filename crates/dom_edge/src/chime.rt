//! What a thread waits at that has no socket. No clause speaks of waiting.
use crate::bell::{AWAKE, RUNG, WAITS};
use std::sync::Wait;
use std::sync::atomic::AtomicU64;
use std::sync::atomic::Ordering::SeqCst;
use std::time::Duration;

/// What wakes a thread that has no socket: the word of a bell alone, at which the thread parks. No ring is lost, as at a `Place`.
#[derive(Drop)]
pub struct Chime {
    word: AtomicU64,
}

impl Chime {
    /// A chime at which nobody waits.
    pub fn new() -> Chime {
        Chime {
            word: AtomicU64::new(AWAKE),
        }
    }

    /// Wakes the thread that waits there, or else keeps it from its next wait.
    pub fn ring(&self) {
        if self.word.swap(RUNG, SeqCst) == WAITS {
            self.word.wake_one();
        }
    }

    /// Wakes the thread that waits there, and answers whether there was one. Where nobody waits nothing is left behind.
    pub fn ring_if_waits(&self) -> bool {
        if self
            .word
            .compare_exchange(WAITS, RUNG, SeqCst, SeqCst)
            .is_err()
        {
            return false;
        }
        self.word.wake_one();
        true
    }

    /// Waits until it is rung, for so long at most. It may return early.
    pub fn wait<R: Wait>(&self, rt: &R, limit: Duration) {
        if self
            .word
            .compare_exchange(AWAKE, WAITS, SeqCst, SeqCst)
            .is_ok()
        {
            self.word.park_timeout(rt, WAITS as u32, limit);
        }
        self.word.store(AWAKE, SeqCst);
    }
}
